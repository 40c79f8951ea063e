//! The line of a connection, put to a sink.

ghost use Rattle.std.specs.Prelude.{◌≡◌, ◌++◌, [], codes};
ghost use Rattle.std.specs.Fmt.{decimal};
ghost use Rattle.io_edges.specs.Puts.{Puts};
ghost use Rattle.relay.specs.Lines.{pump_word, relay_line, word_of};

use crate::outcome::{Pump, PumpIn, PumpOut, RelayOutcome};
use io_edges::{Sink, SinkFault};
use line_notation::{Word, put_joined, put_labelled, put_plain};

// Puts how the reading of a direction ended.
fn put_read<K: Sink>(read: PumpIn, output: &mut K) -> Result<(), SinkFault>
    ensures { Puts (K.view output.old) (K.view output.new) (pump_word read PumpOut.Done) result }
{
    match read {
        PumpIn::Ended => put_plain("ended", output),
        PumpIn::Offended(offence) => {
            put_labelled("offence-", u64::from(offence.reason.number()), output)
        }
        PumpIn::PeerFault => put_plain("fault", output),
        PumpIn::NotOpened => put_plain("not-opened", output),
        PumpIn::ReadFault => put_plain("read-fault", output),
        PumpIn::Memory => put_plain("memory", output),
    }
}

// Puts how a direction ended.
fn put_word<K: Sink>(pump: Pump, output: &mut K) -> Result<(), SinkFault>
    ensures { Puts (K.view output.old) (K.view output.new) (word_of pump) result }
{
    match pump.written {
        PumpOut::Done => put_read(pump.read, output),
        PumpOut::Unfit { .. } => put_plain("unfit", output),
        PumpOut::WriteFault => put_plain("write-fault", output),
        PumpOut::Memory => put_plain("memory", output),
    }
}

// Puts the number of a connection, and how many documents went forward.
fn put_start<K: Sink>(number: u32, documents: u64, output: &mut K) -> Result<(), SinkFault>
    ensures { Puts (K.view output.old) (K.view output.new)
        (codes "relay " ++ (decimal number ++ (codes " forward " ++ (decimal documents
        ++ codes " ")))) result }
{
    let words = [
        Word::Plain("relay "),
        Word::Natural(u128::from(number)),
        Word::Plain(" forward "),
        Word::Natural(u128::from(documents)),
        Word::Plain(" "),
    ];
    put_joined(&words, output)
}

// Puts how many documents went back.
fn put_middle<K: Sink>(documents: u64, output: &mut K) -> Result<(), SinkFault>
    ensures { Puts (K.view output.old) (K.view output.new)
        (codes " backward " ++ (decimal documents ++ codes " ")) result }
{
    let words = [
        Word::Plain(" backward "),
        Word::Natural(u128::from(documents)),
        Word::Plain(" "),
    ];
    put_joined(&words, output)
}

// Puts the number of a connection and what became of its forward direction.
fn put_forward<K: Sink>(number: u32, pump: Pump, output: &mut K) -> Result<(), SinkFault>
    ensures { Puts (K.view output.old) (K.view output.new)
        ((codes "relay " ++ (decimal number ++ (codes " forward " ++ (decimal pump.documents
        ++ codes " ")))) ++ word_of pump) result }
{
    put_start(number, pump.documents, output)?;
    put_word(pump, output)
}

// Puts what became of its backward direction.
fn put_backward<K: Sink>(pump: Pump, output: &mut K) -> Result<(), SinkFault>
    ensures { Puts (K.view output.old) (K.view output.new)
        ((codes " backward " ++ (decimal pump.documents ++ codes " ")) ++ (word_of pump
        ++ codes "\n")) result }
{
    put_middle(pump.documents, output)?;
    put_word(pump, output)?;
    put_plain("\n", output)
}

/// Puts the line of the connection with this number, and writes what the output holds. It fails as
/// the output does.
pub fn put_line<K: Sink>(
    number: u32,
    outcome: RelayOutcome,
    output: &mut K,
) -> Result<(), SinkFault>
    ensures puts { Puts (K.view output.old) (K.view output.new) (relay_line number outcome) result }
    ensures emptied { (K.view output.new).held ≡ [] }
{
    put_forward(number, outcome.forward, output)?;
    put_backward(outcome.backward, output)?;
    output.flush()
}
