//! The line of a connection, put to a sink.

ghost use Rattle.std.specs.Prelude.{◌≡◌, ◌++◌, OnOk, [], codes};
ghost use Rattle.std.specs.Fmt.{decimal};
ghost use Rattle.io_edges.specs.Puts.{Puts};
ghost use Rattle.duplex_server.specs.Lines.{connection_line, inbound_word, outbound_word};

use crate::outcome::{Inbound, Outcome};
use io_edges::{Sink, SinkFault};
use line_notation::{Word, put_joined, put_labelled, put_plain};
use stream_loop::Outbound;

fn outbound_word(outbound: Outbound) -> &'static str
    ensures { result.now ≡ outbound_word outbound }
{
    match outbound {
        Outbound::Done => "done",
        Outbound::WriteFault => "write-fault",
        Outbound::Memory => "memory",
    }
}

// Puts the number of a connection and what it counted.
fn put_counts<K: Sink>(number: u32, outcome: Outcome, output: &mut K) -> Result<(), SinkFault>
    ensures { Puts (K.view output.old) (K.view output.new)
        (codes "connection " ++ (decimal number ++ (codes " messages "
        ++ (decimal outcome.messages ++ (codes " answers " ++ (decimal outcome.answers
        ++ codes " in ")))))) result }
{
    let words = [
        Word::Plain("connection "),
        Word::Natural(u128::from(number)),
        Word::Plain(" messages "),
        Word::Natural(u128::from(outcome.messages)),
        Word::Plain(" answers "),
        Word::Natural(u128::from(outcome.answers)),
        Word::Plain(" in "),
    ];
    put_joined(&words, output)
}

// Puts how the reading of a connection ended.
fn put_inbound<K: Sink>(inbound: Inbound, output: &mut K) -> Result<(), SinkFault>
    ensures { Puts (K.view output.old) (K.view output.new) (inbound_word inbound) result }
{
    match inbound {
        Inbound::Ended => put_plain("ended", output),
        Inbound::Offended(offence) => {
            put_labelled("offence-", u64::from(offence.reason.number()), output)
        }
        Inbound::ReadFault => put_plain("read-fault", output),
        Inbound::Memory => put_plain("memory", output),
    }
}

// Puts the words of how a connection ended.
fn put_ends<K: Sink>(outcome: Outcome, output: &mut K) -> Result<(), SinkFault>
    ensures { Puts (K.view output.old) (K.view output.new)
        (inbound_word outcome.inbound ++ (codes " out "
        ++ (outbound_word outcome.outbound ++ codes "\n"))) result }
{
    put_inbound(outcome.inbound, output)?;
    let words = [
        Word::Plain(" out "),
        Word::Plain(outbound_word(outcome.outbound)),
        Word::Plain("\n"),
    ];
    put_joined(&words, output)
}

/// Puts the line of the connection with this number, and writes what the output holds. It fails as
/// the output does.
pub fn put_line<K: Sink>(number: u32, outcome: Outcome, output: &mut K) -> Result<(), SinkFault>
    ensures puts { Puts (K.view output.old) (K.view output.new) (connection_line number outcome)
        result }
    ensures emptied { (K.view output.new).held ≡ [] }
{
    put_counts(number, outcome, output)?;
    put_ends(outcome, output)?;
    output.flush()
}
