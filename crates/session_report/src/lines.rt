//! The lines of a report, put to a sink.

ghost use Rattle.std.specs.Prelude.{◌≡◌, ℕ, List};
ghost use Rattle.io_edges.specs.Puts.{Puts};
ghost use Rattle.command_words.specs.Values.{mode_name};
ghost use Rattle.session_report.specs.Report.{accepted_line, ended_line, fault_line, measure_words, offence_line, open_line, string_words};
ghost use Rattle.session_report.specs.Saying.{received_line};
ghost use Rattle.line_notation.specs.Words.{behind_spaces};

use crate::reading::Received;
use io_edges::{Sink, SinkFault};
use line_notation::{Word, put_labelled, put_plain, put_words};
use nbfx_values::{Kind, Mode, Offence, Place};

fn mode_name(mode: Mode) -> &'static str
    ensures { result.now ≡ mode_name mode }
{
    match mode {
        Mode::Singleton => "singleton",
        Mode::Duplex => "duplex",
        Mode::Simplex => "simplex",
    }
}

/// Puts the line of an initiator's preamble. It fails as the output does, as the others here.
pub fn put_open<K: Sink>(mode: Mode, kind: Kind, via: &str, output: &mut K) -> Result<(), SinkFault>
    ensures { Puts (K.view output.old) (K.view output.new) (open_line mode kind via.now) result }
{
    let words = [
        Word::Plain(mode_name(mode)),
        Word::Natural(u128::from(kind.number())),
        Word::Quoted(via),
    ];
    put_words("open", &words, output)
}

/// Puts the line of a receiver's Preamble Ack.
pub fn put_accepted<K: Sink>(output: &mut K) -> Result<(), SinkFault>
    ensures { Puts (K.view output.old) (K.view output.new) accepted_line result }
{
    put_plain("accepted\n", output)
}

// Puts the words of what an envelope's document measures.
#[inline(always)]
fn put_measures<K: Sink>(received: &Received, output: &mut K) -> Result<(), SinkFault>
    ensures { Puts (K.view output.old) (K.view output.new)
        (behind_spaces (measure_words received.now.doc received.now.content)) result }
{
    put_labelled(" items ", received.doc.items().len() as u64, output)?;
    put_labelled(" depth ", received.doc.depth(), output)?;
    put_labelled(" content ", received.content, output)
}

// Puts the words of how many strings there are after an envelope, and of what they cost.
#[inline(always)]
fn put_strings<K: Sink>(received: &Received, output: &mut K) -> Result<(), SinkFault>
    ensures { Puts (K.view output.old) (K.view output.new)
        (behind_spaces (string_words received.now.strings received.now.used)) result }
{
    put_labelled(" strings ", u64::from(received.strings), output)?;
    put_labelled(" used ", u64::from(received.used), output)
}

/// Puts the line of an envelope, without its document's.
pub fn put_message<K: Sink>(received: &Received, output: &mut K) -> Result<(), SinkFault>
    ensures { Puts (K.view output.old) (K.view output.new) (received_line received.now) result }
{
    put_labelled("message ", received.number, output)?;
    put_labelled(" payload ", u64::from(received.size), output)?;
    put_measures(received, output)?;
    put_strings(received, output)?;
    put_plain("\n", output)
}

/// Puts the line of a session that ended after so many bytes.
pub fn put_ended<K: Sink>(taken: u64, output: &mut K) -> Result<(), SinkFault>
    ensures { Puts (K.view output.old) (K.view output.new) (ended_line taken) result }
{
    put_words("ended", &[Word::Natural(u128::from(taken))], output)
}

/// Puts the line of a receiver's Fault Record, whose last byte is the one with this number, from 1.
pub fn put_fault<K: Sink>(taken: u64, text: &str, output: &mut K) -> Result<(), SinkFault>
    ensures { Puts (K.view output.old) (K.view output.new) (fault_line taken text.now) result }
{
    let words = [Word::Natural(u128::from(taken)), Word::Quoted(text)];
    put_words("fault", &words, output)
}

/// Puts the line of a refusal, in several puts. On an error first bytes of it were put. Only the
/// sink takes memory.
#[tactic(auto, unfolding(crate::specs::Report::offence_line))]
pub fn put_offence<K: Sink>(offence: Offence, output: &mut K) -> Result<(), SinkFault>
    ensures { Puts (K.view output.old) (K.view output.new) (offence_line offence) result }
{
    let number = Word::Natural(u128::from(offence.reason.number()));
    let name = Word::Plain(offence.reason.name());
    match offence.place {
        Place::Frame(offset) => {
            let offset = Word::Natural(u128::from(offset));
            put_words(
                "offence",
                &[Word::Plain("frame"), offset, number, name],
                output,
            )
        }
        Place::Payload { message, at } => {
            let message = Word::Natural(u128::from(message));
            let at = Word::Natural(u128::from(at));
            let words = [Word::Plain("payload"), message, at, number, name];
            put_words("offence", &words, output)
        }
    }
}
