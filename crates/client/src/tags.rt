//! The line of what was sent.

ghost use Rattle.std.specs.Prelude.{◌≡◌, ◌<◌, ◌+◌, Ok};
ghost use Rattle.io_edges.specs.Puts.{Puts};
ghost use Rattle.client.specs.Tags.{letter_of, letters, sent_line, tags_word};

use io_edges::{Sink, SinkFault};
use line_notation::{Word, put_joined, put_labelled, put_plain};
use two_lanes::Lane;

// The number of a list's letter, from 0.
fn letter_number(lane: Lane) -> u8
    ensures letter { 97 + result ≡ letter_of lane }
    ensures few { result < 26 }
{
    match lane {
        Lane::A => 0,
        Lane::B => 1,
    }
}

// Puts the letter of each document's list.
fn put_letters<K: Sink>(tags: &[Lane], output: &mut K) -> Result<(), SinkFault>
    ensures { Puts (K.view output.old) (K.view output.new)
        (letters tags.now) result }
{
    for lane in tags {
        put_joined(&[Word::Letter(letter_number(*lane))], output)?;
    }
    Ok(())
}

// Puts a letter for each document that was sent, or a dash where none was.
fn put_tags<K: Sink>(tags: &[Lane], output: &mut K) -> Result<(), SinkFault>
    ensures { Puts (K.view output.old) (K.view output.new)
        (tags_word (letters tags.now)) result }
{
    if tags.is_empty() {
        return put_plain("-", output);
    }
    put_letters(tags, output)
}

/// Puts the line of how many documents were sent, and of which list each was. It fails as the
/// output does.
pub fn put_sent<K: Sink>(tags: &[Lane], output: &mut K) -> Result<(), SinkFault>
    ensures { Puts (K.view output.old) (K.view output.new)
        (sent_line tags.now) result }
{
    put_labelled("sent ", tags.len() as u64, output)?;
    put_plain(" tags ", output)?;
    put_tags(tags, output)?;
    put_plain("\n", output)
}
