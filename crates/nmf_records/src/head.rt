//! The records that come with each message, read in one step where they are complete.

ghost use Rattle.std.specs.Prelude.{◌≡◌, ℕ, List, [], ◌∷◌, IfSome, true, false};
ghost use Rattle.unit_streams.specs.Front.{whole};
ghost use Rattle.nmf_records.specs.RecordFronts.{bare, begins_text, frame_at, TextKind, TextLimits};

use crate::frame::{Expect, Frame};
use crate::record_types::SIZED_ENVELOPE;
use crate::stage;
use multibyte_ints::{IntRead, read_int};

/// The head of a Sized Envelope Record, or the size of a chunk, at the front of the bytes, and how
/// many bytes it has. None unless it may come and is complete: then
/// [`FrameReader`](crate::FrameReader) says what the bytes are.
pub fn head_at(bytes: &[u8], expect: Expect) -> Option<(Frame, usize)>
    ensures reads { IfSome result (λ head. (limits : TextLimits)
        → frame_at limits expect bytes.now ≡ whole (bare head.0) head.1) }
    ensures no_text { IfSome result (λ head. (kind : TextKind)
        → begins_text kind expect bytes.now ≡ false) }
{
    match expect {
        Expect::Chunk => chunk_at(bytes),
        Expect::Types(types) => envelope_at(types, bytes),
    }
}

fn chunk_at(bytes: &[u8]) -> Option<(Frame, usize)>
    ensures { IfSome result (λ head. (limits : TextLimits)
        → frame_at limits Expect.Chunk bytes.now ≡ whole (bare head.0) head.1) }
{
    match read_int(bytes) {
        IntRead::Done { value, used } => Some((Frame::Chunk(value), used)),
        IntRead::More | IntRead::Bad => None,
    }
}

// The head of a sized envelope, where a record of one of these types may come.
fn envelope_at(types: u16, bytes: &[u8]) -> Option<(Frame, usize)>
    ensures reads { IfSome result (λ head. (limits : TextLimits)
        → frame_at limits (Expect.Types types) bytes.now ≡ whole (bare head.0) head.1) }
    ensures no_text { IfSome result (λ head. (kind : TextKind)
        → begins_text kind (Expect.Types types) bytes.now ≡ false) }
{
    if *bytes.first()? != SIZED_ENVELOPE || !stage::allows(types, SIZED_ENVELOPE) {
        return None;
    }
    match read_int(&bytes[1..]) {
        IntRead::Done { value, used } => Some((Frame::SizedEnvelope(value), used + 1)),
        IntRead::More | IntRead::Bad => None,
    }
}
