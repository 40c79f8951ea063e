//! A stream that is read to its end whatever becomes of the writing.

ghost use Rattle.std.specs.Prelude.{◌≡◌, List, [], None, Option};
ghost use Rattle.io_edges.specs.Faults.{CountsFaults};
ghost use Rattle.unit_streams.specs.declared.Memory.{Memory as Want};
ghost use Rattle.stream_loop.specs.Answers.{EndsWithin};
ghost use Rattle.stream_loop.specs.Edges.{Input, input_at};
ghost use Rattle.stream_loop.specs.Followed.{AreHandled, Follows, Leaves, WasTaken};

use crate::event_handler::EventHandler;
use crate::input_buffer::InputBuffer;
use crate::reading_end::ReadingEnd;
use crate::resuming::{ReadOn, read_on};
use io_edges::Source;
use std::alloc::Global;
use unit_streams::Memory;

/// How the reading of a stream ended.
#[derive(Clone, Copy, Debug, PartialEq, Eq, Drop)]
pub enum FollowEnding<R> {
    /// The stream ended well, or this is why it is refused.
    Judged(Option<R>),
    /// The input failed.
    ReadFault,
    /// Out of memory while reading, or while handling an event.
    Memory,
}

/// Reads the stream that the input gives to its end, by an end that has read nothing of it, and
/// hands each event to a handler that has handled none. The buffer for a piece, of 64 KiB, is
/// allocated once. The handler stops the reading only for want of memory, and hasn't handled the
/// event then.
pub fn follow_stream<I: Source, E: ReadingEnd, O, H: EventHandler<E::Event, O, Halt = Memory>>(
    alloc: Global,
    end: &mut E,
    handler: &mut H,
    input: &mut I,
    output: &mut O,
) -> FollowEnding<E::Refusal>
    requires ends { EndsWithin (E.grammar end.old) E.ends (E.most end.old) }
    requires fresh { E.stands end.old [] }
    requires first { H.handled output.old [] [] handler.old output.old }
    requires halts { (first now : O) (paused since : List E.Event) (at : Option E.Event)
        (halt : Want) (handler' : H) → H.halted first paused since at halt handler' now
        → H.handled first paused since handler' now }
    ensures follows { Follows (E.grammar end.old) (AreHandled E.event_for
        (λ paused since. H.handled output.old paused since handler.new output.new))
        (input_at I.left I.taken I.faults I.empty_takes input.old)
        (input_at I.left I.taken I.faults I.empty_takes input.new) result }
    ensures counted { CountsFaults (I.faults input.old) (I.faults input.new)
        (result ≡ FollowEnding.ReadFault) }
    ensures same_end { (H.has_stopped handler.new → ⊥) → H.ended output.new ≡ H.ended output.old }
    ensures grammar { E.grammar end.new ≡ E.grammar end.old }
    ensures settings { H.settings handler.new ≡ H.settings handler.old }
{
    let Ok(mut buffer) = InputBuffer::new(alloc) else {
        return FollowEnding::Memory;
    };
    follow_on(&mut buffer, end, handler, input, output)
}

/// Reads a stream to its end as [`follow_stream`] does. Its first bytes are those that the buffer
/// holds, which were taken from the input before. Behind a stream that ended well the buffer holds
/// what was taken and isn't the stream's, and the next one may be followed from there.
pub fn follow_on<I: Source, E: ReadingEnd, O, H: EventHandler<E::Event, O, Halt = Memory>>(
    buffer: &mut InputBuffer,
    end: &mut E,
    handler: &mut H,
    input: &mut I,
    output: &mut O,
) -> FollowEnding<E::Refusal>
    requires ends { EndsWithin (E.grammar end.old) E.ends (E.most end.old) }
    requires fresh { E.stands end.old [] }
    requires first { H.handled output.old [] [] handler.old output.old }
    requires halts { (first now : O) (paused since : List E.Event) (at : Option E.Event)
        (halt : Want) (handler' : H) → H.halted first paused since at halt handler' now
        → H.handled first paused since handler' now }
    ensures follows { (i : Input) → WasTaken buffer.old i
        (input_at I.left I.taken I.faults I.empty_takes input.old)
        → Follows (E.grammar end.old) (AreHandled E.event_for
        (λ paused since. H.handled output.old paused since handler.new output.new)) i
        (input_at I.left I.taken I.faults I.empty_takes input.new) result }
    ensures left { (i : Input) → WasTaken buffer.old i
        (input_at I.left I.taken I.faults I.empty_takes input.old)
        → result ≡ FollowEnding.Judged None → Leaves (E.grammar end.old) i
        (input_at I.left I.taken I.faults I.empty_takes input.new) buffer.new }
    ensures counted { CountsFaults (I.faults input.old) (I.faults input.new)
        (result ≡ FollowEnding.ReadFault) }
    ensures same_end { (H.has_stopped handler.new → ⊥) → H.ended output.new ≡ H.ended output.old }
    ensures grammar { E.grammar end.new ≡ E.grammar end.old }
    ensures settings { H.settings handler.new ≡ H.settings handler.old }
{
    let _held = buffer.bytes();
    match read_on(buffer, end, handler, input, output) {
        ReadOn::Judged(judged) => FollowEnding::Judged(judged),
        ReadOn::ReadFault => FollowEnding::ReadFault,
        ReadOn::Memory => FollowEnding::Memory,
        ReadOn::Halted(Memory) => FollowEnding::Memory,
    }
}
