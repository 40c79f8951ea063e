//! The loop over the pieces that an input gives, which can stop and go on.

ghost use Rattle.std.specs.Prelude.{◌≡◌, ℕ, List, [], map, Option};
ghost use Rattle.std.specs.Option.{option_map};
ghost use Rattle.io_edges.specs.Faults.{CountsFaults};
ghost use Rattle.unit_streams.specs.Tellers.{Closes};
ghost use Rattle.stream_loop.specs.Answers.{EndsWithin};
ghost use Rattle.stream_loop.specs.Edges.{Fills, Input, input_at};
ghost use Rattle.stream_loop.specs.Resumed.{HasComeTo, ReadsOn};
ghost use Rattle.stream_loop.specs.Steps.{Handles};

use crate::event_handler::EventHandler;
use crate::input_buffer::InputBuffer;
use crate::reading_end::{FeedFault, ReadingEnd};
use io_edges::{Failed, Source};

/// Why reading stopped. `R` is why a stream is refused, and `H` why a handler stops.
#[derive(Clone, Copy, Debug, PartialEq, Eq, Drop)]
pub enum ReadOn<R, H> {
    /// The stream ended as it may; or it is refused, for this reason.
    Judged(Option<R>),
    /// A read met an I/O error.
    ReadFault,
    /// Out of memory while reading.
    Memory,
    /// The handler stopped it, at an event or before more was taken.
    Halted(H),
}

/// What came of the bytes that are left.
#[derive(Clone, Copy, Debug, Drop)]
pub enum Step<R, H> {
    /// An event was handled that isn't the last.
    Handled,
    /// All of them were read, and the stream goes on.
    AllRead,
    /// The stream ended well, or this is why it is refused.
    Judged(Option<R>),
    /// Out of memory while reading.
    Memory,
    /// The handler stopped it.
    Halted(H),
}

// Takes the next bytes of the input, where they may be waited for.
fn fill_more<I: Source, Event, O, H: EventHandler<Event, O>>(
    handler: &H,
    output: &O,
    input: &mut I,
    buffer: &mut InputBuffer,
) -> Result<usize, Failed>
    requires may_wait { H.may_wait handler.now output.now }
    requires empty { buffer.old ≡ [] }
    ensures { Fills (input_at I.left I.taken I.faults I.empty_takes input.old)
        (input_at I.left I.taken I.faults I.empty_takes input.new) buffer.new result }
{
    buffer.fill(input)
}

// Hands an event back, where there is one.
fn hand_back<E: ReadingEnd>(end: &mut E, spent: Option<E::Event>)
    ensures stands { (p : List ℕ) → E.stands end.old p → E.stands end.new p }
    ensures grammar { E.grammar end.new ≡ E.grammar end.old }
{
    if let Some(event) = spent {
        end.recycle(event);
    }
}

// Reads the bytes that are left up to the next event, and has that handled.
fn handle_next<E: ReadingEnd, O, H: EventHandler<E::Event, O>>(
    buffer: &mut InputBuffer,
    end: &mut E,
    handler: &mut H,
    output: &mut O,
) -> Step<E::Refusal, H::Halt>
    requires closes { Closes (E.grammar end.old) E.ends }
    requires going { (i i' : Input) × (first : O) × (p : List ℕ)
        × HasComeTo (E.grammar end.old) i i' (E.stands end.old)
        (λ paused since. H.handled first (map E.event_for paused) (map E.event_for since)
        handler.old output.old) p buffer.old }
    ensures handles { (i i' : Input) (first : O) (p : List ℕ)
        → HasComeTo (E.grammar end.old) i i' (E.stands end.old)
        (λ paused since. H.handled first (map E.event_for paused) (map E.event_for since)
        handler.old output.old) p buffer.old
        → Handles (E.grammar end.old) (E.stands end.new)
        (λ paused since. H.handled first (map E.event_for paused) (map E.event_for since)
        handler.new output.new)
        E.ends (λ halt at paused since. H.halted first (map E.event_for paused)
        (map E.event_for since) (option_map E.event_for at) halt handler.new output.new) i i' p
        buffer.old buffer.new result }
    ensures same_end { H.ended output.new ≡ H.ended output.old }
    ensures stopped { H.has_stopped handler.old → H.has_stopped handler.new }
    ensures grammar { E.grammar end.new ≡ E.grammar end.old }
    ensures settings { H.settings handler.new ≡ H.settings handler.old }
{
    match end.feed(buffer.bytes()) {
        Err(FeedFault::Memory) => Step::Memory,
        Err(FeedFault::Refused(refusal)) => Step::Judged(Some(refusal)),
        Ok((_, None)) => {
            buffer.clear();
            Step::AllRead
        }
        Ok((n, Some(event))) => {
            buffer.consume(n);
            let is_last = end.is_end(&event);
            let spent = match handler.handle(event, output) {
                Err(halt) => return Step::Halted(halt),
                Ok(spent) => spent,
            };
            if is_last {
                return Step::Judged(None);
            }
            hand_back(end, spent);
            Step::Handled
        }
    }
}

/// Reads on in the stream that the input gives, by an end that may have read some of it and from
/// bytes that may have been taken before, and has each event handled. It stops where the stream is
/// judged, a read fails, memory runs out, or the handler stops it. Behind an event at which the
/// handler did so the next call goes on.
pub fn read_on<I: Source, E: ReadingEnd, O, H: EventHandler<E::Event, O>>(
    buffer: &mut InputBuffer,
    end: &mut E,
    handler: &mut H,
    input: &mut I,
    output: &mut O,
) -> ReadOn<E::Refusal, H::Halt>
    requires ends { EndsWithin (E.grammar end.old) E.ends (E.most end.old) }
    requires going { (i : Input) × (first : O) × (p : List ℕ)
        × HasComeTo (E.grammar end.old) i
        (input_at I.left I.taken I.faults I.empty_takes input.old) (E.stands end.old)
        (λ paused since. H.handled first (map E.event_for paused) (map E.event_for since)
        handler.old output.old) p buffer.old }
    ensures reads { (i : Input) (first : O) (p : List ℕ)
        → HasComeTo (E.grammar end.old) i
        (input_at I.left I.taken I.faults I.empty_takes input.old) (E.stands end.old)
        (λ paused since. H.handled first (map E.event_for paused) (map E.event_for since)
        handler.old output.old) p buffer.old
        → ReadsOn (E.grammar end.old) i
        (input_at I.left I.taken I.faults I.empty_takes input.new) E.ends (E.stands end.new)
        (λ paused since. H.handled first (map E.event_for paused) (map E.event_for since)
        handler.new output.new)
        (λ halt at paused since. H.halted first (map E.event_for paused) (map E.event_for since)
        (option_map E.event_for at) halt handler.new output.new)
        (H.may_wait handler.new output.new) buffer.new result }
    ensures counted { CountsFaults (I.faults input.old) (I.faults input.new)
        (result ≡ ReadOn.ReadFault) }
    ensures same_end { (H.has_stopped handler.new → ⊥) → H.ended output.new ≡ H.ended output.old }
    ensures grammar { E.grammar end.new ≡ E.grammar end.old }
    ensures settings { H.settings handler.new ≡ H.settings handler.old }
{
    loop {
        match handle_next(buffer, end, handler, output) {
            Step::Handled => continue,
            Step::AllRead => {}
            Step::Judged(judged) => return ReadOn::Judged(judged),
            Step::Memory => return ReadOn::Memory,
            Step::Halted(halt) => return ReadOn::Halted(halt),
        }
        match handler.pause(output) {
            Err(halt) => return ReadOn::Halted(halt),
            Ok(()) => {}
        }
        let Ok(n) = fill_more::<I, E::Event, O, H>(handler, output, input, buffer) else {
            return ReadOn::ReadFault;
        };
        if n == 0 {
            return ReadOn::Judged(end.end_of_input().err());
        }
    }
}
