//! What reads a stream in pieces.

ghost use Rattle.std.specs.Prelude.{◌≡◌, ⊤, ℕ, List, ◌++◌, length, take, Bool, false, Some, IfOk};
ghost use Rattle.unit_streams.specs.Grammar.{Grammar};
ghost use Rattle.unit_streams.specs.Judging.{answer, event_at, is_over_at, ending_at};
ghost use Rattle.stream_loop.specs.Answers.{Says, said_at_end};

/// Why a piece isn't read on.
#[derive(Clone, Copy, Debug, PartialEq, Eq, Drop)]
pub enum FeedFault<R> {
    /// The stream is refused, for this reason.
    Refused(R),
    /// Out of memory. It may be answered in place of anything else.
    Memory,
}

/// What reads a stream in whatever pieces its bytes come.
///
/// Its events are values of its own, which may have less than the grammar's events, and own what
/// they have.
pub trait ReadingEnd {
    /// An event of a stream, as it is reported.
    type Event: Drop;

    /// Why a stream is refused.
    type Refusal: Drop;

    /// The grammar's situations.
    ghost Situation: { Type 0 };

    /// The grammar's units.
    ghost UnitOf: { Type 0 };

    /// The grammar's events.
    ghost Completed: { Type 0 };

    /// The value that says an event.
    ghost event_for: { Completed → Self.Event };

    /// The grammar by which it reads.
    ghost grammar: { Self → Grammar Situation UnitOf Completed Self.Refusal };

    /// The bytes read so far are these. The last of them may complete an event and be one too many:
    /// the event comes first, and the next call refuses.
    ghost stands: { Self → List ℕ → Type 0 };

    /// How many bytes that are.
    ghost taken: { Self → ℕ };

    /// A bound on a stream's length.
    ghost most: { Self → ℕ };

    /// Whether an event ends the stream.
    ghost ends: { Completed → Bool };

    /// Reads the piece up to and including the byte that completes the next event, and answers how
    /// many bytes these are, and the event; or all of the piece, where no byte completes one. It
    /// fails where a byte shows a refusal, or without memory. What it answers after it has failed
    /// isn't promised.
    fn feed(
        &mut self,
        piece: &[u8],
    ) -> Result<(usize, Option<Self::Event>), FeedFault<Self::Refusal>>
        ensures answers { (p : List ℕ) → stands self.old p
            → is_over_at (grammar self.old) p ≡ false
            → Says event_for (length piece.now) (answer (grammar self.old) p piece.now) result }
        ensures stands { (p : List ℕ) → stands self.old p
            → is_over_at (grammar self.old) p ≡ false
            → IfOk result (λ step. stands self.new (p ++ take step.0 piece.now)) }
        ensures grammar { grammar self.new ≡ grammar self.old };

    /// Says that the input is over. It fails, with the reason, where the stream may not end here.
    fn end_of_input(&mut self) -> Result<(), Self::Refusal>
        requires { (p : List ℕ) × stands self.old p }
        ensures answers { (p : List ℕ) → stands self.old p
            → result ≡ said_at_end (ending_at (grammar self.old) p) }
        ensures grammar { grammar self.new ≡ grammar self.old };

    /// Whether the stream ends with this event, which some bytes of a stream complete.
    fn is_end(&self, event: &Self::Event) -> bool
        ensures { (p : List ℕ) (completed : Completed)
            → event_at (grammar self.now) p ≡ Some completed → event.now ≡ event_for completed
            → result ≡ ends completed };

    /// Takes back an event that is no longer needed; the next one reuses its memory.
    fn recycle(&mut self, event: Self::Event)
        ensures stands { (p : List ℕ) → stands self.old p → stands self.new p }
        ensures grammar { grammar self.new ≡ grammar self.old };

    /// It counts the bytes read so far.
    ghost counts: { (end : Self) (p : List ℕ) → stands end p → taken end ≡ length p };
}
