//! What handles the events of a stream.

ghost use Rattle.std.specs.Prelude.{◌≡◌, Bool, List, [], ◌∷◌, ◌++◌, Some, None, Option, OnOk, OnErr, IfErr};

/// What handles the events of a stream as they come, and may write to an output of type `O`. It may
/// stop the reading at an event, or before more is waited for.
pub trait EventHandler<Event, O> {
    /// Why it stops the reading.
    type Halt: Drop;

    /// What a handler is set to.
    ghost Settings: { Type 0 };

    /// What this one is set to, which handling leaves.
    ghost settings: { Self → Settings };

    /// Since the output was like the first, exactly these events were handled, in this order: the
    /// first of them before the last pause, and the others after it. The handler and the output
    /// are like these now.
    ghost handled: { O → List Event → List Event → Self → O → Type 0 };

    /// The same where it stopped the reading so: at this event, or at a pause.
    ghost halted: { O → List Event → List Event → Option Event → Self.Halt → Self → O → Type 0 };

    /// It may stop the reading. Where it may not, as after a failed write, each event is handled,
    /// and the stream is read on.
    ghost may_halt: { Self → Type 0 };

    /// More may be waited for: what is due so far has left, or the output's direction was ended.
    ghost may_wait: { Self → O → Type 0 };

    /// Whether the output's direction was ended.
    ghost ended: { O → Bool };

    /// The writing has stopped for good.
    ghost has_stopped: { Self → Type 0 };

    /// Nothing was put to the direction in between.
    ghost is_unput: { O → O → Type 0 };

    /// Handles an event, and gives one back whose memory the reading end may use again, where it has
    /// one. An error stops the reading right behind the event.
    fn handle(&mut self, event: Event, output: &mut O) -> Result<Option<Event>, Self::Halt>
        ensures handled { (first : O) (paused since : List Event)
            → handled first paused since self.old output.old
            → OnOk result (handled first paused (since ++ event ∷ []) self.new output.new) }
        ensures halted { (first : O) (paused since : List Event)
            → handled first paused since self.old output.old
            → IfErr result (λ halt. halted first paused since (Some event) halt self.new
            output.new) }
        ensures may_halt { OnErr result (may_halt self.old) }
        ensures same_end { ended output.new ≡ ended output.old }
        ensures stopped { has_stopped self.old
            → has_stopped self.new × is_unput output.old output.new }
        ensures settings { settings self.new ≡ settings self.old };

    /// Writes what the output still holds: the next bytes may be long in coming, or not come before
    /// what is due has left. Only here is the direction ended, and only once the writing has
    /// stopped: nothing is put to it any more then. After an error no more is taken.
    fn pause(&mut self, output: &mut O) -> Result<(), Self::Halt>
        ensures may_wait { OnOk result (may_wait self.new output.new) }
        ensures handled { (first : O) (paused since : List Event)
            → handled first paused since self.old output.old
            → OnOk result (handled first (paused ++ since) [] self.new output.new) }
        ensures halted { (first : O) (paused since : List Event)
            → handled first paused since self.old output.old
            → IfErr result (λ halt. halted first paused since None halt self.new output.new) }
        ensures may_halt { OnErr result (may_halt self.old) }
        ensures same_end { (has_stopped self.new → ⊥) → ended output.new ≡ ended output.old }
        ensures stopped { has_stopped self.old
            → has_stopped self.new × is_unput output.old output.new }
        ensures settings { settings self.new ≡ settings self.old };
}
