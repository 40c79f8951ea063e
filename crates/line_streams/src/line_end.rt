//! What lines mean.

ghost use Rattle.std.specs.Prelude.{◌≡◌, ℕ, ◌+◌, ◌<◌, ◌≤◌};
ghost use Rattle.line_streams.specs.LineRules.{IsSilent, LineRules};
ghost use Rattle.line_streams.specs.LineStreamState.{LineAnswers};

use stream_loop::FeedFault;

/// What answers the lines of a stream, one after the other.
pub trait LineEnd: Drop {
    /// What a line may bring.
    type Event: Drop;

    /// Why lines are refused.
    type Refusal: Drop;

    /// What the lines so far have left.
    ghost Situation: { Type 0 };

    /// What it may be set to, and is.
    ghost Settings: { Type 0 };

    ghost settings: { Self → Settings };

    /// What lines mean, by that.
    ghost rules: { Settings → LineRules Situation Self.Event Self.Refusal };

    /// A line that is refused brings nothing.
    ghost silent: { (x : Settings) → IsSilent (rules x) };

    /// The lines so far have left this.
    ghost is_in: { Self → Situation → Type 0 };

    /// How many lines there were, at most.
    ghost count: { Self → ℕ };

    /// It answers no more lines than these.
    ghost most_lines: { ℕ };

    /// Answers a line, which is given without its line feed, by what it brings. It fails where the
    /// line is refused, or without memory. What it answers after it has failed isn't promised.
    fn line(&mut self, line: &[u8]) -> Result<Option<Self::Event>, FeedFault<Self::Refusal>>
        requires few { count self.old < most_lines }
        ensures answers { (z : Situation) → is_in self.old z
            → LineAnswers (rules (settings self.old)) (is_in self.new) z line.now result }
        ensures settings { settings self.new ≡ settings self.old }
        ensures count { count self.new ≤ count self.old + 1 };

    /// Why the input may not end, within a line or behind one.
    fn fault_at_end(&self, within_line: bool) -> Option<Self::Refusal>
        ensures { (z : Situation) → is_in self.now z
            → result ≡ (rules (settings self.now)).at_end within_line z };

    /// Why too many bytes are refused.
    fn too_long(&self) -> Self::Refusal
        ensures { result ≡ (rules (settings self.now)).too_long };

    /// Takes back an event that is no longer needed; the next one reuses its memory.
    fn reuse(&mut self, event: Self::Event)
        ensures is_in { (z : Situation) → is_in self.old z → is_in self.new z }
        ensures settings { settings self.new ≡ settings self.old }
        ensures count { count self.new ≤ count self.old };
}
