//! Where connections come from.

ghost use Rattle.std.specs.Prelude.{◌≡◌, ◌≢◌, ◌<◌, ◌+◌, ◌-◌, ◌^◌, ◌∷◌, ◌++◌, ◌↔◌, ℕ, List, [], false, Option, IfSome, IfOk, OnErr, OnOk, IsErr, IsNone};
ghost use Rattle.io_edges.specs.Faults.{CountsFaults};
ghost use Rattle.io_edges.specs.Flow.{Told};
ghost use Rattle.io_edges.specs.Wires.{Fresh, added_up};

use crate::{Failed, Sink, Source};

/// Where connections come from, those that peers make and those that are made to peers.
pub trait Wire {
    /// Where the bytes of a connection come from.
    type Reader: Source + Send + Drop;

    /// Where the bytes of a connection go.
    type Writer: Sink + Send + Drop;

    /// The connections to come, where the wire shows its contents.
    ghost waiting: { Self → Option (List (Self.Reader × Self.Writer)) };

    /// What was taken from each ended connection and written to it, where the wire shows its
    /// contents.
    ghost closed: { Self → Option (List (List ℕ × List ℕ)) };

    /// How many connections were given and not yet closed.
    ghost out: { Self → ℕ };

    /// How many calls met an I/O error, up to 2^64 - 1.
    ghost faults: { Self → ℕ };

    /// How many faults the ends of ended connections met, up to 2^64 - 1.
    ghost end_faults: { Self → ℕ };

    /// Gives the next connection that a peer makes to that place, or `None` where no more will
    /// come. Its ends have met no fault, nothing has moved through them, and its writing isn't
    /// ended. A call that fails by an I/O error gives none, and leaves those to come.
    fn accept(&mut self, place: &str) -> Result<Option<(Self::Reader, Self::Writer)>, Failed>
        requires { out self.old < 2 ^ 63 }
        ensures handed { IfOk result (λ found. IfSome found (λ ends.
            Told (waiting self.old) (waiting self.new) (λ w w'. w ≡ ends ∷ w'))) }
        ensures none { IfOk result (λ found. IsNone found
            → Told (waiting self.old) (waiting self.new) (λ w w'. (w ≡ []) × (w' ≡ []))) }
        ensures failed { OnErr result
            (Told (waiting self.old) (waiting self.new) (λ w w'. w' ≡ w)) }
        ensures out { IfOk result (λ found. IfSome found (λ _. out self.new ≡ out self.old + 1)) }
        ensures none_out { IfOk result (λ found. IsNone found → out self.new ≡ out self.old) }
        ensures failed_out { OnErr result (out self.new ≡ out self.old) }
        ensures reader { IfOk result (λ found. IfSome found (λ ends.
            (Self.Reader.faults ends.0 ≡ 0) × Fresh (closed self.old) (Self.Reader.taken ends.0))) }
        ensures writer { IfOk result (λ found. IfSome found (λ ends.
            ((Self.Writer.view ends.1).faults ≡ 0) × Fresh (closed self.old) (Self.Writer.view ends.1).written
            × ((Self.Writer.view ends.1).held ≡ []))) }
        ensures unended { IfOk result (λ found. IfSome found (λ ends.
            Self.Writer.ended ends.1 ≡ false)) }
        ensures counted { CountsFaults (faults self.old) (faults self.new) (IsErr result) }
        ensures ended { (closed self.new ≡ closed self.old)
            × (end_faults self.new ≡ end_faults self.old) };

    /// Makes a connection to that place, in the same state. Where no peer is there, or by another
    /// I/O error, the call fails and makes none.
    fn connect(&mut self, place: &str) -> Result<(Self::Reader, Self::Writer), Failed>
        requires { out self.old < 2 ^ 63 }
        ensures handed { IfOk result (λ ends.
            Told (waiting self.old) (waiting self.new) (λ w w'. w ≡ ends ∷ w')) }
        ensures failed { OnErr result
            (Told (waiting self.old) (waiting self.new) (λ w w'. w' ≡ w)) }
        ensures out { OnOk result (out self.new ≡ out self.old + 1) }
        ensures failed_out { OnErr result (out self.new ≡ out self.old) }
        ensures reader { IfOk result (λ ends.
            (Self.Reader.faults ends.0 ≡ 0) × Fresh (closed self.old) (Self.Reader.taken ends.0)) }
        ensures writer { IfOk result (λ ends.
            ((Self.Writer.view ends.1).faults ≡ 0) × Fresh (closed self.old) (Self.Writer.view ends.1).written
            × ((Self.Writer.view ends.1).held ≡ [])) }
        ensures unended { IfOk result (λ ends. Self.Writer.ended ends.1 ≡ false) }
        ensures counted { CountsFaults (faults self.old) (faults self.new) (IsErr result) }
        ensures ended { (closed self.new ≡ closed self.old)
            × (end_faults self.new ≡ end_faults self.old) };

    /// Closes a connection, and counts the faults that its ends met. It takes no memory.
    fn close(&mut self, reader: Self::Reader, writer: Self::Writer)
        requires { 0 < out self.old }
        ensures closed { Told (closed self.old) (closed self.new) (λ c c'.
            IfSome (Self.Reader.taken reader) (λ t. IfSome (Self.Writer.view writer).written (λ w.
            c' ≡ c ++ (t, w) ∷ []))) }
        ensures out { out self.old ≡ out self.new + 1 }
        ensures waiting { waiting self.new ≡ waiting self.old }
        ensures counted { end_faults self.new ≡ added_up (end_faults self.old)
            (Self.Reader.faults reader) (Self.Writer.view writer).faults }
        ensures faults { faults self.new ≡ faults self.old };
}
