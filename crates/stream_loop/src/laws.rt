//! What holds of reports that end in any way. Each function does nothing: its contract is a law. A
//! contract can't range over types, so each law is said here of the grammars whose situations,
//! units, events and refusals are numbers, by a proof that holds at any types.

ghost use Rattle.std.specs.Prelude.{ℕ};
ghost use Rattle.unit_streams.specs.Grammar.{Grammar};
ghost use Rattle.unit_streams.specs.Tellers.{Teller};
ghost use Rattle.stream_loop.specs.Laws.{FrontsAreWritten, JudgedByBytes};

/// However the reporting of a stream ends, its report or first bytes of it are written, after what
/// the output held before.
pub fn fronts_are_written()
    ensures { (g : Grammar ℕ ℕ ℕ ℕ) (t : Teller ℕ ℕ ℕ) → FrontsAreWritten g t }
{}

/// Where a stream is accepted or refused, that and what the reporter remembers depend only on its
/// bytes, and not on the pieces in which they came.
pub fn judged_by_bytes()
    ensures { (g : Grammar ℕ ℕ ℕ ℕ) (t : Teller ℕ ℕ ℕ) → JudgedByBytes g t }
{}
