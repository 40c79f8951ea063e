//! What holds of every grammar whose units are known by their own bytes. Each function does
//! nothing: its contract is a law. A contract can't range over types, so each law is said here of
//! the grammars whose situations, units, events and refusals are numbers, by a proof that holds at
//! any types; a crate with a grammar of its own says it of that.

ghost use Rattle.std.specs.Prelude.{ℕ, Bool};
ghost use Rattle.unit_streams.specs.Grammar.{Grammar, IsReadable, IsQuietWhenOver};
ghost use Rattle.unit_streams.specs.Laws.{StandingsGoOn, AnswersAreFirst, CutsChangeNothing, HistoryIsAnswers, PendingHistories, NoUnitGoesOn, EndsAreClosed, OffencesAreFirst, AcceptedOrOffended};
ghost use Rattle.unit_streams.specs.Refusals.{RefusalsAreThree};
ghost use Rattle.unit_streams.specs.Tellers.{Teller, Closes, PiecesAdd, EndsAdd, PrefixesTellFronts, OpenTellFronts};

/// The state after a stream is the state after its first bytes, advanced by the rest.
pub fn standings_go_on()
    ensures { (g : Grammar ℕ ℕ ℕ ℕ) → IsReadable g → StandingsGoOn g }
{}

/// The answer to a piece is the first event or refusal that a byte of it brings, or that no byte
/// brings one.
pub fn answers_are_first()
    ensures { (g : Grammar ℕ ℕ ℕ ℕ) → AnswersAreFirst g }
{}

/// How the bytes are cut into pieces changes nothing: two pieces joined are answered as the first
/// alone is or, where that decides nothing, as the second after it, with offsets from the beginning
/// of the first.
pub fn cuts_change_nothing()
    ensures { (g : Grammar ℕ ℕ ℕ ℕ) → CutsChangeNothing g }
{}

/// A stream's history, which is its events and then its offence, is what a reader answers, piece by
/// piece.
pub fn history_is_answers()
    ensures { (g : Grammar ℕ ℕ ℕ ℕ) → HistoryIsAnswers g }
{}

/// Where no prefix of a stream is refused or ends it, its history is the events of its prefixes,
/// and then the refusal of its end, if it may not end there.
pub fn pending_histories()
    ensures { (g : Grammar ℕ ℕ ℕ ℕ) → PendingHistories g }
{}

/// No unit is the beginning of a longer unit that may come in its place.
pub fn no_unit_goes_on()
    ensures { (g : Grammar ℕ ℕ ℕ ℕ) → IsReadable g → NoUnitGoesOn g }
{}

/// What follows a stream's end brings nothing.
pub fn ends_are_closed()
    ensures { (g : Grammar ℕ ℕ ℕ ℕ) → IsReadable g → IsQuietWhenOver g → EndsAreClosed g }
{}

/// A stream's offence is the refusal of its shortest refused prefix, or else that of its end: it
/// has one at most.
pub fn offences_are_first()
    ensures { (g : Grammar ℕ ℕ ℕ ℕ) → OffencesAreFirst g }
{}

/// A prefix is refused by what its last whole unit says, by bytes that can be no unit which may
/// come, or by its length.
pub fn refusals_are_three()
    ensures { (g : Grammar ℕ ℕ ℕ ℕ) → IsReadable g → RefusalsAreThree g }
{}

/// A stream has no offence exactly where its units, of which none is refused, lead to where the
/// input may end: what is left after them has only begun, and no length on the way is too great.
pub fn accepted_or_offended()
    ensures { (g : Grammar ℕ ℕ ℕ ℕ) → IsReadable g → AcceptedOrOffended g }
{}

/// What a piece adds to what is written of a stream depends only on its answer. Nothing is written
/// after an event that ends the stream, or after a refusal, whatever follows.
pub fn pieces_add()
    ensures { (g : Grammar ℕ ℕ ℕ ℕ) (t : Teller ℕ ℕ ℕ) (ends : ℕ → Bool) → Closes g ends
        → PiecesAdd g t ends }
{}

/// What the end of the input adds to what is written is the lines of its refusal, or of none.
pub fn ends_add()
    ensures { (g : Grammar ℕ ℕ ℕ ℕ) (t : Teller ℕ ℕ ℕ) → EndsAdd g t }
{}

/// What is written of the events of a stream's prefix, or of bytes after which it may go on, is a
/// prefix of what is written of the stream.
pub fn fronts_are_told()
    ensures prefixes { (g : Grammar ℕ ℕ ℕ ℕ) (t : Teller ℕ ℕ ℕ) → PrefixesTellFronts g t }
    ensures on { (g : Grammar ℕ ℕ ℕ ℕ) (t : Teller ℕ ℕ ℕ) → OpenTellFronts g t }
{}
