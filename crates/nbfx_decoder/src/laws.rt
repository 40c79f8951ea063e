//! What holds of payloads by their definitions alone. Each function does nothing: its contract is a
//! law, which a caller has where it calls the function.

ghost use Rattle.std.specs.Prelude.{ℕ, List};
ghost use Rattle.unit_streams.specs.Laws.{StandingsGoOn, AnswersAreFirst, CutsChangeNothing, HistoryIsAnswers, NoUnitGoesOn, OffencesAreFirst, AcceptedOrOffended};
ghost use Rattle.nbfx_decoder.specs.Payload.{Settings, payload};
ghost use Rattle.nbfx_decoder.specs.Laws.{PayloadsAreAccepted, SpellsOneDocument, SituationsKeepWithin, SituationsAreFronts, StringsStayTexts, RefusedWhereShown, CutWhereUnended, FirstReasonRefuses, OffendsWhereShown, GoesOnWhereNothing, NothingIsRefused, GoesOnUnrefused, FinishedWhereWhole};

/// The bytes that are accepted are the payloads by the standards' records whose nesting, content
/// and strings are within what is admitted. The items and strings that they lead to are those of
/// such a payload.
pub fn payloads()
    ensures { PayloadsAreAccepted }
{}

/// Bytes are a payload of at most one document, and leave at most one list of strings.
pub fn one_document()
    ensures { SpellsOneDocument }
{}

/// However far a payload has been read, its items and strings are within bounds: the items have at
/// most as many values as there were bytes, and are at most twice as many. If the texts that
/// identifiers name are UTF-8, the items are the front of a document, and the strings are UTF-8.
pub fn situations()
    ensures within { SituationsKeepWithin }
    ensures fronts { SituationsAreFronts }
    ensures texts { StringsStayTexts }
{}

/// The state of a payload depends only on the bytes read so far. No unit is the beginning of a
/// longer unit that may come in its place.
pub fn units()
    ensures standings_go_on { (x : Settings) (strings : List (List ℕ))
        → StandingsGoOn (payload x strings) }
    ensures none_goes_on { (x : Settings) (strings : List (List ℕ))
        → NoUnitGoesOn (payload x strings) }
{}

/// A piece is answered by the first refusal that a byte of it brings. How the bytes are cut into
/// pieces changes nothing, and a payload's history is what a reader is answered, piece by piece.
pub fn answers()
    ensures are_first { (x : Settings) (strings : List (List ℕ))
        → AnswersAreFirst (payload x strings) }
    ensures cuts_change_nothing { (x : Settings) (strings : List (List ℕ))
        → CutsChangeNothing (payload x strings) }
    ensures make_the_history { (x : Settings) (strings : List (List ℕ))
        → HistoryIsAnswers (payload x strings) }
{}

/// A payload's offence is the first refusal of a prefix, or else its end's. It has none exactly
/// where its units, of which none is refused, lead to where it may end.
pub fn refusals()
    ensures first_is_the_offence { (x : Settings) (strings : List (List ℕ))
        → OffencesAreFirst (payload x strings) }
    ensures accepted { (x : Settings) (strings : List (List ℕ))
        → AcceptedOrOffended (payload x strings) }
{}

/// Bytes of a payload are refused for a reason, at an offset, exactly where they show it: complete
/// units up to that offset, and then bytes that can be no unit which may come, or a unit that is
/// refused by what it says. Each reason has a row of `specs/Reasons`. The end of a payload is
/// refused exactly where its root hasn't ended. A complete payload is refused for the first of
/// these.
pub fn reasons()
    ensures shown { RefusedWhereShown }
    ensures cut { CutWhereUnended }
    ensures first { FirstReasonRefuses }
{}

/// What [`Decoder::feed`](crate::Decoder::feed) answers: a piece is refused just where some of its
/// bytes show a reason after those before, and no fewer show any, and is accepted if none do. Where
/// no bytes of a payload have shown any, [`Decoder::finish`](crate::Decoder::finish) gives a
/// document exactly where the bytes are a payload of that document, within what is admitted, and
/// its strings are those that stand after it.
pub fn reading()
    ensures offends { OffendsWhereShown }
    ensures goes_on { GoesOnWhereNothing }
    ensures begins { NothingIsRefused }
    ensures unrefused { GoesOnUnrefused }
    ensures finished { FinishedWhereWhole }
{}
