//! What holds of integers and strings by their definitions alone. Each function does nothing: its
//! contract is a law, which a caller has where it calls the function.

ghost use Rattle.std.specs.Prelude.{ℕ};
ghost use Rattle.unit_streams.specs.Front.{ReadsFront};
ghost use Rattle.multibyte_ints.specs.Integer.{int_at};
ghost use Rattle.multibyte_ints.specs.Text.{string_at};
ghost use Rattle.multibyte_ints.specs.Laws.{IntegersAreSpellings, BegunGoesOn, WrongAtFifth, NoSpellingGoesOn, ShortestIsSpelling, ShortestIsAlone, TextsAreStrings, BadByInteger, BadByLength, BadByText, NoStringGoesOn, WrittenIsString};

/// An integer depends only on its own bytes: it is wrong or complete at the byte that shows it,
/// whatever follows, and has only begun before that.
pub fn integer_fronts()
    ensures { ReadsFront int_at }
{}

/// The integers that are read are those that are spelled, and no spelling begins a longer one. It
/// is incomplete where a spelling continues it, and wrong at a fifth byte above 7 and for no other
/// cause.
pub fn integer_spellings()
    ensures read { IntegersAreSpellings }
    ensures begun { BegunGoesOn }
    ensures wrong { WrongAtFifth }
    ensures none_goes_on { NoSpellingGoesOn }
{}

/// The shortest spelling is one, and the only one with a last byte other than 0.
pub fn shortest_spelling()
    ensures spells { ShortestIsSpelling }
    ensures alone { ShortestIsAlone }
{}

/// A string depends only on its own bytes, as an integer is.
pub fn string_fronts()
    ensures { (limit : ℕ) → ReadsFront (string_at limit) }
{}

/// The texts that are read are those of the strings within the limit, and no string begins a longer
/// one. What is written is a string. A string is wrong for three causes.
pub fn string_spellings()
    ensures read { TextsAreStrings }
    ensures bad_int { BadByInteger }
    ensures too_long { BadByLength }
    ensures bad_utf8 { BadByText }
    ensures none_goes_on { NoStringGoesOn }
    ensures written { WrittenIsString }
{}
