//! What holds of string tables by their definitions alone. Each function does nothing: its contract
//! is a law, which a caller has where it calls the function.

ghost use Rattle.string_tables.specs.Laws.{FindsNamed, FindsEntries, FindsStrings, HasStaticIds, NamesOneText, FindsLeast, FindsLeastStatic, FindsLeastSession, FindsChosen, NamesChosen, NamesSmall, KeepsNames, NamesOneMore, KeepsLeast, KeepsChosen, NamesFirst, ChoosesAppended, AddsCosts, CountsWithin};

/// Looking an identifier up finds the text that it names, in each half and in both, and an
/// identifier names one text at most. A static identifier is even and below 2^31.
pub fn names()
    ensures both { FindsNamed }
    ensures entries { FindsEntries }
    ensures strings { FindsStrings }
    ensures one_text { NamesOneText }
    ensures static_ids { HasStaticIds }
{}

/// The least identifier of a text names it, and none below it does. Where there is none, no
/// identifier names the text.
pub fn least_identifiers()
    ensures both { FindsLeast }
    ensures entries { FindsLeastStatic }
    ensures strings { FindsLeastSession }
{}

/// The identifier that a writer takes for a text is the least static one, and where no static
/// string is the text the least of the session. It names the text, and there is none exactly where
/// no identifier does. Where the session's strings cost no more than 2^30, an identifier that names
/// a text has 31 bits, as an integer has.
pub fn chosen_identifiers()
    ensures found { FindsChosen }
    ensures named { NamesChosen }
    ensures small { NamesSmall }
{}

/// A string that is appended changes no name. It is named by 2i + 1 where i strings were before it,
/// which is its least session identifier where it had none. The identifier that a writer takes for
/// a text stays; one that had none gets that of the string that is appended.
pub fn appended_strings()
    ensures kept { KeepsNames }
    ensures named { NamesOneMore }
    ensures least_kept { KeepsLeast }
    ensures least { NamesFirst }
    ensures chosen_kept { KeepsChosen }
    ensures chosen { ChoosesAppended }
{}

/// Joined lists cost the sum of what each costs, and there are at most as many strings as they
/// cost.
pub fn costs()
    ensures added { AddsCosts }
    ensures count { CountsWithin }
{}
