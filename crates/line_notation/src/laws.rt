//! What holds of lines and documents by their definitions alone. Each function does nothing: its
//! contract is a law, which a caller has where it calls the function.

ghost use Rattle.line_notation.specs.Laws.{AreCutAgain, AreOfWhatTheyBring, AreReadAsTheySay, AreRefusedAtALine, BringTheirDocument, HaveOneForm, HoldNoFeed, LeadOn, LeaveNothingUnfinished};
ghost use Rattle.line_notation.specs.Refusals.{RefusedForNoForm, RefusedForNothingElse, RefusedForPlace, RefusedForRange, RefusedForText};

/// A line has a form exactly where that form is read out of it, so it has one at most.
pub fn one_form()
    ensures { HaveOneForm }
{}

/// Reading the lines that are put for a document gives that document, and no more.
pub fn read_back()
    ensures document { BringTheirDocument }
    ensures ended { LeaveNothingUnfinished }
{}

/// Documents are read exactly where the lines are theirs, in any spelling, with any empty lines
/// before, between and after them.
pub fn documents()
    ensures { AreOfWhatTheyBring }
{}

/// Lines that aren't refused are those of complete documents and then of the incomplete one, as
/// many as the reader counts; the first bad line is refused, with its number. The state after a
/// line depends only on the line and on the state before it.
pub fn standing()
    ensures read { AreReadAsTheySay }
    ensures refused { AreRefusedAtALine }
    ensures more { LeadOn }
{}

/// A line is refused because it has no form, else for a text that isn't UTF-8, else for a value out
/// of its range, else for its place. Each refusal comes exactly where that holds, and there are no
/// others.
pub fn refusals()
    ensures no_form { RefusedForNoForm }
    ensures text { RefusedForText }
    ensures range { RefusedForRange }
    ensures place { RefusedForPlace }
    ensures nothing_else { RefusedForNothingElse }
{}

/// A line contains no line feed, so what is put for items is cut at its line feeds into their
/// lines.
pub fn texts()
    ensures no_feed { HoldNoFeed }
    ensures cut { AreCutAgain }
{}
