//! What holds of histories by their definitions alone. Each function does nothing: its contract is
//! a law, which a caller has where it calls the function.

ghost use Rattle.rehearsal.specs.History.{AcceptedIsInForm, InputIsPlayed};
ghost use Rattle.rehearsal.specs.Laws.{HaveOneForm, HistoryIsBounded, HistoryIsClosed, HistoryMayBegin, PendingIsPlayed};
ghost use Rattle.rehearsal.specs.declared.TheConstants.{MOST_BYTES};
ghost use Rattle.std.specs.Prelude.{◌≡◌, ◌^◌};

/// A line has a form exactly where that form is read out of it, so it has one at most.
pub fn one_form()
    ensures { HaveOneForm }
{}

/// Input is read by its bytes alone, line by line, and nothing but its end ends it.
pub fn history_is_closed()
    ensures { HistoryIsClosed }
{}

/// Input of no bytes isn't refused, and pending input has fewer bytes than may be read, which are
/// 2^30.
pub fn history_is_bounded()
    ensures begins { HistoryMayBegin }
    ensures bounded { HistoryIsBounded }
    ensures most { MOST_BYTES ≡ 2 ^ 30 }
{}

/// What is written of any input is a line for each body that is delivered in the run over the
/// events of its first lines, and the counts behind all of them if nothing is refused. These bodies
/// are the first of those that the lines submit, in their order. Of input that may go on, the lines
/// of these bodies are written so far. A refused line is the next one, by its number from 1, and
/// its kind says why: it has no form, as what stands behind the last line feed, or its text isn't
/// UTF-8. Input is too long if it has as many bytes as may be read. Exactly input of fewer bytes,
/// each line of which says an event and ends with a line feed, isn't refused.
pub fn input_is_played()
    ensures played { InputIsPlayed }
    ensures pending { PendingIsPlayed }
    ensures accepted { AcceptedIsInForm }
{}
