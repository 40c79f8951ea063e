//! What holds of runs, and of sessions that are written, by their definitions alone. Each function
//! does nothing: its contract is a law, which a caller has where it calls the function. What holds
//! of streams stands in `stream_reader::laws`, and what holds of reports in `session_report::laws`.

ghost use Rattle.dump_replay.specs.Laws.{BuildsAreComplete, BuiltAreSessions, UnfitHasACause};
ghost use Rattle.dump_replay.specs.Order.{ZeroInOrder};
ghost use Rattle.dump_replay.specs.Rehearsing.{ZeroInForm, ZeroIsPlayedWhole};

/// What is written of lines of documents that aren't refused is a session of just these documents,
/// for any reader that has the same static strings, serves the Via, and has quotas as great and a
/// session quota that admits its bytes; and that reader's report is of these documents, in lines if
/// it shows them.
pub fn built_sessions()
    ensures { BuiltAreSessions }
{}

/// If no I/O error occurred, the status of writing documents is 5, out of memory, or that of the
/// input, which is 0 if it isn't refused; and unless it is 5 all that is due for the input is
/// written, whether it is refused or not.
pub fn complete_builds()
    ensures { BuildsAreComplete }
{}

/// Writing documents never ends with a document that is refused for lack of memory: then it ends as
/// out of memory. So the status is 7 only for a document that exceeds a quota, or of which a QName
/// gets no identifier.
pub fn unfit_documents()
    ensures { UnfitHasACause }
{}

/// The status of a history, if nothing of the outside fails and memory suffices, is 0 exactly if
/// the history is in form: each line says an event and ends with a line feed, and there are fewer
/// than 2^30 bytes. A run that ends with 0 wrote a line for each body that those events deliver, in
/// their order, and the counts behind all of them.
pub fn complete_rehearsals()
    ensures in_form { ZeroInForm }
    ensures played { ZeroIsPlayedWhole }
{}

/// The status that [`crate::run::run`] ends with for a command on sessions, if nothing of the
/// outside fails and memory suffices, is 0 exactly if all is in order: the files are read, the
/// stream is a valid session without a Fault at its end, and the documents are read and fit, as
/// many as their mode takes.
pub fn complete_runs()
    ensures { ZeroInOrder }
{
    document_lines::laws::fitting_is_accepted();
}
