//! What holds of reports by their definitions alone. Each function does nothing: its contract is a
//! law, which a caller has where it calls the function. What holds of streams stands in
//! `stream_reader::laws`.

ghost use Rattle.session_report.specs.Laws.{ReportsEvents, ReportsSessions};

/// A stream's report is the lines of each of its events, in their order, and then the line of its
/// offence where it has one.
pub fn reports()
    ensures { ReportsEvents }
{}

/// The report of a stream that a session closes is the session's: a line for its preamble or its
/// Ack, the lines of each of its documents, and a line that says how long it was, whatever follows.
pub fn session_reports()
    ensures { ReportsSessions }
{}
