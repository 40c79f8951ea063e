// Why a history is refused.

use line_notation::LineKind;

/// Why the lines of a history are refused.
#[derive(Clone, Copy, Debug, PartialEq, Eq)]
pub enum HistoryFault {
    /// The line with this number, from 1, for this reason: it has no form, or its text isn't UTF-8.
    Line { line: u64, kind: LineKind },
    /// As many bytes were read as may be, and the input hasn't ended.
    TooLong,
}
