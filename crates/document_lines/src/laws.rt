//! What holds of lines of documents by the definitions alone. Each function does nothing: its
//! contract is a law, which a caller has where it calls the function.

ghost use Rattle.document_lines.specs.Laws.{InputIsClosed, InputMayBegin, InputIsBounded, AcceptedIsBuilt, FittingIsAccepted, InputIsWritten, RefusesNoMemory};

/// Input is read by its bytes alone, line by line, and nothing but its end ends it.
pub fn input_is_closed()
    ensures { InputIsClosed }
{}

/// Input of no bytes isn't refused where the session quota admits a byte, and pending input has
/// fewer bytes than that quota.
pub fn input_is_bounded()
    ensures begins { InputMayBegin }
    ensures bounded { InputIsBounded }
{}

/// Input that isn't refused is lines of documents that can be written, and what is written of it is
/// their envelopes, in their order and under the session's strings that those before have left, and
/// an End record.
pub fn accepted_is_built()
    ensures { AcceptedIsBuilt }
{}

/// What is written of any input is the envelopes of the documents of its first lines, in their
/// order, and an End record if nothing is refused; in singleton mode there is then one document. A
/// refused line is the next one, by its number from 1, and its kind says why: it is refused for
/// what it says or for its place, it begins a second document in singleton mode, or the input ends
/// within a document, or without one in singleton mode. A document that doesn't fit is the next one
/// too, by its number from 0, and the refusal says which quota it exceeds, or that a QName of it
/// gets no identifier; lack of memory is no such refusal. Input is too long if it has as many bytes
/// as the session quota.
pub fn input_is_written()
    ensures written { InputIsWritten }
    ensures no_memory { RefusesNoMemory }
{}

/// Lines of documents that can be written, of which there is one in singleton mode, aren't refused
/// if they have fewer bytes than the session quota.
pub fn fitting_is_accepted()
    ensures { FittingIsAccepted }
{
    line_notation::laws::documents();
}
