//! Documents from lines in memory.

ghost use Rattle.std.specs.Prelude.{◌≡◌, Err};
ghost use Rattle.document_lines.specs.Documents.{documents_in};
ghost use Rattle.document_lines.specs.Taking.{Says};

use crate::InputFault;
use crate::taking::take_within;
use io_edges::SureSource;
use nbfx_values::Docs;
use std::alloc::Global;

/// More bytes than there are in memory.
const NO_QUOTA: u64 = 1 << 63;

/// Why the documents of lines aren't read.
#[derive(Clone, Copy, Debug, PartialEq, Eq)]
pub enum ListFault {
    /// The lines are refused, or too long.
    Refused(InputFault),
    /// A read met an I/O error.
    ReadFault,
    /// Out of memory.
    Memory,
}

/// Reads the documents of all these lines. It fails at the first bad line, where they end within a
/// line or a document, or without memory.
pub fn read_lines(alloc: Global, text: Vec<u8>) -> Result<Docs, ListFault>
    ensures says { Says (documents_in text.items) result }
    ensures read { result ≡ Err ListFault.ReadFault → ⊥ }
{
    let mut source = SureSource::new(text);
    take_within(alloc, NO_QUOTA, Docs::new(alloc), &mut source)
}

/// Reads the documents of all these lines, as [`read_lines`] does, which it copies.
pub fn read_documents(alloc: Global, text: &[u8]) -> Result<Docs, ListFault>
    ensures says { Says (documents_in text.now) result }
    ensures read { result ≡ Err ListFault.ReadFault → ⊥ }
{
    let mut copy = Vec::new(alloc);
    if copy.extend_from_slice(text).is_err() {
        return Err(ListFault::Memory);
    }
    read_lines(alloc, copy)
}
