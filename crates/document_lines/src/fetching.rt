//! Documents from the lines of a shelf's file.

ghost use Rattle.std.specs.Prelude.{◌≡◌, IsErrOf};
ghost use Rattle.io_edges.specs.Faults.{CountsFaults, one_more};
ghost use Rattle.document_lines.specs.Files.{Answers};

use crate::InputFault;
use crate::reading::{ListFault, read_lines};
use io_edges::{Shelf, ShelfFault};
use nbfx_values::Docs;
use std::alloc::Global;

/// Why a file of documents isn't read.
#[derive(Clone, Copy, Debug, PartialEq, Eq)]
pub enum DocumentsFault {
    /// The shelf has no file of that name.
    Missing,
    /// Its lines are refused, for this reason.
    Refused(InputFault),
    /// The fetch met an I/O error.
    Failed,
    /// Out of memory.
    Memory,
}

/// Fetches the shelf's file of that name and reads the documents of its lines. It fails where there
/// is no such file, where the fetch met an I/O error, where a line is refused or the lines end
/// within a document, or without memory.
pub fn fetch_documents<F: Shelf>(
    alloc: Global,
    shelf: &mut F,
    name: &str,
) -> Result<Docs, DocumentsFault>
    ensures answers { Answers (F.files shelf.old) name.now result }
    ensures kept { F.files shelf.new ≡ F.files shelf.old }
    ensures fetched { F.fetches shelf.new ≡ one_more (F.fetches shelf.old) }
    ensures counted { CountsFaults (F.faults shelf.old) (F.faults shelf.new)
        (IsErrOf result DocumentsFault.Failed) }
{
    let bytes = match shelf.fetch(name) {
        Ok(Some(bytes)) => bytes,
        Ok(None) => return Err(DocumentsFault::Missing),
        Err(ShelfFault::Failed) => return Err(DocumentsFault::Failed),
        Err(ShelfFault::Memory) => return Err(DocumentsFault::Memory),
    };
    match read_lines(alloc, bytes) {
        Ok(docs) => Ok(docs),
        Err(ListFault::Refused(fault)) => Err(DocumentsFault::Refused(fault)),
        Err(ListFault::Memory) => Err(DocumentsFault::Memory),
        Err(ListFault::ReadFault) => unreachable!(),
    }
}
