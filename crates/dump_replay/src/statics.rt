//! The static strings of a file on the shelf.

ghost use Rattle.std.specs.Prelude.{◌≡◌, ℕ, ◌≤◌, IfOk, IfErr, IsErrOf};
ghost use Rattle.io_edges.specs.Faults.{CountsFaults, one_more};
ghost use Rattle.io_edges.specs.Files.{Has, Tells, whole};
ghost use Rattle.dump_replay.specs.Statics.{file_fault, reading_statics};

use io_edges::{FileFault, Shelf, fetch_file};
use static_dictionary::{StaticTable, TableFault, TableKind};
use std::alloc::Global;

fn file_fault(fault: TableFault) -> FileFault<TableKind>
    ensures { result ≡ file_fault fault }
{
    match fault {
        TableFault::Bad { row, kind } => FileFault::Bad { row, kind },
        TableFault::Memory => FileFault::Memory,
    }
}

/// Reads the static strings from the shelf's file of that name. It fails where there is no such
/// file, where the fetch met an I/O error, at the first bad row, or without memory.
pub fn read_statics<F: Shelf>(
    alloc: Global,
    shelf: &mut F,
    name: &str,
) -> Result<StaticTable, FileFault<TableKind>>
    ensures table { IfOk result
        (λ entries. Has reading_statics (F.files shelf.old) name.now (whole entries)) }
    ensures fault { IfErr result (Tells reading_statics (F.files shelf.old) name.now) }
    ensures kept { F.files shelf.new ≡ F.files shelf.old }
    ensures fetched { F.fetches shelf.new ≡ one_more (F.fetches shelf.old) }
    ensures counted { CountsFaults (F.faults shelf.old) (F.faults shelf.new)
        (IsErrOf result FileFault.Failed) }
{
    let bytes = fetch_file(shelf, name)?;
    match StaticTable::read(alloc, &bytes) {
        Ok(table) => Ok(table),
        Err(fault) => Err(file_fault(fault)),
    }
}
