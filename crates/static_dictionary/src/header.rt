// The first row of a file.
ghost use Rattle.std.specs.Prelude.{◌≡◌, ◌∷◌, true, IfErr, OnOk};
ghost use Rattle.static_dictionary.specs.Faults.{Tells};
ghost use Rattle.static_dictionary.specs.Rows.{fault_of, is_header};

use crate::entry::is_header;
use crate::fault::{TableFault, TableKind};
use csv_rows::RowReader;

/// Reads the first row of a file. It fails where that isn't the row that names the two fields, or
/// without memory.
pub fn take_header(rows: &mut RowReader<'_>) -> Result<(), TableFault>
    ensures headed { OnOk result (is_header rows.new.row ≡ true) }
    ensures next { OnOk result (rows.old.coming ≡ rows.new.row ∷ rows.new.coming) }
    ensures bad { IfErr result (Tells (fault_of rows.old.coming)) }
{
    if rows.advance()? && is_header(rows) {
        return Ok(());
    }
    Err(TableFault::Bad {
        row: 0,
        kind: TableKind::Header,
    })
}
