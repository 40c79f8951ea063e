//! The rows of a file of actions.

ghost use Rattle.std.specs.Prelude.{◌≡◌, IfOk};
ghost use Rattle.std.specs.Result.{result_map_both};
ghost use Rattle.action_dispatch.specs.Actions as spec;
ghost use Rattle.action_dispatch.specs.Actions.{Headed};

use crate::fault::ActionKind;
use csv_rows::{RowReader, text_of};
use unit_streams::Memory;

// Whether the row read last is the first that a file must have.
fn is_header(rows: &RowReader<'_>) -> bool
    ensures { result ≡ spec.is_header rows.now.row }
{
    match rows.two() {
        Some((action, text)) => action == b"action".as_slice() && text == b"text".as_slice(),
        None => false,
    }
}

/// Reads the first row, and says whether it is there and is the one that names the fields.
pub(crate) fn take_header(rows: &mut RowReader<'_>) -> Result<bool, Memory>
    ensures { IfOk result (λ headed. Headed headed rows.old.coming rows.new.coming) }
{
    if !rows.advance()? {
        return Ok(false);
    }
    Ok(is_header(rows))
}

/// The action and the text of the row read last, or what is wrong with it by itself.
pub(crate) fn entry_of<'r>(rows: &'r RowReader<'_>) -> Result<(&'r str, &'r str), ActionKind>
    ensures { result_map_both (λ entry. (entry.0.now, entry.1.now)) (λ kind. kind) result
        ≡ spec.entry_of rows.now.row }
{
    let Some((action, text)) = rows.two() else {
        return Err(ActionKind::Fields);
    };
    let Some(action) = text_of(action) else {
        return Err(ActionKind::NotUtf8);
    };
    let Some(text) = text_of(text) else {
        return Err(ActionKind::NotUtf8);
    };
    Ok((action, text))
}
