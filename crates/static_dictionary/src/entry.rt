// The entry of one row.
ghost use Rattle.std.specs.Prelude.{◌≡◌, ◌≢◌, true, false, slice_index};
ghost use Rattle.std.specs.Result.{result_map_both};
ghost use Rattle.std.specs.Str.{all_ascii_digits};
ghost use Rattle.static_dictionary.specs.Rows.{entry_of, id_of, is_header, is_plain_number};

use crate::fault::TableKind;
use csv_rows::{RowReader, text_of};

// The greatest identifier there can be.
const MOST_ID: u32 = 0x7FFF_FFFF;

// Whether a field begins as a number may: such a field is one if all its characters are digits.
fn begins_plain(field: &[u8]) -> bool
    ensures digits { result ≡ true → is_plain_number field.now ≡ all_ascii_digits field.now }
    ensures unsigned { result ≡ true → slice_index field.now 0 ≢ 43 }
    ensures refused { result ≡ false → is_plain_number field.now ≡ false }
{
    match field {
        [b'0'..=b'9'] | [b'1'..=b'9', _, ..] => true,
        _ => false,
    }
}

// The identifier that a field writes: 0, or decimal digits without a leading zero.
fn id_of(field: &str) -> Option<u32>
    ensures { result ≡ id_of field.now }
{
    if !begins_plain(field.as_bytes()) {
        return None;
    }
    let id = field.parse::<u32>().ok()?;
    if id <= MOST_ID { Some(id) } else { None }
}

/// The identifier and the text of the row read last, or what is wrong with the row by itself.
pub fn entry_of<'r>(rows: &'r RowReader<'_>) -> Result<(u32, &'r str), TableKind>
    ensures { result_map_both (λ e. (e.0, e.1.now)) (λ kind. kind) result
        ≡ entry_of rows.now.row }
{
    let Some((id, text)) = rows.two() else {
        return Err(TableKind::Fields);
    };
    let Some(id) = text_of(id) else {
        return Err(TableKind::NotUtf8);
    };
    let Some(text) = text_of(text) else {
        return Err(TableKind::NotUtf8);
    };
    match id_of(id) {
        None => Err(TableKind::NotANumber),
        Some(id) if id % 2 == 1 => Err(TableKind::Odd),
        Some(id) => Ok((id, text)),
    }
}

/// Whether the row read last is the first row that a file must have: `id,string`.
pub fn is_header(rows: &RowReader<'_>) -> bool
    ensures { result ≡ is_header rows.now.row }
{
    match rows.two() {
        Some((id, text)) => id == b"id".as_slice() && text == b"string".as_slice(),
        None => false,
    }
}
