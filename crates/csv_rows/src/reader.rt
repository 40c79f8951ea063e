//! A reader of rows.

ghost use Rattle.std.specs.Prelude.{◌≡◌, [], IfOk, option_map};
ghost use Rattle.csv.specs.Records.{fields_of};
ghost use Rattle.csv_rows.specs.Inside.{KeepsReading, rows_in};
ghost use Rattle.csv_rows.specs.Rows.{Advanced, rows_of, text_of, two_of};

use csv::{ByteRecord, ErrorKind, Reader, ReaderBuilder};
use std::alloc::Global;
use std::marker::Model;
use std::str::from_utf8;
use unit_streams::Memory;

/// The field as text, if it is UTF-8.
pub fn text_of(field: &[u8]) -> Option<&str>
    ensures { option_map (λ text. text.now) result ≡ text_of field.now }
{
    from_utf8(field).ok()
}

/// A reader of a file's rows, which contracts see as the row read last and the rows to come.
#[derive(Drop)]
pub struct RowReader<'a> {
    reader: Reader<&'a [u8]>,
    row: ByteRecord,
}

impl<'a> Model for RowReader<'a> {
    ghost use Rattle.csv.specs.Records.{fields_of};
    ghost use Rattle.csv_rows.specs.Rows.{Rows, rows};
    ghost use Rattle.csv_rows.specs.Inside.{KeepsReading, rows_in};

    ghost Value = { Rows };

    ghost view = { λ r. rows (fields_of r.row) (rows_in r.reader) };

    ghost invariant = { λ r. KeepsReading r.reader };
}

// Reads the next row, if there is one.
fn read_row(reader: &mut Reader<&[u8]>, row: &mut ByteRecord) -> Result<bool, Memory>
    requires { KeepsReading reader.old }
    ensures kept { KeepsReading reader.new }
    ensures read { IfOk result
        (λ found. Advanced found (rows_in reader.old) (fields_of row.new) (rows_in reader.new)) }
{
    match reader.read_byte_record(row) {
        Ok(found) => Ok(found),
        Err(error) => match error.into_kind() {
            ErrorKind::OutOfMemory | ErrorKind::Io(_) => Err(Memory),
            _ => unreachable!(),
        },
    }
}

impl<'a> RowReader<'a> {
    /// A reader of this file's rows, before the first of them.
    pub fn new(alloc: Global, bytes: &'a [u8]) -> RowReader<'a>
        ensures row { result.row ≡ [] }
        ensures coming { result.coming ≡ rows_of bytes.now }
    {
        let reader = ReaderBuilder::new()
            .has_headers(false)
            .flexible(true)
            .from_reader(alloc, bytes);
        RowReader {
            reader,
            row: ByteRecord::new(alloc),
        }
    }

    /// Reads the next row, and says whether there was one. Without memory it fails, and nothing is
    /// promised of the rows to come.
    pub fn advance(&mut self) -> Result<bool, Memory>
        ensures { IfOk result
            (λ found. Advanced found self.old.coming self.new.row self.new.coming) }
    {
        read_row(&mut self.reader, &mut self.row)
    }

    /// The two fields of the row read last, if it has exactly two.
    pub fn two(&self) -> Option<(&[u8], &[u8])>
        ensures { option_map (λ fields. (fields.0.now, fields.1.now)) result ≡ two_of self.now.row }
    {
        let first = self.row.get(0)?;
        let second = self.row.get(1)?;
        if self.row.len() == 2 {
            Some((first, second))
        } else {
            None
        }
    }
}
