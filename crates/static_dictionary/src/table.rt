// The table of the static strings.
ghost use Rattle.std.specs.Prelude.{◌≡◌, ◌≢◌, ◌<◌, ◌%◌, Some, None, ℕ, drop, length, option_map, OnOk, OnSome, IfErr, IfNone, IfOk, IfSome, IsTrue};
ghost use Rattle.std.specs.Str.{is_utf8};
ghost use Rattle.string_tables.specs.StaticStrings.{IsStaticId, IsStaticMap, least_static_id, least_with, static_text, with_entry};
ghost use Rattle.string_tables.specs.StringTable.{IsLeastName};
ghost use Rattle.static_dictionary.specs.Faults.{AddsEntryOf, Tells};
ghost use Rattle.static_dictionary.specs.Inside.{AreMapsOfTable, ArePlaced, entries_in};
ghost use Rattle.static_dictionary.specs.Rows.{entries_of, entry_of, fault_of, fault_or, rows_of, table_of};

use crate::entry::entry_of;
use crate::fault::{TableFault, TableKind};
use crate::header::take_header;
use crate::names::Names;
use csv_rows::RowReader;
use nbfx_values::{Memory, Txt};
use std::alloc::Global;
use std::collections::BTreeMap;
use std::marker::Model;

/// Of so many identifiers, the least even ones, the texts have places of their own.
const PLACES: u32 = 512;

/// The static strings, each under an even identifier: the static dictionary of MC-NBFS, or another
/// one in its place.
#[derive(Drop)]
pub struct StaticTable {
    by_id: BTreeMap<u32, String>,
    names: Names,
    /// The text of identifier 2k once more, at place k.
    placed: Vec<Option<Txt>>,
}

impl Model for StaticTable {
    ghost use Rattle.std.specs.Prelude.{List};
    ghost use Rattle.string_tables.specs.StaticStrings.{Entry};
    ghost use Rattle.static_dictionary.specs.Inside.{IsTable, entries_in};

    ghost Value = { List Entry };

    ghost view = { λ t. entries_in t.by_id };

    ghost invariant = { λ t. IsTable t.by_id t.names t.placed.items };
}

impl StaticTable {
    /// Reads the table of a CSV file. It fails with `Bad` at the first bad row, or without memory.
    pub fn read(alloc: Global, bytes: &[u8]) -> Result<StaticTable, TableFault>
        ensures table { IfOk result (λ table. table ≡ table_of (rows_of bytes.now)) }
        ensures map { IfOk result IsStaticMap }
        ensures texts { let entries = entries_of (drop 1 (rows_of bytes.now)) in
            IfOk result (λ table. (id : ℕ) → static_text table id ≡ static_text entries id) }
        ensures sound { OnOk result (fault_of (rows_of bytes.now) ≡ None) }
        ensures bad { IfErr result (Tells (fault_of (rows_of bytes.now))) }
    {
        let mut rows = RowReader::new(alloc, bytes);
        take_header(&mut rows)?;
        let mut by_id = BTreeMap::new(alloc);
        let mut names = Names::new(alloc, bytes)?;
        for number in 1..u64::MAX {
            if !rows.advance()? {
                return with_places(alloc, by_id, names);
            }
            add_row(alloc, &mut by_id, &mut names, number, &rows)?;
        }

        // No memory holds a file of so many rows.
        Err(TableFault::Memory)
    }

    /// Does nothing: its contract is the law that a table is a finite map on static identifiers, in
    /// rising order. A caller has it where it calls this.
    pub fn is_map(&self)
        ensures { IsStaticMap self.now }
    {
        let _ = &self.by_id;
    }

    /// The text that a static identifier names; None where the table has none for it.
    pub fn text(&self, id: u32) -> Option<&str>
        ensures text { option_map (λ text. text.now) result ≡ static_text self.now id }
        ensures static_id { OnSome result (IsStaticId id) }
        ensures map { IsStaticMap self.now }
    {
        let text = self.found(id)?;
        Some(text)
    }

    #[inline(always)]
    fn found(&self, id: u32) -> Option<&str>
        ensures text { option_map (λ text. text.now) result ≡ static_text self.now id }
        ensures map { IsStaticMap self.now }
    {
        match self.placed.get(id as usize / 2) {
            Some(text) if id % 2 == 0 => text_in(text),
            _ => text_of(&self.by_id, id),
        }
    }

    /// A copy of the text that an identifier names, made without memory: there is one if the text
    /// has at most 16 bytes and the identifier is below 1,024, as most are. Otherwise None may be
    /// answered although the table has the text.
    #[inline(always)]
    pub fn short_copy(&self, id: u32) -> Option<Txt>
        ensures text { IfSome result (λ copy. static_text self.now id ≡ Some copy) }
        ensures utf8 { IfSome result (λ copy. IsTrue (is_utf8 copy)) }
        ensures long { id % 2 ≡ 0 → id < 1024 → IfNone result
            (IfSome (static_text self.now id) (λ text. 16 < length text)) }
    {
        if id % 2 == 1 {
            return None;
        }
        match self.placed.get(id as usize / 2)? {
            Some(text) => text.short_copy(),
            None => None,
        }
    }

    /// The least static identifier of a text; None where no entry has the text.
    pub fn id(&self, text: &str) -> Option<u32>
        ensures least { result ≡ least_static_id self.now text.now }
        ensures found { IfSome result (IsLeastName (static_text self.now) text.now) }
        ensures none { IfNone result ((id : ℕ) → static_text self.now id ≢ Some text.now) }
        ensures static_id { IfSome result (λ id. IsStaticId id) }
        ensures map { IsStaticMap self.now }
    {
        if text.len() > self.names.longest {
            return None;
        }
        self.names.id(text)
    }
}

// A text, where there is one.
fn text_in(text: &Option<Txt>) -> Option<&str>
    ensures { option_map (λ text. text.now) result ≡ text.now }
{
    match text {
        Some(text) => Some(text.as_str()),
        None => None,
    }
}

// The text of an identifier, as the map has it.
#[inline(never)]
fn text_of(by_id: &BTreeMap<u32, String>, id: u32) -> Option<&str>
    ensures { option_map (λ text. text.now) result ≡ static_text (entries_in by_id.now) id }
{
    let text = by_id.get(&id)?;
    Some(text.as_str())
}

// A copy of that text.
fn copy_of(alloc: Global, by_id: &BTreeMap<u32, String>, id: u32) -> Result<Option<Txt>, Memory>
    ensures { IfOk result (λ copy. copy ≡ static_text (entries_in by_id.now) id) }
{
    match text_of(by_id, id) {
        Some(text) => Ok(Some(Txt::of(alloc, text)?)),
        None => Ok(None),
    }
}

// The texts of the least identifiers, each at its place.
fn placed_of(alloc: Global, by_id: &BTreeMap<u32, String>) -> Result<Vec<Option<Txt>>, Memory>
    ensures placed { IfOk result (λ placed. ArePlaced placed.items by_id.now) }
    ensures all { IfOk result (λ placed. length placed.items ≡ 512) }
{
    let mut placed = Vec::new(alloc);
    for place in 0..PLACES {
        placed.push(copy_of(alloc, by_id, 2 * place)?)?;
    }
    Ok(placed)
}

// The table of a map and its names.
fn with_places(
    alloc: Global,
    by_id: BTreeMap<u32, String>,
    names: Names,
) -> Result<StaticTable, TableFault>
    requires { AreMapsOfTable by_id names }
    ensures table { IfOk result (λ table. table ≡ entries_in by_id) }
    ensures map { IfOk result IsStaticMap }
    ensures memory { IfErr result (λ fault. fault ≡ TableFault.Memory) }
{
    let placed = placed_of(alloc, &by_id)?;
    Ok(StaticTable {
        by_id,
        names,
        placed,
    })
}

// The less of an identifier and another, where there is another.
fn least_with(id: u32, other: Option<u32>) -> u32
    ensures { result ≡ least_with id other }
{
    match other {
        Some(other) => id.min(other),
        None => id,
    }
}

// Puts one more entry into the map, and its text into the names.
fn put_entry(
    alloc: Global,
    by_id: &mut BTreeMap<u32, String>,
    names: &mut Names,
    id: u32,
    text: &str,
) -> Result<(), Memory>
    requires maps { AreMapsOfTable by_id.old names.old }
    requires static_id { IsStaticId id }
    requires fresh { static_text (entries_in by_id.old) id ≡ None }
    ensures maps { OnOk result (AreMapsOfTable by_id.new names.new) }
    ensures entries { OnOk result
        (entries_in by_id.new ≡ with_entry (entries_in by_id.old) (id, text.now)) }
{
    let least = least_with(id, names.id(text));
    names.put(alloc, text, least)?;
    by_id.insert(id, String::from_str(alloc, text)?)?;
    Ok(())
}

// Adds the entry of the row read last to both.
fn add_row(
    alloc: Global,
    by_id: &mut BTreeMap<u32, String>,
    names: &mut Names,
    number: u64,
    rows: &RowReader<'_>,
) -> Result<(), TableFault>
    requires { AreMapsOfTable by_id.old names.old }
    ensures maps { OnOk result (AreMapsOfTable by_id.new names.new) }
    ensures added { OnOk result
        (AddsEntryOf rows.now.row (entries_in by_id.old) (entries_in by_id.new)) }
    ensures bad { IfErr result (Tells (fault_or (λ _ _. None) number (entries_in by_id.old)
        (entry_of rows.now.row))) }
{
    let (id, text) = match entry_of(rows) {
        Ok(entry) => entry,
        Err(kind) => return Err(TableFault::Bad { row: number, kind }),
    };
    if by_id.contains_key(&id) {
        return Err(TableFault::Bad {
            row: number,
            kind: TableKind::Repeated,
        });
    }
    put_entry(alloc, by_id, names, id, text)?;
    Ok(())
}
