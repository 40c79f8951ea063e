//! The units of a payload, each read where all its bytes are there.

ghost use Rattle.std.specs.Prelude.{◌≡◌, ℕ, ◌+◌, ◌<◌, ◌≤◌, ◌^◌, ◌↔◌, true, false, [], ◌++◌, List, length, IfSome, IfNone, IfOk, OnErr, OnOk, OnSome, IsSome, IsErrOf, IsTrue, Ok, None, Some};
ghost use Rattle.std.specs.List.{list_all};
ghost use Rattle.nbfx_values.specs.Documents.{IsDocument};
ghost use Rattle.nbfx_values.specs.Measures.{capped, content_of, opened_by};
ghost use Rattle.nbfx_values.specs.Positions.{position_of};
ghost use Rattle.nbfx_values.specs.QuotasOf.{limits_of};
ghost use Rattle.nbfx_values.specs.Items.{is_valid_item};
ghost use Rattle.nbfx_decoder.specs.Meant.{items_in, table_of};
ghost use Rattle.nbfx_records.specs.Meaning.{items_of};
ghost use Rattle.nbfx_records.specs.Views.{IsSoundRecord, record_seen};
ghost use Rattle.nbfx_records.specs.Valid.{is_valid_node};
ghost use Rattle.nbfx_decoder.specs.Sections.{first_section, left_in};

use crate::faults::{UnitFault, refused, stopped};
use crate::meaning::{Lookup, Meant};
use crate::section::Section;
use crate::strings::{StringRead, string_at};
use multibyte_ints::{IntRead, read_int};
use nbfx_records::{BegunBytes, Node, NodePlace, RecordPart, parts_at};
use nbfx_values::{Doc, DocBuilder, Kind, Position, PushFault, Quotas, Reason};
use session_dictionary::{AddFault, SessionTable};
use static_dictionary::StaticTable;
use std::alloc::Global;
use unit_streams::Memory;

/// What was read at the front of some bytes.
#[derive(Clone, Copy, Debug, PartialEq, Eq)]
pub(crate) enum UnitRead {
    /// A unit has begun, which needs at least so many bytes in all.
    More { wants: usize },
    /// A unit of so many bytes, after which the reader is now.
    Done { used: usize },
}

/// Where a payload stands after whole units.
#[derive(Drop)]
pub(crate) struct UnitReader<'s> {
    pub(crate) alloc: Global,
    statics: &'s StaticTable,
    quotas: Quotas,
    kind: Kind,
    pub(crate) section: Section,
    table: SessionTable,
    document: DocBuilder,
    /// How many bytes the whole units have.
    from: u32,
    ghost some: { 0 < left_in section },
}

impl<'s> UnitReader<'s> {
    ghost use Rattle.nbfx_records.specs.declared.nodes.Node.{Node as Made};
    ghost use Rattle.nbfx_decoder.specs.Payload.{Settings, Situation, beginning};
    ghost use Rattle.nbfx_decoder.specs.Units.{IsAt, KeepsTable, KeepsSettings, Counts, used_by, place_in, IsAdded, IsSingle, HasShape, MayFollow, Reads, StandsAt, Stays, UnitAnswers, names_in};

    /// Before a payload's first byte, with no strings.
    pub(crate) fn new(alloc: Global, statics: &'s StaticTable, quotas: Quotas, kind: Kind) -> Self
        ensures at { (x : Settings)
            → x ≡ record { statics = statics.now; kind = kind; limits = limits_of quotas }
            → IsAt result x (beginning x []) 0 }
    {
        UnitReader {
            alloc,
            statics,
            quotas,
            kind,
            section: Section::first(kind),
            table: SessionTable::for_reading(alloc, quotas.dictionary),
            document: DocBuilder::new(alloc),
            from: 0,
        }
    }

    /// Reads the unit at the front of the bytes.
    pub(crate) fn read(&mut self, bytes: &[u8]) -> Result<UnitRead, UnitFault>
        requires few { self.old.from + length bytes.now < 2 ^ 32 }
        ensures answers { (x : Settings) (z : Situation) (from : ℕ) → IsAt self.old x z from
            → UnitAnswers x z from bytes.now self.new result }
        ensures counts { IfOk result (Counts (length bytes.now)) }
        ensures from { IfOk result (λ read. self.new.from ≡ self.old.from + used_by read) }
        ensures kept { KeepsSettings self.old self.new }
    {
        match self.section {
            Section::TableSize => self.table_size(bytes),
            Section::Strings { left } => self.table_string(left, bytes),
            Section::Nodes => self.record(bytes),
        }
    }

    /// Reads on the incomplete unit with these bytes; of a list, what was scanned before isn't
    /// scanned again.
    #[inline(never)]
    pub(crate) fn read_on(&mut self, begun: &mut BegunBytes) -> Result<UnitRead, UnitFault>
        requires few { self.old.from + length begun.old < 2 ^ 32 }
        ensures answers { (x : Settings) (z : Situation) (from : ℕ) → IsAt self.old x z from
            → UnitAnswers x z from begun.old self.new result }
        ensures counts { IfOk result (Counts (length begun.old)) }
        ensures from { IfOk result (λ read. self.new.from ≡ self.old.from + used_by read) }
        ensures kept { KeepsSettings self.old self.new }
        ensures unchanged { begun.new ≡ begun.old }
    {
        match self.section {
            Section::TableSize => self.table_size(begun.as_slice()),
            Section::Strings { left } => self.table_string(left, begun.as_slice()),
            Section::Nodes => self.record_on(begun),
        }
    }

    /// Goes on behind a unit of so many bytes.
    #[inline(always)]
    pub(crate) fn advance(&mut self, used: usize) -> UnitRead
        requires { self.old.from + used < 2 ^ 32 }
        ensures done { result ≡ UnitRead.Done used }
        ensures from { self.new.from ≡ self.old.from + used }
        ensures section { self.new.section ≡ self.old.section }
        ensures items { self.new.document ≡ self.old.document }
        ensures kept { KeepsTable self.old self.new }
    {
        self.from += used as u32;
        UnitRead::Done { used }
    }

    #[inline(never)]
    fn table_size(&mut self, bytes: &[u8]) -> Result<UnitRead, UnitFault>
        requires here { self.old.section ≡ Section.TableSize }
        requires few { self.old.from + length bytes.now < 2 ^ 32 }
        ensures answers { (x : Settings) (z : Situation) (from : ℕ) → IsAt self.old x z from
            → UnitAnswers x z from bytes.now self.new result }
        ensures counts { IfOk result (Counts (length bytes.now)) }
        ensures from { IfOk result (λ read. self.new.from ≡ self.old.from + used_by read) }
        ensures kept { KeepsSettings self.old self.new }
    {
        match read_int(bytes) {
            IntRead::More => Ok(UnitRead::More {
                wants: bytes.len() + 1,
            }),
            IntRead::Done { value, used } => {
                self.section = Section::behind(value);
                Ok(self.advance(used))
            }
            IntRead::Bad => refused(Reason::BadInt, 5),
        }
    }

    #[inline(never)]
    fn table_string(&mut self, left: u32, bytes: &[u8]) -> Result<UnitRead, UnitFault>
        requires here { self.old.section ≡ Section.Strings left }
        requires few { self.old.from + length bytes.now < 2 ^ 32 }
        ensures answers { (x : Settings) (z : Situation) (from : ℕ) → IsAt self.old x z from
            → UnitAnswers x z from bytes.now self.new result }
        ensures counts { IfOk result (Counts (length bytes.now)) }
        ensures from { IfOk result (λ read. self.new.from ≡ self.old.from + used_by read) }
        ensures kept { KeepsSettings self.old self.new }
    {
        let room = self.quotas.dictionary.saturating_sub(self.table.used());
        match string_at(bytes, left as usize, room as usize)? {
            StringRead::More { wants } => Ok(UnitRead::More { wants }),
            StringRead::Done { text, used } => match self.table.add(text) {
                Ok(_id) => {
                    self.section = Section::behind(left.saturating_sub(used as u32));
                    Ok(self.advance(used))
                }
                Err(AddFault::Full) => refused(Reason::DictionaryFull, used),
                Err(AddFault::Memory) => Err(UnitFault::Memory),
            },
        }
    }

    /// Where the next node stands.
    #[inline(always)]
    pub(crate) fn place(&self) -> NodePlace
        ensures { result ≡ place_in self.now }
    {
        match self.document.position() {
            Position::Before => NodePlace::BeforeRoot,
            Position::Within { inner, attributes } => NodePlace::Within {
                attributes,
                deeper: inner + 1 < self.quotas.depth as usize,
            },
            Position::After => NodePlace::AfterRoot,
        }
    }

    /// Appends to the items what a node means that names at most two texts. These are copied before
    /// they are judged.
    #[inline(always)]
    pub(crate) fn add_quickly(&mut self, node: Node) -> bool
        requires valid { IsTrue (is_valid_node node) }
        requires single { IsSingle node }
        ensures answers { result ≡ true → (x : Settings) (z : Situation) (from : ℕ)
            → IsAt self.old x z from → IsAdded x z from node self.new }
        ensures section { self.new.section ≡ self.old.section }
        ensures from { self.new.from ≡ self.old.from }
        ensures kept { KeepsTable self.old self.new }
        ensures stays { result ≡ false → Stays self.old self.new }
    {
        match self.names().meant(node) {
            Ok(meant) => match push(&mut self.document, self.quotas.content as u64, meant) {
                Ok(()) => true,
                Err(_) => false,
            },
            Err(_) => false,
        }
    }

    // Reads the record at the front of the bytes, and appends what it means to the items.
    #[inline(never)]
    fn record(&mut self, bytes: &[u8]) -> Result<UnitRead, UnitFault>
        requires here { self.old.section ≡ Section.Nodes }
        requires few { self.old.from + length bytes.now < 2 ^ 32 }
        ensures { Reads self.old self.new bytes.now result }
    {
        match parts_at(self.place(), bytes) {
            Ok((part, used)) => self.pass_record(&part, used),
            Err(stop) => stopped(stop),
        }
    }

    // Reads on the incomplete record with these bytes, and appends what it means to the items.
    #[inline(never)]
    fn record_on(&mut self, begun: &mut BegunBytes) -> Result<UnitRead, UnitFault>
        requires here { self.old.section ≡ Section.Nodes }
        requires few { self.old.from + length begun.old < 2 ^ 32 }
        ensures reads { Reads self.old self.new begun.old result }
        ensures unchanged { begun.new ≡ begun.old }
    {
        let place = self.place();
        match begun.parts(place) {
            Ok((part, used)) => self.pass_record(&part, used),
            Err(stop) => {
                begun.look(place);
                stopped(stop)
            }
        }
    }

    // Appends what a complete record of so many bytes means to the items, and goes past it.
    fn pass_record(&mut self, part: &RecordPart, used: usize) -> Result<UnitRead, UnitFault>
        requires here { self.old.section ≡ Section.Nodes }
        requires sound { IsSoundRecord part.now }
        requires stands { StandsAt self.old (record_seen part.now) used }
        ensures { (bytes : List ℕ) → HasShape (place_in self.old) (record_seen part.now) used bytes
            → Reads self.old self.new bytes result }
    {
        self.judge(part, used)?;
        let meant = self.said(part)?;
        self.add(meant)?;
        Ok(self.advance(used))
    }

    /// What identifiers name.
    #[inline(always)]
    pub(crate) fn names(&self) -> Lookup<'_>
        ensures { table_of result ≡ names_in self.now }
    {
        Lookup {
            alloc: self.alloc,
            statics: self.statics,
            strings: &self.table,
        }
    }

    /// Whether items that count so much may come after the others.
    #[inline(always)]
    pub(crate) fn has_room(&self, size: u64) -> bool
        ensures room { result ≡ true → (n : ℕ) → size ≡ capped n
            → content_of self.now.document + n ≤ self.now.quotas.content }
        ensures no_room { result ≡ false → (n : ℕ) → size ≡ capped n
            → self.now.quotas.content < content_of self.now.document + n }
    {
        self.document.content().saturating_add(size) <= self.quotas.content as u64
    }

    // Appends what a node means to the items.
    #[inline(always)]
    fn add(&mut self, meant: Meant) -> Result<(), Memory>
        requires valid { IsTrue (list_all is_valid_item (items_in meant)) }
        requires follows { MayFollow self.old meant }
        ensures answers { (x : Settings) (z : Situation) (from : ℕ) (n : Made)
            → IsAt self.old x z from → items_of (names_in self.old) n ≡ Some (items_in meant)
            → OnOk result (IsAdded x z from n self.new) }
        ensures section { self.new.section ≡ self.old.section }
        ensures from { self.new.from ≡ self.old.from }
        ensures kept { KeepsTable self.old self.new }
        ensures stays { OnErr result (Stays self.old self.new) }
    {
        match push(&mut self.document, self.quotas.content as u64, meant) {
            Ok(()) => Ok(()),
            Err(PushFault::Memory) => Err(Memory),
            Err(PushFault::OutOfPlace) => unreachable!(),
            Err(PushFault::TooMuchContent) => unreachable!(),
        }
    }

    /// The document, if its root has ended. Then the next payload may come.
    pub(crate) fn finish(&mut self) -> Option<Doc>
        ensures document { IsSome result ↔ IsDocument self.old.document }
        ensures same { IfSome result (λ doc. doc ≡ self.old.document) }
        ensures anew { OnSome result ((self.new.document ≡ [])
            × (self.new.section ≡ first_section self.old.kind) × (self.new.from ≡ 0)) }
        ensures unchanged { IfNone result ((self.new.from ≡ self.old.from)
            × (self.new.document ≡ self.old.document)) }
        ensures kept { KeepsTable self.old self.new }
    {
        let doc = self.document.finish()?;
        self.section = Section::first(self.kind);
        self.from = 0;
        Some(doc)
    }

    /// Drops the items.
    pub(crate) fn give_up(&mut self)
        ensures items { self.new.document ≡ [] }
        ensures from { self.new.from ≡ self.old.from }
        ensures kept { KeepsTable self.old self.new }
    {
        self.document = DocBuilder::new(self.alloc);
    }

    /// How many bytes the whole units have.
    pub(crate) fn from(&self) -> u32
        ensures { result ≡ self.now.from }
    {
        self.from
    }

    /// What the items count.
    pub(crate) fn content(&self) -> u64
        ensures { result ≡ capped (content_of self.now.document) }
    {
        self.document.content()
    }

    /// How many elements are open.
    pub(crate) fn depth(&self) -> u32
        ensures { opened_by 0 self.now.document < 2 ^ 32 → result ≡ opened_by 0 self.now.document }
    {
        u32::try_from(self.document.open_count()).unwrap_or(u32::MAX)
    }

    /// The strings of the direction.
    pub(crate) fn table(&self) -> &SessionTable
        ensures { result.now ≡ self.now.table }
    {
        &self.table
    }

    /// If no item has come yet, the next payload's items reuse this document's memory.
    pub(crate) fn reuse(&mut self, doc: Doc)
        ensures items { self.new.document ≡ self.old.document }
        ensures section { self.new.section ≡ self.old.section }
        ensures from { self.new.from ≡ self.old.from }
        ensures kept { KeepsTable self.old self.new }
    {
        if self.document.items().len() == 0 {
            self.document.begin_in(doc);
        }
    }
}

// Appends what a node means to the items, if their content is then at most this.
#[inline(always)]
fn push(document: &mut DocBuilder, most: u64, meant: Meant) -> Result<(), PushFault>
    requires { IsTrue (list_all is_valid_item (items_in meant)) }
    ensures pushed { OnOk result ((document.new ≡ document.old ++ items_in meant)
        × (capped (content_of document.new) ≤ most)) }
    ensures out_of_place { IsErrOf result PushFault.OutOfPlace
        → position_of (document.old ++ items_in meant) ≡ None }
    ensures too_much { IsErrOf result PushFault.TooMuchContent
        → most < capped (content_of (document.old ++ items_in meant)) }
    ensures unchanged { OnErr result (document.new ≡ document.old) }
{
    match meant {
        Meant::Item(item) => document.push_within(most, item),
        Meant::LastText(value) => document.push_last_text(most, value),
    }
}
