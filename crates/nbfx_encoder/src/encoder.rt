//! Documents as payloads, with the session's strings carried on from one to the next.
#![tactic(auto, unfolding(crate::specs::EncoderState::kind_in, crate::specs::EncoderState::limits_in, crate::specs::EncoderState::names_in, crate::specs::EncoderState::payload_in,))]

ghost use Rattle.std.specs.Prelude.{◌≡◌, ◌+◌, ◌<◌, ◌≤◌, ◌^◌, ◌++◌, [], OnOk, OnErr, IfErr, IfOk, IsTrue, drop, length, take};
ghost use Rattle.std.specs.List.{list_all};
ghost use Rattle.nbfx_values.specs.Items.{is_valid_item};
ghost use Rattle.nbfx_values.specs.Limits.{Limits};
ghost use Rattle.nbfx_values.specs.Measures.{content_of, depth_of};
ghost use Rattle.nbfx_records.specs.Putting.{Puts};
ghost use Rattle.session_dictionary.specs.Marks.{IsMarkOf};
ghost use Rattle.string_tables.specs.SessionStrings.{used_cost};
ghost use Rattle.string_tables.specs.StringTable.{StringTable};
ghost use Rattle.nbfx_values.specs.QuotasOf.{limits_of};
ghost use Rattle.nbfx_encoder.specs.Inside.{AddsStrings, SpellsPayload, SpellsWithin, names_of, writing_of};
ghost use Rattle.nbfx_encoder.specs.ReadBack.{AdmitsAsMuch, AppendsPayload, IsRead};
ghost use Rattle.nbfx_encoder.specs.Sound.{IsSound};
ghost use Rattle.nbfx_encoder.specs.Spelling.{chosen, encoded, opening_bytes, within_payload};

use crate::faults::EncodeFault;
use crate::speller::Speller;
use multibyte_ints::put_int;
use nbfx_values::{Doc, Item, Kind, Quotas};
use session_dictionary::{Mark, SessionTable};
use static_dictionary::StaticTable;
use std::alloc::Global;
use unit_streams::Memory;

/// Writes documents as payloads (records of MC-NBFX with the static dictionary of MC-NBFS and,
/// under [`Kind::Session`], the string tables of MC-NBFSE), each in its chosen spelling. It holds
/// the session strings of its direction, as the peer's reader does.
#[derive(Drop)]
pub struct Encoder<'s> {
    quotas: Quotas,
    speller: Speller<'s>,
    // The strings that the last payload brings, and the size of them that it begins with.
    strings: Vec<u8>,
    head: Vec<u8>,
    ghost limit: { speller.table.limit ≡ quotas.dictionary },
    ghost cost: { used_cost speller.table.strings ≤ quotas.dictionary },
}

/// A payload in an encoder's buffers: the state of the table before the strings that it adds, and
/// how many bytes it has.
#[derive(Clone, Copy, Debug, PartialEq, Eq)]
pub(crate) struct Prepared {
    pub(crate) mark: Mark,
    pub(crate) size: u32,
}

impl<'s> Encoder<'s> {
    ghost use Rattle.nbfx_encoder.specs.EncoderState.{HasPrepared, KeepsSettings, Refuses, Writes};
    ghost use Rattle.nbfx_encoder.specs.EncoderState.{kind_in, limits_in, names_in, payload_in};

    /// A writer of a direction that has no session strings yet.
    pub fn new(alloc: Global, statics: &'s StaticTable, quotas: Quotas, kind: Kind) -> Self
        ensures limits { limits_in result ≡ limits_of quotas }
        ensures kind { kind_in result ≡ kind }
        ensures names { names_in result ≡ record { statics = statics.now; strings = [] } }
    {
        Encoder {
            quotas,
            speller: Speller {
                statics,
                kind,
                table: SessionTable::new(alloc, quotas.dictionary),
                nodes: Vec::new(alloc),
            },
            strings: Vec::new(alloc),
            head: Vec::new(alloc),
        }
    }

    /// The session strings of the direction so far, which cost no more than the dictionary quota.
    pub fn table(&self) -> &SessionTable
        ensures strings { result.now.strings ≡ (names_in self.now).strings }
        ensures within { used_cost result.now.strings ≤ (limits_in self.now).dictionary }
    {
        &self.speller.table
    }

    // Whether a document is within the quotas on nesting and content.
    fn judge(&self, doc: &Doc) -> Result<(), EncodeFault>
        ensures depth { OnOk result (depth_of doc.now ≤ (limits_in self.now).depth) }
        ensures content { OnOk result (content_of doc.now ≤ (limits_in self.now).content) }
        ensures refused { (kind : Kind) (table : StringTable)
            → IfErr result (Refuses (encoded (limits_in self.now) kind table doc.now)) }
    {
        let depth = doc.depth();
        if depth > u64::from(self.quotas.depth) {
            return Err(EncodeFault::TooDeep { depth });
        }
        let size = doc.content();
        if size > u64::from(self.quotas.content) {
            return Err(EncodeFault::TooMuchContent { size });
        }
        Ok(())
    }

    // Puts the beginning of a payload into its buffers: the strings after the mark, and before them
    // how many bytes they have.
    #[tactic(auto, unfolding(multibyte_ints::specs::Text::string_bytes_of))]
    fn put_opening(&mut self, mark: Mark) -> Result<(), Memory>
        requires mark { IsMarkOf mark self.old.speller.table.strings }
        requires few { used_cost self.old.speller.table.strings ≤ 2 ^ 28 }
        ensures opening { OnOk result (self.new.head.items ++ self.new.strings.items
            ≡ opening_bytes self.old.speller.kind
            (drop mark.count self.old.speller.table.strings)) }
        ensures short { OnOk result (length self.new.head.items + length self.new.strings.items < 2 ^ 32) }
        ensures speller { self.new.speller ≡ self.old.speller }
        ensures quotas { self.new.quotas ≡ self.old.quotas }
    {
        self.head.clear();
        self.strings.clear();
        if self.speller.kind == Kind::Plain {
            return Ok(());
        }
        self.speller.table.put_strings(mark, &mut self.strings)?;
        let mut size = [0u8; 5];
        let len = put_int(self.strings.len() as u32, &mut size);
        self.head.extend_from_slice(&size[..len])?;
        Ok(())
    }

    // Puts a document's items into the buffers, and answers how many bytes the payload has.
    fn spell(&mut self, items: &[Item], mark: Mark) -> Result<usize, EncodeFault>
        requires sound { IsSound (writing_of self.old.speller) (names_of self.old.speller) }
        requires valid { IsTrue (list_all is_valid_item items.now) }
        requires few { content_of items.now < 2 ^ 31 }
        requires mark { mark ≡ record {
          count = length self.old.speller.table.strings;
          used = used_cost self.old.speller.table.strings;
        } }
        ensures spelled { SpellsPayload
            (chosen (writing_of self.old.speller) (names_of self.old.speller) items.now)
            result (payload_in self.new) (names_of self.new.speller) }
        ensures kept { AddsStrings self.old.speller self.new.speller }
        ensures quotas { self.new.quotas ≡ self.old.quotas }
    {
        self.speller.nodes.clear();
        self.speller.put_items(items)?;
        self.put_opening(mark)?;
        Ok(self.head.len() + self.strings.len() + self.speller.nodes.len())
    }

    // Puts a document's items into the buffers, if the payload has at most as many bytes as its
    // quota.
    fn spell_within(&mut self, items: &[Item], mark: Mark) -> Result<u32, EncodeFault>
        requires sound { IsSound (writing_of self.old.speller) (names_of self.old.speller) }
        requires valid { IsTrue (list_all is_valid_item items.now) }
        requires few { content_of items.now < 2 ^ 31 }
        requires mark { mark ≡ record {
          count = length self.old.speller.table.strings;
          used = used_cost self.old.speller.table.strings;
        } }
        ensures spelled { SpellsWithin (within_payload self.old.quotas.payload
            (chosen (writing_of self.old.speller) (names_of self.old.speller) items.now))
            result (payload_in self.new) (names_of self.new.speller) }
        ensures small { IfOk result (λ size. size ≤ self.old.quotas.payload) }
        ensures kept { AddsStrings self.old.speller self.new.speller }
        ensures quotas { self.new.quotas ≡ self.old.quotas }
    {
        let size = self.spell(items, mark)?;
        if size > self.quotas.payload as usize {
            return Err(EncodeFault::TooLarge { size: size as u64 });
        }
        Ok(size as u32)
    }

    /// Removes the strings that were added after a mark.
    pub(crate) fn take_back(&mut self, mark: Mark)
        requires { IsMarkOf mark (names_in self.old).strings }
        ensures names { names_in self.new ≡ record (names_in self.old) {
          strings = take mark.count (names_in self.old).strings;
        } }
        ensures kept { KeepsSettings self.old self.new }
    {
        self.speller.table.back_to(mark);
    }

    /// Judges a document, and puts its payload into the buffers. If it is refused, the strings are
    /// as before.
    pub(crate) fn prepare(&mut self, doc: &Doc) -> Result<Prepared, EncodeFault>
        ensures prepared { IfOk result (λ prepared. HasPrepared
            (encoded (limits_in self.old) (kind_in self.old) (names_in self.old) doc.now)
            prepared self.old self.new) }
        ensures small { IfOk result (λ prepared. prepared.size < 2 ^ 31) }
        ensures read { (reader : Limits) → AdmitsAsMuch reader (limits_in self.old)
            → OnOk result (IsRead reader (kind_in self.old) (names_in self.old) doc.now
            (payload_in self.new) (names_in self.new)) }
        ensures refused { IfErr result (Refuses
            (encoded (limits_in self.old) (kind_in self.old) (names_in self.old) doc.now)) }
        ensures unchanged { OnErr result (names_in self.new ≡ names_in self.old) }
        ensures kept { KeepsSettings self.old self.new }
    {
        if let Err(fault) = self.judge(doc) {
            return Err(fault);
        }
        self.speller.statics.is_map();
        let mark = self.speller.table.mark();
        match self.spell_within(doc.items().as_slice(), mark) {
            Ok(size) => Ok(Prepared { mark, size }),
            Err(fault) => {
                self.take_back(mark);
                Err(fault)
            }
        }
    }

    /// Appends the payload of a document in its chosen spelling, with the session strings that it
    /// adds. Any reader that has the same static and session strings, and quotas as great, reads
    /// the document from it, and has the same session strings afterwards. A document is refused by
    /// the first of these: its nesting, its content, a QName's name that gets no identifier, the
    /// payload's size. Then, or without memory, the session strings and `out` are as before.
    pub fn encode(&mut self, doc: &Doc, out: &mut Vec<u8>) -> Result<(), EncodeFault>
        ensures written { OnOk result (Writes
            (encoded (limits_in self.old) (kind_in self.old) (names_in self.old) doc.now)
            out.old.items out.new.items (names_in self.new)) }
        ensures payload { (reader : Limits) → AdmitsAsMuch reader (limits_in self.old)
            → OnOk result (AppendsPayload reader (kind_in self.old) (names_in self.old) doc.now
            out.old.items out.new.items (names_in self.new)) }
        ensures refused { IfErr result (Refuses
            (encoded (limits_in self.old) (kind_in self.old) (names_in self.old) doc.now)) }
        ensures unchanged { OnErr result ((out.new.items ≡ out.old.items)
            × (names_in self.new ≡ names_in self.old)) }
        ensures kept { KeepsSettings self.old self.new }
    {
        let prepared = self.prepare(doc)?;
        let before = out.len();
        match self.put_payload(out) {
            Ok(()) => Ok(()),
            Err(Memory) => {
                out.truncate(before);
                self.take_back(prepared.mark);
                Err(EncodeFault::Memory)
            }
        }
    }

    /// Appends the payload that the buffers hold.
    pub(crate) fn put_payload(&self, out: &mut Vec<u8>) -> Result<(), Memory>
        ensures { Puts result out.old.items out.new.items (payload_in self.now) }
    {
        out.extend_from_slice(&self.head)?;
        out.extend_from_slice(&self.strings)?;
        out.extend_from_slice(&self.speller.nodes)?;
        Ok(())
    }
}
