//! A payload, in any pieces.

ghost use Rattle.std.specs.Prelude.{◌≡◌, ℕ, ◌+◌, ◌*◌, ◌-◌, ◌<◌, ◌≤◌, ◌^◌, ◌↔◌, List, [], ◌++◌, length, IfOk, IfErr, OnOk, Ok, Err, Some, None};
ghost use Rattle.nbfx_values.specs.Measures.{content_of, opened_by};
ghost use Rattle.nbfx_values.specs.QuotasOf.{limits_of};
ghost use Rattle.string_tables.specs.SessionStrings.{used_cost};
ghost use Rattle.nbfx_decoder.specs.declared.faults.DecodeFault.{DecodeFault as Fault};
ghost use Rattle.nbfx_decoder.specs.Answers.{ShowsFault};

use crate::faults::{DecodeFault, UnitFault};
use crate::units::{UnitRead, UnitReader};
use nbfx_records::BegunBytes;
use nbfx_values::{Doc, Kept, Kind, Quotas, Reason};
use session_dictionary::SessionTable;
use static_dictionary::StaticTable;
use std::alloc::Global;

/// Reads the payloads of one direction, one after the other, in whatever pieces their bytes come:
/// records of MC-NBFX, whose identifiers name strings of the static dictionary (MC-NBFS) and, under
/// [`Kind::Session`], of the string tables of MC-NBFSE with which payloads begin. It holds of a
/// payload the items of its complete records, and the bytes of the incomplete one.
#[derive(Drop)]
pub struct Decoder<'s> {
    units: UnitReader<'s>,
    /// The bytes of the unit that has begun.
    begun: BegunBytes,
    /// How many bytes in all it needs at least.
    wants: usize,
    failure: Option<DecodeFault>,
}

impl<'s> Decoder<'s> {
    ghost use Rattle.nbfx_values.specs.declared.content.Item.{Item as Content};
    ghost use Rattle.nbfx_decoder.specs.Laws.{IsWholePayload};
    ghost use Rattle.nbfx_decoder.specs.Payload.{Settings};
    ghost use Rattle.nbfx_decoder.specs.DecoderState.{settings_of, failure_of, taken_of, held_of, content_held_of, situation_of, from_of, begun_of, table_at, Reached, StandsFor, FailedBehind, FailedWithin, WhereItStands, WhereItFailed, IsPlacedAt, FeedAnswers, FinishAnswers};
    ghost use Rattle.nbfx_decoder.specs.Values.{values_of};
    ghost use Rattle.nbfx_decoder.specs.Taking.{AllAnswers, KeepsRest, TakeAnswers, TakesRecords, TakesSome};
    ghost use Rattle.nbfx_decoder.specs.Units.{KeepsTable, KeepsSettings};

    /// A reader before the first payload, without session strings.
    pub fn new(alloc: Global, statics: &'s StaticTable, quotas: Quotas, kind: Kind) -> Decoder<'s>
        ensures stands { StandsFor result [] [] }
        ensures settings { settings_of result
            ≡ record { statics = statics.now; kind = kind; limits = limits_of quotas } }
    {
        Decoder {
            units: UnitReader::new(alloc, statics, quotas, kind),
            begun: BegunBytes::new(alloc),
            wants: 0,
            failure: None,
        }
    }

    /// Takes the next bytes of the payload, which with those before are at most as many as the
    /// payload quota. It fails at the first byte that shows why the payload is refused, or without
    /// memory, and in the same way from then on. Then the items and bytes of the payload are given
    /// up, while the strings that were complete stay in the table.
    pub fn feed(&mut self, piece: &[u8]) -> Result<(), DecodeFault>
        requires { failure_of self.old ≡ None
            → taken_of self.old + length piece.now ≤ (settings_of self.old).limits.payload }
        ensures answers { WhereItStands self.old (λ strings p.
            FeedAnswers (settings_of self.old) strings p piece.now result) }
        ensures stands { WhereItStands self.old (λ strings p.
            OnOk result (StandsFor self.new strings (p ++ piece.now))) }
        ensures failed { WhereItStands self.old (λ strings p.
            IfErr result (λ fault. FailedWithin self.new fault strings p piece.now)) }
        ensures refused { IfErr result (λ fault. failure_of self.new ≡ Some fault) }
        ensures repeated { (fault : Fault) → failure_of self.old ≡ Some fault → result ≡ Err fault }
        ensures unchanged { (fault : Fault) → failure_of self.old ≡ Some fault
            → self.new ≡ self.old }
        ensures settings { settings_of self.new ≡ settings_of self.old }
    {
        if let Some(fault) = self.failure {
            return Err(fault);
        }
        match self.take_all(piece) {
            Ok(()) => Ok(()),
            Err(fault) => Err(self.fail(fault)),
        }
    }

    /// Ends the payload, and returns its document; the next payload may follow. Where the root
    /// hasn't ended it fails with `DocumentCut`, and in the same way from then on. It takes no
    /// memory.
    pub fn finish(&mut self) -> Result<Doc, DecodeFault>
        ensures answers { WhereItStands self.old (λ strings p.
            FinishAnswers (settings_of self.old) strings p result) }
        // It gives a document exactly where the bytes are a payload of it.
        ensures whole { WhereItStands self.old (λ strings p. (items : List Content)
            → (result ≡ Ok items)
            ↔ ((own : List (List ℕ)) × IsWholePayload (settings_of self.old) strings own items p)) }
        // Then the strings are those of before, and the payload's own.
        ensures carried { WhereItStands self.old (λ strings p. (own : List (List ℕ))
            (items : List Content) → IsWholePayload (settings_of self.old) strings own items p
            → OnOk result (StandsFor self.new (strings ++ own) [])) }
        ensures anew { WhereItStands self.old (λ strings p. OnOk result
            (StandsFor self.new (situation_of (settings_of self.old) strings p).strings [])) }
        ensures failed { WhereItStands self.old (λ strings p.
            IfErr result (λ fault. FailedBehind self.new fault strings p)) }
        ensures takes_none { failure_of self.old ≡ None → result ≡ Err DecodeFault.Memory → ⊥ }
        ensures refused { IfErr result (λ fault. failure_of self.new ≡ Some fault) }
        ensures repeated { (fault : Fault) → failure_of self.old ≡ Some fault → result ≡ Err fault }
        ensures unchanged { (fault : Fault) → failure_of self.old ≡ Some fault
            → self.new ≡ self.old }
        ensures settings { settings_of self.new ≡ settings_of self.old }
    {
        if let Some(fault) = self.failure {
            return Err(fault);
        }
        if let Some(doc) = self.units.finish() {
            return Ok(doc);
        }
        let fault = UnitFault::Refused {
            reason: Reason::DocumentCut,
            shown_by: self.begun.len(),
        };
        Err(self.fail(fault))
    }

    /// Takes back a document that is no longer needed; the next payload reuses its memory.
    pub fn reuse(&mut self, doc: Doc)
        ensures stands { WhereItStands self.old (StandsFor self.new) }
        ensures failed { WhereItFailed self.old (FailedBehind self.new) }
        ensures settings { settings_of self.new ≡ settings_of self.old }
    {
        self.units.reuse(doc);
    }

    /// What it holds of the payload: the bytes of the incomplete record, and the content of the
    /// items.
    #[tactic(auto, unfolding(crate::specs::DecoderState::held_of, crate::specs::DecoderState::content_held_of))]
    pub fn kept(&self) -> Kept
        ensures held { result.raw ≡ held_of self.now }
        ensures content_held { result.content ≡ content_held_of self.now }
        ensures few { result.raw < 2 ^ 63 }
        ensures raw { WhereItStands self.now (λ strings p.
            result.raw ≡ length (begun_of (settings_of self.now) strings p)) }
        ensures content { WhereItStands self.now (λ strings p.
            result.content ≡ content_of (situation_of (settings_of self.now) strings p).items) }
        ensures within { WhereItStands self.now (λ strings p.
            (result.raw ≤ (settings_of self.now).limits.payload)
            × (result.content ≤ (settings_of self.now).limits.content)) }
        // The items that it holds are at most twice as many as the bytes, and their values as many.
        ensures few_items { WhereItStands self.now (λ strings p.
            length (situation_of (settings_of self.now) strings p).items ≤ 2 * length p) }
        ensures few_values { WhereItStands self.now (λ strings p.
            values_of (situation_of (settings_of self.now) strings p).items ≤ length p) }
        ensures failed { WhereItFailed self.now (λ fault strings p.
            result ≡ record { raw = 0; content = 0 }) }
    {
        // No slice has as many bytes as would not be counted with others.
        let _bytes = self.begun.as_slice();
        Kept {
            raw: self.begun.len() as u64,
            content: self.units.content(),
        }
    }

    /// How many bytes of the payload were read; 0 before the first one. After a refusal it is the
    /// offset at which the refused record or string begins, and after memory ran out the one at
    /// which the next one begins.
    pub fn taken(&self) -> u32
        ensures counted { result < 2 ^ 32 - 1 → result ≡ taken_of self.now }
        ensures stands { WhereItStands self.now (λ strings p. result ≡ length p) }
        ensures placed { WhereItFailed self.now (λ fault strings p.
            IsPlacedAt (from_of (settings_of self.now) strings p) fault result) }
    {
        let begun = self.begun.len().min(u32::MAX as usize) as u32;
        self.units.from().saturating_add(begun)
    }

    /// How many elements are open, the root among them.
    pub fn depth(&self) -> u32
        ensures open { WhereItStands self.now (λ strings p.
            result ≡ opened_by 0 (situation_of (settings_of self.now) strings p).items) }
        ensures within { WhereItStands self.now (λ strings p.
            result ≤ (settings_of self.now).limits.depth) }
        ensures failed { WhereItFailed self.now (λ fault strings p. result ≡ 0) }
    {
        self.units.depth()
    }

    /// The session strings of the direction so far.
    pub fn table(&self) -> &SessionTable
        ensures strings { WhereItStands self.now (λ strings p.
            result.now ≡ table_at self.now strings p) }
        ensures within { WhereItStands self.now (λ strings p.
            used_cost result.now.strings ≤ (settings_of self.now).limits.dictionary) }
        ensures failed { WhereItFailed self.now (λ fault strings p.
            result.now ≡ table_at self.now strings p) }
    {
        self.units.table()
    }

    // Takes all of the bytes.
    fn take_all(&mut self, bytes: &[u8]) -> Result<(), UnitFault>
        requires few { self.old.units.from + length self.old.begun + length bytes.now < 2 ^ 32 }
        ensures answers { (x : Settings) (strings : List (List ℕ)) (p : List ℕ)
            → Reached self.old x strings p
            → AllAnswers x strings p bytes.now self.new result }
        ensures keeps { KeepsRest self.old self.new }
    {
        let mut used = 0;
        while used < bytes.len() {
            used += self.take(&bytes[used..])?;
        }
        Ok(())
    }

    // Takes the whole records at the front, as far as each is read by its fast path.
    fn take_quickly(&mut self, bytes: &[u8]) -> usize
        requires none { self.old.begun ≡ [] }
        requires few { self.old.units.from + length bytes.now < 2 ^ 32 }
        ensures { TakesRecords self.old self.new bytes.now result }
    {
        let mut used = 0;
        while used < bytes.len() {
            match self.units.read_quickly(&bytes[used..]) {
                Some(more) => used += more,
                None => return used,
            }
        }
        used
    }

    // Takes some of the bytes: records that are read by fast paths, or else at most one unit, or what
    // is wanted of one.
    fn take(&mut self, bytes: &[u8]) -> Result<usize, UnitFault>
        requires some { 0 < length bytes.now }
        requires few { self.old.units.from + length self.old.begun + length bytes.now < 2 ^ 32 }
        ensures answers { (x : Settings) (strings : List (List ℕ)) (p : List ℕ)
            → Reached self.old x strings p
            → TakeAnswers x strings p bytes.now self.new result }
        ensures takes { IfOk result (TakesSome self.old self.new bytes.now) }
        ensures keeps { KeepsRest self.old self.new }
    {
        if self.begun.len() != 0 {
            return self.take_on(bytes);
        }
        match self.take_quickly(bytes) {
            0 => self.take_whole(bytes),
            used => Ok(used),
        }
    }

    // Takes a unit whose bytes are there, or keeps them all of one that has begun.
    #[inline(never)]
    fn take_whole(&mut self, bytes: &[u8]) -> Result<usize, UnitFault>
        requires none { self.old.begun ≡ [] }
        requires some { 0 < length bytes.now }
        requires few { self.old.units.from + length self.old.begun + length bytes.now < 2 ^ 32 }
        ensures answers { (x : Settings) (strings : List (List ℕ)) (p : List ℕ)
            → Reached self.old x strings p
            → TakeAnswers x strings p bytes.now self.new result }
        ensures takes { IfOk result (TakesSome self.old self.new bytes.now) }
        ensures keeps { KeepsRest self.old self.new }
    {
        match self.units.read(bytes)? {
            UnitRead::Done { used } => Ok(used),
            UnitRead::More { wants } => {
                self.begun.keep(bytes)?;
                self.wants = wants;
                Ok(bytes.len())
            }
        }
    }

    // Takes of the unit that has begun the bytes that are wanted.
    #[inline(never)]
    fn take_on(&mut self, bytes: &[u8]) -> Result<usize, UnitFault>
        requires begun { 0 < length self.old.begun }
        requires some { 0 < length bytes.now }
        requires few { self.old.units.from + length self.old.begun + length bytes.now < 2 ^ 32 }
        ensures answers { (x : Settings) (strings : List (List ℕ)) (p : List ℕ)
            → Reached self.old x strings p
            → TakeAnswers x strings p bytes.now self.new result }
        ensures takes { IfOk result (TakesSome self.old self.new bytes.now) }
        ensures keeps { KeepsRest self.old self.new }
    {
        let wanted = self.wants.saturating_sub(self.begun.len()).max(1);
        let used = bytes.len().min(wanted);
        self.begun.keep(&bytes[..used])?;
        if self.begun.len() < self.wants {
            return Ok(used);
        }
        match self.units.read_on(&mut self.begun)? {
            UnitRead::Done { .. } => self.begun.clear(),
            UnitRead::More { wants } => self.wants = wants,
        }
        Ok(used)
    }

    // Fails for good, and holds nothing of the payload any more.
    fn fail(&mut self, fault: UnitFault) -> DecodeFault
        ensures fault { ShowsFault self.old.units.from fault result }
        ensures memory { result ≡ DecodeFault.Memory → fault ≡ UnitFault.Memory }
        ensures failure { self.new.failure ≡ Some result }
        ensures begun { self.new.begun ≡ [] }
        ensures items { self.new.units.document ≡ [] }
        ensures from { self.new.units.from ≡ self.old.units.from }
        ensures kept { KeepsTable self.old.units self.new.units }
    {
        let at = self.units.from();
        let fault = match fault {
            UnitFault::Refused { reason, shown_by } => DecodeFault::Payload {
                at,
                reason,
                shown_by: at.saturating_add(u32::try_from(shown_by).unwrap_or(u32::MAX)),
            },
            UnitFault::Memory => DecodeFault::Memory,
        };
        self.begun.clear();
        self.units.give_up();
        self.failure = Some(fault);
        fault
    }
}
