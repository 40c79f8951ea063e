//! The receiving end with what it acknowledged.

ghost use Rattle.std.specs.Prelude.{◌≡◌, ◌-◌, ◌⊎◌, ◌∷◌, ◌++◌, [], IfOk, IsTrue, OnErr, OnOk, Some, length, slice_get};
ghost use Rattle.std.specs.Option.{option_copied};
ghost use Rattle.reliable_sequence.specs.Exchange.{is_wanted};
ghost use Rattle.reliable_sequence.specs.Receipts.{receipts};
ghost use Rattle.reliable_sequence.specs.Received.{after_delivery, next_body, nothing_received, received, received_ranges};
ghost use Rattle.reliable_sequence.specs.Rehearsal.{after_receipt};

use crate::faults::RmFault;
use crate::incoming::Incoming;
use crate::parts::Data;
use crate::ranges::{Range, Ranges};
use nbfx_values::{Items, Sequence};
use std::alloc::Global;
use std::marker::Model;
use unit_streams::Memory;

/// The receiving end of a sequence, and the ranges of the acknowledgements that it sent. What was
/// received changes by a body that comes, and any number of acknowledgements may be sent between
/// two: their ranges are kept once. Contracts see `Receipts` of `specs/Receipts`.
#[derive(Drop)]
pub(crate) struct Receipts {
    incoming: Incoming,
    lists: Sequence<Ranges>,
    // Which of the lists each acknowledgement has.
    places: Sequence<usize>,
    // The last list has what was received.
    is_listed: bool,
}

impl Model for Receipts {
    ghost use Rattle.std.specs.Prelude.{◌≡◌, ◌-◌, IsTrue, Some, length, map, slice_get};
    ghost use Rattle.reliable_sequence.specs.Receipts as spec;
    ghost use Rattle.reliable_sequence.specs.Receipts.{AreBelow, ranges_at, receipts};
    ghost use Rattle.reliable_sequence.specs.Received.{received_ranges};

    ghost Value = { spec.Receipts };

    ghost view = { λ r. receipts r.incoming (map (ranges_at r.lists) r.places) };

    ghost invariant = { λ r. AreBelow (length r.lists) r.places × (IsTrue r.is_listed
        → slice_get r.lists (length r.lists - 1) ≡ Some (received_ranges r.incoming)) };
}

// Whether two lists have the same ranges.
fn are_same(first: &[Range], second: &[Range]) -> bool
    ensures { IsTrue result → first.now ≡ second.now }
{
    if first.len() != second.len() {
        return false;
    }
    for at in 0..first.len() {
        if first[at].lower != second[at].lower || first[at].upper != second[at].upper {
            return false;
        }
    }
    true
}

// Whether the last of some lists has these ranges.
fn ends_with(lists: &Sequence<Ranges>, ranges: &Ranges) -> bool
    ensures { IsTrue result → slice_get lists.now (length lists.now - 1) ≡ Some ranges.now }
{
    match lists.get(lists.len().saturating_sub(1)) {
        Some(last) => are_same(last.as_slice(), ranges.as_slice()),
        None => false,
    }
}

// The same ranges, in the memory that they need.
fn trimmed(alloc: Global, ranges: &Ranges) -> Result<Ranges, Memory>
    ensures { IfOk result (λ trimmed. trimmed ≡ ranges.now) }
{
    let mut trimmed = Ranges::new(alloc);
    trimmed.reserve(ranges.len())?;
    for range in ranges.as_slice() {
        trimmed.push(*range)?;
    }
    Ok(trimmed)
}

// Puts what was received behind the lists, unless the last has it.
fn list(alloc: Global, lists: &mut Sequence<Ranges>, incoming: &Incoming) -> Result<(), Memory>
    ensures last { OnOk result (slice_get lists.new (length lists.new - 1)
        ≡ Some (received_ranges incoming.now)) }
    ensures grown { OnOk result ((lists.new ≡ lists.old)
        ⊎ (lists.new ≡ lists.old ++ received_ranges incoming.now ∷ [])) }
    ensures unchanged { OnErr result (lists.new ≡ lists.old) }
{
    let ranges = incoming.ranges(alloc)?;
    if ends_with(lists, &ranges) {
        return Ok(());
    }
    let trimmed = trimmed(alloc, &ranges)?;
    lists.push(trimmed)
}

impl Receipts {
    /// Nothing came, and nothing was acknowledged.
    pub(crate) fn new(alloc: Global, window: u32) -> Receipts
        ensures { result ≡ receipts (nothing_received window) [] }
    {
        Receipts {
            incoming: Incoming::new(alloc, window),
            lists: Sequence::new(alloc),
            places: Sequence::new(alloc),
            is_listed: false,
        }
    }

    /// How many bodies were delivered.
    pub(crate) fn delivered(&self) -> u64
        ensures { result ≡ self.now.received.delivered }
    {
        self.incoming.delivered()
    }

    /// Whether the body of a number is held once it is taken.
    pub(crate) fn wants(&self, number: u64) -> bool
        ensures { result ≡ is_wanted self.now.received number }
    {
        self.incoming.wants(number)
    }

    /// Takes a body that came.
    pub(crate) fn take(&mut self, brought: Data) -> Result<(), Memory>
        ensures received { OnOk result (self.new.received
            ≡ after_receipt self.old.received (received self.old.received brought)) }
        ensures sent { self.new.sent ≡ self.old.sent }
    {
        self.is_listed = false;
        match self.incoming.take(brought) {
            Err(RmFault::Memory) => Err(Memory),
            _ => Ok(()),
        }
    }

    /// The next body in order, which is delivered by that.
    pub(crate) fn deliver(&mut self) -> Option<Items>
        ensures body { result ≡ next_body self.old.received.held }
        ensures received { self.new.received ≡ after_delivery self.old.received }
        ensures sent { self.new.sent ≡ self.old.sent }
    {
        self.is_listed = false;
        self.incoming.deliver()
    }

    /// The ranges of the acknowledgement that was sent at a place, counted from 0.
    pub(crate) fn ranges(&self, at: u64) -> Option<&Ranges>
        ensures { option_copied result ≡ slice_get self.now.sent at }
    {
        match self.places.get(at as usize) {
            Some(place) => self.lists.get(*place),
            None => None,
        }
    }

    /// Sends an acknowledgement of what was received.
    pub(crate) fn acknowledge(&mut self, alloc: Global) -> Result<(), Memory>
        ensures received { self.new.received ≡ self.old.received }
        ensures sent { OnOk result (self.new.sent
            ≡ self.old.sent ++ received_ranges self.old.received ∷ []) }
    {
        if self.is_listed {
            return self.places.push(self.lists.len().saturating_sub(1));
        }
        list(alloc, &mut self.lists, &self.incoming)?;
        self.is_listed = true;
        self.places.push(self.lists.len().saturating_sub(1))
    }
}
