//! The sending end of a sequence.

ghost use Rattle.std.specs.Prelude.{◌≡◌, ◌≢◌, ◌+◌, ◌-◌, ◌^◌, ◌<◌, Err, IfErr, IfOk, Ok, OnErr, OnOk};
ghost use Rattle.std.specs.Option.{option_copied};
ghost use Rattle.reliable_sequence.specs.Exchange.{mark_of};
ghost use Rattle.reliable_sequence.specs.Sent as spec;
ghost use Rattle.reliable_sequence.specs.Sent.{IsWithinWindow, acknowledged, data_of, is_acknowledged, nothing_sent, sent_with_slots, submitted, submitted_count, without, without_all};

use crate::faults::{RmFault, SubmitFault};
use crate::parts::{Data, Marked};
use crate::ranges::{Range, first_above};
use crate::slots::Slots;
use nbfx_values::{Copied, Items};
use std::alloc::Global;
use std::marker::Model;
use unit_streams::Memory;

/// The sending end of a sequence: it keeps the bodies that aren't acknowledged, and may send each
/// of them as often as need be. Contracts see `Sent` of `specs/Sent`.
#[derive(Drop)]
pub struct Outgoing {
    window: u32,
    front: u64,
    unacknowledged: Slots,
    // How many numbers are acknowledged.
    acknowledged: u64,
    closed: bool,
}

impl Model for Outgoing {
    ghost use Rattle.std.specs.Prelude.{◌≡◌, ◌+◌};
    ghost use Rattle.reliable_sequence.specs.Sent.{IsWithinWindow, Sent};
    ghost use Rattle.reliable_sequence.specs.Slots.{free_count};

    ghost Value = { Sent };

    ghost view = { λ o. record {
      window = o.window;
      front = o.front;
      unacknowledged = o.unacknowledged;
      closed = o.closed;
    } };

    ghost invariant = { λ o. IsWithinWindow o.window o.front o.unacknowledged
        × (o.acknowledged ≡ o.front + free_count o.unacknowledged) };
}

impl Outgoing {
    /// The sending end of a sequence of which nothing was submitted. As many numbers as the window
    /// may stand above those that are acknowledged without a gap.
    pub fn new(alloc: Global, window: u32) -> Outgoing
        ensures { result ≡ nothing_sent window }
    {
        Outgoing {
            window,
            front: 0,
            unacknowledged: Slots::new(alloc),
            acknowledged: 0,
            closed: false,
        }
    }

    /// How many bodies were submitted.
    pub fn submitted(&self) -> u64
        ensures counted { result ≡ submitted_count self.now }
        ensures window { IsWithinWindow self.now.window self.now.front self.now.unacknowledged }
    {
        self.front + self.unacknowledged.len() as u64
    }

    /// How many numbers are acknowledged.
    pub fn acknowledged_count(&self) -> u64
        ensures { result ≡ spec.acknowledged_count self.now }
    {
        self.acknowledged
    }

    /// Submits a body, as the last of the sequence or not, and gives it its number, counted from 1.
    /// Fewer than 2^63 - 1 bodies were submitted before. It fails with `Closed` after the last
    /// body, with `WindowFull` where the window is used up, or without memory; then the body is
    /// dropped, and nothing has changed.
    pub fn submit(&mut self, body: Items, last: bool) -> Result<u64, SubmitFault>
        requires { submitted_count self.old < 2 ^ 63 - 1 }
        ensures submitted { IfOk result (λ number.
            submitted self.old body last ≡ Ok (number, self.new)) }
        ensures refused { IfErr result (λ fault.
            fault ≢ SubmitFault.Memory → submitted self.old body last ≡ Err fault) }
        ensures unchanged { OnErr result (self.new ≡ self.old) }
    {
        if self.closed {
            return Err(SubmitFault::Closed);
        }
        let unacked = self.unacknowledged.len() as u64;
        if unacked == self.window as u64 {
            return Err(SubmitFault::WindowFull { unacked });
        }
        self.unacknowledged.push_body(body)?;
        self.closed = last;
        Ok(self.submitted())
    }

    // The body of a number that isn't acknowledged.
    fn body_of(&self, number: u64) -> Option<&Items>
        ensures { option_copied result ≡ spec.body_of self.now number }
    {
        if number <= self.front {
            return None;
        }
        self.unacknowledged
            .body_at((number - self.front - 1) as usize)
    }

    /// What is sent under a number, as a copy. None where it isn't submitted, or is acknowledged.
    /// It fails without memory for the copy.
    pub fn message(&self, number: u64) -> Result<Option<Data>, Memory>
        ensures { IfOk result (λ sent. sent ≡ data_of self.now number) }
    {
        match self.body_of(number) {
            Some(body) => {
                let body = body.copy()?;
                let last = self.closed && number == self.submitted();
                Ok(Some(Data { number, last, body }))
            }
            None => Ok(None),
        }
    }

    /// The mark under which a number is sent. None where it isn't submitted, or is acknowledged.
    pub fn mark(&self, number: u64) -> Option<Marked>
        ensures { result ≡ mark_of self.now number }
    {
        self.body_of(number)?;
        let last = self.closed && number == self.submitted();
        Some(Marked { number, last })
    }

    /// Whether a number is acknowledged.
    pub fn acknowledged(&self, number: u64) -> bool
        ensures { result ≡ is_acknowledged self.now number }
    {
        if number == 0 || number > self.submitted() {
            return false;
        }
        self.body_of(number).is_none()
    }

    /// Counts the numbers of these ranges as acknowledged. It fails with `InvalidAck` where a range
    /// ends above what was submitted; then nothing has changed. It takes no memory.
    pub fn acknowledge(&mut self, ranges: &[Range]) -> Result<(), RmFault>
        ensures acknowledged { OnOk result (acknowledged self.old ranges.now ≡ Ok self.new) }
        ensures refused { IfErr result (λ fault. acknowledged self.old ranges.now ≡ Err fault) }
        ensures unchanged { OnErr result (self.new ≡ self.old) }
    {
        if let Some(upper) = first_above(self.submitted(), ranges) {
            return Err(RmFault::InvalidAck { upper });
        }
        free_ranges(&mut self.unacknowledged, self.front, ranges);
        self.front += self.unacknowledged.pop_free() as u64;
        self.acknowledged = self.front + self.unacknowledged.free_count() as u64;
        Ok(())
    }
}

// Takes away the bodies of a range, where so many numbers stand in front of the places.
fn free_range(slots: &mut Slots, front: u64, range: Range)
    ensures { slots.new ≡ without front slots.old range }
{
    let len = slots.len() as u64;
    let end = range.upper.saturating_sub(front).min(len);
    let from = range.lower.saturating_sub(front).saturating_sub(1);
    if from < end {
        slots.free(from as usize, end as usize);
    }
}

// Takes away those of each of some ranges.
fn free_ranges(slots: &mut Slots, front: u64, ranges: &[Range])
    ensures { slots.new ≡ without_all front slots.old ranges.now }
{
    for range in ranges {
        free_range(slots, front, *range);
    }
}
