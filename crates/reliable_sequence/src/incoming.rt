//! The receiving end of a sequence.

ghost use Rattle.std.specs.Prelude.{◌≡◌, ◌≢◌, ◌≤◌, ◌<◌, Err, IfErr, IfOk, Ok, OnErr, OnOk};
ghost use Rattle.reliable_sequence.specs.Made.{AreSmall};
ghost use Rattle.reliable_sequence.specs.Exchange.{is_wanted};
ghost use Rattle.reliable_sequence.specs.Received as spec;
ghost use Rattle.reliable_sequence.specs.Received.{after_delivery, has_number, newest, next_body, nothing_received, received, received_anew, received_ranges};

use crate::faults::RmFault;
use crate::parts::{Data, Taken};
use crate::ranges::Ranges;
use crate::slots::Slots;
use nbfx_values::Items;
use std::alloc::Global;
use std::marker::Model;
use unit_streams::Memory;

/// The receiving end of a sequence: it holds the bodies that came before their turn. Contracts see
/// `Received` of `specs/Received`.
#[derive(Drop)]
pub struct Incoming {
    window: u32,
    delivered: u64,
    held: Slots,
    last: Option<u64>,
}

impl Model for Incoming {
    ghost use Rattle.std.specs.Prelude.{IsTrue, ◌+◌, ◌^◌, ◌<◌, length};
    ghost use Rattle.reliable_sequence.specs.Received.{Received};
    ghost use Rattle.reliable_sequence.specs.Slots.{ends_with_body};

    ghost Value = { Received };

    ghost view = { λ i. record {
      window = i.window;
      delivered = i.delivered;
      held = i.held;
      last = i.last;
    } };

    ghost invariant = { λ i. (i.delivered + length i.held < 2 ^ 64)
        × IsTrue (ends_with_body i.held) };
}

impl Incoming {
    /// The receiving end of a sequence of which nothing came, and which holds numbers that are above
    /// the count of delivered bodies by at most the window. A peer can have as many places made as
    /// the window has.
    pub fn new(alloc: Global, window: u32) -> Incoming
        ensures { result ≡ nothing_received window }
    {
        Incoming {
            window,
            delivered: 0,
            held: Slots::new(alloc),
            last: None,
        }
    }

    /// How many bodies were delivered.
    pub fn delivered(&self) -> u64
        ensures { result ≡ self.now.delivered }
    {
        self.delivered
    }

    // The greatest number that was received.
    fn newest(&self) -> u64
        ensures { result ≡ newest self.now }
    {
        self.delivered + self.held.len() as u64
    }

    // Whether a number was delivered or is held.
    fn has_number(&self, number: u64) -> bool
        ensures { result ≡ has_number self.now number }
    {
        number <= self.delivered || self.held.has_body((number - self.delivered - 1) as usize)
    }

    /// Whether the body of a number is held once it is taken: it isn't received, and is near enough.
    pub fn wants(&self, number: u64) -> bool
        ensures { result ≡ is_wanted self.now number }
    {
        !self.has_number(number) && number - self.delivered <= self.window as u64
    }

    // Whether a number comes behind the last, or is marked as the last and came before another.
    fn breaks_the_end(&self, sent: &Data) -> bool
        ensures { result ≡ spec.breaks_the_end self.now sent.now }
    {
        let is_behind = match self.last {
            Some(last) => last < sent.number,
            None => false,
        };
        is_behind || (sent.last && sent.number < self.newest())
    }

    // The last number, where this one is received too, marked as the last or not: 0 is no number.
    fn last_with(&self, number: u64, last: bool) -> Option<u64>
        ensures { result ≡ spec.last_with number last self.now.last }
    {
        if last && number > 0 {
            Some(number)
        } else {
            self.last
        }
    }

    // Holds the body of a number that wasn't received.
    fn hold(&mut self, number: u64, last: bool, body: Items) -> Result<(), Memory>
        requires { self.old.delivered < number }
        ensures held { OnOk result (self.new ≡ received_anew self.old
            (record { number = number; last = last; body = body })) }
        ensures unchanged { OnErr result (self.new ≡ self.old) }
    {
        self.held.put((number - self.delivered - 1) as usize, body)?;
        self.last = self.last_with(number, last);
        Ok(())
    }

    /// Takes a body that came, and answers what became of it. One whose number is held is there
    /// until `deliver` gives it. It fails with `AfterLast` where that doesn't agree with which body
    /// is the last, or without memory for its place; then nothing has changed.
    pub fn take(&mut self, sent: Data) -> Result<Taken, RmFault>
        ensures taken { IfOk result (λ taken. received self.old sent ≡ Ok (taken, self.new)) }
        ensures refused { IfErr result (λ fault.
            fault ≢ RmFault.Memory → received self.old sent ≡ Err fault) }
        ensures unchanged { OnErr result (self.new ≡ self.old) }
    {
        if self.breaks_the_end(&sent) {
            return Err(RmFault::AfterLast {
                number: sent.number,
            });
        }
        let Data { number, last, body } = sent;
        if self.has_number(number) {
            self.last = self.last_with(number, last);
            return Ok(Taken::Again);
        }
        if number - self.delivered > self.window as u64 {
            return Ok(Taken::Ahead { number });
        }
        self.hold(number, last, body)?;
        Ok(Taken::New)
    }

    /// The next body in order, which is delivered by that. None where its number isn't held.
    pub fn deliver(&mut self) -> Option<Items>
        ensures body { result ≡ next_body self.old.held }
        ensures delivered { self.new ≡ after_delivery self.old }
    {
        if !self.held.has_body(0) {
            return None;
        }
        self.delivered += 1;
        self.held.pop_first()
    }

    // The ranges of the numbers that were received.
    fn received(&self, alloc: Global) -> Result<Ranges, Memory>
        ensures { IfOk result (λ ranges. ranges ≡ received_ranges self.now) }
    {
        let begun = if self.delivered == 0 { None } else { Some(1) };
        self.held.runs(alloc, begun, self.delivered)
    }

    /// The ranges of the numbers that were delivered or are held, in rising order. It fails without
    /// memory for the list.
    pub fn ranges(&self, alloc: Global) -> Result<Ranges, Memory>
        ensures ranges { IfOk result (λ ranges. ranges ≡ received_ranges self.now) }
        ensures small { IfOk result AreSmall }
    {
        // No end is above a number.
        let _newest = self.newest();
        let ranges = self.received(alloc)?;
        Ok(ranges)
    }
}
