//! Both ends of a sequence, and all documents that were ever sent between them.

ghost use Rattle.std.specs.Prelude.{◌≡◌, ◌+◌, ◌<◌, ◌≤◌, false, IfOk};
ghost use Rattle.std.specs.List.{list_all};
ghost use Rattle.soap_envelope.specs.Characters.{is_white};
ghost use Rattle.reliable_sequence.specs.Rehearsal.{IsReached, MayHappen, counts_of, delivered_by, kept_after, nothing_kept};
ghost use Rattle.reliable_sequence.specs.Sent.{submitted_count};

use crate::events::{Counts, Event};
use crate::exchange::Exchange;
use crate::outgoing::Outgoing;
use crate::receipts::Receipts;
use nbfx_values::{Items, Sequence, Txt};
use std::alloc::Global;
use std::marker::Model;
use unit_streams::Memory;

/// Both ends of a sequence, and all documents that were ever sent between them. Contracts see `Kept`
/// of `specs/Rehearsal`. It keeps what the documents say, and each body that was submitted once.
#[derive(Drop)]
pub struct World {
    exchange: Exchange,
}

impl Model for World {
    ghost use Rattle.reliable_sequence.specs.Rehearsal.{IsReached, Kept};

    ghost Value = { Kept };

    ghost view = { λ w. w.exchange };

    ghost invariant = { λ w. IsReached w.exchange };
}

impl World {
    /// The ends of a sequence of which nothing was submitted or sent. The window is from 1 to 1,024,
    /// and the identifier isn't blank. It fails without memory.
    pub fn new(alloc: Global, identifier: &str, window: u32) -> Result<World, Memory>
        requires some { 0 < window }
        requires most { window ≤ 1024 }
        requires identifier { list_all is_white identifier.now ≡ false }
        ensures { IfOk result (λ w. w ≡ nothing_kept identifier.now window) }
    {
        let identifier = Txt::of(alloc, identifier)?;
        let exchange = Exchange {
            identifier,
            outgoing: Outgoing::new(alloc, window),
            receipts: Receipts::new(alloc, window),
            bodies: Sequence::new(alloc),
            marks: Sequence::new(alloc),
        };
        Ok(World { exchange })
    }

    /// How many bodies were submitted and delivered, and how many numbers are acknowledged. Every
    /// World is reached from a new one by events that may happen, so what `laws::sequences` says
    /// holds of it.
    pub fn counts(&self) -> Counts
        ensures counted { result ≡ counts_of self.now }
        ensures reached { IsReached self.now }
    {
        self.exchange.counts()
    }

    /// The world after an event, and the body that it delivers. An event that is refused for another
    /// cause than memory, or has nothing to give, changes nothing. Out of memory, the world is gone.
    /// A body that is submitted may stand in Body, where its names have their namespaces and no
    /// element declares a prefix twice, and fewer than 2^63 - 1 bodies were submitted before.
    pub fn step(self, alloc: Global, event: Event) -> Result<(World, Option<Items>), Memory>
        requires { MayHappen self event }
        ensures kept { IfOk result (λ step. step.0 ≡ kept_after self event) }
        ensures body { IfOk result (λ step. step.1 ≡ delivered_by self event) }
        ensures counted { IfOk result (λ step.
            submitted_count step.0.sender ≤ submitted_count self.sender + 1) }
    {
        let World { exchange } = self;
        let next = exchange.after(alloc, event)?;
        let (exchange, body) = next;
        Ok((World { exchange }, body))
    }
}
