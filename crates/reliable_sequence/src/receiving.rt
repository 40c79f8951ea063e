//! The receiving end of a sequence, over documents.

ghost use Rattle.std.specs.Prelude.{◌≡◌, ◌≢◌, ◌<◌, ◌≤◌, false, Err, IfErr, IfOk, IsTrue, Ok, OnErr};
ghost use Rattle.std.specs.List.{list_all};
ghost use Rattle.soap_envelope.specs.Characters.{is_white};
ghost use Rattle.reliable_sequence.specs.Made.{ranges_items};
ghost use Rattle.reliable_sequence.specs.Reading.{received_from};
ghost use Rattle.reliable_sequence.specs.Received.{after_delivery, next_body, nothing_received, received_ranges};

use crate::faults::RmFault;
use crate::incoming::Incoming;
use crate::making::ranges_doc;
use crate::parts::Taken;
use crate::reading::data_in;
use nbfx_values::{Doc, Items, Txt};
use std::alloc::Global;
use std::marker::Model;
use unit_streams::Memory;

/// The receiving end of a sequence. Contracts see its identifier and what was received.
#[derive(Drop)]
pub struct Receiving {
    identifier: Txt,
    incoming: Incoming,
}

impl Model for Receiving {
    ghost use Rattle.reliable_sequence.specs.Ends.{ReceivingEnd};

    ghost Value = { ReceivingEnd };

    ghost view = { λ r. record { identifier = r.identifier; received = r.incoming } };
}

impl Receiving {
    /// The receiving end of the sequence with this identifier, of which nothing came. It holds
    /// numbers that are above the count of delivered bodies by at most the window. The window is from
    /// 1 to 1,024, and the identifier isn't blank. It fails without memory.
    pub fn new(alloc: Global, identifier: &str, window: u32) -> Result<Receiving, Memory>
        requires some { 0 < window }
        requires most { window ≤ 1024 }
        requires identifier { list_all is_white identifier.now ≡ false }
        ensures { IfOk result (λ r. r
            ≡ record { identifier = identifier.now; received = nothing_received window }) }
    {
        let identifier = Txt::of(alloc, identifier)?;
        let incoming = Incoming::new(alloc, window);
        Ok(Receiving {
            identifier,
            incoming,
        })
    }

    /// How many bodies were delivered.
    pub fn delivered(&self) -> u64
        ensures { result ≡ self.now.received.delivered }
    {
        self.incoming.delivered()
    }

    /// Takes a document that sends a body. One whose number is held is there until `deliver` gives
    /// it. After a fault nothing has changed.
    pub fn take(&mut self, alloc: Global, doc: &Doc) -> Result<Taken, RmFault>
        ensures taken { IfOk result (λ taken.
            received_from self.old.identifier self.old.received doc.now
            ≡ Ok (taken, self.new.received)) }
        ensures refused { IfErr result (λ fault. fault ≢ RmFault.Memory
            → received_from self.old.identifier self.old.received doc.now ≡ Err fault) }
        ensures same { self.new.identifier ≡ self.old.identifier }
        ensures unchanged { OnErr result (self.new ≡ self.old) }
    {
        let sent = data_in(alloc, self.identifier.as_str(), doc)?;
        self.incoming.take(sent)
    }

    /// The next body in order, which is delivered by that. None where its number isn't held.
    pub fn deliver(&mut self) -> Option<Items>
        ensures body { result ≡ next_body self.old.received.held }
        ensures delivered { self.new.received ≡ after_delivery self.old.received }
        ensures same { self.new.identifier ≡ self.old.identifier }
    {
        self.incoming.deliver()
    }

    /// The document that acknowledges all numbers that were delivered or are held. It fails without
    /// memory for it.
    pub fn ack(&self, alloc: Global) -> Result<Doc, Memory>
        ensures { IfOk result
            (λ doc. doc ≡ ranges_items self.now.identifier (received_ranges self.now.received)) }
    {
        let ranges = self.incoming.ranges(alloc)?;
        ranges_doc(alloc, self.identifier.as_str(), ranges.as_slice())
    }
}
