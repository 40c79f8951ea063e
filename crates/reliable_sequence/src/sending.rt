//! The sending end of a sequence, over documents.

ghost use Rattle.std.specs.Prelude.{◌≡◌, ◌≢◌, ◌-◌, ◌^◌, ◌<◌, ◌≤◌, false, Err, IfErr, IfOk, Ok, OnErr, OnOk, option_map};
ghost use Rattle.std.specs.List.{list_all};
ghost use Rattle.soap_envelope.specs.Characters.{is_white};
ghost use Rattle.soap_envelope.specs.Making.{IsContent};
ghost use Rattle.reliable_sequence.specs.Made.{data_items};
ghost use Rattle.reliable_sequence.specs.Reading.{acknowledged_from};
ghost use Rattle.reliable_sequence.specs.Sent as spec;
ghost use Rattle.reliable_sequence.specs.Sent.{IsWithinWindow, data_of, is_acknowledged, nothing_sent, submitted, submitted_count};

use crate::faults::{RmFault, SubmitFault};
use crate::making::data_doc;
use crate::outgoing::Outgoing;
use crate::reading::ranges_in;
use nbfx_values::{Doc, Items, Txt};
use std::alloc::Global;
use std::marker::Model;
use unit_streams::Memory;

/// The sending end of a sequence. Contracts see its identifier and what was sent.
#[derive(Drop)]
pub struct Sending {
    identifier: Txt,
    outgoing: Outgoing,
}

impl Model for Sending {
    ghost use Rattle.reliable_sequence.specs.Ends.{AreContents, SendingEnd};

    ghost Value = { SendingEnd };

    ghost view = { λ s. record { identifier = s.identifier; sent = s.outgoing } };

    ghost invariant = { λ s. AreContents s.outgoing.unacknowledged };
}

impl Sending {
    /// The sending end of the sequence with this identifier, of which nothing was submitted. As many
    /// numbers as the window may stand above those that are acknowledged without a gap. The window is
    /// from 1 to 1,024, and the identifier isn't blank. It fails without memory.
    pub fn new(alloc: Global, identifier: &str, window: u32) -> Result<Sending, Memory>
        requires some { 0 < window }
        requires most { window ≤ 1024 }
        requires identifier { list_all is_white identifier.now ≡ false }
        ensures { IfOk result
            (λ s. s ≡ record { identifier = identifier.now; sent = nothing_sent window }) }
    {
        let identifier = Txt::of(alloc, identifier)?;
        let outgoing = Outgoing::new(alloc, window);
        Ok(Sending {
            identifier,
            outgoing,
        })
    }

    /// How many bodies were submitted. No more of their numbers than the window has stand above the
    /// longest front of acknowledged ones.
    pub fn submitted(&self) -> u64
        ensures counted { result ≡ submitted_count self.now.sent }
        ensures window { IsWithinWindow self.now.sent.window self.now.sent.front
            self.now.sent.unacknowledged }
    {
        self.outgoing.submitted()
    }

    /// How many numbers are acknowledged.
    pub fn acknowledged_count(&self) -> u64
        ensures { result ≡ spec.acknowledged_count self.now.sent }
    {
        self.outgoing.acknowledged_count()
    }

    /// Submits a body, as the last of the sequence or not, and gives it its number, counted from 1.
    /// A fault drops it and changes nothing.
    pub fn submit(&mut self, body: Items, last: bool) -> Result<u64, SubmitFault>
        requires few { submitted_count self.old.sent < 2 ^ 63 - 1 }
        requires content { IsContent body }
        ensures submitted { IfOk result (λ number.
            submitted self.old.sent body last ≡ Ok (number, self.new.sent)) }
        ensures refused { IfErr result (λ fault.
            fault ≢ SubmitFault.Memory → submitted self.old.sent body last ≡ Err fault) }
        ensures same { self.new.identifier ≡ self.old.identifier }
        ensures unchanged { OnErr result (self.new ≡ self.old) }
    {
        self.outgoing.submit(body, last)
    }

    /// The document that sends the body of a number. None where it isn't submitted, or is
    /// acknowledged.
    pub fn message(&self, alloc: Global, number: u64) -> Result<Option<Doc>, Memory>
        ensures { IfOk result (λ doc. doc
            ≡ option_map (data_items self.now.identifier) (data_of self.now.sent number)) }
    {
        match self.outgoing.message(number)? {
            Some(sent) => {
                let doc = data_doc(alloc, self.identifier.as_str(), sent)?;
                Ok(Some(doc))
            }
            None => Ok(None),
        }
    }

    /// Whether a number is acknowledged.
    pub fn acknowledged(&self, number: u64) -> bool
        ensures { result ≡ is_acknowledged self.now.sent number }
    {
        self.outgoing.acknowledged(number)
    }

    /// Takes a document that acknowledges ranges of numbers. After a fault nothing has changed.
    pub fn take_ack(&mut self, alloc: Global, doc: &Doc) -> Result<(), RmFault>
        ensures acknowledged { OnOk result
            (acknowledged_from self.old.identifier self.old.sent doc.now ≡ Ok self.new.sent) }
        ensures refused { IfErr result (λ fault. fault ≢ RmFault.Memory
            → acknowledged_from self.old.identifier self.old.sent doc.now ≡ Err fault) }
        ensures same { self.new.identifier ≡ self.old.identifier }
        ensures unchanged { OnErr result (self.new ≡ self.old) }
    {
        let ranges = ranges_in(alloc, self.identifier.as_str(), doc)?;
        self.outgoing.acknowledge(ranges.as_slice())
    }
}
