//! What is kept of both ends of a sequence, and what each event makes of it.

ghost use Rattle.std.specs.Prelude.{◌≡◌, ◌+◌, ◌-◌, ◌^◌, ◌<◌, ◌++◌, ◌∷◌, [], IfOk, OnOk, option_map, slice_get};
ghost use Rattle.std.specs.Option.{option_to_list};
ghost use Rattle.reliable_sequence.specs.Exchange.{after_data, after_ranges, body_or_none, data_at, mark_of, with_submission};
ghost use Rattle.reliable_sequence.specs.Received.{received};
ghost use Rattle.reliable_sequence.specs.Rehearsal.{MayHappen, MaySubmit, after_receipt, counts_of, delivered_by, kept_after};
ghost use Rattle.reliable_sequence.specs.Sent.{submitted, submitted_count};
ghost use Rattle.reliable_sequence.specs.declared.events.Event.TheVariants as events;

use crate::events::{Counts, Event};
use crate::faults::SubmitFault;
use crate::outgoing::Outgoing;
use crate::parts::{Data, Marked};
use crate::receipts::Receipts;
use nbfx_values::{Copied, Items, Sequence, Txt};
use std::alloc::Global;
use std::marker::Model;
use unit_streams::Memory;

/// Both ends of one sequence, and what was sent between them, each kind in order. Its documents
/// aren't made: each is read as the numbers, the body or the ranges that it is made of. So what
/// is sent or handed over costs no document, however large its body is.
#[derive(Drop)]
pub(crate) struct Exchange {
    pub(crate) identifier: Txt,
    pub(crate) outgoing: Outgoing,
    pub(crate) receipts: Receipts,
    // The bodies that were submitted, in the order of their numbers.
    pub(crate) bodies: Sequence<Items>,
    pub(crate) marks: Sequence<Marked>,
}

impl Model for Exchange {
    ghost use Rattle.reliable_sequence.specs.Exchange.{kept_of, world_of};
    ghost use Rattle.reliable_sequence.specs.Rehearsal.{Kept};
    ghost use Rattle.reliable_sequence.specs.Soundness.{IsSound};

    ghost Value = { Kept };

    ghost view = { λ e. kept_of e.identifier
        (world_of e.outgoing e.receipts.received e.bodies e.marks e.receipts.sent) };

    ghost invariant = { λ e. IsSound
        (world_of e.outgoing e.receipts.received e.bodies e.marks e.receipts.sent) };
}

// Submits a body, of which one copy is kept apart.
fn submit(
    outgoing: &mut Outgoing,
    bodies: &mut Sequence<Items>,
    body: Items,
    last: bool,
) -> Result<(), Memory>
    requires { submitted_count outgoing.old < 2 ^ 63 - 1 }
    ensures { OnOk result ((outgoing.new, bodies.new)
        ≡ with_submission outgoing.old bodies.old body (submitted outgoing.old body last)) }
{
    let copied = body.copy()?;
    match outgoing.submit(body, last) {
        Ok(_) => bodies.push(copied),
        Err(SubmitFault::Memory) => Err(Memory),
        Err(_) => Ok(()),
    }
}

// Sends a number.
fn send(outgoing: &Outgoing, marks: &mut Sequence<Marked>, number: u64) -> Result<(), Memory>
    ensures { OnOk result (marks.new ≡ marks.old ++ option_to_list (mark_of outgoing.now number)) }
{
    match outgoing.mark(number) {
        Some(mark) => marks.push(mark),
        None => Ok(()),
    }
}

// A copy of the body that was submitted under a number.
fn body_of(alloc: Global, bodies: &Sequence<Items>, number: u64) -> Result<Items, Memory>
    ensures { IfOk result
        (λ body. body ≡ body_or_none (slice_get bodies.now (number - 1))) }
{
    match bodies.get(number.saturating_sub(1) as usize) {
        Some(body) => body.copy(),
        None => Ok(Items::new(alloc)),
    }
}

// What is sent under a number, to an end that looks at its body only where the number is new to it.
fn data_for(
    alloc: Global,
    receipts: &Receipts,
    bodies: &Sequence<Items>,
    mark: Marked,
) -> Result<Data, Memory>
    ensures { IfOk result (λ sent.
        after_receipt receipts.now.received (received receipts.now.received sent)
        ≡ after_receipt receipts.now.received
        (received receipts.now.received (data_at bodies.now mark))) }
{
    let Marked { number, last } = mark;
    if receipts.wants(number) {
        let body = body_of(alloc, bodies, number)?;
        return Ok(Data { number, last, body });
    }
    let body = Items::new(alloc);
    Ok(Data { number, last, body })
}

// Hands over what was sent at a place.
fn hand_over(
    alloc: Global,
    receipts: &mut Receipts,
    bodies: &Sequence<Items>,
    marks: &Sequence<Marked>,
    at: u64,
) -> Result<(), Memory>
    ensures received { OnOk result (receipts.new.received ≡ after_data receipts.old.received
        (option_map (data_at bodies.now) (slice_get marks.now at))) }
    ensures sent { receipts.new.sent ≡ receipts.old.sent }
{
    let Some(mark) = marks.get(at as usize) else {
        return Ok(());
    };
    let sent = data_for(alloc, receipts, bodies, *mark)?;
    receipts.take(sent)
}

// Hands over the ranges that were sent at a place.
fn hand_back(outgoing: &mut Outgoing, receipts: &Receipts, at: u64)
    ensures { outgoing.new ≡ after_ranges outgoing.old (slice_get receipts.now.sent at) }
{
    if let Some(ranges) = receipts.ranges(at) {
        let _ = outgoing.acknowledge(ranges.as_slice());
    }
}

impl Exchange {
    pub(crate) fn counts(&self) -> Counts
        ensures { result ≡ counts_of self.now }
    {
        Counts {
            submitted: self.outgoing.submitted(),
            delivered: self.receipts.delivered(),
            acknowledged: self.outgoing.acknowledged_count(),
        }
    }

    fn submit(self, body: Items, last: bool) -> Result<Exchange, Memory>
        requires { MaySubmit self.sender body }
        ensures { IfOk result (λ next. next ≡ kept_after self (events.Submit body last)) }
    {
        let Exchange {
            identifier,
            mut outgoing,
            receipts,
            mut bodies,
            marks,
        } = self;
        submit(&mut outgoing, &mut bodies, body, last)?;
        Ok(Exchange {
            identifier,
            outgoing,
            receipts,
            bodies,
            marks,
        })
    }

    fn send(self, number: u64) -> Result<Exchange, Memory>
        ensures { IfOk result (λ next. next ≡ kept_after self (events.Send number)) }
    {
        let Exchange {
            identifier,
            outgoing,
            receipts,
            bodies,
            mut marks,
        } = self;
        send(&outgoing, &mut marks, number)?;
        Ok(Exchange {
            identifier,
            outgoing,
            receipts,
            bodies,
            marks,
        })
    }

    fn hand_over(self, alloc: Global, at: u64) -> Result<Exchange, Memory>
        ensures { IfOk result (λ next. next ≡ kept_after self (events.Data at)) }
    {
        let Exchange {
            identifier,
            outgoing,
            mut receipts,
            bodies,
            marks,
        } = self;
        hand_over(alloc, &mut receipts, &bodies, &marks, at)?;
        Ok(Exchange {
            identifier,
            outgoing,
            receipts,
            bodies,
            marks,
        })
    }

    fn deliver(self) -> (Exchange, Option<Items>)
        ensures kept { result.0 ≡ kept_after self events.Deliver }
        ensures body { result.1 ≡ delivered_by self events.Deliver }
    {
        let Exchange {
            identifier,
            outgoing,
            mut receipts,
            bodies,
            marks,
        } = self;
        let body = receipts.deliver();
        let next = Exchange {
            identifier,
            outgoing,
            receipts,
            bodies,
            marks,
        };
        (next, body)
    }

    fn send_ack(self, alloc: Global) -> Result<Exchange, Memory>
        ensures { IfOk result (λ next. next ≡ kept_after self events.SendAck) }
    {
        let Exchange {
            identifier,
            outgoing,
            mut receipts,
            bodies,
            marks,
        } = self;
        receipts.acknowledge(alloc)?;
        Ok(Exchange {
            identifier,
            outgoing,
            receipts,
            bodies,
            marks,
        })
    }

    fn hand_back(self, at: u64) -> Exchange
        ensures { result ≡ kept_after self (events.Ack at) }
    {
        let Exchange {
            identifier,
            mut outgoing,
            receipts,
            bodies,
            marks,
        } = self;
        hand_back(&mut outgoing, &receipts, at);
        Exchange {
            identifier,
            outgoing,
            receipts,
            bodies,
            marks,
        }
    }

    /// What is kept after an event, and the body that it delivers.
    pub(crate) fn after(
        self,
        alloc: Global,
        event: Event,
    ) -> Result<(Exchange, Option<Items>), Memory>
        requires { MayHappen self event }
        ensures kept { IfOk result (λ next. next.0 ≡ kept_after self event) }
        ensures body { IfOk result (λ next. next.1 ≡ delivered_by self event) }
    {
        match event {
            Event::Submit { body, last } => Ok((self.submit(body, last)?, None)),
            Event::Send(number) => Ok((self.send(number)?, None)),
            Event::Data(at) => Ok((self.hand_over(alloc, at)?, None)),
            Event::Deliver => Ok(self.deliver()),
            Event::SendAck => Ok((self.send_ack(alloc)?, None)),
            Event::Ack(at) => Ok((self.hand_back(at), None)),
        }
    }
}
