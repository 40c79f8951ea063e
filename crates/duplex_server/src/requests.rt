//! A reader of an initiator's stream for a server.

ghost use Rattle.std.specs.Prelude.{◌≡◌, List, ℕ, [], IfOk};
ghost use Rattle.nbfx_values.specs.QuotasOf.{limits_of};
ghost use Rattle.nmf_records.specs.declared.script.Direction.TheVariants.{FromInitiator};
ghost use Rattle.receiver_machine.specs.ReceiverState.{StandsFor, settings_of};
ghost use Rattle.stream_reader.specs.Sides.{endpoint_of};
ghost use Rattle.stream_reader.specs.Stream.{direction_of, initiators};
ghost use Rattle.duplex_server.specs.Requests.{request_in};

use nbfx_values::{Doc, Kind, Mode, Offence, Quotas};
use receiver_machine::{Endpoint, ReadRefusal, Receiver, Step};
use static_dictionary::StaticTable;
use std::alloc::Global;
use stream_loop::{FeedFault, ReadingEnd};
use unit_streams::Memory;

/// An event of an initiator's stream, as far as a server answers it.
#[derive(Debug, Drop)]
pub enum Request {
    /// The preamble. Answers go by this mode and this encoding.
    Opened { mode: Mode, kind: Kind },
    /// An envelope with this document.
    Received(Doc),
    /// The End record.
    Ended,
}

// What a step brings.
#[inline(always)]
fn request_in(step: Step) -> Option<Request>
    ensures { result ≡ request_in step }
{
    match step {
        Step::More => None,
        Step::Opened { mode, kind } => Some(Request::Opened { mode, kind }),
        Step::Message { doc, .. } => Some(Request::Received(doc)),
        Step::Ended { .. } => Some(Request::Ended),
        // A receiver alone sends these records (MC-NMF): an initiator's stream that has one is
        // refused there. No request is owed anything for them.
        Step::PeerFault { .. } | Step::Accepted => Some(Request::Ended),
    }
}

/// Reads an initiator's stream (MC-NMF), whose events are requests.
#[derive(Drop)]
pub struct RequestReader<'s> {
    receiver: Receiver<'s>,
    ghost initiators: { direction_of (settings_of receiver).side ≡ FromInitiator },
}

impl<'s> RequestReader<'s> {
    /// A reader before the first byte. It fails without memory for what it needs up to the end of
    /// the preamble.
    pub fn new(
        alloc: Global,
        statics: &'s StaticTable,
        quotas: Quotas,
        endpoint: Endpoint,
    ) -> Result<RequestReader<'s>, Memory>
        ensures stands { IfOk result (λ reader. StandsFor reader.receiver []) }
        ensures settings { IfOk result (λ reader. settings_of reader.receiver ≡ record {
          side = initiators (endpoint_of endpoint);
          statics = statics.now;
          limits = limits_of quotas;
        }) }
    {
        let receiver = Receiver::new(alloc, statics, quotas, endpoint)?;
        Ok(RequestReader { receiver })
    }
}

impl<'s> ReadingEnd for RequestReader<'s> {
    type Event = Request;

    type Refusal = Offence;

    ghost use Rattle.receiver_machine.specs.ReceiverState.{settings_of, taken_of, StandsFor, counts_taken};
    ghost use Rattle.stream_reader.specs.Stream.{Situation as StreamSituation, StreamUnit, StreamEvent, ends as is_last, stream};
    ghost use Rattle.duplex_server.specs.Requests.{request_for};

    ghost Situation = { StreamSituation };

    ghost UnitOf = { StreamUnit };

    ghost Completed = { StreamEvent };

    ghost event_for = { request_for };

    ghost grammar = { λ reader. stream (settings_of reader.receiver) };

    ghost stands = { λ reader. StandsFor reader.receiver };

    ghost taken = { λ reader. taken_of reader.receiver };

    ghost most = { λ reader. (settings_of reader.receiver).limits.session };

    ghost ends = { is_last };

    ghost counts = { λ reader. counts_taken reader.receiver };

    fn feed(&mut self, piece: &[u8]) -> Result<(usize, Option<Request>), FeedFault<Offence>> {
        match self.receiver.feed(piece) {
            Ok((n, step)) => Ok((n, request_in(step))),
            Err(ReadRefusal::Offence(offence)) => Err(FeedFault::Refused(offence)),
            Err(ReadRefusal::Memory) => Err(FeedFault::Memory),
        }
    }

    fn end_of_input(&mut self) -> Result<(), Offence> {
        self.receiver.end_of_input()
    }

    fn is_end(&self, event: &Request) -> bool {
        match event {
            Request::Ended => true,
            Request::Opened { .. } => false,
            Request::Received(_) => false,
        }
    }

    fn recycle(&mut self, event: Request) {
        if let Request::Received(doc) = event {
            self.receiver.reuse(doc);
        }
    }
}
