//! What asks a writer on another thread for the replies of a connection.

ghost use Rattle.std.specs.Prelude.{◌≡◌, List, ℕ, [], map, None};
ghost use Rattle.io_edges.specs.Faults.{CountsFaults};
ghost use Rattle.nbfx_values.specs.QuotasOf.{limits_of};
ghost use Rattle.stream_loop.specs.Edges.{Input, input_at};
ghost use Rattle.stream_loop.specs.Followed.{Follows, Leaves, WasTaken};
ghost use Rattle.stream_reader.specs.Sides.{endpoint_of};
ghost use Rattle.stream_reader.specs.Stream.{stream};
ghost use Rattle.worker_thread.specs.Jobs.{IsEnded};
ghost use Rattle.worker_thread.specs.Sending.{sent_by};
ghost use Rattle.duplex_server.specs.Jobs.{is_last};
ghost use Rattle.duplex_server.specs.ServerStream.{answering, requests_to};
ghost use Rattle.duplex_server.specs.Requests.{request_for};
ghost use Rattle.duplex_server.specs.TwoThreads.{WereAsked};

use crate::answerer::Answerer;
use crate::following::follow_requests;
use crate::jobs::Job;
use crate::replier::used_again;
use crate::requests::Request;
use crate::spent_jobs::SpentJobs;
use action_dispatch::Service;
use io_edges::Source;
use nbfx_values::{Offence, Two};
use receiver_machine::Endpoint;
use static_dictionary::StaticTable;
use std::alloc::Global;
use std::sync::Wait;
use stream_loop::{EventHandler, FollowEnding, InputBuffer};
use unit_streams::Memory;
use worker_thread::JobSender;

/// Answers requests, and sends the answers to a writer on another thread.
#[derive(Drop)]
pub struct Asker<'r, 'v, 'd, R, V> {
    pub(crate) answerer: Answerer<'v, V>,
    // What the writer gives back.
    spent: &'d SpentJobs<'r, R>,
}

impl<'r, 'v, 'd, R: Wait, V: Service> EventHandler<Request, JobSender<'r, R, Job>>
    for Asker<'r, 'v, 'd, R, V> {
    ghost use Rattle.std.specs.Prelude.{◌++◌, ⊤, true};
    ghost use Rattle.nbfx_values.specs.Limits.{Limits};
    ghost use Rattle.nbfx_values.specs.QuotasOf.{limits_of};
    ghost use Rattle.action_dispatch.specs.Answers.{Serves};
    ghost use Rattle.duplex_server.specs.Asking.{HasAsked};

    type Halt = Memory;

    ghost Settings = { Serves × Limits };

    ghost settings = { λ asker. (
      V.served asker.answerer.service.now,
      limits_of asker.answerer.quotas,
    ) };

    ghost handled = { λ first paused since asker now. HasAsked
        (V.served asker.answerer.service.now) (limits_of asker.answerer.quotas) first
        (paused ++ since) asker.answerer now };

    ghost halted = { λ first paused since at halt asker now. HasAsked
        (V.served asker.answerer.service.now) (limits_of asker.answerer.quotas) first
        (paused ++ since) asker.answerer now };

    ghost may_halt = { λ asker. ⊤ };

    ghost may_wait = { λ asker now. ⊤ };

    ghost ended = { λ sender. true };

    ghost has_stopped = { λ asker. ⊥ };

    ghost is_unput = { λ old new. ⊤ };

    fn handle(
        &mut self,
        request: Request,
        sender: &mut JobSender<'r, R, Job>,
    ) -> Result<Option<Request>, Memory> {
        let asked = self.answerer.ask(request)?;
        match asked {
            Some(job) => {
                sender.send(job);
                Ok(used_again(self.spent.take()))
            }
            None => Ok(None),
        }
    }

    // The writer writes what it has gathered whenever no job waits.
    fn pause(&mut self, _sender: &mut JobSender<'r, R, Job>) -> Result<(), Memory> {
        Ok(())
    }
}

/// Reads the requests of a session, whose first bytes are those that are buffered, and sends the jobs
/// that they ask for, and the last one. The memory of documents that the writer gives back is used
/// again. Answers how the reading ended, and how many documents there were.
pub fn ask_for_replies<'r, R: Wait, S: Source, V: Service>(
    alloc: Global,
    buffer: &mut InputBuffer,
    endpoint: &Endpoint,
    statics: &StaticTable,
    quotas: &Two,
    service: &V,
    spent: &SpentJobs<'r, R>,
    source: &mut S,
    sender: &mut JobSender<'r, R, Job>,
) -> (FollowEnding<Offence>, u64)
    requires unsent { sent_by sender.old ≡ [] }
    ensures follows { (i : Input) → WasTaken buffer.old i
        (input_at S.left S.taken S.faults S.empty_takes source.old) → Follows (stream (requests_to
        (answering (V.served service.now) statics.now quotas.now) (endpoint_of endpoint.now)))
        (λ events. WereAsked (V.served service.now) (limits_of quotas.now.back)
        (map request_for events) (sent_by sender.new) result.0 result.1) i
        (input_at S.left S.taken S.faults S.empty_takes source.new) result.0 }
    ensures left { (i : Input) → WasTaken buffer.old i
        (input_at S.left S.taken S.faults S.empty_takes source.old)
        → result.0 ≡ FollowEnding.Judged None → Leaves (stream (requests_to
        (answering (V.served service.now) statics.now quotas.now) (endpoint_of endpoint.now))) i
        (input_at S.left S.taken S.faults S.empty_takes source.new) buffer.new }
    ensures ended { IsEnded is_last (sent_by sender.new) }
    ensures counted { CountsFaults (S.faults source.old) (S.faults source.new)
        (result.0 ≡ FollowEnding.ReadFault) }
    ensures to { sender.new.to ≡ sender.old.to }
{
    let answerer = Answerer::new(alloc, quotas.back, service);
    let mut asker = Asker { answerer, spent };
    let ending = follow_requests(
        alloc,
        buffer,
        endpoint,
        statics,
        quotas.forward,
        &mut asker,
        source,
        sender,
    );
    sender.send(Job::Last(ending));
    (ending, asker.answerer.messages)
}
