//! A connection served on two threads.

ghost use Rattle.std.specs.Prelude.{◌≡◌, ℕ, List, [], ◌++◌, true, false, Some, IfSome};
ghost use Rattle.std.specs.Thread.{IsSync};
ghost use Rattle.nbfx_values.specs.QuotasOf.{limits_of};
ghost use Rattle.crossbeam_channel.specs.Claims.{view, IsSeatAt};
ghost use Rattle.crossbeam_channel.specs.Ends.{sends_on, receives_on};
ghost use Rattle.stream_loop.specs.Edges.{input_at};
ghost use Rattle.stream_reader.specs.Sides.{endpoint_of};
ghost use Rattle.worker_thread.specs.Crossing.{log};
ghost use Rattle.duplex_server.specs.Carrying.{ServesKept};
ghost use Rattle.duplex_server.specs.ServerStream.{answering, owed};
ghost use Rattle.duplex_server.specs.Serving.{Judges, Serves, WritesOwed};
ghost use Rattle.duplex_server.specs.TwoThreads.{HasTakenAll};

use crate::asking::ask_for_replies;
use crate::carry::Carry;
use crate::jobs::Job;
use crate::outcome::Outcome;
use crate::reply_thread::{ReplyThread, WritesReplies, Written};
use crate::serving::{inbound_of, serve_carried, serve_one};
use crate::spent_jobs::SpentJobs;
use crate::whole::is_whole;
use action_dispatch::Service;
use io_edges::{Sink, Source};
use nbfx_values::{Quotas, Two};
use receiver_machine::Endpoint;
use static_dictionary::StaticTable;
use std::alloc::Global;
use std::snapshot::Snapshot;
use std::sync::Wait;
use std::thread;
use std::thread::Threads;
use stream_loop::{InputBuffer, Outbound};
use worker_thread::{JobChannel, JobSender, job_channel, join_worker};

// Serves a connection, where there is a channel for the jobs. Where the second thread can't be
// started its work is done here, which is to take one job back; and then the connection is served
// on this thread.
fn serve_across<R: Threads + Wait + Sync, S: Source + Drop, K: Sink + Send + Drop, V: Service>(
    rt: &R,
    alloc: Global,
    buffer: InputBuffer,
    source: S,
    sink: K,
    statics: &StaticTable,
    quotas: &Two,
    endpoint: &Endpoint,
    service: &V,
    channel: JobChannel<Job>,
    spent: &SpentJobs<'_, R>,
) -> (Outcome, InputBuffer, S, K)
    requires ends { receives_on channel.from ≡ sends_on channel.to }
    requires sent { IsSeatAt (sends_on channel.to) channel.sent
        × (view channel.sent ≡ log true false [] []) }
    requires taken { IsSeatAt (sends_on channel.to) channel.taken
        × (view channel.taken ≡ log false true [] []) }
    ensures serves { ServesKept (answering (V.served service.now) statics.now quotas.now)
        (endpoint_of endpoint.now)
        (input_at S.left S.taken S.faults S.empty_takes source)
        (input_at S.left S.taken S.faults S.empty_takes result.2) buffer result.1 (K.view sink)
        (K.view result.3) result.0 }
    ensures same_end { result.0.outbound ≡ Outbound.Done → K.ended result.3 ≡ K.ended sink }
{
    let JobChannel {
        to,
        sent,
        from,
        taken,
    } = channel;
    thread::scope(
        thread::scope_env(),
        rt,
        move |scope| -> (Outcome, InputBuffer, S, K)
            requires { IsSync R.row × (receives_on from ≡ sends_on to)
                × IsSeatAt (sends_on to) sent × (view sent ≡ log true false [] [])
                × IsSeatAt (sends_on to) taken × (view taken ≡ log false true [] []) }
            ensures { ServesKept
                (answering (V.served service.entry.now) statics.entry.now quotas.entry.now)
                (endpoint_of endpoint.entry.now)
                (input_at S.left S.taken S.faults S.empty_takes source)
                (input_at S.left S.taken S.faults S.empty_takes result.2) buffer result.1
                (K.view sink) (K.view result.3) result.0
                × (result.0.outbound ≡ Outbound.Done → K.ended result.3 ≡ K.ended sink) }
        {
            let mut buffer = buffer;
            let mut source = source;
            let promise = WritesReplies {
                sink: Snapshot::of(&sink),
                from: Snapshot::of(&from),
                statics: Snapshot::of(&statics),
                quotas: Snapshot::of(&quotas.back),
            };
            let writing = scope.spawn_with(
                promise,
                move || -> Written<K>
                    requires { IsSeatAt (receives_on from) taken
                        × (view taken ≡ log false true [] []) }
                    ensures { IsSeatAt (receives_on from) result.0
                        × HasTakenAll statics.entry.now (limits_of quotas.entry.now.back)
                        (K.view sink) (K.ended sink) (view result.0) result.2 result.3
                        (K.view result.1) (K.ended result.1) }
                {
                    ReplyThread::write_replies(
                        rt,
                        alloc,
                        statics,
                        quotas.back,
                        from,
                        taken,
                        sink,
                        spent,
                    )
                },
            );
            let mut sender = JobSender::new(rt, to, sent);
            match writing {
                Ok(child) => {
                    let (ending, messages) = ask_for_replies(
                        alloc,
                        &mut buffer,
                        endpoint,
                        statics,
                        quotas,
                        service,
                        spent,
                        &mut source,
                        &mut sender,
                    );
                    let (theirs, sink, outbound, answers) = child.join(rt);
                    join_worker::<R, Job, ReplyThread<'_, '_, '_, R, K>>(sender, theirs);
                    let outcome = Outcome {
                        messages,
                        answers,
                        inbound: inbound_of(ending),
                        outbound,
                    };
                    (outcome, buffer, source, sink)
                }
                Err(refused) => {
                    sender.send(Job::Back);
                    let (theirs, mut sink, _, _) = (refused.value)();
                    join_worker::<R, Job, ReplyThread<'_, '_, '_, R, K>>(sender, theirs);
                    let outcome = serve_carried(
                        alloc,
                        &mut buffer,
                        &mut source,
                        &mut sink,
                        statics,
                        quotas,
                        endpoint,
                        service,
                    );
                    (outcome, buffer, source, sink)
                }
            }
        },
    )
}

// The channel of a second thread. There is none without memory, nor for a session of which nothing
// is left to be read while answers leave: a thread costs more than a short one.
fn channel_for(alloc: Global, taken: &[u8], quotas: Quotas) -> Option<JobChannel<Job>>
    ensures ends { IfSome result (λ channel. receives_on channel.from ≡ sends_on channel.to) }
    ensures sent { IfSome result (λ channel. IsSeatAt (sends_on channel.to) channel.sent
        × (view channel.sent ≡ log true false [] [])) }
    ensures taken { IfSome result (λ channel. IsSeatAt (sends_on channel.to) channel.taken
        × (view channel.taken ≡ log false true [] [])) }
{
    if is_whole(alloc, taken, quotas) {
        return None;
    }
    job_channel::<Job>(alloc).ok()
}

/// Serves one session of a connection, as [`serve_one`] does, and gives back what it was given. The
/// session's first bytes are those that are carried. Where it ends with an End record, what is
/// carried and what the source gives then are all that stands behind it.
///
/// The calling thread reads the initiator's stream and asks the service, while a second one spells
/// the answers and writes them, so that requests are read on while answers leave. At most sixteen
/// wait between the two. What was gathered is written whenever none waits.
///
/// Where the whole session is carried, without memory for what the threads share, and where the
/// second one can't be started, it does all on the calling thread.
pub fn serve_kept<R: Threads + Wait + Sync, S: Source + Drop, K: Sink + Send + Drop, V: Service>(
    rt: &R,
    alloc: Global,
    carry: Carry,
    mut source: S,
    mut sink: K,
    statics: &StaticTable,
    quotas: &Two,
    endpoint: &Endpoint,
    service: &V,
) -> (Outcome, Carry, S, K)
    ensures judged { (bytes : List ℕ) → S.left source ≡ Some bytes
        → Judges (answering (V.served service.now) statics.now quotas.now)
        (endpoint_of endpoint.now) (carry ++ bytes) result.0.inbound }
    ensures written { (bytes w : List ℕ) → S.left source ≡ Some bytes
        → (K.view sink).written ≡ Some w → (w' : List ℕ) × ((K.view result.3).written ≡ Some w')
        × WritesOwed (owed (answering (V.served service.now) statics.now quotas.now)
        (endpoint_of endpoint.now) (carry ++ bytes)) (K.view sink).held w w' result.0.inbound
        result.0.outbound }

    // Which bytes were read, which of their events were answered, and which answers were put,
    // however that ends; and what stands behind the session, where it ended.
    ensures served { ServesKept (answering (V.served service.now) statics.now quotas.now)
        (endpoint_of endpoint.now)
        (input_at S.left S.taken S.faults S.empty_takes source)
        (input_at S.left S.taken S.faults S.empty_takes result.2) carry result.1 (K.view sink)
        (K.view result.3) result.0 }

    // The direction is ended only where the writing has stopped.
    ensures same_end { result.0.outbound ≡ Outbound.Done → K.ended result.3 ≡ K.ended sink }
{
    let Carry { mut buffer } = carry;
    let Some(channel) = channel_for(alloc, buffer.bytes(), quotas.forward) else {
        let outcome = serve_carried(
            alloc,
            &mut buffer,
            &mut source,
            &mut sink,
            statics,
            quotas,
            endpoint,
            service,
        );
        return (outcome, Carry { buffer }, source, sink);
    };
    let spent = SpentJobs::new(rt, alloc);
    let (outcome, buffer, source, sink) = serve_across(
        rt, alloc, buffer, source, sink, statics, quotas, endpoint, service, channel, &spent,
    );
    (outcome, Carry { buffer }, source, sink)
}

/// Serves the connection whose bytes the source gives and the sink takes, as [`serve_one`] does, on
/// two threads, and gives both back. It is [`serve_kept`] with nothing carried; what stands behind
/// the session isn't looked at.
pub fn serve_two<R: Threads + Wait + Sync, S: Source + Drop, K: Sink + Send + Drop, V: Service>(
    rt: &R,
    alloc: Global,
    mut source: S,
    mut sink: K,
    statics: &StaticTable,
    quotas: &Two,
    endpoint: &Endpoint,
    service: &V,
) -> (Outcome, S, K)
    // How the bytes are judged and what is written of them; which were read, which of their events
    // were answered, and which answers were put, however that ends.
    ensures served { Serves (answering (V.served service.now) statics.now quotas.now)
        (endpoint_of endpoint.now)
        (input_at S.left S.taken S.faults S.empty_takes source)
        (input_at S.left S.taken S.faults S.empty_takes result.1) (K.view sink) (K.view result.2)
        result.0 }

    // The direction is ended only where the writing has stopped.
    ensures same_end { result.0.outbound ≡ Outbound.Done → K.ended result.2 ≡ K.ended sink }
{
    let Ok(carry) = Carry::new(alloc) else {
        let outcome = serve_one(
            alloc,
            &mut source,
            &mut sink,
            statics,
            quotas,
            endpoint,
            service,
        );
        return (outcome, source, sink);
    };
    let (outcome, _, source, sink) = serve_kept(
        rt, alloc, carry, source, sink, statics, quotas, endpoint, service,
    );
    (outcome, source, sink)
}
