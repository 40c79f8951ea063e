//! What writes the replies of a connection on a thread of its own.

ghost use Rattle.std.specs.Prelude.{◌≡◌, true, false, []};
ghost use Rattle.nbfx_values.specs.QuotasOf.{limits_of};
ghost use Rattle.crossbeam_channel.specs.Claims.{view, IsSeatAt};
ghost use Rattle.crossbeam_channel.specs.Ends.{receives_on};
ghost use Rattle.worker_thread.specs.Crossing.{log};

use crate::jobs::{Job, last_bytes};
use crate::reply_writer::ReplyWriter;
use crate::spent_jobs::SpentJobs;
use io_edges::Sink;
use nbfx_values::Quotas;
use static_dictionary::StaticTable;
use std::alloc::Global;
use std::snapshot::Snapshot;
use std::sync::Wait;
use std::thread::Promise;
use stream_loop::Outbound;
use worker_thread::{Taker, Ticket, Worker, work_on};

/// A writer of replies, with its sink.
#[derive(Drop)]
pub struct ReplyThread<'s, 'r, 'd, R, K> {
    pub(crate) writer: ReplyWriter<'s>,
    pub(crate) sink: K,
    // Whether a job was taken. Before, nothing is due.
    pub(crate) begun: bool,
    // Where what was written goes.
    spent: &'d SpentJobs<'r, R>,
}

impl<'s, 'r, 'd, R: Wait, K: Sink> Worker<Job> for ReplyThread<'s, 'r, 'd, R, K> {
    ghost use Rattle.duplex_server.specs.Jobs.{is_last};
    ghost use Rattle.duplex_server.specs.TwoThreads.{HasDone, NothingWaits};

    ghost did = { λ first done now. HasDone K.view K.ended first done now };

    ghost is_last = { is_last };

    ghost may_wait = { λ now. NothingWaits K.view K.ended now };

    fn is_last(job: &Job) -> bool
        ensures { result ≡ is_last job.now }
    {
        job.is_last()
    }

    fn work(&mut self, job: Job) {
        self.begun = true;
        match job {
            Job::Last(ending) => self.writer.parts.close(last_bytes(ending), &mut self.sink),
            Job::Back => {}
            job => {
                let spent = self.writer.work(job, &mut self.sink);
                self.spent.give(spent);
            }
        }
    }

    fn catch_up(&mut self) {
        if !self.begun {
            return;
        }
        self.writer.parts.pause(&mut self.sink);
    }
}

/// What the thread hands back: what it knows of the channel, the sink, how the writing ended, and
/// how many answers were put whole.
pub type Written<K> = (Ticket<Job>, K, Outbound, u64);

/// What the thread promises: of the sink that it was given and the channel that it takes from.
#[derive(Drop)]
pub struct WritesReplies<'s, K> {
    pub(crate) sink: Snapshot<K>,
    pub(crate) from: Snapshot<Taker<Job>>,
    pub(crate) statics: Snapshot<&'s StaticTable>,
    pub(crate) quotas: Snapshot<Quotas>,
}

impl<'s, K: Sink> Promise<Written<K>> for WritesReplies<'s, K> {
    ghost use Rattle.nbfx_values.specs.QuotasOf.{limits_of};
    ghost use Rattle.crossbeam_channel.specs.Claims.{view, IsSeatAt};
    ghost use Rattle.crossbeam_channel.specs.Ends.{receives_on};
    ghost use Rattle.duplex_server.specs.TwoThreads.{HasTakenAll};

    ghost kept_by = { λ p r. IsSeatAt (receives_on p.from.value) r.0
        × HasTakenAll p.statics.value.now (limits_of p.quotas.value) (K.view p.sink.value)
        (K.ended p.sink.value) (view r.0) r.2 r.3 (K.view r.1) (K.ended r.1) };
}

impl<'s, 'r, 'd, R: Wait, K: Sink> ReplyThread<'s, 'r, 'd, R, K> {
    ghost use Rattle.duplex_server.specs.TwoThreads.{HasTakenAll};

    /// Writes what jobs ask for, up to the last one.
    pub fn write_replies(
        rt: &R,
        alloc: Global,
        statics: &'s StaticTable,
        quotas: Quotas,
        from: Taker<Job>,
        pass: Ticket<Job>,
        sink: K,
        spent: &'d SpentJobs<'r, R>,
    ) -> Written<K>
        requires { IsSeatAt (receives_on from) pass × (view pass ≡ log false true [] []) }
        ensures { IsSeatAt (receives_on from) result.0
            × HasTakenAll statics.now (limits_of quotas) (K.view sink) (K.ended sink)
            (view result.0) result.2 result.3 (K.view result.1) (K.ended result.1) }
    {
        let thread = ReplyThread {
            writer: ReplyWriter::new(alloc, statics, quotas),
            sink,
            begun: false,
            spent,
        };
        let (pass, thread) = work_on(rt, from, pass, thread);
        let ReplyThread { writer, sink, .. } = thread;
        (pass, sink, writer.parts.outbound, writer.parts.whole)
    }
}
