//! What does the jobs of two lanes, on its thread or on the caller's.

ghost use Rattle.std.specs.Prelude.{◌≡◌, ◌∷◌, ◌++◌, List, [], true, false, None, Some, IfSome, IfNone};
ghost use Rattle.crossbeam_channel.specs.Claims.{view, IsSeatAt};
ghost use Rattle.crossbeam_channel.specs.Ends.{receives_on};
ghost use Rattle.two_lanes.specs.declared.jobs.LaneJob.{LaneJob as Job};
ghost use Rattle.two_lanes.specs.declared.jobs.Lane.TheVariants.{A, B};
ghost use Rattle.two_lanes.specs.Jobs.{first_jobs, known, log, more};
ghost use Rattle.two_lanes.specs.Numbers.{IsOver, Took};

use crate::jobs::{Got, Lane, LaneJob, Taker, Ticket};
use std::alloc::Global;
use std::sync::Wait;
use std::thread;

/// How often the next job is looked for before its thread sleeps until it comes.
const MOST_LOOKS: usize = 64;

/// How many jobs are taken at most before they are done. A lane that waits for room is woken once for
/// all of them.
const MOST_TAKEN: usize = 256;

/// Does the jobs of two lanes, one after the other, with what it owns.
pub trait LaneWorker {
    /// Since it was like the first, exactly these jobs were done, in this order, and it is like
    /// this now.
    ghost did: { Self → List Job → Self → Type 0 };

    /// The same, and no job comes any more.
    ghost finished: { Self → List Job → Self → Type 0 };

    /// The next job may be long in coming: nothing is put off that others wait for.
    ghost may_wait: { Self → Type 0 };

    /// Does the next job.
    fn work(&mut self, job: LaneJob)
        ensures did { (first : Self) (jobs : List Job) → did first jobs self.old
            → did first (jobs ++ job ∷ []) self.new };

    /// No job waits now: what was put off, to be done for several jobs at once, is done here.
    fn catch_up(&mut self)
        ensures may_wait { may_wait self.new }
        ensures did { (first : Self) (jobs : List Job) → did first jobs self.old
            → did first jobs self.new };

    /// Does what is to be done when no job comes any more.
    fn finish(&mut self)
        ensures finished { (first : Self) (jobs : List Job) → did first jobs self.old
            → finished first jobs self.new };
}

/// Which last jobs came, and whether the worker is wanted back.
#[derive(Clone, Copy, Debug)]
pub struct Over {
    pub a: bool,
    pub b: bool,
    pub back: bool,
}

// The same after another job.
fn over_after(over: Over, job: LaneJob) -> Over
    ensures { (jobs : List Job) → IsOver over jobs → IsOver result (jobs ++ job ∷ []) }
{
    match job {
        LaneJob::Last(Lane::A) => Over { a: true, ..over },
        LaneJob::Last(Lane::B) => Over { b: true, ..over },
        LaneJob::Back => Over { back: true, ..over },
        LaneJob::Send { .. } => over,
    }
}

// Takes the next job, which may be waited for. It is looked for a number of times before the thread
// sleeps: to wake it costs the sender more than a job may take.
fn wait_for_job<R: Wait, W: LaneWorker>(
    rt: &R,
    from: &Taker,
    pass: &mut Ticket,
    worker: &W,
) -> Option<LaneJob>
    requires may_wait { W.may_wait worker.now }
    requires seat { IsSeatAt (receives_on from.now) pass.old
        × (view pass.old ≡ log None None (Some (known (view pass.old).got))) }
    ensures seat { IsSeatAt (receives_on from.now) pass.new }
    ensures taken { IfSome result (λ job. view pass.new
        ≡ log (view pass.old).a (view pass.old).b (more job (view pass.old).got)) }
    ensures none { IfNone result (view pass.new ≡ view pass.old) }
{
    for _ in 0..MOST_LOOKS {
        if let Ok(job) = from.try_recv_as::<Got, R>(rt, pass) {
            return Some(job);
        }
        thread::yield_now();
    }
    from.recv_as::<Got, R>(rt, pass).ok()
}

// Takes the next job, and has the worker catch up where none waits.
fn next_job<R: Wait, W: LaneWorker>(
    rt: &R,
    from: &Taker,
    pass: &mut Ticket,
    worker: &mut W,
) -> Option<LaneJob>
    requires { IsSeatAt (receives_on from.now) pass.old
        × (view pass.old ≡ log None None (Some (known (view pass.old).got))) }
    ensures seat { IsSeatAt (receives_on from.now) pass.new }
    ensures taken { IfSome result (λ job. view pass.new
        ≡ log (view pass.old).a (view pass.old).b (more job (view pass.old).got)) }
    ensures none { IfNone result (view pass.new ≡ view pass.old) }
    ensures did { (first : W) (jobs : List Job) → W.did first jobs worker.old
        → W.did first jobs worker.new }
{
    if let Ok(job) = from.try_recv_as::<Got, R>(rt, pass) {
        return Some(job);
    }
    worker.catch_up();
    wait_for_job(rt, from, pass, worker)
}

// Takes the jobs that wait, as many as there is memory for.
fn take_waiting<R: Wait>(rt: &R, from: &Taker, pass: &mut Ticket, jobs: &mut Vec<LaneJob>)
    requires seat { IsSeatAt (receives_on from.now) pass.old
        × (view pass.old ≡ log None None (Some (known (view pass.old).got))) }
    requires empty { jobs.old.items ≡ [] }
    ensures seat { IsSeatAt (receives_on from.now) pass.new }
    ensures taken { view pass.new
        ≡ log None None (Some (known (view pass.old).got ++ jobs.new.items)) }
{
    for _ in 0..MOST_TAKEN {
        if jobs.reserve(1).is_err() {
            return;
        }
        let Ok(job) = from.try_recv_as::<Got, R>(rt, pass) else {
            return;
        };
        jobs.push_reserved(job);
    }
}

// Has jobs done, and says which last jobs came.
fn do_jobs<W: LaneWorker>(worker: &mut W, jobs: &[LaneJob], before: Over) -> Over
    ensures did { (first : W) (done : List Job) → W.did first done worker.old
        → W.did first (done ++ jobs.now) worker.new }
    ensures over { (done : List Job) → IsOver before done → IsOver result (done ++ jobs.now) }
{
    let mut over = before;
    for job in jobs {
        worker.work(*job);
        over = over_after(over, *job);
    }
    over
}

/// Takes jobs until the last one of both lanes, or until the worker is wanted back, and has each
/// done.
pub fn work_on<R: Wait, W: LaneWorker>(
    rt: &R,
    alloc: Global,
    from: &Taker,
    mut pass: Ticket,
    mut worker: W,
) -> (Ticket, W)
    requires seat { IsSeatAt (receives_on from.now) pass × (view pass ≡ log None None (Some [])) }
    requires begins { W.did worker [] worker }
    ensures seat { IsSeatAt (receives_on from.now) result.0 }
    ensures took { Took W.did W.finished (view result.0) worker result.1 }
{
    let mut over = Over {
        a: false,
        b: false,
        back: false,
    };
    let mut waiting = Vec::new(alloc);
    for _ in rt.forever() {
        if let Some(job) = next_job(rt, from, &mut pass, &mut worker) {
            take_waiting(rt, from, &mut pass, &mut waiting);
            worker.work(job);
            over = do_jobs(&mut worker, &waiting, over_after(over, job));
            waiting.clear();
            if over.back {
                return (pass, worker);
            }
            if over.a && over.b {
                worker.finish();
                return (pass, worker);
            }
        }
    }
    unreachable!()
}

// Has all elements of a list dealt with.
fn work_through<W: LaneWorker>(worker: &mut W, lane: Lane, count: u64)
    ensures { (first : W) (jobs : List Job) → W.did first jobs worker.old
        → W.did first (jobs ++ first_jobs lane count) worker.new }
{
    let mut number = 0;
    while number < count {
        worker.work(LaneJob::Send { lane, number });
        number += 1;
    }
}

/// Has all elements of both lists dealt with here, one list after the other.
pub fn work_alone<W: LaneWorker>(worker: &mut W, a: u64, b: u64)
    ensures { (first : W) (jobs : List Job) → W.did first jobs worker.old
        → W.finished first ((jobs ++ first_jobs A a) ++ first_jobs B b) worker.new }
{
    work_through(worker, Lane::A, a);
    work_through(worker, Lane::B, b);
    worker.finish();
}
