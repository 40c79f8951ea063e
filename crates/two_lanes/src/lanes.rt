//! Both lists, named by a thread each and dealt with by a third, while the caller does something.

ghost use Rattle.std.specs.Prelude.{◌≡◌, ◌∷◌, ◌++◌, List, [], true, false, None, Some};
ghost use Rattle.std.specs.Thread.{IsSync};
ghost use Rattle.crossbeam_channel.specs.Claims.{view, IsSeatAt};
ghost use Rattle.crossbeam_channel.specs.Ends.{sends_on, receives_on};
ghost use Rattle.two_lanes.specs.declared.jobs.LaneJob.{LaneJob as Job};
ghost use Rattle.two_lanes.specs.declared.jobs.LaneJob.TheVariants.{Back};
ghost use Rattle.two_lanes.specs.declared.jobs.Lane.TheVariants.{A, B};
ghost use Rattle.two_lanes.specs.Jobs.{all_jobs, ends, has_back, known, lane_log, log, of};
ghost use Rattle.two_lanes.specs.Numbers.{HasAll, Took};

use crate::jobs::{EachInOrder, Giver, Lane, LaneJob, Lanes, Log, Taker, Ticket, Total, Working};
use crate::sender::{send_job, send_lane};
use crate::working::{LaneWorker, work_alone, work_on};
use crossbeam_channel::bounded_with;
use std::alloc::Global;
use std::snapshot::Snapshot;
use std::sync::Wait;
use std::thread;
use std::thread::{Promise, Threads};

/// How many jobs wait at most.
const MOST_WAITING: usize = 256;

/// What the caller does while others send.
pub trait Meanwhile {
    /// What it leaves.
    type Done;

    /// It may be run.
    ghost may_run: { Self → Type 0 };

    /// It was run, and left this.
    ghost ran: { Self → Self.Done → Type 0 };

    /// Runs it.
    fn run(self) -> Self::Done
        requires { may_run self }
        ensures { ran self result };
}

/// What a lane's thread promises: that it sent the lane's jobs.
#[derive(Drop)]
pub struct SendsLane {
    lane: Lane,
    count: u64,
    to: Snapshot<Giver>,
}

impl Promise<Ticket> for SendsLane {
    ghost use Rattle.std.specs.Prelude.{◌≡◌};
    ghost use Rattle.crossbeam_channel.specs.Claims.{view, IsSeatAt};
    ghost use Rattle.crossbeam_channel.specs.Ends.{sends_on};
    ghost use Rattle.two_lanes.specs.Jobs.{all_jobs, lane_log};

    ghost kept_by = { λ p r. IsSeatAt (sends_on p.to.value) r
        × (view r ≡ lane_log p.lane (all_jobs p.lane p.count)) };
}

/// What the worker's thread promises: that the worker has done the jobs that it took.
#[derive(Drop)]
pub struct DoesJobs<W> {
    worker: Snapshot<W>,
    from: Snapshot<Taker>,
}

impl<W: LaneWorker> Promise<(Ticket, W)> for DoesJobs<W> {
    ghost use Rattle.crossbeam_channel.specs.Claims.{view, IsSeatAt};
    ghost use Rattle.crossbeam_channel.specs.Ends.{receives_on};
    ghost use Rattle.two_lanes.specs.Numbers.{Took};

    ghost kept_by = { λ p r. IsSeatAt (receives_on p.from.value) r.0
        × Took W.did W.finished (view r.0) p.worker.value r.1 };
}

// Sends the jobs of lane B on a thread of its own, or here where it can't be started, and runs what
// is to be done meanwhile.
fn send_second<R: Threads + Wait + Sync, M: Meanwhile + Drop>(
    rt: &R,
    to: &Giver,
    pass: Ticket,
    count: u64,
    beside: M,
) -> (Ticket, M::Done)
    requires seat { IsSeatAt (sends_on to.now) pass × (view pass ≡ lane_log B []) }
    requires may_run { M.may_run beside }
    ensures sent { IsSeatAt (sends_on to.now) result.0
        × (view result.0 ≡ lane_log B (all_jobs B count)) }
    ensures ran { M.ran beside result.1 }
{
    thread::scope(
        thread::scope_env(),
        rt,
        move |scope| -> (Ticket, M::Done)
            requires { IsSync R.row × IsSeatAt (sends_on to.now) pass × (view pass ≡ lane_log B [])
                × M.may_run beside }
            ensures { IsSeatAt (sends_on to.entry.now) result.0
                × (view result.0 ≡ lane_log B (all_jobs B count)) × M.ran beside result.1 }
        {
            let promise = SendsLane {
                lane: Lane::B,
                count,
                to: Snapshot::of(to),
            };
            let sending = scope.spawn_with(
                promise,
                move || -> Ticket
                    requires { IsSync R.row × IsSeatAt (sends_on to.now) pass
                        × (view pass ≡ lane_log B []) }
                    ensures { IsSeatAt (sends_on to.entry.now) result
                        × (view result ≡ lane_log B (all_jobs B count)) }
                { send_lane(rt, to, pass, Lane::B, count) },
            );
            match sending {
                Ok(child) => {
                    let done = beside.run();
                    (child.join(rt), done)
                }
                Err(refused) => {
                    let pass = (refused.value)();
                    (pass, beside.run())
                }
            }
        },
    )
}

// The same of both lanes.
fn send_both<R: Threads + Wait + Sync, M: Meanwhile + Drop>(
    rt: &R,
    to: &Giver,
    mut pass: Ticket,
    a: u64,
    b: u64,
    beside: M,
) -> (Ticket, M::Done)
    requires seat { IsSeatAt (sends_on to.now) pass
        × (view pass ≡ log (Some []) (Some []) None) }
    requires may_run { M.may_run beside }
    ensures sent { IsSeatAt (sends_on to.now) result.0
        × (view result.0 ≡ log (Some (all_jobs A a)) (Some (all_jobs B b)) None) }
    ensures ran { M.ran beside result.1 }
{
    let theirs = to.another::<Lanes>(&mut pass);
    let (mut pass, theirs, done) = thread::scope(
        thread::scope_env(),
        rt,
        move |scope| -> (Ticket, Ticket, M::Done)
            requires { IsSync R.row × IsSeatAt (sends_on to.now) pass × (view pass ≡ lane_log A [])
                × IsSeatAt (sends_on to.now) theirs × (view theirs ≡ lane_log B [])
                × M.may_run beside }
            ensures { IsSeatAt (sends_on to.entry.now) result.0
                × (view result.0 ≡ lane_log A (all_jobs A a))
                × IsSeatAt (sends_on to.entry.now) result.1
                × (view result.1 ≡ lane_log B (all_jobs B b)) × M.ran beside result.2 }
        {
            let promise = SendsLane {
                lane: Lane::A,
                count: a,
                to: Snapshot::of(to),
            };
            let sending = scope.spawn_with(
                promise,
                move || -> Ticket
                    requires { IsSync R.row × IsSeatAt (sends_on to.now) pass
                        × (view pass ≡ lane_log A []) }
                    ensures { IsSeatAt (sends_on to.entry.now) result
                        × (view result ≡ lane_log A (all_jobs A a)) }
                { send_lane(rt, to, pass, Lane::A, a) },
            );
            match sending {
                Ok(child) => {
                    let (theirs, done) = send_second(rt, to, theirs, b, beside);
                    (child.join(rt), theirs, done)
                }
                Err(refused) => {
                    let pass = (refused.value)();
                    let (theirs, done) = send_second(rt, to, theirs, b, beside);
                    (pass, theirs, done)
                }
            }
        },
    );
    to.absorb::<Lanes>(&mut pass, theirs);
    (pass, done)
}

// Works with the channel's end as its own: a closure can't lend one of its captures and move others
// in one call.
fn work_owned<R: Wait, W: LaneWorker>(
    rt: &R,
    alloc: Global,
    from: Taker,
    pass: Ticket,
    worker: W,
) -> (Ticket, W)
    requires seat { IsSeatAt (receives_on from) pass × (view pass ≡ log None None (Some [])) }
    requires begins { W.did worker [] worker }
    ensures seat { IsSeatAt (receives_on from) result.0 }
    ensures took { Took W.did W.finished (view result.0) worker result.1 }
{
    work_on(rt, alloc, &from, pass, worker)
}

// Where the taker's pass is back: of each lane, what was taken and what waits is what was sent.
fn take_in(to: &Giver, mut pass: Ticket, theirs: Ticket)
    requires seats { IsSeatAt (sends_on to.now) pass × IsSeatAt (sends_on to.now) theirs }
    requires sent { view pass ≡ log (Some (known (view pass).a)) (Some (known (view pass).b)) None }
    requires got { view theirs ≡ log None None (Some (known (view theirs).got)) }
    ensures { (items : List Job) × (known (view pass).a ≡ of A (known (view theirs).got ++ items))
        × (known (view pass).b ≡ of B (known (view theirs).got ++ items)) }
{
    to.absorb::<Working>(&mut pass, theirs);
    to.learn_as::<Total>(&mut pass);
}

// The lanes sent all of their jobs, and the taker took all that was sent.
fn take_in_lanes(to: &Giver, pass: Ticket, theirs: Ticket, a: u64, b: u64)
    requires seats { IsSeatAt (sends_on to.now) pass × IsSeatAt (sends_on to.now) theirs }
    requires sent { view pass ≡ log (Some (all_jobs A a)) (Some (all_jobs B b)) None }
    requires got { view theirs ≡ log None None (Some (known (view theirs).got)) }
    requires ended { ends (known (view theirs).got) ≡ true }
    ensures all { HasAll a b (known (view theirs).got) }
    ensures wanted { has_back (known (view theirs).got) ≡ false }
{
    take_in(to, pass, theirs)
}

// The worker was wanted back, and was asked for nothing.
fn take_in_back(to: &Giver, pass: Ticket, theirs: Ticket)
    requires seats { IsSeatAt (sends_on to.now) pass × IsSeatAt (sends_on to.now) theirs }
    requires sent { view pass ≡ log (Some (Back ∷ [])) (Some []) None }
    requires got { view theirs ≡ log None None (Some (known (view theirs).got)) }
    requires ended { ends (known (view theirs).got) ≡ true }
    ensures { known (view theirs).got ≡ Back ∷ [] }
{
    take_in(to, pass, theirs)
}

// Runs what is to be done meanwhile where nothing is done beside it. This worker has finished before, so
// that nobody waits for what it was to do.
fn run_behind<W: LaneWorker, M: Meanwhile>(_worker: &W, beside: M) -> M::Done
    requires finished { (first : W) × (jobs : List Job) × W.finished first jobs _worker.now }
    requires may_run { M.may_run beside }
    ensures ran { M.ran beside result }
{
    beside.run()
}

// Has the jobs of both lanes done by a worker on a thread of its own.
fn run_across<R: Threads + Wait + Sync, W: LaneWorker + Send + Drop, M: Meanwhile + Drop>(
    rt: &R,
    alloc: Global,
    a: u64,
    b: u64,
    worker: W,
    beside: M,
    to: &Giver,
    from: Taker,
    mut pass: Ticket,
) -> (W, M::Done)
    requires seat { IsSeatAt (sends_on to.now) pass × (receives_on from ≡ sends_on to.now)
        × (view pass ≡ log (Some []) (Some []) (Some [])) }
    requires begins { W.did worker [] worker }
    requires may_run { M.may_run beside }
    ensures finished { (jobs : List Job) × HasAll a b jobs × W.finished worker jobs result.0 }
    ensures ran { M.ran beside result.1 }
{
    let theirs = to.another::<Working>(&mut pass);
    thread::scope(
        thread::scope_env(),
        rt,
        move |scope| -> (W, M::Done)
            requires { IsSync R.row × IsSeatAt (sends_on to.now) pass
                × IsSeatAt (sends_on to.now) theirs × (receives_on from ≡ sends_on to.now)
                × (view pass ≡ log (Some []) (Some []) None)
                × (view theirs ≡ log None None (Some []))
                × W.did worker [] worker × M.may_run beside }
            ensures { ((jobs : List Job) × HasAll a b jobs × W.finished worker jobs result.0)
                × M.ran beside result.1 }
        {
            let promise = DoesJobs {
                worker: Snapshot::of(&worker),
                from: Snapshot::of(&from),
            };
            let working = scope.spawn_with(
                promise,
                move || -> (Ticket, W)
                    requires { IsSync R.row × IsSeatAt (receives_on from) theirs
                        × (view theirs ≡ log None None (Some [])) × W.did worker [] worker }
                    ensures { IsSeatAt (receives_on from) result.0
                        × Took W.did W.finished (view result.0) worker result.1 }
                { work_owned(rt, alloc, from, theirs, worker) },
            );
            match working {
                Ok(child) => {
                    let (pass, done) = send_both(rt, to, pass, a, b, beside);
                    let (theirs, worker) = child.join(rt);
                    take_in_lanes(to, pass, theirs, a, b);
                    (worker, done)
                }
                Err(refused) => {
                    let mut pass = pass;
                    send_job(rt, to, &mut pass, LaneJob::Back);
                    let (theirs, mut worker) = (refused.value)();
                    take_in_back(to, pass, theirs);
                    work_alone(&mut worker, a, b);
                    let done = run_behind(&worker, beside);
                    (worker, done)
                }
            }
        },
    )
}

/// Has a worker on a thread of its own deal with the elements of two lists, which have so many
/// elements and are named by a thread each, and runs what is to be done meanwhile on the calling
/// thread. Where there is no memory for the channel between them, or the worker's thread can't be
/// started, the elements are dealt with here, one list after the other, before the other thing is
/// run; a lane whose thread can't be started is sent here before it is run.
pub fn run_lanes<R: Threads + Wait + Sync, W: LaneWorker + Send + Drop, M: Meanwhile + Drop>(
    rt: &R,
    alloc: Global,
    a: u64,
    b: u64,
    worker: W,
    beside: M,
) -> (W, M::Done)
    requires begins { W.did worker [] worker }
    requires may_run { M.may_run beside }
    ensures finished { (jobs : List Job) × HasAll a b jobs × W.finished worker jobs result.0 }
    ensures ran { M.ran beside result.1 }
{
    let Ok((to, from, pass)) = bounded_with::<LaneJob, Log, EachInOrder, Global>(
        alloc,
        MOST_WAITING,
    ) else {
        let mut worker = worker;
        work_alone(&mut worker, a, b);
        let done = run_behind(&worker, beside);
        return (worker, done);
    };
    run_across(rt, alloc, a, b, worker, beside, &to, from, pass)
}
