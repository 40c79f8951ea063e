//! What does jobs, and the loop of its thread.

ghost use Rattle.std.specs.Prelude.{◌≡◌, Bool, List, true, false, [], ◌∷◌, ◌++◌, IfSome, IfNone};
ghost use Rattle.crossbeam_channel.specs.Claims.{view, IsSeatAt};
ghost use Rattle.crossbeam_channel.specs.Ends.{receives_on};
ghost use Rattle.worker_thread.specs.Crossing.{log};
ghost use Rattle.worker_thread.specs.Jobs.{AreFirst, IsEnded};

use crate::rule::{Taken, Taker, Ticket};
use std::sync::Wait;
use std::thread;

/// How often the next job is looked for before its thread sleeps until it comes.
const MOST_LOOKS: usize = 64;

/// Does jobs, one after the other, with what it owns.
pub trait Worker<J> {
    /// Since it was like the first, exactly these jobs were done, in this order, and it is like this
    /// now.
    ghost did: { Self → List J → Self → Type 0 };

    /// No job follows it.
    ghost is_last: { J → Bool };

    /// The next job may be long in coming: nothing is put off that others wait for.
    ghost may_wait: { Self → Type 0 };

    /// Whether no job follows it.
    fn is_last(job: &J) -> bool
        ensures { result ≡ is_last job.now };

    /// Does the next job.
    fn work(&mut self, job: J)
        ensures did { (first : Self) (jobs : List J) → AreFirst is_last jobs
            → did first jobs self.old → did first (jobs ++ job ∷ []) self.new };

    /// No job waits now: what was put off, to be done for several jobs at once, is done here.
    fn catch_up(&mut self)
        ensures may_wait { may_wait self.new }
        ensures did { (first : Self) (jobs : List J) → AreFirst is_last jobs
            → did first jobs self.old → did first jobs self.new };
}

// Takes the next job, which may be waited for. It is looked for a number of times before the thread
// sleeps: to wake it costs the sender more than a job may take.
fn wait_for_job<R: Wait, J: Drop, W: Worker<J>>(
    rt: &R,
    from: &Taker<J>,
    pass: &mut Ticket<J>,
    worker: &W,
) -> Option<J>
    requires may_wait { W.may_wait worker.now }
    requires seat { IsSeatAt (receives_on from.now) pass.old × ((view pass.old).takes ≡ true) }
    ensures seat { IsSeatAt (receives_on from.now) pass.new }
    ensures taken { IfSome result (λ job. view pass.new ≡ log (view pass.old).sends
        (view pass.old).takes (view pass.old).sent ((view pass.old).taken ++ job ∷ [])) }
    ensures none { IfNone result (view pass.new ≡ view pass.old) }
{
    for _ in 0..MOST_LOOKS {
        if let Ok(job) = from.try_recv_as::<Taken, R>(rt, pass) {
            return Some(job);
        }
        thread::yield_now();
    }
    from.recv_as::<Taken, R>(rt, pass).ok()
}

// Takes the next job, and has the worker catch up where none waits.
fn next_job<R: Wait, J: Drop, W: Worker<J>>(
    rt: &R,
    from: &Taker<J>,
    pass: &mut Ticket<J>,
    worker: &mut W,
) -> Option<J>
    requires { IsSeatAt (receives_on from.now) pass.old × ((view pass.old).takes ≡ true) }
    ensures seat { IsSeatAt (receives_on from.now) pass.new }
    ensures taken { IfSome result (λ job. view pass.new ≡ log (view pass.old).sends
        (view pass.old).takes (view pass.old).sent ((view pass.old).taken ++ job ∷ [])) }
    ensures none { IfNone result (view pass.new ≡ view pass.old) }
    ensures did { (first : W) (jobs : List J) → AreFirst W.is_last jobs
        → W.did first jobs worker.old → W.did first jobs worker.new }
{
    if let Ok(job) = from.try_recv_as::<Taken, R>(rt, pass) {
        return Some(job);
    }
    worker.catch_up();
    wait_for_job(rt, from, pass, worker)
}

/// Takes jobs up to the last one, and has each done by a worker that has done none. Gives back what
/// the thread knows then, and the worker.
pub fn work_on<R: Wait, J: Drop, W: Worker<J>>(
    rt: &R,
    from: Taker<J>,
    mut pass: Ticket<J>,
    mut worker: W,
) -> (Ticket<J>, W)
    requires seat { IsSeatAt (receives_on from) pass × (view pass ≡ log false true [] []) }
    requires begins { W.did worker [] worker }
    ensures seat { IsSeatAt (receives_on from) result.0 }
    ensures view { view result.0 ≡ log false true [] (view result.0).taken }
    ensures ended { IsEnded W.is_last (view result.0).taken }
    ensures did { W.did worker (view result.0).taken result.1 }
{
    for _ in rt.forever() {
        if let Some(job) = next_job(rt, &from, &mut pass, &mut worker) {
            let is_last = W::is_last(&job);
            worker.work(job);
            if is_last {
                return (pass, worker);
            }
        }
    }
    unreachable!()
}
