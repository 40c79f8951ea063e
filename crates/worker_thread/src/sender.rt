//! The end that sends jobs.

ghost use Rattle.std.specs.Prelude.{◌≡◌, List, true, false, [], ◌∷◌, ◌++◌};
ghost use Rattle.crossbeam_channel.specs.Claims.{view, IsSeatAt};
ghost use Rattle.crossbeam_channel.specs.Ends.{sends_on};
ghost use Rattle.worker_thread.specs.Crossing.{log};
ghost use Rattle.worker_thread.specs.Jobs.{IsEnded};

use crate::rule::{Given, Giver, Roles, Ticket, Total};
use crate::working::Worker;
use std::sync::Wait;

/// Sends jobs to a worker on another thread.
#[derive(Drop)]
pub struct JobSender<'r, R, J: Drop> {
    rt: &'r R,
    pub(crate) to: Giver<J>,
    pub(crate) pass: Ticket<J>,
    ghost seated: { IsSeatAt (sends_on to) pass },
    ghost sends: { view pass ≡ log true false (view pass).sent [] },
}

// Sends one job. A refused call has changed nothing, and is made again.
fn send_job<J: Drop, R: Wait>(rt: &R, to: &Giver<J>, pass: &mut Ticket<J>, mut job: J)
    requires { IsSeatAt (sends_on to.now) pass.old × ((view pass.old).sends ≡ true) }
    ensures seat { IsSeatAt (sends_on to.now) pass.new }
    ensures sent { view pass.new ≡ log true (view pass.old).takes
        ((view pass.old).sent ++ job ∷ []) (view pass.old).taken }
{
    for _ in rt.forever() {
        match to.send_as::<Given, R>(rt, pass, job) {
            Ok(()) => return,
            Err(refused) => job = refused.into_inner(),
        }
    }
    unreachable!()
}

impl<'r, R: Wait, J: Drop> JobSender<'r, R, J> {
    ghost use Rattle.worker_thread.specs.Sending.{sent_by};

    /// Before the first job.
    pub fn new(rt: &'r R, to: Giver<J>, pass: Ticket<J>) -> JobSender<'r, R, J>
        requires { IsSeatAt (sends_on to) pass × (view pass ≡ log true false [] []) }
        ensures unsent { sent_by result ≡ [] }
        ensures to { result.to ≡ to }
    {
        JobSender { rt, to, pass }
    }

    /// Sends a job. Where sixteen wait, it waits until one is taken.
    pub fn send(&mut self, job: J)
        ensures sent { sent_by self.new ≡ sent_by self.old ++ job ∷ [] }
        ensures to { self.new.to ≡ self.old.to }
    {
        send_job(self.rt, &self.to, &mut self.pass, job)
    }
}

// Where the worker's pass is back and has taken the last job, it has taken all that were sent.
fn take_back<J: Drop, W: Worker<J>>(to: &Giver<J>, pass: &mut Ticket<J>, theirs: Ticket<J>)
    requires seats { IsSeatAt (sends_on to.now) pass.old × IsSeatAt (sends_on to.now) theirs }
    requires sent { view pass.old ≡ log true false (view pass.old).sent [] }
    requires ended { IsEnded W.is_last (view pass.old).sent }
    requires taken { view theirs ≡ log false true [] (view theirs).taken }
    requires all { IsEnded W.is_last (view theirs).taken }
    ensures { (view theirs).taken ≡ (view pass.old).sent }
{
    to.absorb::<Roles>(pass, theirs);
    to.learn_as::<Total>(pass);
}

/// Takes back what a worker's thread knows that has taken the last job: it has taken all jobs that
/// were sent.
pub fn join_worker<R: Wait, J: Drop, W: Worker<J>>(sender: JobSender<'_, R, J>, theirs: Ticket<J>)
    requires seat { IsSeatAt (sends_on sender.to) theirs }
    requires ended { IsEnded W.is_last (view sender.pass).sent }
    requires taken { view theirs ≡ log false true [] (view theirs).taken }
    requires all { IsEnded W.is_last (view theirs).taken }
    ensures { (view theirs).taken ≡ (view sender.entry.pass).sent }
{
    let JobSender { to, mut pass, .. } = sender;
    take_back::<J, W>(&to, &mut pass, theirs);
}
