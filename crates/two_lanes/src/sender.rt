//! A thread that sends the jobs of one lane.

ghost use Rattle.std.specs.Prelude.{◌≡◌, true, []};
ghost use Rattle.crossbeam_channel.specs.Claims.{view, IsSeatAt};
ghost use Rattle.crossbeam_channel.specs.Ends.{sends_on};
ghost use Rattle.two_lanes.specs.Jobs.{after_send, all_jobs, lane_log, may_send};

use crate::jobs::{Giver, Lane, LaneJob, Sent, Ticket};
use std::sync::Wait;

/// Sends one job. A refused call has changed nothing, and is made again.
pub fn send_job<R: Wait>(rt: &R, to: &Giver, pass: &mut Ticket, mut job: LaneJob)
    requires { IsSeatAt (sends_on to.now) pass.old × (may_send (view pass.old) job ≡ true) }
    ensures seat { IsSeatAt (sends_on to.now) pass.new }
    ensures sent { view pass.new ≡ after_send (view pass.old) job }
{
    for _ in rt.forever() {
        match to.send_as::<Sent, R>(rt, pass, job) {
            Ok(()) => return,
            Err(refused) => job = refused.into_inner(),
        }
    }
    unreachable!()
}

/// Sends a job for each number of the lane, and its last one.
pub fn send_lane<R: Wait>(rt: &R, to: &Giver, mut pass: Ticket, lane: Lane, count: u64) -> Ticket
    requires { IsSeatAt (sends_on to.now) pass × (view pass ≡ lane_log lane []) }
    ensures { IsSeatAt (sends_on to.now) result
        × (view result ≡ lane_log lane (all_jobs lane count)) }
{
    let mut number = 0;
    while number < count {
        send_job(rt, to, &mut pass, LaneJob::Send { lane, number });
        number += 1;
    }
    send_job(rt, to, &mut pass, LaneJob::Last(lane));
    pass
}
