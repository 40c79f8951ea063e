//! The channel that jobs cross.

ghost use Rattle.std.specs.Prelude.{◌≡◌, true, false, [], IfOk};
ghost use Rattle.crossbeam_channel.specs.Claims.{view, IsSeatAt};
ghost use Rattle.crossbeam_channel.specs.Ends.{sends_on, receives_on, ruled_capacity};
ghost use Rattle.worker_thread.specs.Crossing.{log};

use crate::rule::{Giver, InOrder, Log, Roles, Taker, Ticket};
use crossbeam_channel::bounded_with;
use std::alloc::Global;
use unit_streams::Memory;

/// How many jobs wait at most.
const MOST_WAITING: usize = 16;

/// The two ends of a channel, and what each end's thread knows of it.
#[derive(Drop)]
pub struct JobChannel<J: Drop> {
    /// The end that sends.
    pub to: Giver<J>,
    /// What its thread knows.
    pub sent: Ticket<J>,
    /// The end that takes.
    pub from: Taker<J>,
    /// What its thread knows.
    pub taken: Ticket<J>,
}

/// A channel in which at most sixteen jobs wait. It fails without memory for it.
pub fn job_channel<J: Drop>(alloc: Global) -> Result<JobChannel<J>, Memory>
    ensures ends { IfOk result (λ channel. receives_on channel.from ≡ sends_on channel.to) }
    ensures room { IfOk result (λ channel. ruled_capacity (sends_on channel.to) ≡ 16) }
    ensures sent { IfOk result (λ channel. IsSeatAt (sends_on channel.to) channel.sent
        × (view channel.sent ≡ log true false [] [])) }
    ensures taken { IfOk result (λ channel. IsSeatAt (sends_on channel.to) channel.taken
        × (view channel.taken ≡ log false true [] [])) }
{
    let Ok((to, from, mut sent)) = bounded_with::<J, Log<J>, InOrder, Global>(alloc, MOST_WAITING)
    else {
        return Err(Memory);
    };
    let taken = to.another::<Roles>(&mut sent);
    Ok(JobChannel {
        to,
        sent,
        from,
        taken,
    })
}
