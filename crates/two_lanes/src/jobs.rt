//! The jobs of two lanes, and the rule of the channel that they cross.

use crossbeam_channel::protocol::{Join, Lesson, Outcome, Protocol, Split};
use crossbeam_channel::{Pass, RuledReceiver, RuledSender};
use std::collections::LinkedList;

/// One of two lists, and the letter of an element of it.
#[derive(Clone, Copy, Debug, PartialEq, Eq)]
pub enum Lane {
    /// The first list.
    A,
    /// The second list.
    B,
}

/// What a worker is asked for.
#[derive(Clone, Copy, Debug, PartialEq, Eq)]
pub enum LaneJob {
    /// To deal with the element of that number, from 0, of the lane's list.
    Send { lane: Lane, number: u64 },
    /// Nothing: no more of that lane comes.
    Last(Lane),
    /// Nothing: no lane is started, and the worker is wanted back.
    Back,
}

/// What a pass knows: what was sent of each lane that it may send of, and what it has taken, if it
/// may take. No value of it is made.
pub struct Log {
    pub a: Option<LinkedList<LaneJob>>,
    pub b: Option<LinkedList<LaneJob>>,
    pub got: Option<LinkedList<LaneJob>>,
}

/// The jobs of a lane come in the order in which they were sent.
pub struct EachInOrder;

impl Protocol<LaneJob, Log> for EachInOrder {
    ghost use Rattle.std.specs.Prelude.{[], Some};
    ghost use Rattle.two_lanes.specs.Jobs.{log, Crossing};

    ghost holds = { Crossing };

    ghost first = { log (Some []) (Some []) (Some []) };
}

/// One pass takes, and the other one sends.
pub struct Working;

impl Split<Log> for Working {
    ghost use Rattle.std.specs.Prelude.{None};
    ghost use Rattle.two_lanes.specs.Jobs.{log};

    ghost left = { λ v. log v.a v.b None };

    ghost right = { λ v. log None None v.got };
}

impl Join<Log> for Working {
    ghost use Rattle.std.specs.Prelude.{None};
    ghost use Rattle.two_lanes.specs.Jobs.{log};

    ghost both = { λ v w. log v.a v.b w.got };

    ghost spent = { log None None None };
}

/// One pass sends of lane A, and the other one of lane B.
pub struct Lanes;

impl Split<Log> for Lanes {
    ghost use Rattle.std.specs.Prelude.{None};
    ghost use Rattle.two_lanes.specs.Jobs.{log};

    ghost left = { λ v. log v.a None v.got };

    ghost right = { λ v. log None v.b None };
}

impl Join<Log> for Lanes {
    ghost use Rattle.std.specs.Prelude.{None};
    ghost use Rattle.two_lanes.specs.Jobs.{log};

    ghost both = { λ v w. log v.a w.b v.got };

    ghost spent = { log None None None };
}

/// A job was sent.
pub struct Sent;

impl Outcome<LaneJob, Log> for Sent {
    ghost use Rattle.std.specs.Prelude.{◌≡◌};
    ghost use Rattle.two_lanes.specs.Jobs.{after_send};

    ghost then = { λ v x w. w ≡ after_send v x };
}

impl Lesson<LaneJob, Log> for Sent {
    ghost use Rattle.std.specs.Prelude.{⊤};

    ghost fact = { λ _ _. ⊤ };
}

/// A job was taken.
pub struct Got;

impl Outcome<LaneJob, Log> for Got {
    ghost use Rattle.std.specs.Prelude.{◌≡◌};
    ghost use Rattle.two_lanes.specs.Jobs.{log, more};

    ghost then = { λ v x w. w ≡ log v.a v.b (more x v.got) };
}

impl Lesson<LaneJob, Log> for Got {
    ghost use Rattle.std.specs.Prelude.{⊤};

    ghost fact = { λ _ _. ⊤ };
}

/// What the pass with every side learns.
pub struct Total;

impl Lesson<LaneJob, Log> for Total {
    ghost use Rattle.two_lanes.specs.Jobs.{AllTold};

    ghost fact = { AllTold };
}

/// The end that jobs are sent to.
pub type Giver = RuledSender<LaneJob, Log, EachInOrder>;

/// The end that jobs are taken from.
pub type Taker = RuledReceiver<LaneJob, Log, EachInOrder>;

/// What a thread knows of the jobs that it sent or took.
pub type Ticket = Pass<LaneJob, Log>;
