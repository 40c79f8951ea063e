//! The rule of the channel that jobs cross.

use crossbeam_channel::protocol::{Join, Lesson, Outcome, Protocol, Split};
use crossbeam_channel::{Pass, RuledReceiver, RuledSender};
use std::collections::LinkedList;

/// What a pass may do, which jobs it has sent and which it has taken. No value of it is made.
pub struct Log<J> {
    /// Whether it is the one that sends.
    pub sends: bool,
    /// Whether it is the one that takes.
    pub takes: bool,
    /// The jobs that it has sent, in their order.
    pub sent: LinkedList<J>,
    /// The jobs that it has taken, in their order.
    pub taken: LinkedList<J>,
}

/// Jobs come in the order in which they were sent.
pub struct InOrder;

impl<J> Protocol<J, Log<J>> for InOrder {
    ghost use Rattle.std.specs.Prelude.{true, []};
    ghost use Rattle.worker_thread.specs.Crossing.{log, Crosses};

    ghost holds = { Crosses };

    ghost first = { log true true [] [] };
}

/// One pass sends and one takes.
pub struct Roles;

impl<J> Split<Log<J>> for Roles {
    ghost use Rattle.std.specs.Prelude.{true, false, []};
    ghost use Rattle.worker_thread.specs.Crossing.{log};

    ghost left = { λ v. log true false v.sent [] };

    ghost right = { λ v. log false true [] v.taken };
}

impl<J> Join<Log<J>> for Roles {
    ghost use Rattle.std.specs.Prelude.{true, false, []};
    ghost use Rattle.worker_thread.specs.Crossing.{log};

    ghost both = { λ v w. log true true v.sent w.taken };

    ghost spent = { log false false [] [] };
}

/// A job was sent.
pub struct Given;

impl<J> Outcome<J, Log<J>> for Given {
    ghost use Rattle.std.specs.Prelude.{◌≡◌, ◌∷◌, ◌++◌, []};
    ghost use Rattle.worker_thread.specs.Crossing.{log};

    ghost then = { λ v x w. w ≡ log v.sends v.takes (v.sent ++ x ∷ []) v.taken };
}

impl<J> Lesson<J, Log<J>> for Given {
    ghost use Rattle.std.specs.Prelude.{⊤};

    ghost fact = { λ _ _. ⊤ };
}

/// A job was taken.
pub struct Taken;

impl<J> Outcome<J, Log<J>> for Taken {
    ghost use Rattle.std.specs.Prelude.{◌≡◌, ◌∷◌, ◌++◌, []};
    ghost use Rattle.worker_thread.specs.Crossing.{log};

    ghost then = { λ v x w. w ≡ log v.sends v.takes v.sent (v.taken ++ x ∷ []) };
}

impl<J> Lesson<J, Log<J>> for Taken {
    ghost use Rattle.std.specs.Prelude.{⊤};

    ghost fact = { λ _ _. ⊤ };
}

/// What was sent is what was taken and then what waits.
pub struct Total;

impl<J> Lesson<J, Log<J>> for Total {
    ghost use Rattle.std.specs.Prelude.{◌≡◌, ◌++◌};

    ghost fact = { λ v items. v.sent ≡ v.taken ++ items };
}

/// The end of a channel that sends jobs.
pub type Giver<J> = RuledSender<J, Log<J>, InOrder>;

/// The end that takes them.
pub type Taker<J> = RuledReceiver<J, Log<J>, InOrder>;

/// What a thread knows of a channel.
pub type Ticket<J> = Pass<J, Log<J>>;
