// What words ask for.

use crate::task::{Rehearsal, Task};
use nbfx_values::Two;

/// What the arguments ask for.
#[derive(Clone, Copy, Debug, PartialEq, Eq)]
pub enum Request<'w> {
    /// A task on sessions.
    Sessions(SessionRequest<'w>),
    /// To play the history of a reliable sequence: `rehearse`.
    Rehearse(Rehearsal<'w>),
}

/// What the arguments of a command on sessions ask for.
#[derive(Clone, Copy, Debug, PartialEq, Eq)]
pub struct SessionRequest<'w> {
    /// The name of the file of the static strings.
    pub statics: &'w str,
    /// The quotas that each direction of a session is held within.
    pub quotas: Two,
    /// What is to be done.
    pub task: Task<'w>,
}
