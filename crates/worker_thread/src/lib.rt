//! A second thread that does jobs in the order in which they are sent.
//!
//! The one idea: what a thread does beside another is a fold over the jobs that it takes, and these
//! are the jobs that were sent. So a contract that says what a [`Worker`] has done for a list of
//! jobs says it whichever thread did them.
//!
//! [`job_channel`] makes the channel, in which at most sixteen jobs wait. Its rule is that what was
//! sent is what was taken and then what waits (`specs/Crossing.antt`). A [`JobSender`] sends on the
//! one thread; on the other [`work_on`] takes jobs up to the last one, and has the worker catch up
//! whenever none waits. [`join_worker`] says, once that thread was joined, that all jobs that were
//! sent were taken. Who starts the thread has to say of which type the jobs are.
//!
//! That a call returns, or that the threads run at once, isn't promised.
#![tactic(auto)]

mod channel;
mod rule;
mod sender;
mod working;

pub use channel::{JobChannel, job_channel};
pub use rule::{Giver, InOrder, Log, Taker, Ticket};
pub use sender::{JobSender, join_worker};
pub use working::{Worker, work_on};
