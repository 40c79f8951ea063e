//! Two lists whose elements two threads name and a third one deals with, while the caller does
//! something else.
//!
//! The one idea is that a lane names its elements by their numbers, in order, so a job takes no
//! memory, and that whoever does the jobs sees one order of both lists. The rule of the channel
//! between them (`specs/Jobs.antt`) says of each lane that the jobs of it that were taken and those
//! that wait are those that it sent. [`run_lanes`] starts the threads and joins them: the worker
//! has done jobs that name all elements of both lists, those of each list in order
//! (`specs/Numbers.antt`). Where there is no memory for the channel, or a thread can't be started,
//! the same is done without it.
//!
//! `specs/Merges.antt` has what such an order makes of two lists: their merge by one letter an
//! element. [`laws`] has what holds of merges. That a call returns, that the threads run at once, and
//! an order between the lanes aren't promised.
#![tactic(auto)]

mod jobs;
mod lanes;
pub mod laws;
mod sender;
mod working;

pub use jobs::{Lane, LaneJob};
pub use lanes::{Meanwhile, run_lanes};
pub use working::LaneWorker;
