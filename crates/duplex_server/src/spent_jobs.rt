//! What was written, on its way back to be used again.

use crate::jobs::Spent;
use crossbeam_queue::ArrayQueue;
use std::alloc::Global;
use std::sync::Wait;

/// How many are on their way at most: as many as jobs may wait.
const MOST_SPENT: usize = 16;

/// What one thread has written, and whose memory another uses again or frees. What is freed by
/// another thread than asked for it costs both a lock of the allocator.
#[derive(Drop)]
pub struct SpentJobs<'r, R> {
    rt: &'r R,
    queue: Option<ArrayQueue<Spent>>,
}

impl<'r, R: Wait> SpentJobs<'r, R> {
    /// With none on their way. Without memory none ever are.
    pub fn new(rt: &'r R, alloc: Global) -> SpentJobs<'r, R> {
        SpentJobs {
            rt,
            queue: ArrayQueue::new(alloc, MOST_SPENT).ok(),
        }
    }

    /// Gives back what a job leaves, if it does. Where too many are on their way it is dropped.
    pub fn give(&self, spent: Option<Spent>) {
        if let (Some(queue), Some(spent)) = (&self.queue, spent) {
            let _ = queue.push(self.rt, spent);
        }
    }

    /// What was given back, if anything was.
    pub fn take(&self) -> Option<Spent> {
        match &self.queue {
            Some(queue) => queue.pop(self.rt),
            None => None,
        }
    }
}
