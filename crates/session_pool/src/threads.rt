//! Which types may move between threads.

use crate::pooling::PoolReport;
use crate::turns::Turns;

fn moves<T: Send>() {}

// A type that may not fails here, and not at the first thread that takes it.
fn move_all() {
    moves::<Turns>();
    moves::<PoolReport>();
}
