//! Which types may move between threads.

use crate::carry::Carry;
use crate::outcome::Outcome;

fn moves<T: Send>() {}

// A type that may not fails here, and not at the first thread that takes it.
fn move_all() {
    moves::<Carry>();
    moves::<Outcome>();
}
