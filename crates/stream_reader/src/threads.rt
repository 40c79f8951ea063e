//! Which types may move between threads.

use crate::reader::StreamReader;

fn moves<T: Send>() {}

// A type that may not fails here, and not at the first thread that takes it.
fn move_all<'s>() {
    moves::<StreamReader<'s>>();
}
