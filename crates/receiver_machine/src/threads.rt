//! Which types may move between threads, and which may be shared.

use crate::receiver::Receiver;
use stream_reader::Endpoint;

fn moves<T: Send>() {}

fn is_shared<T: Sync>() {}

// A type that may not fails here, and not at the first thread that takes it.
fn move_and_share<'s>() {
    moves::<Receiver<'s>>();
    is_shared::<Endpoint>();
}
