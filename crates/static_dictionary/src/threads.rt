//! Which types may be shared by threads.

use crate::table::StaticTable;

fn is_shared<T: Sync>() {}

// A type that may not fails here, and not at the first thread that takes it.
fn share() {
    is_shared::<StaticTable>();
}
