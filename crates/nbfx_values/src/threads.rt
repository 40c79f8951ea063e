//! Which types may move between threads, and which may be shared.

use crate::builder::DocBuilder;
use crate::content::Items;
use crate::document::{Doc, Docs};
use crate::limits::{Quotas, Two};

fn moves<T: Send>() {}

fn is_shared<T: Sync>() {}

// A type that may not fails here, and not at the first thread that takes it.
fn move_and_share() {
    moves::<Doc>();
    moves::<Docs>();
    moves::<DocBuilder>();
    moves::<Items>();
    moves::<Quotas>();
    moves::<Two>();
    is_shared::<Docs>();
    is_shared::<Quotas>();
    is_shared::<Two>();
}
