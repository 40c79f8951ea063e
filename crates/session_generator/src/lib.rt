//! Large sessions that a seed determines, with both of their ends: what an initiator sends is read
//! by a receiver record by record, and both have the same session strings at the end.
//!
//! The one idea: which documents follow a seed is a function (`specs/Documents`), each of them fits
//! under all valid quotas, and so the session is what a sender writes of them (`specs/Generated`).
//! [`generate`] gives the end that has sent it and the end that has read it (`specs/Ends`).
//! [`summarize`] makes the session and writes a line of what both agree on: how many documents and
//! bytes were read, and how many session strings there are, of which cost. `specs/Summary` says
//! which line is due for which documents, and what is written of it, however that ends.
#![tactic(auto)]

mod documents;
mod ends;
mod generating;
mod numbers;
mod reading;
mod session;
mod summary;

pub use ends::{Ends, GenFault};
pub use generating::{generate, tables};
pub use summary::{Summary, summarize};
