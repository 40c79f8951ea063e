//! The rows of a CSV file, one after the other, as the crate `csv` finds them in its default form.
//!
//! The one idea: a contract sees a `RowReader` as the row that was read last and the rows to come,
//! so that a caller's loop goes over a list. `specs/Rows.antt` has what the rows of a file are.
#![tactic(auto)]

mod reader;

pub use reader::{RowReader, text_of};
