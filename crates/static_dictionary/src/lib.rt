//! The static string table (MC-NBFS): the texts that both ends know from the start, each under an
//! even identifier. It is handed in as a CSV file of two fields, whose first row is `id` and
//! `string`.
//!
//! A contract sees a `StaticTable` as a finite map, the list of its entries in rising order of
//! their identifiers. `StaticTable::read` gives the map of the file's rows, or names the first row
//! that fails and says why. `specs/Rows.antt` has what the rows of a file say, where the rows are
//! those of `csv_rows`. The text of an identifier and the least identifier of a text are words of
//! `string_tables` (`StaticStrings`).
#![tactic(auto)]

mod entry;
mod fault;
mod header;
mod names;
mod table;
mod threads;

pub use fault::{TableFault, TableKind};
pub use table::StaticTable;
