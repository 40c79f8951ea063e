//! The session string table of one direction (MC-NBFSE): the strings that the payloads of that
//! direction brought, in the order in which they came. String i has the identifier 2i + 1, and the
//! strings' cost together stays within a limit.
//!
//! A contract sees a `SessionTable` as the list of its strings and its limit. The cost of strings,
//! the text of an identifier and the least identifier of a text are words of `string_tables`
//! (`SessionStrings`). All texts lie in one buffer (`texts`). A writer's table finds one by the
//! order of them all (`order`), which a reader's table does without.
#![tactic(auto)]

mod order;
mod table;
mod texts;
mod threads;

pub use table::{AddFault, Mark, SessionTable};
