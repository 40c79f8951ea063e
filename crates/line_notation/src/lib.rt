//! Documents as lines that a person reads, greps and edits, and documents out of such lines. The
//! notation is this stack's own.
//!
//! The one idea is the form of a line: what its words say, before it is judged. `IsLine` of
//! `specs/Forms.antt` has one row for each form, with the words as they may be written, and
//! `line_of` is the line that is put for one. A document is the forms of its items
//! (`specs/Lines.antt`): an array has several lines, any other item has one. What a line is
//! refused for by itself, and what it says else, is in `specs/Judging.antt`; where that leads is
//! in `specs/LineReaderState.antt`, by the positions of `nbfx_values`.
//!
//! `print` puts a document's lines and `quote` a quoted text, byte for byte. A line goes in several
//! puts: where a put is expensive, give a buffering sink, such as `io_edges::GatheringSink`. They
//! take no memory but the sink's. A `LineReader` reads line after line, and is proved to answer
//! what the definitions bring: a document at its last line, or the first refusal, with the line's
//! number. Other lines have the same texts and numbers: `unquote` and `number_up_to` read one that
//! stands by itself. `laws` has that reading what was put gives the document back, that documents
//! come from their own lines alone, and which lines are refused for what.
#![tactic(auto)]

mod arguments;
mod arrays;
mod decimals;
mod digits;
mod escapes;
mod judged;
pub mod laws;
mod line;
mod lines;
mod numbers;
mod placing;
mod printing;
mod puts;
mod reader;
mod scalar_words;
mod scalars;
mod texts;
mod values;
mod words;

pub use arguments::{QuoteFault, number_up_to, unquote};
pub use decimals::put_labelled;
pub use printing::print;
pub use puts::{Word, put_joined, put_plain, put_words, quote};
pub use reader::{LineFault, LineKind, LineReader, LineStep};
