//! The variable-length integer of MC-NBFX (MultiByteInt31, which MC-NMF uses for its sizes), and
//! the string of both: such an integer, and so many bytes of UTF-8. One to five bytes carry seven
//! value bits each, least significant first; the top bit says that another byte follows.
//!
//! The one idea is what stands at the front of some bytes: a whole integer or string of so many
//! bytes, one that is wrong from so many bytes on, or one that has only begun. `int_at` and
//! `string_at` (`specs/Integer`, `specs/Text`) say it of any list, as a `Front` of `unit_streams`.
//! The readers take bytes as they come, keep none that they don't need, and are proved to answer
//! what stands at the front of all bytes since they began: `Done` for a spelling and for nothing
//! else, an error at the first byte that shows it. Which bytes they have read is in `specs/Reader`
//! and `specs/TextReader`. The writers give the shortest spelling, and `laws` has what follows from
//! the definitions alone.
#![tactic(auto)]

mod front;
mod integer;
pub mod laws;
mod text;
mod writing;

pub use front::{IntRead, read_int};
pub use integer::{IntReader, IntStep};
pub use text::{StringReader, StringStep};
pub use unit_streams::Memory;
pub use writing::{put_int, put_string};
