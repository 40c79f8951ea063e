//! Values, items and documents of a WCF net.tcp stack, and the quotas and refusals of its ends.
//!
//! A document is what the binary XML of MC-NBFX spells, whichever of its many spellings was chosen:
//! a list of items in document order. A `Doc` is a document by its type: `Doc::of` takes exactly
//! the lists that are the walk over one element whose values records can hold, and says of any
//! other list at which item it stops being the front of a document. A `DocBuilder` is such a front
//! by its type, and grows item by item to a `Doc`. The numbers of modes and encodings are those of
//! MC-NMF; the quotas and the refusals are this stack's own, and `Quotas` are valid by their type.
//!
//! The definitions are in `specs/`: `Documents` (the walk, a document, a front, the height),
//! `Positions` (the same item by item), `Measures` (depth and content), `Items` and `Scalars`
//! (which values records can hold), `Characters`, `Limits` and `QuotasOf` (valid quotas), `Session`
//! (modes and encodings) and `Refusals` (reasons). The laws that tie them are in `laws`.
#![tactic(auto)]

mod builder;
mod characters;
mod content;
mod copies;
mod document;
pub mod laws;
mod limits;
mod lists;
mod measures;
mod position;
mod refusals;
mod scalars;
mod session;
mod texts;
mod threads;

pub use builder::{DocBuilder, PushFault};
pub use content::{ArrayItem, ArrayKind, AttrItem, Attrs, Item, Items};
pub use copies::Copied;
pub use document::{Doc, Docs, NotADoc};
pub use limits::{Kept, Quotas, Two};
pub use lists::Sequence;
pub use position::Position;
pub use refusals::{Offence, Place, Reason};
pub use scalars::{Dec, Scalar, Value, Values};
pub use session::{Encoding, Kind, Mode};
pub use texts::{Blob, Txt};
pub use unit_streams::Memory;
