//! The view of a SOAP 1.2 envelope with WS-Addressing that servers and callers go by, and exact
//! replies and faults.
//!
//! The one idea: an envelope is a document seen by the namespaces that its prefixes are bound to.
//! `view` of `specs/View.antt` is a function of the document's items, in the order in which it is
//! judged: names (`Scopes`, `BadNames`), the root and its children (`Parts`), header blocks
//! (`Blocks`, `Headers`), and the content of Body, so that it stands by itself (`Body`).
//! `Envelope::of` is proved to answer that view, or the first refusal. `take_body` takes the
//! content of Body out of a document that isn't needed any more: its items are moved, and stay in
//! the document's list.
//!
//! A message is in a version of WS-Addressing, 1.0 or that of August 2004. What a version changes
//! stands in `specs/Versions.antt` alone: all else is handed the version.
//!
//! `reply_doc` and `fault_doc` make documents whose items `specs/Making.antt` and
//! `specs/Faults.antt` list one by one. The names of the standards are in `src/namespaces.rt` and
//! `specs/Names.antt`.
#![tactic(auto)]

mod attributes;
mod bindings;
mod blocks;
mod body;
mod characters;
mod children;
mod elements;
mod envelope;
mod faults;
mod fitting;
mod headers;
pub mod laws;
mod layers;
mod making;
mod moving;
mod names;
mod namespaces;
mod naming;
mod parts;
mod plain;
pub mod puts;
mod refusals;
mod report;
mod ring;
mod scopes;
mod taking;
mod texts;
mod versions;

pub use blocks::{Block, Blocks, Names, QualifiedName};
pub use elements::BlockElement;
pub use envelope::Envelope;
pub use faults::{fault_doc, fault_doc_with, related_texts};
pub use making::{reply_doc, reply_doc_with};
pub use naming::names_fit;
pub use plain::envelope_doc;
pub use refusals::SoapFault;
pub use report::{Code, FaultReport, Sub};
pub use taking::{return_body, take_body};
pub use versions::Addressing;
