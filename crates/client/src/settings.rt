//! How documents are sent, and how the peer's stream is read.

use nbfx_values::{Encoding, Mode, Two};
use static_dictionary::StaticTable;

/// How documents are sent, and how the peer's stream is read.
#[derive(Clone, Copy)]
pub struct CallSettings<'s> {
    /// The static strings.
    pub statics: &'s StaticTable,
    /// The quotas of both directions: documents are written within those forward, and answers are
    /// read within those back.
    pub quotas: Two,
    /// The mode of the session.
    pub mode: Mode,
    /// The encoding of its envelopes, and how the preamble names it.
    pub encoding: Encoding,
}
