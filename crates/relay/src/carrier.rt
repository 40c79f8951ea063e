//! What writes one direction, and how.

ghost use Rattle.std.specs.Prelude.{◌≡◌, true, None};

use nbfx_encoder::{EncodeFault, Sender, Side};
use nbfx_values::{Kind, Mode, Quotas};
use static_dictionary::StaticTable;
use stream_loop::PartWriter;

/// How a direction is written.
#[derive(Clone, Copy)]
pub struct CarrySettings<'s> {
    /// As which end.
    pub side: Side,
    /// The static strings of the side that is written to.
    pub statics: &'s StaticTable,
    /// The quotas of the direction.
    pub quotas: Quotas,
    /// The mode of both sessions.
    pub mode: Mode,
    /// The encoding of the envelopes.
    pub kind: Kind,
}

/// Writes what opens a session, and then an envelope for each document. After a document that
/// doesn't fit, a failed write, or when out of memory, it writes nothing more.
#[derive(Drop)]
pub struct Carrier<'s> {
    pub(crate) sender: Sender<'s>,
    // What opens the session.
    pub(crate) opening: Vec<u8>,
    pub(crate) parts: PartWriter,
    // Why the next document doesn't fit.
    pub(crate) unfit: Option<EncodeFault>,
    // Whether the last event was a Fault.
    pub(crate) faulted: bool,
    // Whether the sink's direction was ended since a document didn't fit.
    pub(crate) over: bool,
    ghost noted: { over ≡ true → unfit ≡ None → ⊥ },
}
