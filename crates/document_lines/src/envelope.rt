//! Envelopes as they are written.

ghost use Rattle.std.specs.Prelude.{◌≡◌};

use std::marker::Model;

/// The bytes of an envelope record of MC-NMF, which contracts see as their list.
#[derive(Debug, Drop)]
pub struct Envelope {
    bytes: Vec<u8>,
}

impl Model for Envelope {
    ghost use Rattle.std.specs.Prelude.{ℕ, List};

    ghost Value = { List ℕ };

    ghost view = { λ e. e.bytes.items };
}

impl Envelope {
    // The envelope with these bytes.
    pub(crate) fn of(bytes: Vec<u8>) -> Envelope
        ensures { result ≡ bytes.items }
    {
        Envelope { bytes }
    }

    /// The bytes of the envelope.
    pub fn as_slice(&self) -> &[u8]
        ensures { result.now ≡ self.now }
    {
        &self.bytes
    }

    // The bytes, taken out.
    pub(crate) fn into_bytes(self) -> Vec<u8>
        ensures { result.items ≡ self }
    {
        let Envelope { bytes } = self;
        bytes
    }
}
