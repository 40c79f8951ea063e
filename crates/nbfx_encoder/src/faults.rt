//! Why a document isn't written.

ghost use Rattle.std.specs.Prelude.{◌≡◌};

use unit_streams::Memory;

/// Why a document isn't written. The writer and its output are as before.
#[derive(Clone, Copy, Debug, PartialEq, Eq)]
pub enum EncodeFault {
    /// This many elements are open at one moment, more than the depth quota admits.
    TooDeep { depth: u64 },
    /// The content counts this many bytes, more than the content quota admits.
    TooMuchContent { size: u64 },
    /// The item with this number, from 0, has a QName whose local name gets no identifier: no
    /// static string is that name, and as a session string it would cost too much, or encoding 7
    /// has none.
    NoIdForQName { item: u64 },
    /// The payload would have this many bytes, more than the payload quota admits.
    TooLarge { size: u64 },
    /// Out of memory.
    Memory,
}

impl From<Memory> for EncodeFault {
    ghost use Rattle.nbfx_encoder.specs.declared.faults.EncodeFault.{EncodeFault};

    ghost from_gives = { λ _ fault. fault ≡ EncodeFault.Memory };

    fn from(_memory: Memory) -> EncodeFault {
        EncodeFault::Memory
    }
}
