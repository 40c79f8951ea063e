//! Both ends of a session that was generated, and why one isn't.

use nbfx_encoder::Sender;
use nbfx_values::Offence;
use receiver_machine::Receiver;
use unit_streams::Memory;

/// Both ends of a session that was generated.
#[derive(Drop)]
pub struct Ends<'s> {
    /// The sending half, which has ended the session.
    pub sender: Sender<'s>,
    /// The reading half at the other end, which has read all of it.
    pub receiver: Receiver<'s>,
    /// How many documents were read.
    pub documents: u64,
    /// How many bytes the session has.
    pub bytes: u64,
}

/// Why a session isn't generated.
#[derive(Clone, Copy, Debug, PartialEq, Eq)]
pub enum GenFault {
    /// It has more bytes than the session quota, and its reader refuses it with this offence.
    SessionTooLong(Offence),
    /// Out of memory.
    Memory,
}

impl From<Memory> for GenFault {
    ghost use Rattle.std.specs.Prelude.{◌≡◌};
    ghost use Rattle.session_generator.specs.declared.ends.GenFault.TheVariants as faults;

    ghost from_gives = { λ _ fault. fault ≡ faults.Memory };

    fn from(_memory: Memory) -> GenFault {
        GenFault::Memory
    }
}
