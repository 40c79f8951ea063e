//! Why a file of actions isn't read.

use unit_streams::Memory;

/// What is wrong with a row of a file of actions.
#[derive(Clone, Copy, Debug, PartialEq, Eq)]
pub enum ActionKind {
    /// The first row isn't the fields `action` and `text`, or there is none.
    Header,
    /// The row hasn't exactly two fields.
    Fields,
    /// A field isn't UTF-8.
    NotUtf8,
    /// An earlier row has the action.
    Repeated,
}

/// Why a file of actions isn't read.
#[derive(Clone, Copy, Debug, PartialEq, Eq)]
pub enum ActionFault {
    /// The first bad row, counted from 0, and what is wrong with it.
    Bad { row: u64, kind: ActionKind },
    /// Out of memory.
    Memory,
}

impl From<Memory> for ActionFault {
    ghost use Rattle.std.specs.Prelude.{◌≡◌};
    ghost use Rattle.action_dispatch.specs.declared.fault.ActionFault.TheVariants as faults;

    ghost from_gives = { λ _ fault. fault ≡ faults.Memory };

    fn from(_memory: Memory) -> ActionFault {
        ActionFault::Memory
    }
}
