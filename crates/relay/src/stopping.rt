//! Why a relay stops early.

use io_edges::{Failed, SinkFault};

/// Why a relay stopped before as many connections as were asked for were relayed.
#[derive(Clone, Copy, Debug, PartialEq, Eq)]
pub enum RelayFault {
    /// The accept of the next front, or the connect to its back, met an I/O error.
    Wire,
    /// The write of a line met an I/O error.
    Output,
    /// There was no memory to begin with, or for the output.
    Memory,
}

impl From<Failed> for RelayFault {
    ghost use Rattle.std.specs.Prelude.{◌≡◌};
    ghost use Rattle.relay.specs.declared.stopping.RelayFault.TheVariants as stops;

    ghost from_gives = { λ _ stop. stop ≡ stops.Wire };

    fn from(_failed: Failed) -> RelayFault {
        RelayFault::Wire
    }
}

impl From<SinkFault> for RelayFault {
    ghost use Rattle.std.specs.Prelude.{◌≡◌};
    ghost use Rattle.relay.specs.Connections.{stop_by};

    ghost from_gives = { λ fault stop. stop ≡ stop_by fault };

    fn from(fault: SinkFault) -> RelayFault {
        match fault {
            SinkFault::Failed => RelayFault::Output,
            SinkFault::Memory => RelayFault::Memory,
        }
    }
}
