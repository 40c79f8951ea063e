//! Why a server stops early.

use io_edges::{Failed, SinkFault};

/// Why a server stopped before as many connections as were asked for were served.
#[derive(Clone, Copy, Debug, PartialEq, Eq)]
pub enum ServeFault {
    /// The accept of the next connection met an I/O error.
    Wire,
    /// The write of a line met an I/O error.
    Output,
    /// There was no memory to begin with, or for the output.
    Memory,
}

impl From<Failed> for ServeFault {
    ghost use Rattle.std.specs.Prelude.{◌≡◌};
    ghost use Rattle.duplex_server.specs.declared.stopping.ServeFault.TheVariants as stops;

    ghost from_gives = { λ _ stop. stop ≡ stops.Wire };

    fn from(_failed: Failed) -> ServeFault {
        ServeFault::Wire
    }
}

impl From<SinkFault> for ServeFault {
    ghost use Rattle.std.specs.Prelude.{◌≡◌};
    ghost use Rattle.duplex_server.specs.Served.{stop_by};

    ghost from_gives = { λ fault stop. stop ≡ stop_by fault };

    fn from(fault: SinkFault) -> ServeFault {
        match fault {
            SinkFault::Failed => ServeFault::Output,
            SinkFault::Memory => ServeFault::Memory,
        }
    }
}
