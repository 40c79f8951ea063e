//! What both sides of a relay are read and written by.

ghost use Rattle.std.specs.Prelude.{◌≡◌, []};
ghost use Rattle.nmf_records.specs.Writing.{frame_bytes_of};
ghost use Rattle.nmf_records.specs.declared.frame.Frame.{Frame as Record};
ghost use Rattle.nbfx_values.specs.declared.session.Encoding.{Encoding as Spelling};
ghost use Rattle.initiator_machine.specs.Opening.{opening_bytes};
ghost use Rattle.relay.specs.Opening.{relay_by};
ghost use Rattle.relay.specs.Relayed.{to_back, to_front};
ghost use Rattle.relay.specs.Writing.{carrying_by};

use crate::carrier::CarrySettings;
use nbfx_encoder::Side;
use nbfx_values::{Kind, Mode, Two};
use static_dictionary::StaticTable;
use stream_reader::Endpoint;

/// What both sides of a relay are read and written by.
#[derive(Clone, Copy)]
pub struct RelaySettings<'s> {
    /// The static strings of the front.
    pub front: &'s StaticTable,
    /// The static strings of the back.
    pub back: &'s StaticTable,
    /// The quotas of what goes forward, and of what goes back.
    pub quotas: &'s Two,
    /// Which Vias of the front are served.
    pub endpoint: &'s Endpoint,
    /// The Via that the back is called by, of at most 2,048 bytes.
    pub via: &'s str,
}

impl<'s> RelaySettings<'s> {
    /// How the back is written, in a session of this mode and encoding.
    pub(crate) fn to_back(self, mode: Mode, kind: Kind) -> CarrySettings<'s>
        ensures { carrying_by result (opening_bytes mode (Spelling.Known kind) self.entry.via.now)
            ≡ to_back (relay_by self.entry) mode kind }
    {
        CarrySettings {
            side: Side::Initiator,
            statics: self.back,
            quotas: self.quotas.forward,
            mode,
            kind,
        }
    }

    /// How the front is written.
    pub(crate) fn to_front(self, mode: Mode, kind: Kind) -> CarrySettings<'s>
        ensures { carrying_by result (frame_bytes_of Record.PreambleAck [])
            ≡ to_front (relay_by self.entry) mode kind }
    {
        CarrySettings {
            side: Side::Receiver,
            statics: self.front,
            quotas: self.quotas.back,
            mode,
            kind,
        }
    }
}
