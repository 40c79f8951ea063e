//! Whose stream it is.

ghost use Rattle.std.specs.Prelude.{◌≡◌};
ghost use Rattle.std.specs.Str.{bytes_eq};
ghost use Rattle.stream_reader.specs.Sides.{side_of, serves_via};
ghost use Rattle.stream_reader.specs.Stream.{direction_of, first_mode, first_kind, serves};

use nbfx_values::{Kind, Mode, Txt};
use nmf_records::Direction;

/// Which Vias are served. They are compared byte by byte.
#[derive(Debug, Drop)]
pub enum Endpoint {
    /// All of them.
    Any,
    /// This one; any other is refused as `EndpointNotFound`.
    Only(Txt),
}

impl Endpoint {
    fn serves(&self, via: &str) -> bool
        ensures { result ≡ serves_via self.now via.now }
    {
        match self {
            Endpoint::Any => true,
            Endpoint::Only(endpoint) => endpoint.as_str() == via,
        }
    }
}

/// Whose stream it is.
#[derive(Debug, Drop)]
pub enum Side {
    /// An initiator's, to a Via that is served. Its records name the mode and the encoding.
    Initiator(Endpoint),
    /// A receiver's, in the mode and with the encoding that its initiator named.
    Receiver { mode: Mode, kind: Kind },
}

impl Side {
    /// Whether the initiator or the receiver sends it.
    pub fn direction(&self) -> Direction
        ensures { result ≡ direction_of (side_of self.now) }
    {
        match self {
            Side::Initiator(_) => Direction::FromInitiator,
            Side::Receiver { .. } => Direction::FromReceiver,
        }
    }

    // The mode before the first record.
    pub(crate) fn mode(&self) -> Mode
        ensures { result ≡ first_mode (side_of self.now) }
    {
        match self {
            Side::Initiator(_) => Mode::Duplex,
            Side::Receiver { mode, .. } => *mode,
        }
    }

    // What payloads are before the first record.
    pub(crate) fn kind(&self) -> Kind
        ensures { result ≡ first_kind (side_of self.now) }
    {
        match self {
            Side::Initiator(_) => Kind::Session,
            Side::Receiver { kind, .. } => *kind,
        }
    }

    // Whether the Via is served.
    pub(crate) fn serves(&self, via: &str) -> bool
        ensures { result ≡ serves (side_of self.now) via.now }
    {
        match self {
            Side::Initiator(endpoint) => endpoint.serves(via),
            Side::Receiver { .. } => true,
        }
    }
}
