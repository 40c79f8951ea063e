//! The script of a session: which records may come in the stream of each direction, and where each
//! leads.

ghost use Rattle.std.specs.Prelude.{◌≡◌};
ghost use Rattle.nmf_records.specs.Script.{or_fault, first, may_come, behind_preamble, leads, may_end};

use crate::frame::{Expect, Frame};
use crate::record_types::{
    END, EXTENSIBLE_ENCODING, FAULT, KNOWN_ENCODING, MODE, PREAMBLE_ACK, PREAMBLE_END,
    SIZED_ENVELOPE, UNSIZED_ENVELOPE, VERSION, VIA,
};
use nbfx_values::Mode;

/// Whose stream it is.
#[derive(Clone, Copy, Debug, PartialEq, Eq)]
pub enum Direction {
    /// What the end that connected sends.
    FromInitiator,
    /// What the end that accepted the connection sends.
    FromReceiver,
}

impl Direction {
    // The records of these types may come, and of a receiver a Fault Record in place of any.
    fn or_fault(self, types: u16) -> Expect
        ensures { result ≡ or_fault self types }
    {
        match self {
            Direction::FromInitiator => Expect::Types(types),
            Direction::FromReceiver => Expect::Types(types | 1 << FAULT),
        }
    }

    // What comes after the preamble in this mode.
    fn behind_preamble(self, mode: Mode) -> Due
        ensures { result ≡ behind_preamble self mode }
    {
        match (self, mode) {
            (_, Mode::Duplex) | (Direction::FromInitiator, Mode::Simplex) => Due::Messages,
            (Direction::FromInitiator, Mode::Singleton) => Due::Envelope,
            (Direction::FromReceiver, Mode::Singleton) => Due::Reply,
            (Direction::FromReceiver, Mode::Simplex) => Due::End,
        }
    }
}

/// Which record of MC-NMF may come next in a stream. A receiver may also send a Fault Record in
/// place of any record.
#[derive(Clone, Copy, Debug, PartialEq, Eq)]
pub enum Due {
    /// The initiator's first record, a Version Record.
    Version,
    /// A Mode Record.
    Mode,
    /// A Via Record.
    Via,
    /// A Known Encoding or an Extensible Encoding Record.
    Encoding,
    /// A Preamble End Record.
    PreambleEnd,
    /// The receiver's first record, a Preamble Ack Record.
    Ack,
    /// A Sized Envelope Record or an End Record.
    Messages,
    /// An Unsized Envelope Record, which an initiator has to send in singleton mode.
    Envelope,
    /// An Unsized Envelope Record or an End Record, with which a receiver answers in singleton
    /// mode.
    Reply,
    /// The size of a chunk of an Unsized Envelope Record.
    Chunk,
    /// An End Record.
    End,
    /// Nothing: the session is over.
    Over,
}

impl Due {
    /// What the stream of this direction begins with.
    pub fn first(direction: Direction) -> Due
        ensures { result ≡ first direction }
    {
        match direction {
            Direction::FromInitiator => Due::Version,
            Direction::FromReceiver => Due::Ack,
        }
    }

    /// The types of the records that may come; or that a chunk's size may.
    pub fn expect(self, direction: Direction) -> Expect
        ensures { result ≡ may_come direction self }
    {
        match self {
            Due::Version => direction.or_fault(1 << VERSION),
            Due::Mode => direction.or_fault(1 << MODE),
            Due::Via => direction.or_fault(1 << VIA),
            Due::Encoding => direction.or_fault(1 << KNOWN_ENCODING | 1 << EXTENSIBLE_ENCODING),
            Due::PreambleEnd => direction.or_fault(1 << PREAMBLE_END),
            Due::Ack => direction.or_fault(1 << PREAMBLE_ACK),
            Due::Messages => direction.or_fault(1 << SIZED_ENVELOPE | 1 << END),
            Due::Envelope => direction.or_fault(1 << UNSIZED_ENVELOPE),
            Due::Reply => direction.or_fault(1 << UNSIZED_ENVELOPE | 1 << END),
            Due::Chunk => Expect::Chunk,
            Due::End => direction.or_fault(1 << END),
            Due::Over => Expect::Types(0),
        }
    }

    /// What may come after this record, or after this size of a chunk, in a session of this mode,
    /// if it may come itself.
    pub fn behind(self, direction: Direction, mode: Mode, frame: Frame) -> Due
        ensures { result ≡ leads direction mode self frame }
    {
        match frame {
            Frame::Version { .. } => Due::Mode,
            Frame::Mode(_) => Due::Via,
            Frame::Via => Due::Encoding,
            Frame::KnownEncoding(_) | Frame::ExtensibleEncoding => Due::PreambleEnd,
            Frame::PreambleEnd | Frame::PreambleAck => direction.behind_preamble(mode),
            Frame::UnsizedEnvelope => Due::Chunk,
            Frame::Chunk(0) => Due::End,
            Frame::Chunk(_) | Frame::SizedEnvelope(_) => self,
            Frame::End | Frame::Fault => Due::Over,
        }
    }

    /// Whether the stream may end before the next byte: after End or Fault, or after a receiver's
    /// Ack in simplex mode.
    pub fn may_end(self, direction: Direction, mode: Mode) -> bool
        ensures { result ≡ may_end direction mode self }
    {
        match (self, direction, mode) {
            (Due::Over, _, _) | (Due::End, Direction::FromReceiver, Mode::Simplex) => true,
            _ => false,
        }
    }
}
