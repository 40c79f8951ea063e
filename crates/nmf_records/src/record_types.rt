//! The record types of MC-NMF: the first byte of each record.

/// Version Record.
pub const VERSION: u8 = 0x00;
/// Mode Record.
pub const MODE: u8 = 0x01;
/// Via Record.
pub const VIA: u8 = 0x02;
/// Known Encoding Record.
pub const KNOWN_ENCODING: u8 = 0x03;
/// Extensible Encoding Record.
pub const EXTENSIBLE_ENCODING: u8 = 0x04;
/// Unsized Envelope Record.
pub const UNSIZED_ENVELOPE: u8 = 0x05;
/// Sized Envelope Record.
pub const SIZED_ENVELOPE: u8 = 0x06;
/// End Record.
pub const END: u8 = 0x07;
/// Fault Record.
pub const FAULT: u8 = 0x08;
/// Upgrade Request Record, which is refused.
pub const UPGRADE_REQUEST: u8 = 0x09;
/// Upgrade Response Record, which is refused.
pub const UPGRADE_RESPONSE: u8 = 0x0A;
/// Preamble Ack Record.
pub const PREAMBLE_ACK: u8 = 0x0B;
/// Preamble End Record.
pub const PREAMBLE_END: u8 = 0x0C;
/// The greatest type: a greater byte begins no record.
pub const GREATEST: u8 = PREAMBLE_END;
