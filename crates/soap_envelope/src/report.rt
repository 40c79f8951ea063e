//! What a fault reports.

use crate::blocks::Names;
use nbfx_values::Txt;

/// The code of a fault, by the local name that SOAP 1.2 gives it (Part 1, 5.4.6).
#[derive(Clone, Copy, Debug, PartialEq, Eq)]
pub enum Code {
    /// The root isn't a SOAP 1.2 envelope.
    VersionMismatch,
    /// A block that must be understood isn't.
    MustUnderstand,
    /// The request is at fault.
    Sender,
    /// The request isn't, but it can't be served, or its reply not be sent.
    Receiver,
}

/// The subcode of a fault, as the SOAP Binding of WS-Addressing 1.0 names it (6.4).
#[derive(Clone, Copy, Debug, PartialEq, Eq)]
pub enum Sub {
    /// No subcode.
    None,
    /// `MessageAddressingHeaderRequired`.
    HeaderRequired,
    /// `ActionNotSupported`.
    ActionNotSupported,
    /// `InvalidAddressingHeader`, and in it `OnlyAnonymousAddressSupported`.
    OnlyAnonymous,
    /// `InvalidAddressingHeader`, and in it `InvalidCardinality`.
    InvalidCardinality,
}

/// What a fault says.
#[derive(Debug, Drop)]
pub struct FaultReport<'a> {
    /// Its code.
    pub code: Code,
    /// Its subcode, if it has one.
    pub sub: Sub,
    /// Its reason, in English.
    pub reason: Txt,
    /// The names of the header blocks that weren't understood, in order: each has a NotUnderstood
    /// block in the fault's Header.
    pub names: Names<'a>,
}
