//! The namespace of WS-ReliableMessaging (February 2005), beside its definition in
//! `specs/Names.antt`.

pub(crate) const MESSAGING: &str = "http://schemas.xmlsoap.org/ws/2005/02/rm";
