// The names to which SOAP 1.2 and both versions of WS-Addressing give a meaning, each beside its
// definition in `specs/Names.antt`. The namespaces of WS-Addressing stand here alone.

// The namespace of SOAP 1.2 envelopes.
pub(crate) const SOAP: &str = "http://www.w3.org/2003/05/soap-envelope";

// The namespaces of WS-Addressing 1.0, and of that of August 2004.
pub(crate) const ADDRESSING: &str = "http://www.w3.org/2005/08/addressing";

pub(crate) const ADDRESSING_2004: &str = "http://schemas.xmlsoap.org/ws/2004/08/addressing";

// The namespace of the prefix `xml`.
pub(crate) const XML: &str = "http://www.w3.org/XML/1998/namespace";

// The actions of faults that have a subcode of WS-Addressing, and of all faults in the older
// version.
pub(crate) const ADDRESSING_FAULT: &str = "http://www.w3.org/2005/08/addressing/fault";

pub(crate) const ADDRESSING_FAULT_2004: &str =
    "http://schemas.xmlsoap.org/ws/2004/08/addressing/fault";

// The action of SOAP's own faults.
pub(crate) const SOAP_FAULT: &str = "http://www.w3.org/2005/08/addressing/soap/fault";

// The roles of each SOAP node, and of the ultimate receiver.
pub(crate) const ROLE_NEXT: &str = "http://www.w3.org/2003/05/soap-envelope/role/next";

pub(crate) const ROLE_ULTIMATE_RECEIVER: &str =
    "http://www.w3.org/2003/05/soap-envelope/role/ultimateReceiver";

// The none address of WS-Addressing 1.0.
pub(crate) const NO_ADDRESS: &str = "http://www.w3.org/2005/08/addressing/none";

// The anonymous addresses.
pub(crate) const ANONYMOUS_ADDRESS: &str = "http://www.w3.org/2005/08/addressing/anonymous";

pub(crate) const ANONYMOUS_ADDRESS_2004: &str =
    "http://schemas.xmlsoap.org/ws/2004/08/addressing/role/anonymous";
