//! The versions of WS-Addressing, and what each of them changes.

ghost use Rattle.std.specs.Prelude.{◌≡◌};
ghost use Rattle.std.specs.Option.{option_copied};
ghost use Rattle.std.specs.List.{list_any};
ghost use Rattle.std.specs.Prelude.{bytes_eq};
ghost use Rattle.soap_envelope.specs.Versions as spec;

use crate::blocks::{Block, QualifiedName};
use crate::namespaces;
use crate::report::Sub;

/// A version of WS-Addressing. A message is in that of its first targeted header block with a name
/// of either; without one it is in version 1.0.
#[derive(Clone, Copy, Debug, PartialEq, Eq)]
pub enum Addressing {
    /// WS-Addressing 1.0, of August 2005.
    V10,
    /// WS-Addressing of August 2004, as .NET 3.0's custom bindings and older stacks may use it.
    V200408,
}

impl Addressing {
    /// Its namespace.
    #[tactic(auto, unfolding(crate::specs::Names::addressing, crate::specs::Names::addressing_2004))]
    pub fn namespace(self) -> &'static str
        ensures { result.now ≡ spec.namespace self }
    {
        match self {
            Addressing::V10 => namespaces::ADDRESSING,
            Addressing::V200408 => namespaces::ADDRESSING_2004,
        }
    }

    /// The anonymous address: a reply to it goes back over the request's connection.
    #[tactic(auto, unfolding(crate::specs::Names::anonymous_address, crate::specs::Names::anonymous_address_2004))]
    pub fn anonymous(self) -> &'static str
        ensures { result.now ≡ spec.anonymous self }
    {
        match self {
            Addressing::V10 => namespaces::ANONYMOUS_ADDRESS,
            Addressing::V200408 => namespaces::ANONYMOUS_ADDRESS_2004,
        }
    }

    /// The none address: a reply to it isn't sent. The version of August 2004 has none.
    #[tactic(auto, unfolding(crate::specs::Names::no_address))]
    pub fn nobody(self) -> Option<&'static str>
        ensures { option_copied result ≡ spec.nobody self }
    {
        match self {
            Addressing::V10 => Some(namespaces::NO_ADDRESS),
            Addressing::V200408 => None,
        }
    }

    /// The names of the header blocks that every server understands, those of addressing.
    pub fn understood(self) -> [QualifiedName<'static>; 5]
        ensures { result ≡ spec.understood self }
    {
        let uri = self.namespace();
        [
            QualifiedName {
                uri,
                local: "Action",
            },
            QualifiedName { uri, local: "To" },
            QualifiedName {
                uri,
                local: "MessageID",
            },
            QualifiedName {
                uri,
                local: "RelatesTo",
            },
            QualifiedName {
                uri,
                local: "ReplyTo",
            },
        ]
    }

    // The action of a fault.
    #[tactic(auto, unfolding(crate::specs::Names::addressing_fault, crate::specs::Names::soap_fault, crate::specs::Names::addressing_fault_2004))]
    pub(crate) fn fault_action(self, sub: Sub) -> &'static str
        ensures { result.now ≡ spec.fault_action self sub }
    {
        match self {
            Addressing::V10 => match sub {
                Sub::None => namespaces::SOAP_FAULT,
                _ => namespaces::ADDRESSING_FAULT,
            },
            Addressing::V200408 => namespaces::ADDRESSING_FAULT_2004,
        }
    }
}

// Whether a local name is that of a block that every server understands.
fn is_property(local: &str) -> bool
    ensures { result ≡ list_any (bytes_eq local.now) spec.properties }
{
    matches!(
        local,
        "Action" | "To" | "MessageID" | "RelatesTo" | "ReplyTo"
    )
}

// The version with this namespace.
#[tactic(auto, unfolding(crate::specs::Names::addressing, crate::specs::Names::addressing_2004))]
fn version_named(uri: &str) -> Option<Addressing>
    ensures { result ≡ spec.version_named uri.now }
{
    if uri == namespaces::ADDRESSING {
        Some(Addressing::V10)
    } else if uri == namespaces::ADDRESSING_2004 {
        Some(Addressing::V200408)
    } else {
        None
    }
}

// The version of a block of addressing's that is targeted.
fn version_by(block: &Block<'_>) -> Option<Addressing>
    ensures { result ≡ spec.version_by block.now }
{
    let name = &block.name;
    if !block.targeted || !is_property(name.local) {
        return None;
    }
    version_named(name.uri)
}

// The version of a document with these blocks.
pub(crate) fn version_of(blocks: &[Block<'_>]) -> Addressing
    ensures { result ≡ spec.version_of blocks.now }
{
    for block in blocks {
        if let Some(version) = version_by(block) {
            return version;
        }
    }
    Addressing::V10
}
