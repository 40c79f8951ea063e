//! The header blocks of an envelope.

use nbfx_values::Sequence;
use std::marker::Model;

/// A name whose prefix is resolved: its namespace and its local name. Those of an envelope's blocks
/// are borrowed from its document, which may declare one namespace for many of them.
#[derive(Debug, Drop)]
pub struct QualifiedName<'a> {
    /// The namespace; empty for a name in none.
    pub uri: &'a str,
    /// The local name.
    pub local: &'a str,
}

impl<'a> Model for QualifiedName<'a> {
    ghost use Rattle.soap_envelope.specs.Qualified.{Name};

    ghost Value = { Name };

    ghost view = { λ n. record { uri = n.uri.now; local = n.local.now } };
}

/// A header block (SOAP 1.2 Part 1, 5.2.1): a child element of the envelope's Header.
#[derive(Debug, Drop)]
pub struct Block<'d> {
    /// The name of the element.
    pub name: QualifiedName<'d>,
    /// Whether its mustUnderstand attribute is true.
    pub must_understand: bool,
    /// Whether its role is one of the ultimate receiver's, which it also is without a role.
    pub targeted: bool,
    /// The place of the block's Start in the document's items, counted from 0.
    pub from: usize,
    /// The place of the block's Close, counted from 0.
    pub to: usize,
}

/// Header blocks in the order in which they stand.
pub type Blocks<'d> = Sequence<Block<'d>>;

/// Qualified names in order.
pub type Names<'a> = Sequence<QualifiedName<'a>>;
