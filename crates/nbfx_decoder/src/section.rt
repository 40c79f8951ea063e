//! Which part of a payload comes next.

ghost use Rattle.std.specs.Prelude.{◌≡◌};
ghost use Rattle.nbfx_decoder.specs.Sections as spec;

use nbfx_values::Kind;

/// What comes next of a payload.
#[derive(Clone, Copy, Debug, PartialEq, Eq)]
pub(crate) enum Section {
    /// The size of its string table.
    TableSize,
    /// A string of its table, of which so many bytes are left.
    Strings { left: u32 },
    /// A node, or the payload's end.
    Nodes,
}

impl Section {
    /// What comes first.
    pub(crate) fn first(kind: Kind) -> Section
        ensures { result ≡ spec.first_section kind }
    {
        match kind {
            Kind::Plain => Section::Nodes,
            Kind::Session => Section::TableSize,
        }
    }

    /// What comes where so many bytes of the table are left.
    pub(crate) fn behind(left: u32) -> Section
        ensures { result ≡ spec.section_of left }
    {
        if left == 0 {
            Section::Nodes
        } else {
            Section::Strings { left }
        }
    }
}
