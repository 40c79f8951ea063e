// Where in a document a list of items ends.
ghost use Rattle.std.specs.Prelude.{◌≡◌, ◌^◌, ◌<◌, ◌↔◌, IsTrue};
ghost use Rattle.nbfx_values.specs.Positions as spec;
ghost use Rattle.nbfx_values.specs.Positions.{next_position};

use crate::content::Item;

/// Where in a document a list of items ends, if it may be the front of one.
#[derive(Clone, Copy, Debug, PartialEq, Eq)]
pub enum Position {
    /// Before the root.
    Before,
    /// Within the root.
    Within {
        /// How many elements are open besides the root.
        inner: usize,
        /// Whether a declaration or an attribute may stand next.
        attributes: bool,
    },
    /// After the root.
    After,
}

impl Position {
    /// The position before a document's first item.
    pub fn start() -> Position
        ensures { result ≡ Position.Before }
    {
        Position::Before
    }

    /// How many elements are open.
    #[inline(always)]
    pub fn open_count(self) -> usize
        requires { spec.open_count self < 2 ^ 64 }
        ensures { result ≡ spec.open_count self }
    {
        match self {
            Position::Within { inner, .. } => inner + 1,
            Position::Before | Position::After => 0,
        }
    }

    /// Whether a declaration or an attribute may stand here.
    pub fn takes_attributes(self) -> bool
        ensures { result ≡ spec.takes_attributes self }
    {
        matches!(
            self,
            Position::Within {
                attributes: true,
                ..
            }
        )
    }

    /// Whether the root has ended.
    pub fn has_ended(self) -> bool
        ensures { IsTrue result ↔ (self ≡ Position.After) }
    {
        matches!(self, Position::After)
    }

    /// The position after an item, whatever its values are; None where the item may not stand here.
    #[inline(always)]
    pub fn moved(self, item: &Item) -> Option<Position>
        requires { spec.open_count self < 2 ^ 64 }
        ensures { result ≡ spec.moved self item.now }
    {
        match (self, item) {
            (Position::Before, Item::Start { .. }) => Some(Position::Within {
                inner: 0,
                attributes: true,
            }),
            (Position::Within { inner, .. }, Item::Start { .. }) => Some(Position::Within {
                inner: inner + 1,
                attributes: true,
            }),
            (Position::Within { inner, attributes }, Item::Xmlns { .. } | Item::Attr { .. }) => {
                attributes.then_some(Position::Within { inner, attributes })
            }
            (Position::Within { inner: 0, .. }, Item::Close) => Some(Position::After),
            (Position::Within { inner, .. }, Item::Close) => Some(Position::Within {
                inner: inner - 1,
                attributes: false,
            }),
            (Position::Within { inner, .. }, _) => Some(Position::Within {
                inner,
                attributes: false,
            }),
            _ => None,
        }
    }

    /// The position after an item; None where it may not stand here, or a record can't hold its
    /// values.
    pub fn after(self, item: &Item) -> Option<Position>
        requires { spec.open_count self < 2 ^ 64 }
        ensures { result ≡ next_position self item.now }
    {
        if item.check() { self.moved(item) } else { None }
    }
}
