// The children of an element, and the place of its end.
ghost use Rattle.std.specs.Prelude.{◌≡◌, ◌+◌, ◌<◌, ◌≤◌, ◌^◌, [], ◌∷◌, IfNone, IfSome, IsTrue, Some, drop, length, slice_get};
ghost use Rattle.soap_envelope.specs.Children as spec;
ghost use Rattle.soap_envelope.specs.Children.{children_from};

use nbfx_values::Item;
use std::marker::Model;

// The items after a place.
pub(crate) fn behind(items: &[Item], at: usize) -> &[Item]
    ensures { result.now ≡ drop (at + 1) items.now }
{
    if at < items.len() {
        &items[at + 1..]
    } else {
        &[]
    }
}

// Whether an element begins at a place.
pub(crate) fn is_start(items: &[Item], at: usize) -> bool
    ensures cases { result ≡ spec.is_start (slice_get items.now at) }
    ensures within { IsTrue result → at < length items.now }
{
    matches!(items.get(at), Some(Item::Start { .. }))
}

// Whether an item directly within its parent is a child of it.
fn is_child(item: &Item) -> bool
    ensures { result ≡ spec.is_child item.now }
{
    !matches!(item, Item::Xmlns { .. } | Item::Attr { .. } | Item::Close)
}

// How many elements are open after an item within a parent, if so many are before it.
pub(crate) fn open_behind(inner: usize, item: &Item) -> Option<usize>
    requires { inner + 1 < 2 ^ 64 }
    ensures { result ≡ spec.open_behind inner item.now }
{
    match item {
        Item::Start { .. } => Some(inner + 1),
        Item::Close => inner.checked_sub(1),
        _ => Some(inner),
    }
}

// The place of a child, and how many elements are open after the item there, within the parent.
#[derive(Clone, Copy)]
struct Child {
    at: usize,
    depth: Option<usize>,
}

// The first child among the items from a place on, where so many elements are open there.
fn child_from(items: &[Item], from: usize, depth: usize) -> Option<Child>
    requires { depth ≤ from }
    ensures found { IfSome result (λ child.
        children_from (Some depth) from (drop from items.now)
        ≡ child.at ∷ children_from child.depth (child.at + 1) (drop (child.at + 1) items.now)) }
    ensures within { IfSome result (λ child. child.at < length items.now) }
    ensures few { IfSome result (λ child. IfSome child.depth (λ inner. inner ≤ child.at + 1)) }
    ensures none { IfNone result (children_from (Some depth) from (drop from items.now) ≡ []) }
{
    let mut inner = depth;
    for i in from..items.len() {
        let item = &items[i];
        let behind = open_behind(inner, item);
        if inner == 0 && is_child(item) {
            return Some(Child {
                at: i,
                depth: behind,
            });
        }
        match behind {
            Some(open) => inner = open,
            None => return None,
        }
    }
    None
}

// The children of an element that are yet to come, which contracts see as the list of their places.
#[derive(Drop)]
pub(crate) struct Children<'d> {
    items: &'d [Item],
    at: usize,
    depth: Option<usize>,
}

impl<'d> Model for Children<'d> {
    ghost use Rattle.std.specs.Prelude.{◌≤◌, ℕ, IfSome, List, drop};
    ghost use Rattle.soap_envelope.specs.Children.{children_from};

    ghost Value = { List ℕ };

    ghost view = { λ c. children_from c.depth c.at (drop c.at c.items.now) };

    ghost invariant = { λ c. IfSome c.depth (λ inner. inner ≤ c.at) };
}

impl<'d> Children<'d> {
    // Those of the element that begins at a place.
    pub(crate) fn of(items: &'d [Item], at: usize) -> Children<'d>
        ensures { result ≡ spec.children_of items.now at }
    {
        if at >= items.len() {
            return Children {
                items,
                at,
                depth: None,
            };
        }
        Children {
            items,
            at: at + 1,
            depth: Some(0),
        }
    }

    // The next child.
    pub(crate) fn next(&mut self) -> Option<usize>
        ensures next { IfSome result (λ child. self.old ≡ child ∷ self.new) }
        ensures none { IfNone result (self.old ≡ []) }
    {
        let depth = self.depth?;
        let child = child_from(self.items, self.at, depth)?;
        self.at = child.at + 1;
        self.depth = child.depth;
        Some(child.at)
    }
}

/// The place where the element ends that begins at a place.
pub(crate) fn close_of(items: &[Item], at: usize) -> usize
    requires { at < length items.now }
    ensures { result ≡ spec.close_of items.now at }
{
    let mut inner = 0;
    for i in at + 1..items.len() {
        match open_behind(inner, &items[i]) {
            Some(open) => inner = open,
            None => return i,
        }
    }
    items.len()
}
