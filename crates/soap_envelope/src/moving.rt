// Items that change place, and aren't copied.
ghost use Rattle.std.specs.Prelude.{◌≡◌, ◌++◌, ◌≤◌, OnOk, drop, length, take};

use nbfx_values::{Items, Sequence};
use unit_streams::Memory;

// Puts a list behind another. Without memory, what was put before stays.
pub(crate) fn put_moved<T: Drop>(out: &mut Sequence<T>, more: Sequence<T>) -> Result<(), Memory>
    ensures { OnOk result (out.new ≡ out.old ++ more) }
{
    for one in more.into_vec() {
        out.push(one)?;
    }
    Ok(())
}

// The items from a place on, and behind them those before it. They keep their memory.
pub(crate) fn turned(items: Items, first: usize) -> Items
    requires { first ≤ length items }
    ensures { result ≡ drop first items ++ take first items }
{
    let mut items = items.into_vec();
    items.rotate_left(first);
    Items::from_vec(items)
}

// The items from a place on. They keep the memory of all.
pub(crate) fn rest(items: Items, first: usize) -> Items
    requires { first ≤ length items }
    ensures { result ≡ drop first items }
{
    let left = items.len() - first;
    first_of(turned(items, first), left)
}

// So many items. They keep the memory of all.
pub(crate) fn first_of(items: Items, count: usize) -> Items
    ensures { result ≡ take count items }
{
    let mut items = items.into_vec();
    items.truncate(count);
    Items::from_vec(items)
}
