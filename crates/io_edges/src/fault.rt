//! Why a file isn't read.

/// Why a file of a [`Shelf`](crate::Shelf) isn't read. `K` says what can be wrong with a row of it.
#[derive(Clone, Copy, Debug, PartialEq, Eq)]
pub enum FileFault<K> {
    /// The shelf has no file of that name.
    Missing,
    /// The first bad row, counted from 0, and what is wrong with it.
    Bad { row: u64, kind: K },
    /// The fetch met an I/O error.
    Failed,
    /// Out of memory.
    Memory,
}
