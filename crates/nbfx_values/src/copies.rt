//! Copies, which may run out of memory.

ghost use Rattle.std.specs.Prelude.{◌≡◌, IfOk};

use unit_streams::Memory;

/// Values whose copy, where there is memory for it, is the same value.
pub trait Copied: Sized {
    /// The same value once more. It fails without memory for it.
    fn copy(&self) -> Result<Self, Memory>
        ensures same { IfOk result (λ copied. copied ≡ self.now) };
}
