//! The bytes of a file.

ghost use Rattle.std.specs.Prelude.{◌≡◌, ℕ, ◌≤◌, Some, IfOk, IfErr, IfSome, IsErrOf};
ghost use Rattle.std.specs.FinMap as finite;
ghost use Rattle.io_edges.specs.Faults.{CountsFaults, one_more};
ghost use Rattle.io_edges.specs.Files.{IsUnfetched};

use crate::fault::FileFault;
use crate::{Shelf, ShelfFault};

/// Fetches the bytes of the shelf's file of that name. It fails with `Missing` where there is no
/// such file, with `Failed` where the fetch met an I/O error, and without memory. No row is judged,
/// so the fault is never `Bad`.
pub fn fetch_file<F: Shelf, K>(shelf: &mut F, name: &str) -> Result<Vec<u8>, FileFault<K>>
    ensures found { IfOk result (λ bytes. IfSome (F.files shelf.old)
        (λ store. finite.get store name.now ≡ Some bytes.items)) }
    ensures fault { IfErr result (IsUnfetched (F.files shelf.old) name.now) }
    ensures kept { F.files shelf.new ≡ F.files shelf.old }
    ensures fetched { F.fetches shelf.new ≡ one_more (F.fetches shelf.old) }
    ensures counted { CountsFaults (F.faults shelf.old) (F.faults shelf.new)
        (IsErrOf result FileFault.Failed) }
{
    match shelf.fetch(name) {
        Ok(Some(bytes)) => Ok(bytes),
        Ok(None) => Err(FileFault::Missing),
        Err(ShelfFault::Failed) => Err(FileFault::Failed),
        Err(ShelfFault::Memory) => Err(FileFault::Memory),
    }
}
