//! A shelf over the system's files.

ghost use Rattle.std.specs.Prelude.{◌≡◌, ◌≤◌, ◌<◌, ◌^◌, ◌++◌, length, None, OnOk, OnErr, IfOk, IfSome, IsErrOf, IsOkUnless, Result};
ghost use Rattle.std.specs.declared.io.Error.{Error};
ghost use Rattle.std.specs.Io.KnownBytes.{Consumes, IsAtEnd};
ghost use Rattle.io_edges.specs.Faults.{CountsOne, one_more};
ghost use Rattle.io_edges.specs.Adapters.{shelf_faults, shelf_fetches, AnswersOpened};

use crate::{Shelf, ShelfFault};
use std::alloc::Global;
use std::io::{ErrorKind, Read};
use std::rt::Files;
use std::{fs, io};

/// The bytes that a file on a shelf may have.
const MOST: usize = 1 << 30;

/// A shelf over the system's files, by their paths. A file that doesn't exist is `None`. Every
/// other error counts as a fault, also that of a call that was interrupted, and so does a file of
/// more than 2^30 bytes.
#[derive(Drop)]
pub struct FileShelf<R> {
    rt: R,
    faults: u64,
    fetches: u64,
}

impl<R: Files + AllocGlobal> FileShelf<R> {
    /// A shelf of the files that `rt` opens.
    pub fn new(rt: R) -> FileShelf<R>
        ensures faults { shelf_faults result ≡ 0 }
        ensures fetches { shelf_fetches result ≡ 0 }
    {
        FileShelf {
            rt,
            faults: 0,
            fetches: 0,
        }
    }
}

impl<R: Files + AllocGlobal> Shelf for FileShelf<R> {
    ghost files = { λ _. None };

    ghost faults = { λ s. shelf_faults s };

    ghost fetches = { λ s. shelf_fetches s };

    fn fetch(&mut self, name: &str) -> Result<Option<Vec<u8>>, ShelfFault>
        ensures most { IfOk result (λ found. IfSome found (λ bytes. length bytes.items ≤ 2 ^ 30)) }
        ensures answer { (opened : Result R.File Error)
            × AnswersOpened R.File.remaining opened result }
        ensures counted { CountsOne (shelf_faults self.old) (shelf_faults self.new)
            (IsErrOf result ShelfFault.Failed) }
        ensures fetched { shelf_fetches self.new ≡ one_more (shelf_fetches self.old) }
    {
        self.fetches = self.fetches.saturating_add(1);
        let found = found_file(self.rt.alloc(), fs::open(&self.rt, name));
        if let Err(ShelfFault::Failed) = found {
            self.faults = self.faults.saturating_add(1);
        }
        found
    }
}

// The bytes of a file that was to be opened, `None` where there is none.
fn found_file<F: Read + Drop>(
    alloc: Global,
    opened: io::Result<F>,
) -> Result<Option<Vec<u8>>, ShelfFault>
    ensures answer { AnswersOpened F.remaining opened result }
    ensures most { IfOk result (λ found. IfSome found (λ bytes. length bytes.items ≤ 2 ^ 30)) }
{
    match opened {
        Ok(mut file) => Ok(Some(whole_file(alloc, &mut file)?)),
        Err(e) if e.kind() == ErrorKind::NotFound => Ok(None),
        Err(_) => Err(ShelfFault::Failed),
    }
}

// Reads to the end, and at most `MOST` bytes. std's `read_to_end` doesn't tell an error of the
// reader from want of memory.
fn whole_file<F: Read>(alloc: Global, file: &mut F) -> Result<Vec<u8>, ShelfFault>
    ensures most { IfOk result (λ bytes. length bytes.items ≤ 2 ^ 30) }
    ensures read { IfOk result
        (λ bytes. Consumes (F.remaining file.old) (F.remaining file.new) bytes.items) }
    ensures end { OnOk result (IsAtEnd (F.remaining file.new)) }
{
    let mut bytes = Vec::new(alloc);
    let mut room = [0u8; 8192];
    loop {
        let n = fitting(file.read(&mut room), MOST - bytes.len())?;
        if n == 0 {
            return Ok(bytes);
        }
        append(&mut bytes, &room[..n])?;
    }
}

// How many bytes a read gave, where so many more are admitted.
fn fitting(read: io::Result<usize>, most: usize) -> Result<usize, ShelfFault>
    ensures fits { IfOk read (λ n. n ≤ most → result ≡ Ok n) }
    ensures too_long { IfOk read (λ n. most < n → result ≡ Err ShelfFault.Failed) }
    ensures broken { OnErr read (result ≡ Err ShelfFault.Failed) }
{
    match read {
        Ok(n) if n <= most => Ok(n),
        _ => Err(ShelfFault::Failed),
    }
}

fn append(bytes: &mut Vec<u8>, more: &[u8]) -> Result<(), ShelfFault>
    ensures appended { OnOk result (bytes.new.items ≡ bytes.old.items ++ more.now) }
    ensures memory { IsOkUnless result ShelfFault.Memory }
{
    match bytes.extend_from_slice(more) {
        Ok(()) => Ok(()),
        Err(_) => Err(ShelfFault::Memory),
    }
}
