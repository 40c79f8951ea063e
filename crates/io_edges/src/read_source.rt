//! A source over a reader of std.

ghost use Rattle.std.specs.Prelude.{◌≡◌, None, IsErr};
ghost use Rattle.std.specs.Io.{ReadsAtMost};
ghost use Rattle.std.specs.Io.KnownBytes.{ReadConsumes};
ghost use Rattle.io_edges.specs.Faults.{CountsOne};
ghost use Rattle.io_edges.specs.Adapters.{reader_of, read_faults, empty_reads};

use crate::memory_source::with_take;
use crate::{Failed, Source};
use std::io::Read;

/// A source over a reader. Each take is one read, and each read that fails counts as a fault, one
/// that was interrupted too.
#[derive(Debug, Drop)]
pub struct ReadSource<R> {
    reader: R,
    faults: u64,
    empty_takes: u64,
}

impl<R: Read> ReadSource<R> {
    /// A source of what the reader gives from here on.
    pub fn new(reader: R) -> ReadSource<R>
        ensures reader { reader_of result ≡ reader }
        ensures faults { read_faults result ≡ 0 }
        ensures empty { empty_reads result ≡ 0 }
    {
        ReadSource {
            reader,
            faults: 0,
            empty_takes: 0,
        }
    }
}

impl<R> ReadSource<R> {
    // How many reads failed.
    pub(crate) fn faults(&self) -> u64
        ensures { result ≡ read_faults self.now }
    {
        self.faults
    }

    // The reader.
    pub(crate) fn into_reader(self) -> R
        ensures { result ≡ reader_of self }
    {
        self.reader
    }
}

impl<R: Read> Source for ReadSource<R> {
    ghost taken = { λ _. None };

    ghost left = { λ _. None };

    ghost faults = { λ s. read_faults s };

    ghost empty_takes = { λ s. empty_reads s };

    fn take(&mut self, room: &mut [u8]) -> Result<usize, Failed>
        ensures within { ReadsAtMost result room.new }
        ensures read { ReadConsumes
            (R.remaining (reader_of self.old)) (R.remaining (reader_of self.new)) result room.new }
        ensures counted { CountsOne (read_faults self.old) (read_faults self.new) (IsErr result) }
        ensures empty { CountsOne (empty_reads self.old) (empty_reads self.new) (result ≡ Ok 0) }
    {
        match self.reader.read(room) {
            Ok(n) => {
                self.empty_takes = with_take(n, self.empty_takes);
                Ok(n)
            }
            Err(_) => {
                self.faults = self.faults.saturating_add(1);
                Err(Failed)
            }
        }
    }
}
