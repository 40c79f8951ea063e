//! The bytes of a record that isn't complete yet.

ghost use Rattle.std.specs.Prelude.{◌≡◌, [], ◌++◌, length, IfOk, OnErr, OnOk};
ghost use Rattle.multibyte_ints.specs.Integer.{IsBytes};
ghost use Rattle.nbfx_records.specs.Asked as asked;
ghost use Rattle.nbfx_records.specs.Cursor.{Tells};
ghost use Rattle.nbfx_records.specs.Shapes as spec;
ghost use Rattle.nbfx_records.specs.Views.{IsSoundRecord, record_seen};

use crate::cursor::Stop;
use crate::nodes::NodePlace;
use crate::records::{RecordPart, shape_at};
use crate::resume::Resume;
use std::alloc::Global;
use std::marker::Model;
use unit_streams::Memory;

/// The bytes of a record that isn't complete yet, and how far a list or an array in them was
/// scanned, so that it isn't scanned again. Contracts see the bytes.
#[derive(Drop)]
pub struct BegunBytes {
    bytes: Vec<u8>,
    resume: Resume,
}

impl Model for BegunBytes {
    ghost use Rattle.std.specs.Prelude.{ℕ, List, ◌++◌};
    ghost use Rattle.multibyte_ints.specs.Integer.{IsBytes};
    ghost use Rattle.nbfx_records.specs.Resuming.{Fits};

    ghost Value = { List ℕ };

    ghost view = { λ b. b.bytes.items };

    ghost invariant = { λ b. IsBytes b.bytes.items
        × ((more : List ℕ) → Fits b.resume (b.bytes.items ++ more)) };
}

impl BegunBytes {
    /// The bytes of a record of which none has come.
    pub fn new(alloc: Global) -> BegunBytes
        ensures { result ≡ [] }
    {
        BegunBytes {
            bytes: Vec::new(alloc),
            resume: Resume::new(),
        }
    }

    /// The bytes so far.
    pub fn as_slice(&self) -> &[u8]
        ensures { result.now ≡ self.now }
    {
        self.bytes.as_slice()
    }

    /// How many bytes there are.
    pub fn len(&self) -> usize
        ensures { result ≡ length self.now }
    {
        self.bytes.len()
    }

    /// Puts more bytes after the others. Without memory it fails, and the bytes are as before.
    pub fn keep(&mut self, more: &[u8]) -> Result<(), Memory>
        ensures kept { OnOk result (self.new ≡ self.old ++ more.now) }
        ensures unchanged { OnErr result (self.new ≡ self.old) }
    {
        self.bytes.extend_from_slice(more)?;
        Ok(())
    }

    /// Removes all bytes. Their memory stays allocated.
    pub fn clear(&mut self)
        ensures { self.new ≡ [] }
    {
        self.bytes.clear();
        self.resume = Resume::new();
    }

    /// The parts of the record, if it is complete and may stand at this place, and how many bytes
    /// it has. It fails where the record is incomplete or wrong. A list, and an array's attributes,
    /// are read on from where [`look`](Self::look) left them.
    pub fn parts(&self, place: NodePlace) -> Result<(RecordPart<'_>, usize), Stop>
        ensures tells { Tells record_seen (spec.shape_at place)
            (asked.shape_at place) self.now 0 result }
        ensures sound { IfOk result (λ read. IsSoundRecord read.0) }
        ensures bytes { IsBytes self.now }
    {
        let mut resume = self.resume;
        shape_at(place, self.bytes.as_slice(), &mut resume)
    }

    /// Scans the record and notes how far it is complete, so that a long list isn't scanned again
    /// for each piece of it.
    pub fn look(&mut self, place: NodePlace)
        ensures { self.new ≡ self.old }
    {
        let mut resume = self.resume;
        let _seen = shape_at(place, self.bytes.as_slice(), &mut resume);
        self.resume = resume;
    }
}
