//! A sink in memory that meets no I/O error.

ghost use Rattle.std.specs.Prelude.{◌≡◌, [], ◌++◌, true, false, length, Some, OnOk, IfOk, IsOk, IsOkUnless, OnErr};

use crate::{Sink, SinkFault};
use std::alloc::Global;
use std::marker::Model;

/// A sink that keeps what is written to it. A put fails only where memory runs out, and then it
/// writes nothing.
#[derive(Debug, Drop)]
pub struct SureSink {
    bytes: Vec<u8>,
}

impl Model for SureSink {
    ghost use Rattle.std.specs.Prelude.{ℕ, List};

    ghost Value = { List ℕ };

    ghost view = { λ s. s.bytes.items };
}

impl SureSink {
    /// A sink that holds nothing yet.
    pub fn new(alloc: Global) -> SureSink
        ensures { result ≡ [] }
    {
        SureSink {
            bytes: Vec::new(alloc),
        }
    }

    /// All that was written.
    pub fn bytes(&self) -> &[u8]
        ensures { result.now ≡ self.now }
    {
        &self.bytes
    }
}

impl Sink for SureSink {
    ghost view = { λ s. record {
      written = Some s;
      held = [];
      faults = 0;
      may_hold = false;
      may_run_out = true;
    } };

    ghost ended = { λ _. true };

    fn put(&mut self, bytes: &[u8]) -> Result<(), SinkFault>
        ensures written { OnOk result (self.new ≡ self.old ++ bytes.now) }
        ensures memory { IsOkUnless result SinkFault.Memory }
        ensures unchanged { OnErr result (self.new ≡ self.old) }
    {
        match self.bytes.extend_from_slice(bytes) {
            Ok(()) => Ok(()),
            Err(_) => Err(SinkFault::Memory),
        }
    }

    fn put_some(&mut self, bytes: &[u8]) -> Result<usize, SinkFault>
        ensures written { OnOk result (self.new ≡ self.old ++ bytes.now) }
        ensures all { IfOk result (λ n. n ≡ length bytes.now) }
        ensures memory { IsOkUnless result SinkFault.Memory }
        ensures unchanged { OnErr result (self.new ≡ self.old) }
    {
        match self.bytes.extend_from_slice(bytes) {
            Ok(()) => Ok(bytes.len()),
            Err(_) => Err(SinkFault::Memory),
        }
    }

    // Nothing is held, so there is nothing to do.
    fn flush(&mut self) -> Result<(), SinkFault>
        ensures ok { IsOk result }
        ensures kept { self.new ≡ self.old }
    {
        Ok(())
    }

    // There is no peer.
    fn end(&mut self)
        ensures kept { self.new ≡ self.old }
    {}
}
