//! A sink over a writer of std.

ghost use Rattle.std.specs.Prelude.{◌≡◌, ◌↔◌, ◌≤◌, ◌<◌, [], length, take, true, false, None, OnOk, IfOk, IsOk, OnErr, IsErr, IsOkUnless};
ghost use Rattle.std.specs.Io.KnownBytes.{Appends, Keeps};
ghost use Rattle.io_edges.specs.Faults.{CountsOne};
ghost use Rattle.io_edges.specs.Adapters.{writer_of, write_faults, AppendsPrefix};

use crate::{Failed, Sink, SinkFault};
use std::io::Write;

/// A sink over a writer. A put writes until the whole piece is taken, a put in parts is one write,
/// and a flush flushes the writer. A write that fails, one that was interrupted too, one that takes
/// nothing and a flush that fails each count as a fault and end the call.
#[derive(Debug, Drop)]
pub struct WriteSink<W> {
    writer: W,
    faults: u64,
}

impl<W: Write> WriteSink<W> {
    /// A sink that appends to what the writer holds.
    pub fn new(writer: W) -> WriteSink<W>
        ensures writer { writer_of result ≡ writer }
        ensures faults { write_faults result ≡ 0 }
    {
        WriteSink { writer, faults: 0 }
    }

    // The answer of a call to the writer, which is counted where it failed.
    fn answer(&mut self, done: bool) -> Result<(), SinkFault>
        ensures writer { writer_of self.new ≡ writer_of self.old }
        ensures ok { IsOk result ↔ (done ≡ true) }
        ensures no_want { IsOkUnless result SinkFault.Failed }
        ensures counted { CountsOne (write_faults self.old) (write_faults self.new) (IsErr result) }
    {
        if done {
            return Ok(());
        }
        self.faults = self.faults.saturating_add(1);
        Err(SinkFault::Failed)
    }
}

impl<W> WriteSink<W> {
    // How many writes failed or took nothing.
    pub(crate) fn faults(&self) -> u64
        ensures { result ≡ write_faults self.now }
    {
        self.faults
    }

    // The writer, lent.
    pub(crate) fn writer(&self) -> &W
        ensures { result.now ≡ writer_of self.now }
    {
        &self.writer
    }

    // The writer.
    pub(crate) fn into_writer(self) -> W
        ensures { result ≡ writer_of self }
    {
        self.writer
    }
}

impl<W: Write> Sink for WriteSink<W> {
    ghost view = { λ s. record {
      written = None;
      held = [];
      faults = write_faults s;
      may_hold = false;
      may_run_out = false;
    } };

    ghost ended = { λ _. true };

    fn put(&mut self, bytes: &[u8]) -> Result<(), SinkFault>
        ensures written { OnOk result (Appends
            (W.contents (writer_of self.old)) (W.contents (writer_of self.new)) bytes.now) }
        ensures refused { OnErr result (AppendsPrefix
            (W.contents (writer_of self.old)) (W.contents (writer_of self.new)) bytes.now) }
        ensures no_want { IsOkUnless result SinkFault.Failed }
        ensures counted { CountsOne (write_faults self.old) (write_faults self.new) (IsErr result) }
    {
        let done = write_whole(&mut self.writer, bytes).is_ok();
        self.answer(done)
    }

    fn put_some(&mut self, bytes: &[u8]) -> Result<usize, SinkFault>
        ensures within { IfOk result (λ n. n ≤ length bytes.now) }
        ensures some { IfOk result (λ n. 0 < length bytes.now → 0 < n) }
        ensures written { IfOk result (λ n. Appends
            (W.contents (writer_of self.old)) (W.contents (writer_of self.new)) (take n bytes.now)) }
        ensures refused { OnErr result (Appends
            (W.contents (writer_of self.old)) (W.contents (writer_of self.new)) []) }
        ensures no_want { IsOkUnless result SinkFault.Failed }
        ensures counted { CountsOne (write_faults self.old) (write_faults self.new) (IsErr result) }
    {
        let n = match self.writer.write(bytes) {
            Ok(n) => n,
            Err(_) => 0,
        };
        let done = n > 0 || bytes.is_empty();
        match self.answer(done) {
            Ok(()) => Ok(n),
            Err(fault) => Err(fault),
        }
    }

    // The sink holds nothing, but its writer may.
    fn flush(&mut self) -> Result<(), SinkFault>
        ensures kept { Keeps (W.contents (writer_of self.old)) (W.contents (writer_of self.new)) }
        ensures no_want { IsOkUnless result SinkFault.Failed }
        ensures counted { CountsOne (write_faults self.old) (write_faults self.new) (IsErr result) }
    {
        let done = self.writer.flush().is_ok();
        self.answer(done)
    }

    // A writer has no end but its drop.
    fn end(&mut self)
        ensures kept { self.new ≡ self.old }
    {}
}

// Writes until the whole piece is taken. std's `write_all` doesn't say what an error has written.
fn write_whole<W: Write>(writer: &mut W, bytes: &[u8]) -> Result<(), Failed>
    ensures written { OnOk result
        (Appends (W.contents writer.old) (W.contents writer.new) bytes.now) }
    ensures refused { OnErr result
        (AppendsPrefix (W.contents writer.old) (W.contents writer.new) bytes.now) }
{
    let mut at = 0;
    while at < bytes.len() {
        match writer.write(&bytes[at..]) {
            Ok(0) | Err(_) => return Err(Failed),
            Ok(n) => at += n,
        }
    }
    Ok(())
}
