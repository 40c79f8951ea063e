//! A sink over a TCP stream.

ghost use Rattle.std.specs.Prelude.{◌≡◌, ◌≤◌, ◌<◌, [], length, true, false, None, IfOk, IsErr, IsOkUnless};
ghost use Rattle.io_edges.specs.Faults.{CountsOne};
ghost use Rattle.io_edges.specs.Tcp.{sink_faults, has_ended};

use crate::{Sink, SinkFault, WriteSink};
use std::io::Write;
use std::net::{OpenStream, Shutdown};

/// A sink over a TCP stream, as a [`WriteSink`] is. Its end shuts down the stream's writing, so that
/// the peer reads to the end of what was written, while it may still send.
#[derive(Debug, Drop)]
pub struct TcpSink<S> {
    sink: WriteSink<S>,
    ended: bool,
}

impl<S: Write> TcpSink<S> {
    /// A sink that writes to the stream.
    pub fn new(stream: S) -> TcpSink<S>
        ensures faults { sink_faults result ≡ 0 }
        ensures unended { has_ended result ≡ false }
    {
        TcpSink {
            sink: WriteSink::new(stream),
            ended: false,
        }
    }
}

impl<S> TcpSink<S> {
    // How many writes failed or took nothing.
    pub(crate) fn faults(&self) -> u64
        ensures { result ≡ sink_faults self.now }
    {
        self.sink.faults()
    }

    // The stream that it writes to.
    pub(crate) fn into_stream(self) -> S {
        self.sink.into_writer()
    }
}

impl<S: Write + OpenStream> Sink for TcpSink<S> {
    ghost view = { λ s. record {
      written = None;
      held = [];
      faults = sink_faults s;
      may_hold = false;
      may_run_out = false;
    } };

    ghost ended = { λ s. has_ended s };

    fn put(&mut self, bytes: &[u8]) -> Result<(), SinkFault>
        ensures no_want { IsOkUnless result SinkFault.Failed }
        ensures counted { CountsOne (sink_faults self.old) (sink_faults self.new) (IsErr result) }
        ensures same_end { has_ended self.new ≡ has_ended self.old }
    {
        self.sink.put(bytes)
    }

    fn put_some(&mut self, bytes: &[u8]) -> Result<usize, SinkFault>
        ensures within { IfOk result (λ n. n ≤ length bytes.now) }
        ensures some { IfOk result (λ n. 0 < length bytes.now → 0 < n) }
        ensures no_want { IsOkUnless result SinkFault.Failed }
        ensures counted { CountsOne (sink_faults self.old) (sink_faults self.new) (IsErr result) }
        ensures same_end { has_ended self.new ≡ has_ended self.old }
    {
        self.sink.put_some(bytes)
    }

    fn flush(&mut self) -> Result<(), SinkFault>
        ensures no_want { IsOkUnless result SinkFault.Failed }
        ensures counted { CountsOne (sink_faults self.old) (sink_faults self.new) (IsErr result) }
        ensures same_end { has_ended self.new ≡ has_ended self.old }
    {
        self.sink.flush()
    }

    // A failure is ignored: the peer has broken the stream off then.
    fn end(&mut self)
        ensures ended { has_ended self.new ≡ true }
        ensures counted { sink_faults self.new ≡ sink_faults self.old }
    {
        if !self.ended {
            let _ = self.sink.writer().shutdown(Shutdown::Write);
            self.ended = true;
        }
    }
}
