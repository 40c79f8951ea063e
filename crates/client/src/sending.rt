//! How the opening of a call is written.

ghost use Rattle.std.specs.Prelude.{◌≡◌, ◌≤◌, length};
ghost use Rattle.initiator_machine.specs.Opening.{opening_bytes};
ghost use Rattle.client.specs.Writing.{WritesOut};

use initiator_machine::opening;
use io_edges::Sink;
use nbfx_values::{Encoding, Mode};
use std::alloc::Global;
use stream_loop::{Outbound, flush, put_bytes, run_out};
use unit_streams::Memory;

// Puts bytes, and writes what the sink holds.
fn write_bytes<K: Sink>(bytes: &[u8], sink: &mut K) -> Outbound
    ensures written { WritesOut result bytes.now (K.view sink.old) (K.view sink.new) }
    ensures same_end { K.ended sink.new ≡ K.ended sink.old }
{
    let put = put_bytes(bytes, sink);
    if !put.is_going() {
        return put;
    }
    flush(sink)
}

/// Writes the opening of a session (MC-NMF): an initiator's preamble.
pub fn send_opening<K: Sink>(
    alloc: Global,
    mode: Mode,
    encoding: Encoding,
    via: &str,
    sink: &mut K,
) -> Outbound
    requires { length via.now ≤ 2048 }
    ensures written { WritesOut result (opening_bytes mode encoding via.now) (K.view sink.old)
        (K.view sink.new) }
    ensures same_end { K.ended sink.new ≡ K.ended sink.old }
{
    let mut bytes = Vec::new(alloc);
    match opening(mode, encoding, via, &mut bytes) {
        Ok(()) => write_bytes(&bytes, sink),
        Err(Memory) => run_out(sink),
    }
}
