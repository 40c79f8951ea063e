//! How bytes go to a sink, and what becomes of the writing then.

ghost use Rattle.std.specs.Prelude.{◌≡◌, ⊤, Result, List, ℕ, [], true, false};
ghost use Rattle.io_edges.specs.declared.SinkFault.{SinkFault as Fault};
ghost use Rattle.stream_loop.specs.Writing.{Goes, IsCut, PutsParts};
ghost use Rattle.stream_loop.specs.Writing.{outbound_by, outbound_of};
ghost use Rattle.io_edges.specs.Puts.{Puts};

use io_edges::{Sink, SinkFault};

/// How the writing to a sink stands, or how it ended.
#[derive(Clone, Copy, Debug, PartialEq, Eq)]
pub enum Outbound {
    /// All that was put is written or held.
    Done,
    /// A write met an I/O error. Nothing more is written.
    WriteFault,
    /// Out of memory while writing. Nothing more is written.
    Memory,
}

impl Outbound {
    /// Whether more may be written.
    pub fn is_going(self) -> bool
        ensures going { result ≡ true → self ≡ Outbound.Done }
        ensures stopped { result ≡ false → self ≡ Outbound.Done → ⊥ }
    {
        matches!(self, Outbound::Done)
    }
}

fn outbound_of(fault: SinkFault) -> Outbound
    ensures { result ≡ outbound_of fault }
{
    match fault {
        SinkFault::Failed => Outbound::WriteFault,
        SinkFault::Memory => Outbound::Memory,
    }
}

/// Puts bytes, if there are any, and answers how the writing stands.
pub fn put_bytes<K: Sink>(bytes: &[u8], sink: &mut K) -> Outbound
    ensures goes { Goes result bytes.now (K.view sink.old) (K.view sink.new) }
    ensures memory { result ≡ Outbound.Memory → (K.view sink.old).may_run_out ≡ true }
    ensures same_end { K.ended sink.new ≡ K.ended sink.old }
{
    if bytes.is_empty() {
        return Outbound::Done;
    }
    match sink.put(bytes) {
        Ok(()) => Outbound::Done,
        Err(fault) => outbound_of(fault),
    }
}

/// Puts bytes, a part at a time. Answers how many were put, and how the writing stands: all were
/// put, or a put failed at the next one.
pub fn put_parts<K: Sink>(bytes: &[u8], sink: &mut K) -> (usize, Outbound)
    ensures puts { PutsParts bytes.now (K.view sink.old) (K.view sink.new) result.0 result.1 }
    ensures same_end { K.ended sink.new ≡ K.ended sink.old }
{
    let mut at = 0;
    while at < bytes.len() {
        match sink.put_some(&bytes[at..]) {
            Ok(n) => at += n,
            Err(fault) => return (at, outbound_of(fault)),
        }
    }
    (at, Outbound::Done)
}

/// Writes what the sink holds, and answers how the writing stands.
pub fn flush<K: Sink>(sink: &mut K) -> Outbound
    ensures flushed { (flush : Result ⊤ Fault)
        × Puts (K.view sink.old) (K.view sink.new) [] flush
        × (result ≡ outbound_by flush) }
    ensures emptied { (K.view sink.new).held ≡ [] }
    ensures same_end { K.ended sink.new ≡ K.ended sink.old }
{
    match sink.flush() {
        Ok(()) => Outbound::Done,
        Err(fault) => outbound_of(fault),
    }
}

/// Ends the writing since there is no memory for the next bytes. What the sink holds is written
/// first.
pub fn run_out<K: Sink>(sink: &mut K) -> Outbound
    ensures cut { (next : List ℕ) → IsCut result next (K.view sink.old) (K.view sink.new) }
    ensures same_end { K.ended sink.new ≡ K.ended sink.old }
{
    match flush(sink) {
        Outbound::Done => Outbound::Memory,
        stopped => stopped,
    }
}
