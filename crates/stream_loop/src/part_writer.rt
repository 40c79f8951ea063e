//! What gathers bytes, part by part, before it puts them to a sink.

ghost use Rattle.std.specs.Prelude.{◌≡◌, [], ◌∷◌, ◌++◌, List, ℕ, false};
ghost use Rattle.stream_loop.specs.Parts.{counting, ends_within, part, Part};
ghost use Rattle.stream_loop.specs.Writing.{Wrote};
ghost use Rattle.io_edges.specs.Views.{SinkView};

use crate::outbound::{Outbound, flush, put_bytes, put_parts, run_out};
use io_edges::Sink;
use std::alloc::Global;

/// From so many bytes on what is gathered is put at once.
const MOST_GATHERED: usize = 65_536;

/// Gathers bytes before it puts them to a sink, and keeps how the writing stands. The bytes come in
/// parts, of which some count: such a part counts once it was put whole.
#[derive(Debug, Drop)]
pub struct PartWriter {
    /// What is gathered and not put yet. Bytes are appended here before [`PartWriter::end_part`].
    pub gathered: Vec<u8>,
    // Where the parts end in it that count.
    pub(crate) ends: Vec<usize>,
    /// How the writing stands. Once it has ended nothing more is put.
    pub outbound: Outbound,
    /// How many parts that count were put whole. It stops at the greatest number of its type.
    pub whole: u64,
}

// How many parts that count were put whole, with `before` earlier ones, if the first `put` bytes
// were and the parts end at these offsets.
fn ends_within(put: usize, ends: &[usize], before: u64) -> u64
    ensures { result ≡ ends_within put ends.now before }
{
    let mut count = before;
    for end in ends {
        if *end <= put {
            count = count.saturating_add(1);
        }
    }
    count
}

impl PartWriter {
    ghost use Rattle.stream_loop.specs.PartsGiven.{IsFresh, IsLittle, MayWait, WasGiven, WasGivenMore};

    /// Before the first part.
    pub fn new(alloc: Global) -> Self
        ensures fresh { IsFresh result }
    {
        PartWriter {
            gathered: Vec::new(alloc),
            ends: Vec::new(alloc),
            outbound: Outbound::Done,
            whole: 0,
        }
    }

    // Puts what is gathered, and counts the parts that were put whole.
    fn put_gathered<K: Sink>(&mut self, sink: &mut K)
        requires going { self.old.outbound ≡ Outbound.Done }
        ensures given { (first : SinkView) (parts : List Part)
            → WasGiven first parts self.old (K.view sink.old)
            → WasGiven first parts self.new (K.view sink.new) }
        ensures emptied { self.new.gathered.items ≡ [] }
        ensures unmarked { self.new.ends.items ≡ [] }
        ensures same_end { K.ended sink.new ≡ K.ended sink.old }
    {
        let (put, outbound) = put_parts(&self.gathered, sink);
        self.whole = ends_within(put, &self.ends, self.whole);
        self.gathered.clear();
        self.ends.clear();
        self.outbound = outbound;
    }

    // Puts what is gathered once it is much.
    fn relieve<K: Sink>(&mut self, sink: &mut K)
        requires going { self.old.outbound ≡ Outbound.Done }
        ensures given { (first : SinkView) (parts : List Part)
            → WasGiven first parts self.old (K.view sink.old)
            → WasGiven first parts self.new (K.view sink.new) }
        ensures little { IsLittle self.new }
        ensures same_end { K.ended sink.new ≡ K.ended sink.old }
    {
        let size = self.gathered.len();
        if size >= MOST_GATHERED {
            self.put_gathered(sink);
        }
    }

    /// Ends the writing, since there was no memory for the next part. What is gathered is put
    /// before.
    pub fn run_out<K: Sink>(&mut self, sink: &mut K)
        requires going { self.old.outbound ≡ Outbound.Done }
        ensures given { (first : SinkView) (parts : List Part) (next : Part)
            → WasGiven first parts self.old (K.view sink.old)
            → WasGiven first (parts ++ next ∷ []) self.new (K.view sink.new) }
        ensures stopped { self.new.outbound ≡ Outbound.Done → ⊥ }
        ensures little { IsLittle self.new }
        ensures same_end { K.ended sink.new ≡ K.ended sink.old }
    {
        self.put_gathered(sink);
        if self.outbound.is_going() {
            self.outbound = run_out(sink);
        }
    }

    /// Gathers a part that doesn't count. Without memory for it the writing ends.
    pub fn put_part<K: Sink>(&mut self, bytes: &[u8], sink: &mut K)
        requires going { self.old.outbound ≡ Outbound.Done }
        ensures given { (first : SinkView) (parts : List Part)
            → WasGiven first parts self.old (K.view sink.old)
            → WasGiven first (parts ++ part bytes.now false ∷ []) self.new (K.view sink.new) }
        ensures little { IsLittle self.new }
        ensures same_end { K.ended sink.new ≡ K.ended sink.old }
    {
        if self.gathered.extend_from_slice(bytes).is_err() {
            self.run_out(sink);
            return;
        }
        self.relieve(sink);
    }

    /// Ends a part that counts, whose bytes were appended behind so many others. What is gathered
    /// is put once it is much. Without memory for the mark of its end it isn't sent, and the
    /// writing ends.
    pub fn end_part<K: Sink>(&mut self, before: usize, sink: &mut K)
        requires going { self.old.outbound ≡ Outbound.Done }
        ensures given { (first : SinkView) (parts : List Part) (next : Part)
            → WasGivenMore first parts next before self.old (K.view sink.old)
            → WasGiven first (parts ++ next ∷ []) self.new (K.view sink.new) }
        ensures little { IsLittle self.new }
        ensures same_end { K.ended sink.new ≡ K.ended sink.old }
    {
        let end = self.gathered.len();
        if self.ends.push(end).is_err() {
            self.gathered.truncate(before);
            self.run_out(sink);
            return;
        }
        self.relieve(sink);
    }

    // Puts what is gathered, and writes what the sink holds.
    fn write_out<K: Sink>(&mut self, sink: &mut K)
        requires going { self.old.outbound ≡ Outbound.Done }
        ensures given { (first : SinkView) (parts : List Part)
            → WasGiven first parts self.old (K.view sink.old)
            → WasGiven first parts self.new (K.view sink.new) }
        ensures emptied { self.new.gathered.items ≡ [] }
        ensures written { self.new.outbound ≡ Outbound.Done → (K.view sink.new).held ≡ [] }
        ensures same_end { K.ended sink.new ≡ K.ended sink.old }
    {
        self.put_gathered(sink);
        if self.outbound.is_going() {
            self.outbound = flush(sink);
        }
    }

    /// Writes all that is gathered and all that the sink holds, since the next part may be long in
    /// coming. Where the writing has ended, or ends here, the sink's direction is ended.
    pub fn pause<K: Sink>(&mut self, sink: &mut K)
        ensures given { (first : SinkView) (parts : List Part)
            → WasGiven first parts self.old (K.view sink.old)
            → WasGiven first parts self.new (K.view sink.new) }
        ensures may_wait { MayWait self.new.outbound self.new.gathered.items (K.view sink.new)
            (K.ended sink.new) }
        ensures little { IsLittle self.old → IsLittle self.new }
        ensures same_end { self.new.outbound ≡ Outbound.Done
            → K.ended sink.new ≡ K.ended sink.old }
        ensures stopped { (self.old.outbound ≡ Outbound.Done → ⊥)
            → (self.new.outbound ≡ self.old.outbound)
            × (K.view sink.new ≡ K.view sink.old) }
    {
        if !self.outbound.is_going() {
            sink.end();
            return;
        }
        self.write_out(sink);
        if !self.outbound.is_going() {
            sink.end();
        }
    }

    /// Writes all that is gathered, these last bytes, and all that the sink holds. Only the sink
    /// takes memory for them.
    pub fn close<K: Sink>(&mut self, last: &[u8], sink: &mut K)
        ensures closed { (first : SinkView) (parts : List Part)
            → WasGiven first parts self.old (K.view sink.old)
            → Wrote counting self.new.outbound last.now first
            parts (λ count. self.new.whole ≡ count) (K.view sink.new) }
        ensures same_end { K.ended sink.new ≡ K.ended sink.old }
        ensures stopped { (self.old.outbound ≡ Outbound.Done → ⊥)
            → (self.new.outbound ≡ self.old.outbound) × (sink.new ≡ sink.old) }
    {
        if !self.outbound.is_going() {
            return;
        }
        self.put_gathered(sink);
        if !self.outbound.is_going() {
            return;
        }
        self.outbound = put_bytes(last, sink);
        if self.outbound.is_going() {
            self.outbound = flush(sink);
        }
    }
}
