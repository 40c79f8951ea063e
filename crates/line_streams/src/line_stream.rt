//! A reader of lines, in any pieces.

ghost use Rattle.std.specs.Prelude.{◌≡◌, ℕ, ◌+◌, ◌<◌, ◌≤◌, List, [], ◌++◌, length, IfErr, IfOk, OnOk};
ghost use Rattle.unit_streams.specs.Judging.{ending_at};
ghost use Rattle.line_streams.specs.LineRules.{lines_by};
ghost use Rattle.line_streams.specs.LineStreamState.{LineAnswers, PieceAnswers, Reached};

use crate::line_end::LineEnd;
use memchr::memchr;
use std::alloc::Global;
use stream_loop::{FeedFault, ReadingEnd};

const LINE_FEED: u8 = b'\n';

/// Reads lines, in whatever pieces their bytes come, and answers what each brings. It holds the
/// bytes of the unfinished line.
#[derive(Drop)]
pub struct LineStream<L: LineEnd> {
    /// What the lines mean.
    pub lines: L,
    /// The bytes of the unfinished line.
    pub begun: Vec<u8>,
    /// How many bytes were read.
    pub taken: u64,
    /// So many bytes are too many.
    pub most: u64,
    ghost few: { L.count lines ≤ taken },
    ghost within: { taken ≤ most },
    ghost small: { most ≤ L.most_lines },
}

impl<L: LineEnd> LineStream<L> {
    /// Before the first byte of a stream that has fewer bytes than these.
    pub fn new(alloc: Global, lines: L, most: u64) -> Self
        requires small { most ≤ L.most_lines }
        requires none { L.count lines ≡ 0 }
        ensures lines { result.lines ≡ lines }
        ensures begun { result.begun.items ≡ [] }
        ensures taken { result.taken ≡ 0 }
        ensures most { result.most ≡ most }
    {
        LineStream {
            lines,
            begun: Vec::new(alloc),
            taken: 0,
            most,
        }
    }

    // How many of so many bytes may be read.
    fn room(&self, len: usize) -> usize
        ensures within { result ≤ len }
        ensures fits { self.now.taken + result ≤ self.now.most }
        ensures full { result < len → self.now.taken + result ≡ self.now.most }
    {
        let left = self.most - self.taken;
        len.min(left as usize)
    }

    // Takes bytes of the unfinished line.
    fn begin(&mut self, bytes: &[u8]) -> Result<(), FeedFault<L::Refusal>>
        requires { self.old.taken + length bytes.now ≤ self.old.most }
        ensures begun { OnOk result (self.new.begun.items ≡ self.old.begun.items ++ bytes.now) }
        ensures refused { IfErr result (λ fault. fault ≡ FeedFault.Memory) }
        ensures taken { self.new.taken ≡ self.old.taken + length bytes.now }
        ensures lines { self.new.lines ≡ self.old.lines }
        ensures most { self.new.most ≡ self.old.most }
    {
        self.taken += bytes.len() as u64;
        match self.begun.extend_from_slice(bytes) {
            Ok(()) => Ok(()),
            Err(_) => Err(FeedFault::Memory),
        }
    }

    // Answers the line that ends with these bytes, after which its line feed comes.
    #[inline(always)]
    fn end_line(&mut self, bytes: &[u8]) -> Result<Option<L::Event>, FeedFault<L::Refusal>>
        requires { self.old.taken + length bytes.now + 1 ≤ self.old.most }
        ensures answers { (z : L.Situation) → L.is_in self.old.lines z
            → LineAnswers (L.rules (L.settings self.old.lines)) (L.is_in self.new.lines) z
            (self.old.begun.items ++ bytes.now) result }
        ensures begun { OnOk result (self.new.begun.items ≡ []) }
        ensures taken { self.new.taken ≡ self.old.taken + length bytes.now + 1 }
        ensures settings { L.settings self.new.lines ≡ L.settings self.old.lines }
        ensures most { self.new.most ≡ self.old.most }
    {
        self.taken += bytes.len() as u64 + 1;
        if self.begun.is_empty() {
            return self.lines.line(bytes);
        }
        if self.begun.extend_from_slice(bytes).is_err() {
            return Err(FeedFault::Memory);
        }
        let answer = self.lines.line(&self.begun);
        self.begun.clear();
        answer
    }

    /// Why the input may not end here, if it may not.
    pub fn fault_at_end(&self) -> Option<L::Refusal>
        ensures { (p : List ℕ) → Reached (L.rules (L.settings self.now.lines))
            (L.is_in self.now.lines) self.now.begun.items self.now.taken p
            → result ≡ ending_at (lines_by (L.rules (L.settings self.now.lines))) p }
    {
        self.lines.fault_at_end(!self.begun.is_empty())
    }

    /// Reads a piece, as [`feed`](ReadingEnd::feed) does: up to the first line that brings an
    /// event, or as far as may be.
    pub fn read(&mut self, piece: &[u8]) -> Result<(usize, Option<L::Event>), FeedFault<L::Refusal>>
        ensures answers { (L.rules (L.settings self.old.lines)).most ≡ self.old.most → (p : List ℕ)
            → Reached (L.rules (L.settings self.old.lines)) (L.is_in self.old.lines)
            self.old.begun.items self.old.taken p
            → PieceAnswers (L.rules (L.settings self.old.lines)) p piece.now
            (Reached (L.rules (L.settings self.old.lines)) (L.is_in self.new.lines)
            self.new.begun.items self.new.taken) result }
        ensures within { IfOk result (λ answer. answer.0 ≤ length piece.now) }
        ensures settings { L.settings self.new.lines ≡ L.settings self.old.lines }
        ensures most { self.new.most ≡ self.old.most }
    {
        let room = self.room(piece.len());
        let mut used = 0;
        while let Some(end) = memchr(LINE_FEED, &piece[used..room]) {
            let event = self.end_line(&piece[used..used + end])?;
            used += end + 1;
            if event.is_some() {
                return Ok((used, event));
            }
        }
        self.begin(&piece[used..room])?;
        if self.taken >= self.most {
            return Err(FeedFault::Refused(self.lines.too_long()));
        }
        Ok((room, None))
    }
}

impl<L: LineEnd> ReadingEnd for LineStream<L> {
    ghost use Rattle.std.specs.Prelude.{Bool, false};

    type Event = L::Event;

    type Refusal = L::Refusal;

    ghost Situation = { L.Situation };

    ghost UnitOf = { List ℕ };

    ghost Completed = { L.Event };

    ghost event_for = { λ event. event };

    ghost grammar = { λ s. lines_by (L.rules (L.settings s.lines)) };

    ghost stands = { λ s p. ((L.rules (L.settings s.lines)).most ≡ s.most)
        × Reached (L.rules (L.settings s.lines)) (L.is_in s.lines) s.begun.items s.taken p };

    ghost taken = { λ s. s.taken };

    ghost most = { λ s. s.most };

    ghost ends = { λ _. false };

    ghost counts = { λ s p stands. stands.1.taken_is };

    fn feed(&mut self, piece: &[u8]) -> Result<(usize, Option<L::Event>), FeedFault<L::Refusal>> {
        self.read(piece)
    }

    fn end_of_input(&mut self) -> Result<(), L::Refusal> {
        match self.fault_at_end() {
            Some(fault) => Err(fault),
            None => Ok(()),
        }
    }

    fn is_end(&self, _event: &L::Event) -> bool {
        false
    }

    fn recycle(&mut self, event: L::Event) {
        self.lines.reuse(event);
    }
}
