//! Short chunks, whose sizes have one byte each: those that lie whole in a piece are taken
//! together, so that the decoder gets their content in one piece.

ghost use Rattle.std.specs.Prelude.{◌≡◌, ℕ, ◌+◌, ◌≤◌, ◌<◌, List, length, take, IfOk, IfErr, IfSome, Some, None, false};
ghost use Rattle.std.specs.List.{concat};
ghost use Rattle.unit_streams.specs.Judging.{is_over_at};
ghost use Rattle.stream_reader.specs.Stream.{stream};
ghost use Rattle.stream_reader.specs.Runs.{HasShort, IsRun, chunks_of, place_in as place};

use crate::awaited::{Awaited, PayloadLeft};
use crate::reader::{ReadRefusal, StreamReader, StreamStep};
use nmf_records::Due;

// How many bytes of content are gathered at most.
const ROOM: usize = 1_024;

// The greatest size that is spelled in one byte.
const LONGEST: usize = 127;

// Short chunks that were gathered.
#[derive(Clone, Copy)]
struct Gathered {
    // How many bytes they have, with their sizes.
    used: usize,
    // How many bytes their content has.
    filled: usize,
}

impl<'s> StreamReader<'s> {
    ghost use Rattle.stream_reader.specs.StreamReaderState.{settings_of, failure_of, WhereItStands};
    ghost use Rattle.stream_reader.specs.Stepping.{MayTake, UnitAnswers};

    // Takes the short chunks that lie whole at the front of the bytes, or else bytes of the next
    // chunk's size.
    #[inline(never)]
    pub(crate) fn chunks(
        &mut self,
        payload: PayloadLeft,
        bytes: &[u8],
    ) -> Result<(usize, StreamStep), ReadRefusal>
        requires awaited { self.old.awaited ≡ Awaited.Chunk payload }
        requires some { 0 < length bytes.now }
        requires fits { self.old.taken + length bytes.now ≤ self.old.quotas.session }
        ensures answers { WhereItStands self.old (λ p.
            is_over_at (stream (settings_of self.old)) p ≡ false
            → UnitAnswers (settings_of self.old) p bytes.now self.new result) }
        ensures refused { IfErr result (λ refusal. failure_of self.new ≡ Some refusal) }
        ensures settings { settings_of self.new ≡ settings_of self.old }
        ensures within { IfOk result (λ answer. answer.0 ≤ length bytes.now) }
        ensures taken { IfOk result (λ answer. self.new.taken ≡ self.old.taken + answer.0) }
    {
        if self.unit_from != self.taken || short_size(bytes).is_none() {
            return self.record(Due::Chunk, bytes);
        }
        self.short_chunks(payload, bytes)
    }

    // Takes short chunks, if one has place in the payload.
    #[inline(never)]
    fn short_chunks(
        &mut self,
        payload: PayloadLeft,
        bytes: &[u8],
    ) -> Result<(usize, StreamStep), ReadRefusal>
        requires awaited { self.old.awaited ≡ Awaited.Chunk payload }
        requires between { self.old.unit_from ≡ self.old.taken }
        requires some { 0 < length bytes.now }
        requires fits { self.old.taken + length bytes.now ≤ self.old.quotas.session }
        ensures answers { WhereItStands self.old (λ p.
            is_over_at (stream (settings_of self.old)) p ≡ false
            → UnitAnswers (settings_of self.old) p bytes.now self.new result) }
        ensures refused { IfErr result (λ refusal. failure_of self.new ≡ Some refusal) }
        ensures settings { settings_of self.new ≡ settings_of self.old }
        ensures within { IfOk result (λ answer. answer.0 ≤ length bytes.now) }
        ensures taken { IfOk result (λ answer. self.new.taken ≡ self.old.taken + answer.0) }
    {
        let mut room = [0; ROOM];
        let most = ROOM.min(self.payload_room());
        let gathered = gather(bytes, &mut room[..most]);
        if gathered.filled == 0 {
            return self.record(Due::Chunk, bytes);
        }
        self.joined_chunks(payload, &bytes[..gathered.used], &room[..gathered.filled])
    }

    // Takes short chunks of this content.
    fn joined_chunks(
        &mut self,
        payload: PayloadLeft,
        chunks: &[u8],
        content: &[u8],
    ) -> Result<(usize, StreamStep), ReadRefusal>
        requires awaited { self.old.awaited ≡ Awaited.Chunk payload }
        requires between { self.old.unit_from ≡ self.old.taken }
        requires joined { IsRun chunks.now content.now }
        requires room { MayTake self.old.decoder self.old.quotas (length content.now) }
        requires some { 0 < length content.now }
        requires fits { self.old.taken + length chunks.now ≤ self.old.quotas.session }
        ensures answers { WhereItStands self.old (λ p.
            UnitAnswers (settings_of self.old) p chunks.now self.new result) }
        ensures refused { IfErr result (λ refusal. failure_of self.new ≡ Some refusal) }
        ensures settings { settings_of self.new ≡ settings_of self.old }
        ensures within { IfOk result (λ answer. answer.0 ≤ length chunks.now) }
        ensures taken { IfOk result (λ answer. self.new.taken ≡ self.old.taken + answer.0) }
    {
        if let Err(fault) = self.decoder.feed(content) {
            let shown = place_in(chunks, payload.more_shown(fault) as usize);
            self.taken = self.taken.saturating_add(shown as u64);
            return Err(self.refuse_payload(fault));
        }
        self.taken += chunks.len() as u64;
        self.unit_from = self.taken;
        self.awaited = Awaited::Chunk(payload.with_more(content.len() as u32));
        Ok((chunks.len(), StreamStep::More))
    }
}

// How many bytes of content the short chunk has that lies whole at the front of the bytes.
fn short_size(bytes: &[u8]) -> Option<usize>
    ensures { IfSome result (HasShort bytes.now) }
{
    if bytes.is_empty() {
        return None;
    }
    let size = usize::from(bytes[0]);
    if size == 0 || size > LONGEST || size >= bytes.len() {
        return None;
    }
    Some(size)
}

// Copies the content of the short chunks at the front of the bytes to the room, as long as the
// next one lies whole there and has place.
fn gather(bytes: &[u8], room: &mut [u8]) -> Gathered
    ensures run { IsRun (take result.used bytes.now) (take result.filled room.new) }
    ensures used { result.used ≤ length bytes.now }
    ensures filled { result.filled ≤ length room.new }
    ensures room { length room.new ≡ length room.old }
{
    let mut used = 0;
    let mut filled = 0;
    while used < bytes.len() {
        let size = match short_size(&bytes[used..]) {
            Some(size) => size,
            None => return Gathered { used, filled },
        };
        if size > room.len() - filled {
            return Gathered { used, filled };
        }
        let end = filled + size;
        let next = used + 1 + size;
        room[filled..end].copy_from_slice(&bytes[used + 1..next]);
        filled = end;
        used = next;
    }
    Gathered { used, filled }
}

// How many bytes of short chunks bring so many of their content.
fn place_in(run: &[u8], content: usize) -> usize
    ensures { (contents : List (List ℕ)) → run.now ≡ chunks_of contents
        → content ≤ length (concat contents) → result ≡ place contents content }
{
    let mut at = 0;
    let mut left = content;
    while left > 0 && at < run.len() {
        let size = usize::from(run[at]);
        if left <= size {
            return at + 1 + left;
        }
        at += 1 + size;
        left -= size;
    }
    at
}
