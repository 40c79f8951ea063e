//! A sink that gathers what is put to it, and passes it on by few calls.

ghost use Rattle.std.specs.Prelude.{◌≡◌, ◌≤◌, ◌<◌, ◌+◌, ◌++◌, [], length, take, true, vec_len, IfOk, IsOk, OnErr};
ghost use Rattle.io_edges.specs.Gathering.{with_room};
ghost use Rattle.io_edges.specs.Puts.{Adds, AddsSome};

use crate::{Sink, SinkFault};
use std::alloc::{AllocError, Global};
use std::marker::Model;
use std::mem;

/// How many bytes the usual buffer has.
const ROOM: usize = 65_536;

/// The usual buffer of a [`GatheringSink`], of 64 KiB. It fails without memory for it.
pub fn gathering_room(alloc: Global) -> Result<Vec<u8>, AllocError>
    ensures { IfOk result (λ room. vec_len room ≡ 65536) }
{
    vec![in alloc; 0u8; ROOM]
}

// Copies bytes to the room, after the first so many of it.
#[inline(always)]
fn keep(bytes: &[u8], room: &mut [u8], used: &mut usize)
    requires { used.old + length bytes.now ≤ length room.old }
    ensures kept { take used.new room.new ≡ take used.old room.old ++ bytes.now }
    ensures used { used.new ≡ used.old + length bytes.now }
    ensures room { length room.new ≡ length room.old }
{
    let end = *used + bytes.len();
    room[*used..end].copy_from_slice(bytes);
    *used = end;
}

// Puts what the room holds to the inner sink by one put, or by none if it is empty. The room is
// empty then, also where the put fails.
fn put_gathered<K: Sink>(room: &[u8], used: &mut usize, sink: &mut K) -> Result<(), SinkFault>
    requires { used.old ≤ length room.now }
    ensures puts { Adds (K.view sink.old) (K.view sink.new) (take used.old room.now) [] [] result }
    ensures emptied { used.new ≡ 0 }
    ensures same_end { K.ended sink.new ≡ K.ended sink.old }
{
    if *used == 0 {
        return Ok(());
    }
    let gathered = mem::replace(used, 0);
    sink.put(&room[..gathered])
}

// Empties the room into the inner sink, and gathers the bytes in it; more than it has place for are
// put as they are. Where a put fails, the room is empty.
#[inline(never)]
fn gather_anew<K: Sink>(
    bytes: &[u8],
    room: &mut [u8],
    used: &mut usize,
    sink: &mut K,
) -> Result<(), SinkFault>
    requires { used.old ≤ length room.old }
    ensures adds { Adds (K.view sink.old) (K.view sink.new)
        (take used.old room.old) (take used.new room.new) bytes.now result }
    ensures within { used.new ≤ length room.new }
    ensures room { length room.new ≡ length room.old }
    ensures same_end { K.ended sink.new ≡ K.ended sink.old }
{
    put_gathered(room, used, sink)?;
    if bytes.len() <= room.len() {
        keep(bytes, room, used);
        return Ok(());
    }
    sink.put(bytes)
}

// The same, but of bytes for which the room has no place first ones are put.
#[inline(never)]
fn gather_some<K: Sink>(
    bytes: &[u8],
    room: &mut [u8],
    used: &mut usize,
    sink: &mut K,
) -> Result<usize, SinkFault>
    requires { used.old ≤ length room.old }
    ensures within { IfOk result (λ n. n ≤ length bytes.now) }
    ensures some { IfOk result (λ n. 0 < length bytes.now → 0 < n) }
    ensures adds { AddsSome (K.view sink.old) (K.view sink.new)
        (take used.old room.old) (take used.new room.new) bytes.now result }
    ensures used { used.new ≤ length room.new }
    ensures room { length room.new ≡ length room.old }
    ensures same_end { K.ended sink.new ≡ K.ended sink.old }
{
    put_gathered(room, used, sink)?;
    if bytes.len() <= room.len() {
        keep(bytes, room, used);
        return Ok(bytes.len());
    }
    sink.put_some(bytes)
}

/// A sink that buffers what is put to it, and passes it to the inner sink when the buffer has no
/// place for more, or at a flush. A piece larger than the buffer is passed on as it is. Buffering
/// takes no memory.
#[derive(Debug, Drop)]
pub struct GatheringSink<K> {
    sink: K,
    room: Vec<u8>,
    used: usize,
}

impl<K> Model for GatheringSink<K> {
    ghost use Rattle.std.specs.Prelude.{◌≤◌, take, vec_len};
    ghost use Rattle.io_edges.specs.Gathering.{Gathering};

    ghost Value = { Gathering K };

    ghost view = { λ s. record {
      sink = s.sink;
      room = vec_len s.room;
      gathered = take s.used s.room.items;
    } };

    ghost invariant = { λ s. s.used ≤ vec_len s.room };
}

impl<K: Sink> GatheringSink<K> {
    /// Buffers in `room`, whose bytes are overwritten.
    pub fn new(room: Vec<u8>, sink: K) -> GatheringSink<K>
        ensures sink { result.sink ≡ sink }
        ensures room { result.room ≡ vec_len room }
        ensures nothing { result.gathered ≡ [] }
    {
        GatheringSink {
            sink,
            room,
            used: 0,
        }
    }

    /// The inner sink.
    pub fn sink(&self) -> &K
        ensures { result.now ≡ self.now.sink }
    {
        &self.sink
    }

    /// The inner sink, taken out. What is gathered and not yet passed on is dropped.
    pub fn into_sink(self) -> K
        ensures { result ≡ self.sink }
    {
        self.sink
    }
}

impl<K: Sink> Sink for GatheringSink<K> {
    ghost view = { λ s. with_room s.gathered (K.view s.sink) };

    ghost ended = { λ s. K.ended s.sink };

    #[inline(always)]
    fn put(&mut self, bytes: &[u8]) -> Result<(), SinkFault>
        ensures adds { Adds (K.view self.old.sink) (K.view self.new.sink)
            self.old.gathered self.new.gathered bytes.now result }
        ensures fits { length self.old.gathered + length bytes.now ≤ self.old.room → IsOk result
            × (self.new.sink ≡ self.old.sink)
            × (self.new.gathered ≡ self.old.gathered ++ bytes.now) }
        ensures within { length self.new.gathered ≤ self.new.room }
        ensures room { self.new.room ≡ self.old.room }
        ensures same_end { K.ended self.new.sink ≡ K.ended self.old.sink }
    {
        if bytes.len() <= self.room.len() - self.used {
            keep(bytes, &mut self.room, &mut self.used);
            return Ok(());
        }
        gather_anew(bytes, &mut self.room, &mut self.used, &mut self.sink)
    }

    fn put_some(&mut self, bytes: &[u8]) -> Result<usize, SinkFault>
        ensures within { IfOk result (λ n. n ≤ length bytes.now) }
        ensures some { IfOk result (λ n. 0 < length bytes.now → 0 < n) }
        ensures adds { AddsSome (K.view self.old.sink) (K.view self.new.sink)
            self.old.gathered self.new.gathered bytes.now result }
        ensures room { self.new.room ≡ self.old.room }
        ensures same_end { K.ended self.new.sink ≡ K.ended self.old.sink }
    {
        if bytes.len() <= self.room.len() - self.used {
            keep(bytes, &mut self.room, &mut self.used);
            return Ok(bytes.len());
        }
        gather_some(bytes, &mut self.room, &mut self.used, &mut self.sink)
    }

    fn flush(&mut self) -> Result<(), SinkFault>
        ensures adds { Adds (K.view self.old.sink) (K.view self.new.sink)
            self.old.gathered self.new.gathered [] result }
        ensures emptied { (K.view self.new.sink).held ++ self.new.gathered ≡ [] }
        ensures room { self.new.room ≡ self.old.room }
        ensures same_end { K.ended self.new.sink ≡ K.ended self.old.sink }
    {
        put_gathered(&self.room, &mut self.used, &mut self.sink)?;
        self.sink.flush()
    }

    fn end(&mut self)
        ensures ended { K.ended self.new.sink ≡ true }
        ensures kept { K.view self.new.sink ≡ K.view self.old.sink }
        ensures gathered { self.new.gathered ≡ self.old.gathered }
        ensures room { self.new.room ≡ self.old.room }
    {
        self.sink.end();
    }
}
