//! The outside, as traits: where bytes come from ([`Source`]), where they go ([`Sink`]), where
//! files are found by name ([`Shelf`]), and where connections come from ([`Wire`]). What reads and
//! writes a stream is generic over them, so that its contract can speak of the bytes that moved.
//!
//! The contracts of the traits say two things. Where an implementation shows its contents, they say
//! which bytes a call moved and what an error leaves. At every implementation they count the calls
//! that met an I/O error: the count rises, up to the last value of its type, in a call that fails
//! by an I/O error, and in no other. Running out of memory is an answer of its own, and isn't
//! counted.
//!
//! Each trait has implementations in memory, for tests and for work without an outside: `Memory..`
//! ones, which meet a fault at the calls whose numbers they are given, and for sources and sinks
//! `Sure..` ones, which never meet one. A put to one of these sinks may run out of memory, and so
//! may a fetch that isn't to fail. All show their contents, and hold nothing back. [`ReadSource`],
//! [`WriteSink`], [`TcpSink`], [`FileShelf`] and [`TcpWire`] wrap the readers, the writers, the files and the
//! sockets of std, and show none: that a file or a socket gave or took these bytes is trusted. A
//! [`GatheringSink`] wraps any other sink, and buffers what fits.
//!
//! A file on a shelf is read as one thing, whatever its content: what its bytes give is computed by
//! the caller's function, `reading`, and the words of `specs/Files` say with it what the shelf has
//! under a name: all of the content, a first bad row, or no such file. [`fetch_file`] fetches the
//! bytes, and a [`FileFault`] says why they aren't read.
//!
//! How often the outside was asked is counted too, where asking twice can be seen: the takes that
//! gave nothing, and the files that were fetched.
//!
//! The definitions are in `specs/`: `Faults` has the count, `Flow` what moves at a call, `Views` what
//! is seen of a sink, `Puts` what one put or several leave of it, `Store` what a shelf holds,
//! `Files` what is read of one of its files, `Wires` what a wire hands out and closes, `Plan` and
//! `InMemory` what the implementations in memory do call by call, `Gathering` what is seen of a sink
//! that gathers, and `Adapters` and `Tcp` what is seen of the ones over std.
#![tactic(auto)]

ghost use Rattle.std.specs.Prelude.{◌≡◌, ◌≤◌, ◌<◌, ℕ, List, [], ◌++◌, length, take, Bool, true, Option, IfSome, IfOk, OnOk, OnErr, IsErr, IsErrOf, ◌↔◌};
ghost use Rattle.io_edges.specs.Faults.{CountsFaults, CountsOne, one_more};
ghost use Rattle.io_edges.specs.Flow.{Told, Moves};
ghost use Rattle.io_edges.specs.Puts.{Puts, PutsSome};
ghost use Rattle.io_edges.specs.Store.{Store};
ghost use Rattle.io_edges.specs.Views.{SinkView};
ghost use Rattle.std.specs.Option.{option_map};
ghost use Rattle.std.specs.FinMap as finite;

mod fault;
mod fault_plan;
mod fetching;
mod file_shelf;
mod gathering_sink;
mod memory_shelf;
mod memory_sink;
mod memory_source;
mod memory_wire;
mod read_source;
mod sure_sink;
mod sure_source;
mod tcp_sink;
mod tcp_wire;
mod wire;
mod write_sink;

pub use fault::FileFault;
pub use fetching::fetch_file;
pub use file_shelf::FileShelf;
pub use gathering_sink::{GatheringSink, gathering_room};
pub use memory_shelf::MemoryShelf;
pub use memory_sink::MemorySink;
pub use memory_source::MemorySource;
pub use memory_wire::MemoryWire;
pub use read_source::ReadSource;
pub use sure_sink::SureSink;
pub use sure_source::SureSource;
pub use tcp_sink::TcpSink;
pub use tcp_wire::TcpWire;
pub use wire::Wire;
pub use write_sink::WriteSink;

/// The error of a call that met an I/O error.
#[derive(Clone, Copy, Debug, PartialEq, Eq)]
pub struct Failed;

/// Where bytes come from. A caller reads until a take gives no bytes, or fails.
pub trait Source {
    /// The bytes that were read, where the source shows its contents.
    ghost taken: { Self → Option (List ℕ) };

    /// The bytes that are still to come, where the source shows its contents.
    ghost left: { Self → Option (List ℕ) };

    /// How many calls met an I/O error, up to 2^64 - 1.
    ghost faults: { Self → ℕ };

    /// How many takes gave nothing, up to 2^64 - 1. A caller that asks once more after the end
    /// makes whoever types at a terminal end the input twice.
    ghost empty_takes: { Self → ℕ };

    /// Reads the next bytes to the front of the buffer, and answers how many they are. 0 for a
    /// buffer that isn't empty is the end of the input. A take that fails by an I/O error reads
    /// nothing, and later ones may succeed.
    fn take(&mut self, room: &mut [u8]) -> Result<usize, Failed>
        ensures within { IfOk result (λ n. n ≤ length room.new) }
        ensures moved { IfOk result (λ n. Told (left self.old) (left self.new)
            (λ l l'. Moves l l' room.new n)) }
        ensures taken { IfOk result (λ n. Told (taken self.old) (taken self.new)
            (λ t t'. t' ≡ t ++ take n room.new)) }
        ensures ended { IfOk result (λ n. 0 < length room.old → Told (left self.old) (left self.new)
            (λ l _. (n ≡ 0) ↔ (l ≡ []))) }
        ensures counted { CountsFaults (faults self.old) (faults self.new) (IsErr result) }
        ensures empty { CountsOne (empty_takes self.old) (empty_takes self.new) (result ≡ Ok 0) }
        ensures failed_left { OnErr result (Told (left self.old) (left self.new) (λ l l'. l' ≡ l)) }
        ensures failed_taken { OnErr result (Told (taken self.old) (taken self.new)
            (λ t t'. t' ≡ t)) };
}

/// Why a sink didn't take a piece.
#[derive(Clone, Copy, Debug, PartialEq, Eq)]
pub enum SinkFault {
    /// A write met an I/O error.
    Failed,
    /// Out of memory for the bytes.
    Memory,
}

/// Where bytes go. A sink may hold back what was put to it: such bytes are written in the order in
/// which they were put, by later calls, and by a flush at the latest.
pub trait Sink {
    /// What is seen of it: what was written, where the sink shows its contents; what was put and
    /// isn't written yet; how many calls met an I/O error, up to 2^64 - 1; and whether its calls
    /// may hold bytes back, and may run out of memory, which no call changes.
    ghost view: { Self → SinkView };

    /// Whether the direction was ended.
    ghost ended: { Self → Bool };

    /// Takes the whole piece, to be written after what is held. On an error first bytes of both may
    /// have been written, and the others are dropped.
    fn put(&mut self, bytes: &[u8]) -> Result<(), SinkFault>
        ensures puts { Puts (view self.old) (view self.new) bytes.now result }
        ensures same_end { ended self.new ≡ ended self.old };

    /// Takes first bytes of the piece, to be written after what is held, and answers how many: at
    /// least one, where the piece has one. On an error it takes none; first bytes of what is held
    /// may have been written, and the others are dropped.
    fn put_some(&mut self, bytes: &[u8]) -> Result<usize, SinkFault>
        ensures within { IfOk result (λ n. n ≤ length bytes.now) }
        ensures some { IfOk result (λ n. 0 < length bytes.now → 0 < n) }
        ensures puts { PutsSome (view self.old) (view self.new) bytes.now result }
        ensures same_end { ended self.new ≡ ended self.old };

    /// Writes what is held. On an error first bytes of it may have been written, and the others are
    /// dropped.
    fn flush(&mut self) -> Result<(), SinkFault>
        ensures puts { Puts (view self.old) (view self.new) [] result }
        ensures emptied { (view self.new).held ≡ [] }
        ensures same_end { ended self.new ≡ ended self.old };

    /// Ends the direction, so that a peer that waits for more learns that no more comes. It is
    /// called when nothing more will be put; where there is a peer, a put after it would fail. It
    /// writes nothing, and what is held stays held. No other call ends the direction. A sink that
    /// has no peer does nothing else than to count as ended.
    fn end(&mut self)
        ensures ended { ended self.new ≡ true }
        ensures kept { view self.new ≡ view self.old };
}

/// Why a shelf didn't say what it has under a name.
#[derive(Clone, Copy, Debug, PartialEq, Eq)]
pub enum ShelfFault {
    /// The fetch met an I/O error.
    Failed,
    /// Out of memory for the file's bytes.
    Memory,
}

/// Where files are found by name.
pub trait Shelf {
    /// The files, where the shelf shows its contents.
    ghost files: { Self → Option Store };

    /// How many calls met an I/O error, up to 2^64 - 1.
    ghost faults: { Self → ℕ };

    /// How many files were asked for, up to 2^64 - 1. What is fetched twice needn't be the same
    /// twice, and a pipe gives its bytes once.
    ghost fetches: { Self → ℕ };

    /// The bytes of the file of that name, or `None` where there is no such file. The files stay as
    /// they are, also on an error.
    fn fetch(&mut self, name: &str) -> Result<Option<Vec<u8>>, ShelfFault>
        ensures found { IfOk result (λ found. IfSome (files self.old)
            (λ files. option_map (λ v. v.items) found ≡ finite.get files name.now)) }
        ensures kept { files self.new ≡ files self.old }
        ensures counted { CountsFaults (faults self.old) (faults self.new)
            (IsErrOf result ShelfFault.Failed) }
        ensures fetched { fetches self.new ≡ one_more (fetches self.old) };
}
