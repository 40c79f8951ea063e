//! A wire over the system's TCP sockets.

ghost use Rattle.std.specs.Prelude.{◌≡◌, ◌<◌, ◌≤◌, ◌+◌, ◌^◌, true, false, None, IsErr, OnErr, OnOk};
ghost use Rattle.std.specs.Prelude.{IfOk, IfSome, IsSome};
ghost use Rattle.io_edges.specs.Faults.{CountsOne};
ghost use Rattle.io_edges.specs.Adapters.{read_faults};
ghost use Rattle.io_edges.specs.Wires.{added_up};
ghost use Rattle.std.specs.IoError.{error_kind, raw_os_error};
ghost use Rattle.io_edges.specs.Tcp.{has_ended, sink_faults, is_gone, Lacks, Retries};
ghost use Rattle.io_edges.specs.Tcp.{wire_out, wire_faults, wire_end_faults, wire_retried};

use crate::wire::Wire;
use crate::{Failed, ReadSource, TcpSink};
use std::net::{Net, OpenListener, OpenStream, Shutdown, SocketAddr, TcpListener, TcpStream};
use std::time::{Clock, Duration};
use std::{io, thread};

/// A wire over TCP. A place is a host's name or address and a port, as `localhost:808` or
/// `[::1]:808`; it listens at the place of its first accept, from then on. Sockets send at once
/// what is put to them (`TCP_NODELAY`), since a session is many small writes. A bind, an accept or
/// a connect that fails counts as a fault of the wire, and none is tried again but an accept that
/// fails for one connection's sake, or for a while: see [`TcpWire::retried`]. What a connection
/// meets later, such as a peer that resets it, counts at its ends. It doesn't show which bytes
/// moved.
#[derive(Drop)]
pub struct TcpWire<R: Net> {
    rt: R,
    listener: Option<R::Listener>,
    out: u64,
    faults: u64,
    end_faults: u64,
    retried: u64,
}

// How often a call is tried again at most, and the milliseconds before it is where the system has
// run out of something. That is a minute.
const MOST_RETRIES: u32 = 1_200;

const PAUSE: u64 = 50;

// Why a call is tried again.
#[derive(Clone, Copy, Debug, PartialEq, Eq)]
enum Retry {
    // The peer was gone before its connection was accepted. The next one may be there.
    AtOnce,
    // The system has no descriptor or no memory left for one more. That passes as connections end.
    Later,
}

// Whether the peer was gone before its connection was accepted.
fn is_gone(kind: io::ErrorKind) -> bool
    ensures { result ≡ is_gone kind }
{
    matches!(
        kind,
        io::ErrorKind::ConnectionAborted | io::ErrorKind::ConnectionReset
    )
}

// Whether the system has run out of memory, descriptors or buffers.
fn lacks(code: Option<i32>) -> bool
    ensures yes { result ≡ true → Lacks code }
    ensures no { result ≡ false → Lacks code → ⊥ }
{
    code == Some(12) || code == Some(23) || code == Some(24) || code == Some(105)
}

// Whether a call that failed so is tried again.
fn retry_of(error: &io::Error) -> Option<Retry>
    ensures { Retries (error_kind error.now) (raw_os_error error.now) result }
{
    if is_gone(error.kind()) {
        return Some(Retry::AtOnce);
    }
    if lacks(error.raw_os_error()) {
        return Some(Retry::Later);
    }
    None
}

// Makes a call, and again where it failed for a while or for one connection's sake. The count rises
// with each try that failed and isn't the last.
fn tried_again<R: Clock, T, F: Fn() -> io::Result<T>>(
    rt: &R,
    call: F,
    retried: &mut u64,
) -> io::Result<T>
    requires { F.IsAlwaysCallable call }
    ensures { (retried.old ≤ retried.new) × (retried.new ≤ retried.old + 1200) }
{
    for tried in 0..MOST_RETRIES {
        match call() {
            Ok(got) => return Ok(got),
            Err(e) => match retry_of(&e) {
                Some(Retry::AtOnce) => {}
                Some(Retry::Later) => thread::sleep(rt, Duration::from_millis(PAUSE)),
                None => return Err(e),
            },
        }
        *retried = retried.saturating_add(1);
    }
    call()
}

// The next connection of a listener.
fn next_of<R: Clock, L: OpenListener>(
    rt: &R,
    listener: &L,
    retried: &mut u64,
) -> io::Result<L::Stream>
    ensures { (retried.old ≤ retried.new) × (retried.new ≤ retried.old + 1200) }
{
    let (stream, _) = tried_again(rt, || listener.accept(), retried)?;
    Ok(stream)
}

impl<R: Net> TcpWire<R> {
    /// A wire that listens nowhere yet.
    pub fn new(rt: R) -> TcpWire<R>
        ensures out { wire_out result ≡ 0 }
        ensures faults { (wire_faults result ≡ 0) × (wire_end_faults result ≡ 0) }
    {
        TcpWire {
            rt,
            listener: None,
            out: 0,
            faults: 0,
            end_faults: 0,
            retried: 0,
        }
    }

    /// How often an accept was tried again, up to 2^64 - 1: at once where the peer was gone before
    /// its connection was accepted (aborted or reset), and after 50 ms where the system had no
    /// descriptor or no memory left for the connection, or for the second of its two handles. One
    /// call tries each 1,200 times more at most, and fails then.
    pub fn retried(&self) -> u64
        ensures { result ≡ wire_retried self.now }
    {
        self.retried
    }

    /// Listens at that place, unless it listens already, and answers the address where it listens.
    /// An error of the bind is returned, and not counted.
    pub fn listen(&mut self, place: &str) -> io::Result<SocketAddr>
        ensures { (wire_out self.new ≡ wire_out self.old)
            × (wire_faults self.new ≡ wire_faults self.old)
            × (wire_end_faults self.new ≡ wire_end_faults self.old) }
    {
        if let Some(listener) = &self.listener {
            return listener.local_addr();
        }
        let listener = TcpListener::bind(&self.rt, place)?;
        let at = listener.local_addr();
        self.listener = Some(listener);
        at
    }

    // Waits for the next connection, at that place where it doesn't listen yet.
    fn next_stream(&mut self, place: &str) -> io::Result<R::Stream>
    where
        R: Clock,
        ensures kept { (wire_out self.new ≡ wire_out self.old)
            × (wire_faults self.new ≡ wire_faults self.old)
            × (wire_end_faults self.new ≡ wire_end_faults self.old) }
        ensures retried { (wire_retried self.old ≤ wire_retried self.new)
            × (wire_retried self.new ≤ wire_retried self.old + 1200) }
    {
        if let Some(listener) = &self.listener {
            return next_of(&self.rt, listener, &mut self.retried);
        }
        let listener = TcpListener::bind(&self.rt, place)?;
        let accepted = next_of(&self.rt, &listener, &mut self.retried);
        self.listener = Some(listener);
        accepted
    }

    // The answer of a call that was to give a stream.
    fn answer(
        &mut self,
        ends: io::Result<(ReadSource<R::Stream>, TcpSink<R::Stream>)>,
    ) -> Result<(ReadSource<R::Stream>, TcpSink<R::Stream>), Failed>
        requires { wire_out self.old < 2 ^ 63 }
        ensures handed { IfOk result (λ got. IfOk ends (λ given. got ≡ given)) }
        ensures ok { OnOk result (IfOk ends (λ _. wire_out self.new ≡ wire_out self.old + 1)) }
        ensures broken { IsErr ends → IsErr result }
        ensures failed { OnErr result (wire_out self.new ≡ wire_out self.old) }
        ensures counted { CountsOne (wire_faults self.old) (wire_faults self.new) (IsErr result) }
        ensures kept { wire_end_faults self.new ≡ wire_end_faults self.old }
        ensures retried { wire_retried self.new ≡ wire_retried self.old }
    {
        match ends {
            Ok(ends) => {
                self.out += 1;
                Ok(ends)
            }
            Err(_) => {
                self.faults = self.faults.saturating_add(1);
                Err(Failed)
            }
        }
    }
}

// The two ends of a stream, of which the second is another handle of it.
fn ends_of<S: io::Read + io::Write + OpenStream + Drop>(
    stream: S,
    other: io::Result<S>,
) -> io::Result<(ReadSource<S>, TcpSink<S>)>
    ensures { IfOk result (λ ends. (read_faults ends.0 ≡ 0) × (sink_faults ends.1 ≡ 0)
        × (has_ended ends.1 ≡ false)) }
{
    // Where the system can't send at once, it sends later.
    let _ = stream.set_nodelay(true);
    Ok((ReadSource::new(stream), TcpSink::new(other?)))
}

impl<R: Net + Clock> Wire for TcpWire<R>
where
    R::Stream: Send,
{
    type Reader = ReadSource<R::Stream>;

    type Writer = TcpSink<R::Stream>;

    ghost waiting = { λ _. None };

    ghost closed = { λ _. None };

    ghost out = { λ s. wire_out s };

    ghost faults = { λ s. wire_faults s };

    ghost end_faults = { λ s. wire_end_faults s };

    fn accept(
        &mut self,
        place: &str,
    ) -> Result<Option<(ReadSource<R::Stream>, TcpSink<R::Stream>)>, Failed>
        requires { wire_out self.old < 2 ^ 63 }
        ensures handed { IfOk result IsSome }
        ensures fresh { IfOk result (λ found. IfSome found (λ ends.
            (read_faults ends.0 ≡ 0) × (sink_faults ends.1 ≡ 0)
            × (has_ended ends.1 ≡ false))) }
        ensures out { OnOk result (wire_out self.new ≡ wire_out self.old + 1) }
        ensures failed { OnErr result (wire_out self.new ≡ wire_out self.old) }
        ensures counted { CountsOne (wire_faults self.old) (wire_faults self.new) (IsErr result) }
        ensures kept { wire_end_faults self.new ≡ wire_end_faults self.old }
        ensures retried { (wire_retried self.old ≤ wire_retried self.new)
            × (wire_retried self.new ≤ wire_retried self.old + 2400) }
    {
        let ends = match self.next_stream(place) {
            Ok(stream) => {
                let other = tried_again(&self.rt, || stream.try_clone(), &mut self.retried);
                ends_of(stream, other)
            }
            Err(e) => Err(e),
        };
        Ok(Some(self.answer(ends)?))
    }

    fn connect(
        &mut self,
        place: &str,
    ) -> Result<(ReadSource<R::Stream>, TcpSink<R::Stream>), Failed>
        requires { wire_out self.old < 2 ^ 63 }
        ensures fresh { IfOk result (λ ends.
            (read_faults ends.0 ≡ 0) × (sink_faults ends.1 ≡ 0)
            × (has_ended ends.1 ≡ false)) }
        ensures out { OnOk result (wire_out self.new ≡ wire_out self.old + 1) }
        ensures failed { OnErr result (wire_out self.new ≡ wire_out self.old) }
        ensures counted { CountsOne (wire_faults self.old) (wire_faults self.new) (IsErr result) }
        ensures kept { wire_end_faults self.new ≡ wire_end_faults self.old }
    {
        let ends = match TcpStream::connect(&self.rt, place) {
            Ok(stream) => {
                let other = stream.try_clone();
                ends_of(stream, other)
            }
            Err(e) => Err(e),
        };
        self.answer(ends)
    }

    fn close(&mut self, reader: ReadSource<R::Stream>, writer: TcpSink<R::Stream>)
        requires { 0 < wire_out self.old }
        ensures out { wire_out self.old ≡ wire_out self.new + 1 }
        ensures counted { wire_end_faults self.new ≡ added_up (wire_end_faults self.old)
            (read_faults reader) (sink_faults writer) }
        ensures faults { wire_faults self.new ≡ wire_faults self.old }
    {
        self.out -= 1;
        self.end_faults = self
            .end_faults
            .saturating_add(reader.faults())
            .saturating_add(writer.faults());
        end_stream(reader.into_reader(), writer.into_stream());
    }
}

// How often more is read of what a peer still sends to an ended connection, and for how many
// milliseconds each time.
const LAST_READS: usize = 16;

const LAST_WAIT: u64 = 250;

// Tells the peer the end, and reads on for a while: were a connection closed with bytes unread, the
// system would break it off, and the peer could lose what was written last.
fn end_stream<S: io::Read + OpenStream + Drop>(mut reading: S, writing: S) {
    let _ = writing.shutdown(Shutdown::Write);
    if reading
        .set_read_timeout(Some(Duration::from_millis(LAST_WAIT)))
        .is_err()
    {
        return;
    }
    let mut room = [0u8; 16_384];
    for _ in 0..LAST_READS {
        match reading.read(&mut room) {
            Ok(0) | Err(_) => return,
            Ok(_) => {}
        }
    }
}
