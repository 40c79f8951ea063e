// A session whose two ends meet only where its requests are read while its answers are written.
use super::relays::TO_BACK;
use super::replays::TWO_ANSWERS;
use super::*;
use action_dispatch::EchoService;
use duplex_server::{Inbound, Outbound, Outcome, serve_one, serve_two};
use io_edges::{ReadSource, WriteSink};
use nbfx_values::{Quotas, Two};
use receiver_machine::Endpoint;
use relay::{Pump, PumpIn, PumpOut, RelayOutcome, relay};
use static_dictionary::StaticTable;
use std::io::{self, Read, Write};
use std::sync::atomic::{AtomicBool, Ordering};
use std::thread;

// How often one end looks for the other.
const TURNS: u32 = 10_000_000;

// Which ends have come: the read of the session's end, and the first write behind the Ack.
#[derive(Drop)]
struct Meeting {
    reads: AtomicBool,
    writes: AtomicBool,
    // One of them waited for the other in vain.
    missed: AtomicBool,
    // All that is due was written.
    answered: AtomicBool,
}

impl Meeting {
    fn new() -> Meeting {
        Meeting {
            reads: AtomicBool::new(false),
            writes: AtomicBool::new(false),
            missed: AtomicBool::new(false),
            answered: AtomicBool::new(false),
        }
    }

    // Waits for the other end, though not for ever.
    fn wait_for(&self, other: &AtomicBool) {
        for _ in 0..TURNS {
            if other.load(Ordering::SeqCst) {
                return;
            }
            thread::yield_now();
        }
        self.missed.store(true, Ordering::SeqCst);
    }
}

// Two calls and what is around them in three pieces, one at a read.
#[derive(Drop)]
struct Calls<'m> {
    meeting: &'m Meeting,
    pieces: [Vec<u8>; 3],
    read: usize,
}

impl Read for Calls<'_> {
    fn read(&mut self, room: &mut [u8]) -> io::Result<usize> {
        let Some(piece) = self.pieces.get(self.read) else {
            return Ok(0);
        };
        self.read += 1;
        if self.read == 3 {
            self.meeting.reads.store(true, Ordering::SeqCst);
            self.meeting.wait_for(&self.meeting.writes);
        }
        let n = piece.len().min(room.len());
        room[..n].copy_from_slice(&piece[..n]);
        Ok(n)
    }
}

// Takes these bytes, and no others.
#[derive(Drop)]
struct Answers<'m> {
    meeting: &'m Meeting,
    due: Vec<u8>,
    written: usize,
}

impl Write for Answers<'_> {
    fn write(&mut self, bytes: &[u8]) -> io::Result<usize> {
        let is_due = match self.due.get(self.written..) {
            Some(due) => due.starts_with(bytes),
            None => false,
        };
        if !is_due {
            return Ok(0);
        }
        let is_first = self.written <= ACK.len();
        self.written = self.written.saturating_add(bytes.len());
        if is_first && self.written > ACK.len() {
            self.meeting.writes.store(true, Ordering::SeqCst);
            self.meeting.wait_for(&self.meeting.reads);
        }
        if self.written == self.due.len() {
            self.meeting.answered.store(true, Ordering::SeqCst);
        }
        Ok(bytes.len())
    }

    fn flush(&mut self) -> io::Result<()> {
        Ok(())
    }
}

// Each call comes by itself, and the last piece is the session's end.
const APART: [Parts; 3] = [&[PREAMBLE, CALL, DOCUMENT], &[NEXT_CALL, DOCUMENT], &[END]];

// The last piece begins with the second call.
const BEHIND: [Parts; 3] = [&[PREAMBLE], &[CALL, DOCUMENT], &[NEXT_CALL, DOCUMENT, END]];

fn calls_of<'m>(
    alloc: Global,
    meeting: &'m Meeting,
    pieces: [Parts; 3],
) -> Result<ReadSource<Calls<'m>>, AllocError> {
    let pieces = [
        joined(alloc, pieces[0], NO_TEXT)?,
        joined(alloc, pieces[1], NO_TEXT)?,
        joined(alloc, pieces[2], NO_TEXT)?,
    ];
    Ok(ReadSource::new(Calls {
        meeting,
        pieces,
        read: 0,
    }))
}

fn answers_of(alloc: Global, meeting: &Meeting) -> Result<WriteSink<Answers<'_>>, AllocError> {
    let due = joined(alloc, TWO_ANSWERS, NO_TEXT)?;
    Ok(WriteSink::new(Answers {
        meeting,
        due,
        written: 0,
    }))
}

// Asserts that all is answered, and whether the ends have met.
fn assert_met(rt: &(impl Abort + AllocGlobal), what: &str, meeting: &Meeting, meets: bool) {
    let answered = meeting.answered.load(Ordering::SeqCst);
    let missed = meeting.missed.load(Ordering::SeqCst);
    assert_eq!(rt; (answered, missed), (true, !meets), "{what}");
}

// Serves the session, on two threads or on one.
fn served(
    rt: &(impl Threads + Wait + Sync),
    alloc: Global,
    meeting: &Meeting,
    is_beside: bool,
) -> Result<Outcome, Fail> {
    let statics = StaticTable::read(alloc, STATICS)?;
    let mut source = calls_of(alloc, meeting, APART)?;
    let mut sink = answers_of(alloc, meeting)?;
    let endpoint = Endpoint::Any;
    let quotas = Two {
        forward: Quotas::usual(),
        back: Quotas::usual(),
    };
    if is_beside {
        let (outcome, _, _) = serve_two(
            rt,
            alloc,
            source,
            sink,
            &statics,
            &quotas,
            &endpoint,
            &EchoService,
        );
        return Ok(outcome);
    }
    Ok(serve_one(
        alloc,
        &mut source,
        &mut sink,
        &statics,
        &quotas,
        &endpoint,
        &EchoService,
    ))
}

fn two_ended() -> Pump {
    Pump {
        documents: 2,
        read: PumpIn::Ended,
        written: PumpOut::Done,
    }
}

// Joins the session with one of a server, whose answers are the same: the second call comes when
// the first answer was put.
fn assert_relayed(
    rt: &(impl Abort + AllocGlobal + Threads + Wait + Sync),
    alloc: Global,
) -> Result<(), Fail> {
    let meeting = Meeting::new();
    let statics = StaticTable::read(alloc, STATICS)?;
    let quotas = Two {
        forward: Quotas::usual(),
        back: Quotas::usual(),
    };
    let answers = joined(alloc, TWO_ANSWERS, NO_TEXT)?;
    let mut back_out = sink_of(alloc, None, 0)?;
    let outcome = relay(
        rt,
        alloc,
        &mut calls_of(alloc, &meeting, BEHIND)?,
        &mut answers_of(alloc, &meeting)?,
        &mut source_of(alloc, &answers, 65_536, None)?,
        &mut back_out,
        &statics,
        &statics,
        &quotas,
        &Endpoint::Any,
        "net.tcp://h/b",
    );
    let (forward, backward) = (two_ended(), two_ended());
    assert_eq!(rt; outcome, RelayOutcome { forward, backward });
    let calls = [TO_BACK, CALL, DOCUMENT, NEXT_CALL, DOCUMENT, END];
    let calls = joined(alloc, &calls, NO_TEXT)?;
    assert_eq!(rt; back_out.bytes(), calls.as_slice());
    assert_met(rt, "relayed", &meeting, true);
    Ok(())
}

// One thread alone waits in vain.
#[test]
fn requests_are_read_while_answers_are_written(rt: HostRuntime) -> Result<(), Fail> {
    let outcome = Outcome {
        messages: 2,
        answers: 2,
        inbound: Inbound::Ended,
        outbound: Outbound::Done,
    };
    for is_beside in [true, false] {
        let meeting = Meeting::new();
        assert_eq!(&rt; served(&rt, rt.alloc(), &meeting, is_beside)?, outcome);
        assert_met(&rt, "served", &meeting, is_beside);
    }
    assert_relayed(&rt, rt.alloc())
}

#[test]
fn a_captured_session_is_read_while_it_is_answered(rt: HostRuntime) -> Result<(), Fail> {
    let alloc = rt.alloc();
    let meeting = Meeting::new();
    let words = listed(alloc, "nettcp replay --static S", "")?;
    let mut shelf = shelf_of(alloc, &CHECK)?;
    let mut notes = sink_of(alloc, None, 0)?;
    let mut wire = wire_of(alloc, &CHECK)?;
    let (input, output) = (
        calls_of(alloc, &meeting, APART)?,
        answers_of(alloc, &meeting)?,
    );
    let ran = run(
        &rt, alloc, &words, &mut shelf, input, output, &mut notes, &mut wire,
    );
    assert_eq!(&rt; ran.status, 0);
    assert_met(&rt, "replayed", &meeting, true);
    Ok(())
}
