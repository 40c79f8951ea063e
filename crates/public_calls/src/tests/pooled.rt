// Two connections of a pool, of which neither is answered before the other is asked.
ghost use Rattle.std.specs.Prelude.{◌≡◌, All, IfOk};
ghost use Rattle.io_edges.specs.Wires.{Untouched};
ghost use Rattle.action_dispatch.specs.declared.service.Served.{Served as Says};

use super::served::{STATICS, session, with_payload};
use action_dispatch::{Served, Service};
use duplex_server::Server;
use io_edges::{MemorySink, MemorySource, MemoryWire, Wire};
use nbfx_values::Items;
use receiver_machine::Endpoint;
use session_pool::{PoolReport, PoolWire, TurnsEnd, pool};
use static_dictionary::StaticTable;
use std::alloc::{AllocError, Global};
use std::process::Abort;
use std::sync::Wait;
use std::sync::atomic::{AtomicBool, AtomicU32, Ordering};
use std::test::Fail;
use std::thread;
use std::thread::Threads;
use unit_streams::Memory;

// How often a call looks for the other one.
const TURNS: u32 = 10_000_000;

// A service of two calls, each of which waits for the other, though not for ever.
#[derive(Drop)]
struct Meeting {
    calls: AtomicU32,
    // One of them waited in vain.
    missed: AtomicBool,
}

impl Meeting {
    fn new() -> Meeting {
        Meeting {
            calls: AtomicU32::new(0),
            missed: AtomicBool::new(false),
        }
    }

    fn meet(&self) {
        self.calls.fetch_add(1, Ordering::SeqCst);
        for _ in 0..TURNS {
            if self.calls.load(Ordering::SeqCst) >= 2 {
                return;
            }
            thread::yield_now();
        }
        self.missed.store(true, Ordering::SeqCst);
    }
}

impl Service for Meeting {
    ghost served = { λ _ _ _. Says.Unknown };

    fn serve(&self, _alloc: Global, _action: &str, _body: &Items) -> Result<Served, Memory> {
        self.meet();
        Ok(Served::Unknown)
    }
}

fn ends_of(alloc: Global) -> Result<(MemorySource, MemorySink), AllocError>
    ensures { IfOk result Untouched }
{
    let source = MemorySource::new(session(alloc)?, 65_536, Vec::new(alloc));
    Ok((source, MemorySink::new(alloc, Vec::new(alloc), 0)))
}

fn wire_over(alloc: Global, ends: Vec<(MemorySource, MemorySink)>) -> Result<MemoryWire, Memory>
    requires { All Untouched ends.items }
    ensures { IfOk result (λ wire. wire.out ≡ 0) }
{
    MemoryWire::new(alloc, ends, Vec::new(alloc))
}

fn wire_of_two(alloc: Global) -> Result<MemoryWire, Fail>
    ensures { IfOk result (λ wire. wire.out ≡ 0) }
{
    let mut ends = Vec::new(alloc);
    ends.push(ends_of(alloc)?)?;
    ends.push(ends_of(alloc)?)?;
    Ok(wire_over(alloc, ends)?)
}

// Its clauses aren't needed, and cost less to prove of any wire and service than of these.
fn pooled<W: Wire, V: Service + Sync>(
    rt: &(impl Threads + Wait + Sync),
    alloc: Global,
    wire: &mut W,
    server: &Server<'_, V>,
) -> Result<PoolReport, Memory>
    requires { W.out wire.old ≡ 0 }
{
    pool(
        rt,
        alloc,
        wire,
        "h:808",
        2,
        1,
        server.statics,
        server.quotas,
        server.endpoint,
        server.service,
    )
}

fn assert_served(rt: &impl Abort, report: &PoolReport) {
    let turns = report.turns.as_slice();
    assert_eq!(rt; (report.wire, turns.len()), (PoolWire::Done, 2));
    for turns in turns {
        assert_eq!(rt; turns.end, TurnsEnd::Most);
    }
}

pub fn connections_are_served_at_once(
    rt: &(impl Abort + AllocGlobal + Threads + Wait + Sync),
) -> Result<(), Fail> {
    let alloc = rt.alloc();
    let statics = StaticTable::read(alloc, STATICS)?;
    let quotas = with_payload(8_192)?;
    let meeting = Meeting::new();
    let server = Server {
        statics: &statics,
        quotas: &quotas,
        endpoint: &Endpoint::Any,
        service: &meeting,
    };
    let mut wire = wire_of_two(alloc)?;
    let report = pooled(rt, alloc, &mut wire, &server)?;
    assert_served(rt, &report);
    assert!(rt; !meeting.missed.load(Ordering::SeqCst));
    Ok(())
}
