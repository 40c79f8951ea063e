// The peers of a row, over a wire in memory.
ghost use Rattle.std.specs.Prelude.{◌≡◌, All, IfOk};
ghost use Rattle.io_edges.specs.Wires.{Untouched};

use super::*;

// What a peer sends, the takes and puts of its connection that fail, and what was written to it,
// where the connection was made and ended.
#[derive(Clone, Copy)]
pub struct Peer {
    pub sends: Parts,
    pub read: Option<u64>,
    pub write: Option<u64>,
    pub got: Option<Parts>,
}

fn ends_of(
    alloc: Global,
    peer: &Peer,
    kept: usize,
) -> Result<(MemorySource, MemorySink), AllocError>
    ensures { IfOk result Untouched }
{
    let sends = joined(alloc, peer.sends, NO_TEXT)?;
    let source = MemorySource::new(sends, 65_536, failing(alloc, peer.read)?);
    Ok((
        source,
        MemorySink::new(alloc, failing(alloc, peer.write)?, kept),
    ))
}

fn wire_over(
    alloc: Global,
    ends: Vec<(MemorySource, MemorySink)>,
    connect: Option<u64>,
) -> Result<MemoryWire, AllocError>
    requires { All Untouched ends.items }
    ensures { IfOk result (λ wire. wire.out ≡ 0) }
{
    match MemoryWire::new(alloc, ends, failing(alloc, connect)?) {
        Ok(wire) => Ok(wire),
        Err(_) => Err(AllocError),
    }
}

pub fn wire_of_one(alloc: Global, peer: &Peer, row: &Row) -> Result<MemoryWire, AllocError>
    ensures { IfOk result (λ wire. wire.out ≡ 0) }
{
    let mut ends = Vec::new(alloc);
    ends.push(ends_of(alloc, peer, row.kept)?)?;
    wire_over(alloc, ends, row.connect)
}

fn wire_of_two(alloc: Global, peers: [&Peer; 2], row: &Row) -> Result<MemoryWire, AllocError>
    ensures { IfOk result (λ wire. wire.out ≡ 0) }
{
    let mut ends = Vec::new(alloc);
    ends.push(ends_of(alloc, peers[0], row.kept)?)?;
    ends.push(ends_of(alloc, peers[1], row.kept)?)?;
    wire_over(alloc, ends, row.connect)
}

fn wire_of_three(alloc: Global, peers: [&Peer; 3], row: &Row) -> Result<MemoryWire, AllocError>
    ensures { IfOk result (λ wire. wire.out ≡ 0) }
{
    let mut ends = Vec::new(alloc);
    ends.push(ends_of(alloc, peers[0], row.kept)?)?;
    ends.push(ends_of(alloc, peers[1], row.kept)?)?;
    ends.push(ends_of(alloc, peers[2], row.kept)?)?;
    wire_over(alloc, ends, row.connect)
}

// A row has three peers at most.
pub fn wire_of(alloc: Global, row: &Row) -> Result<MemoryWire, AllocError>
    ensures { IfOk result (λ wire. wire.out ≡ 0) }
{
    match row.peers {
        [peer] => wire_of_one(alloc, peer, row),
        [first, second] => wire_of_two(alloc, [first, second], row),
        [first, second, third] => wire_of_three(alloc, [first, second, third], row),
        _ => wire_over(alloc, Vec::new(alloc), row.connect),
    }
}

// Asserts that these bytes were written to a peer, or that it was never met.
fn assert_written(
    rt: &(impl Abort + AllocGlobal + Threads + Wait + Sync),
    row: &Row,
    got: Option<&[u8]>,
    due: Option<Parts>,
) -> Result<(), AllocError> {
    match (got, due) {
        (Some(got), Some(due)) => {
            let due = joined(rt.alloc(), due, NO_TEXT)?;
            assert_bytes(rt, row, got, &due);
        }
        (got, due) => {
            let name = row.name;
            assert!(rt; got.is_none() && due.is_none(), "{name}");
        }
    }
    Ok(())
}

// Asserts what was written to each peer.
pub fn assert_got(
    rt: &(impl Abort + AllocGlobal + Threads + Wait + Sync),
    row: &Row,
    wire: &MemoryWire,
) -> Result<(), AllocError> {
    for (number, peer) in row.peers.iter().enumerate() {
        let got = wire.pair(number).map(|pair| pair.1);
        assert_written(rt, row, got, peer.got)?;
    }
    Ok(())
}
