// Two wires over the loopback.
use io_edges::{Failed, Sink, Source, TcpWire, Wire};
use std::process::Abort;
use std::test::Fail;

// Takes until the room is full, and answers how many bytes came. A take into no room may wait for a
// peer's next byte.
fn taken<S: Source>(source: &mut S, room: &mut [u8]) -> usize {
    let mut len = 0;
    while len < room.len() {
        match source.take(&mut room[len..]) {
            Ok(0) | Err(Failed) => return len,
            Ok(n) => len += n,
        }
    }
    len
}

fn assert_moved<K: Sink, S: Source>(rt: &impl Abort, bytes: [u8; 4], sink: &mut K, source: &mut S) {
    let mut room = [0; 4];
    assert_eq!(rt; sink.put(&bytes), Ok(()));
    assert_eq!(rt; taken(source, &mut room), 4);
    assert_eq!(rt; room, bytes);
}

#[test]
fn real_bytes_move(rt: HostRuntime) -> Result<(), Fail> {
    let mut serving = TcpWire::new(rt.clone()?);
    let mut calling = TcpWire::new(rt.clone()?);
    let listening = serving.listen("127.0.0.1:0")?;
    let place = format!(in rt.alloc(); "{listening}")?;
    let Ok((mut near_source, mut near_sink)) = calling.connect(place.as_str()) else {
        return Err("no connection was made".into());
    };
    let Ok(Some((mut far_source, mut far_sink))) = serving.accept(place.as_str()) else {
        return Err("no connection was accepted".into());
    };
    assert_moved(&rt, *b"ping", &mut near_sink, &mut far_source);
    assert_moved(&rt, *b"pong", &mut far_sink, &mut near_source);
    calling.close(near_source, near_sink);
    serving.close(far_source, far_sink);
    Ok(())
}
