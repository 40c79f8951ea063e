// When a sending half may send a message, and when End.
use super::answers::requests;
use nbfx_encoder::{SendFault, SendState, Sender, Side};
use nbfx_values::{Doc, Kind, Mode, Quotas};
use static_dictionary::StaticTable;
use std::alloc::Global;
use std::process::Abort;
use std::test::Fail;

// What a message is answered, and End: no check here needs what the calls promise.
fn sent(sender: &mut Sender<'_>, doc: &Doc, out: &mut Vec<u8>) -> Result<(), SendFault> {
    sender.message(doc, out)
}

fn ended(sender: &mut Sender<'_>) -> Result<u8, SendState> {
    sender.end()
}

// An initiator in singleton mode sends one message, and then End once.
pub fn one_message_and_its_end(rt: &(impl Abort + AllocGlobal)) -> Result<(), Fail> {
    let alloc = rt.alloc();
    let statics = StaticTable::read(alloc, b"id,string\n2,Envelope\n")?;
    let docs = requests(alloc)?;
    let doc = docs.get(0).ok_or("no document")?;
    let (quotas, side) = (Quotas::usual(), Side::Initiator);
    let mut sender = Sender::new(
        alloc,
        &statics,
        quotas,
        Kind::Session,
        Mode::Singleton,
        side,
    );
    let mut out = Vec::new(alloc);
    assert_eq!(rt; ended(&mut sender), Err(SendState::Ready));
    assert_eq!(rt; sent(&mut sender, doc, &mut out), Ok(()));
    let state = SendState::Spent;
    assert_eq!(rt;
        sent(&mut sender, doc, &mut out),
        Err(SendFault::WrongMoment { state })
    );
    assert_eq!(rt; ended(&mut sender), Ok(7));
    assert_eq!(rt; ended(&mut sender), Err(SendState::Closed));
    Ok(())
}

fn ended_at_once(alloc: Global, mode: Mode, side: Side) -> Result<Result<u8, SendState>, Fail> {
    let statics = StaticTable::read(alloc, b"id,string\n2,Envelope\n")?;
    let mut sender = Sender::new(alloc, &statics, Quotas::usual(), Kind::Plain, mode, side);
    Ok(sender.end())
}

// Only an initiator in singleton mode has to send a message before End.
pub fn end_without_a_message(rt: &(impl Abort + AllocGlobal)) -> Result<(), Fail> {
    let rows = [
        (Mode::Singleton, Side::Initiator, Err(SendState::Ready)),
        (Mode::Singleton, Side::Receiver, Ok(7)),
        (Mode::Duplex, Side::Initiator, Ok(7)),
        (Mode::Simplex, Side::Receiver, Ok(7)),
    ];
    for (mode, side, answer) in rows {
        assert_eq!(rt; ended_at_once(rt.alloc(), mode, side)?, answer);
    }
    Ok(())
}
