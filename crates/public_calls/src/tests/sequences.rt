// Both ends of a reliable sequence, and each fault that is no want of memory.
ghost use Rattle.reliable_sequence.specs.Rehearsal.{MayHappen};

use document_lines::read_documents;
use nbfx_values::{Docs, Items};
use reliable_sequence::{Counts, Event, Receiving, RmFault, Sending, SubmitFault, Taken, World};
use soap_envelope::SoapFault;
use std::alloc::Global;
use std::process::Abort;
use std::test::Fail;

// Up to the first block of Header, whose Start is the item at 4, and from the end of Header on.
const HEAD: &[u8] = b"start \"s\" \"Envelope\"\n\
ns \"s\" \"http://www.w3.org/2003/05/soap-envelope\"\n\
ns \"r\" \"http://schemas.xmlsoap.org/ws/2005/02/rm\"\n\
start \"s\" \"Header\"\n";

// Its body is an element, to which the declaration of `r` belongs where it stands alone.
const TAIL: &[u8] = b"close\nstart \"s\" \"Body\"\nstart \"\" \"x\"\nclose\nclose\nclose\n";

const FIRST: &[u8] = b"start \"r\" \"Sequence\"\n\
start \"r\" \"Identifier\"\ntext string \"u\"\nclose\n\
start \"r\" \"MessageNumber\"\ntext string \"1\"\nclose\nclose\n";

const LAST: &[u8] = b"start \"r\" \"Sequence\"\n\
start \"r\" \"Identifier\"\ntext string \"u\"\nclose\n\
start \"r\" \"MessageNumber\"\ntext number 2\nclose\nstart \"r\" \"LastMessage\"\nclose\nclose\n";

const FIRST_AS_LAST: &[u8] = b"start \"r\" \"Sequence\"\n\
start \"r\" \"Identifier\"\ntext string \"u\"\nclose\n\
start \"r\" \"MessageNumber\"\ntext number 1\nclose\nstart \"r\" \"LastMessage\"\nclose\nclose\n";

const NINTH: &[u8] = b"start \"r\" \"Sequence\"\n\
start \"r\" \"Identifier\"\ntext string \"u\"\nclose\n\
start \"r\" \"MessageNumber\"\ntext number 9\nclose\nclose\n";

const OF_ANOTHER: &[u8] = b"start \"r\" \"Sequence\"\n\
start \"r\" \"Identifier\"\ntext string \"v\"\nclose\n\
start \"r\" \"MessageNumber\"\ntext number 1\nclose\nclose\n";

const WITHOUT_NUMBER: &[u8] = b"start \"r\" \"Sequence\"\n\
start \"r\" \"Identifier\"\ntext string \"u\"\nclose\nclose\n";

const IN_NO_NAMESPACE: &[u8] = b"start \"\" \"x\"\nclose\n";

const FIRST_ACKNOWLEDGED: &[u8] = b"start \"r\" \"SequenceAcknowledgement\"\n\
start \"r\" \"Identifier\"\ntext string \"u\"\nclose\n\
start \"r\" \"AcknowledgementRange\"\nattr \"\" \"Lower\" number 1\nattr \"\" \"Upper\" number 1\n\
close\nclose\n";

const NINTH_ACKNOWLEDGED: &[u8] = b"start \"r\" \"SequenceAcknowledgement\"\n\
start \"r\" \"Identifier\"\ntext string \"u\"\nclose\n\
start \"r\" \"AcknowledgementRange\"\nattr \"\" \"Lower\" number 1\nattr \"\" \"Upper\" number 9\n\
close\nclose\n";

// The envelope with this block.
fn envelopes(alloc: Global, block: &[u8]) -> Result<Docs, Fail> {
    let mut lines = HEAD.to_vec(alloc)?;
    lines.extend_from_slice(block)?;
    lines.extend_from_slice(TAIL)?;
    match read_documents(alloc, lines.as_slice()) {
        Ok(docs) => Ok(docs),
        Err(_) => Err("no document".into()),
    }
}

fn taken(
    alloc: Global,
    receiving: &mut Receiving,
    block: &[u8],
) -> Result<Result<Taken, RmFault>, Fail> {
    let docs = envelopes(alloc, block)?;
    let doc = docs.get(0).ok_or("no document")?;
    Ok(receiving.take(alloc, doc))
}

// How many items the next body has.
fn delivered(receiving: &mut Receiving) -> Option<usize> {
    let body = receiving.deliver()?;
    Some(body.len())
}

pub fn what_comes_is_taken_or_refused(rt: &(impl Abort + AllocGlobal)) -> Result<(), Fail> {
    let rows: [(&[u8], Result<Taken, RmFault>); 10] = [
        (
            IN_NO_NAMESPACE,
            Err(RmFault::View(SoapFault::BadHeader { item: 4 })),
        ),
        (FIRST_ACKNOWLEDGED, Err(RmFault::NoBlock)),
        (WITHOUT_NUMBER, Err(RmFault::BadBlock { item: 8 })),
        (OF_ANOTHER, Err(RmFault::OtherSequence)),
        (NINTH, Ok(Taken::Ahead { number: 9 })),
        (FIRST, Ok(Taken::New)),
        (FIRST, Ok(Taken::Again)),
        (LAST, Ok(Taken::New)),
        (NINTH, Err(RmFault::AfterLast { number: 9 })),
        (FIRST_AS_LAST, Err(RmFault::AfterLast { number: 1 })),
    ];
    let mut receiving = Receiving::new(rt.alloc(), "u", 2)?;
    for (block, answer) in rows {
        assert_eq!(rt; taken(rt.alloc(), &mut receiving, block)?, answer);
    }
    assert_eq!(rt; delivered(&mut receiving), Some(3));
    assert_eq!(rt; delivered(&mut receiving), Some(3));
    assert_eq!(rt; delivered(&mut receiving), None);
    assert_eq!(rt; receiving.delivered(), 2);
    assert_eq!(rt; receiving.ack(rt.alloc())?.items().len(), 18);
    Ok(())
}

// A body without items.
fn submitted(alloc: Global, sending: &mut Sending, last: bool) -> Result<u64, SubmitFault> {
    if sending.submitted() > 9 {
        return Err(SubmitFault::Memory);
    }
    sending.submit(Items::new(alloc), last)
}

fn acknowledged(
    alloc: Global,
    sending: &mut Sending,
    block: &[u8],
) -> Result<Result<(), RmFault>, Fail> {
    let docs = envelopes(alloc, block)?;
    let doc = docs.get(0).ok_or("no document")?;
    Ok(sending.take_ack(alloc, doc))
}

pub fn bodies_are_submitted_or_refused(rt: &(impl Abort + AllocGlobal)) -> Result<(), Fail> {
    let mut sending = Sending::new(rt.alloc(), "u", 2)?;
    assert_eq!(rt; submitted(rt.alloc(), &mut sending, false), Ok(1));
    assert_eq!(rt; submitted(rt.alloc(), &mut sending, false), Ok(2));
    let full = Err(SubmitFault::WindowFull { unacked: 2 });
    assert_eq!(rt; submitted(rt.alloc(), &mut sending, false), full);
    let rows: [(&[u8], Result<(), RmFault>); 3] = [
        (FIRST, Err(RmFault::NoBlock)),
        (NINTH_ACKNOWLEDGED, Err(RmFault::InvalidAck { upper: 9 })),
        (FIRST_ACKNOWLEDGED, Ok(())),
    ];
    for (block, answer) in rows {
        assert_eq!(rt; acknowledged(rt.alloc(), &mut sending, block)?, answer);
    }
    assert!(rt; sending.acknowledged(1));
    assert_eq!(rt; sending.acknowledged_count(), 1);
    assert!(rt; sending.message(rt.alloc(), 1)?.is_none());
    assert!(rt; sending.message(rt.alloc(), 2)?.is_some());
    assert_eq!(rt; submitted(rt.alloc(), &mut sending, true), Ok(3));
    assert_eq!(rt;
        submitted(rt.alloc(), &mut sending, false),
        Err(SubmitFault::Closed)
    );
    Ok(())
}

// The world with one body more, without items.
fn with_body(alloc: Global, world: World) -> Result<World, Fail> {
    if world.counts().submitted > 9 {
        return Err("too many bodies".into());
    }
    let body = Items::new(alloc);
    let (world, _) = world.step(alloc, Event::Submit { body, last: false })?;
    Ok(world)
}

// The world behind an event, and whether that handed a body over.
fn stepped(alloc: Global, world: World, event: Event) -> Result<(World, bool), Fail>
    requires { MayHappen world event }
{
    let (world, body) = world.step(alloc, event)?;
    Ok((world, body.is_some()))
}

pub fn a_body_goes_through_a_world(rt: &(impl Abort + AllocGlobal)) -> Result<(), Fail> {
    let world = World::new(rt.alloc(), "u", 1)?;
    let world = with_body(rt.alloc(), world)?;
    let (world, _) = stepped(rt.alloc(), world, Event::Send(1))?;
    let (world, _) = stepped(rt.alloc(), world, Event::Data(0))?;
    let (world, is_handed_over) = stepped(rt.alloc(), world, Event::Deliver)?;
    assert!(rt; is_handed_over);
    let (world, _) = stepped(rt.alloc(), world, Event::SendAck)?;
    let (world, _) = stepped(rt.alloc(), world, Event::Ack(0))?;
    let all = Counts {
        submitted: 1,
        delivered: 1,
        acknowledged: 1,
    };
    assert_eq!(rt; world.counts(), all);
    Ok(())
}
