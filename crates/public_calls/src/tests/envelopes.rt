// A reply that is made, and the Body of an envelope.
use super::answers::requests;
use nbfx_values::{Doc, Items, Quotas};
use soap_envelope::{Addressing, Envelope, reply_doc};
use std::alloc::Global;
use std::process::Abort;
use std::test::Fail;

// Without texts and content, from the root's start to its end.
pub fn a_reply_is_made(rt: &(impl Abort + AllocGlobal)) -> Result<(), Fail> {
    let nothing = Items::new(rt.alloc());
    let doc = reply_doc(rt.alloc(), Addressing::V10, "urn:echo", &nothing, &nothing)?;
    assert_eq!(rt; doc.items().len(), 12);
    Ok(())
}

fn body_len(alloc: Global, doc: &Doc) -> Result<usize, Fail> {
    let seen = Envelope::of(alloc, doc)?;
    match seen.body(alloc, &Quotas::usual())? {
        Some(body) => Ok(body.len()),
        None => Err("too much content".into()),
    }
}

pub fn a_body_is_copied(rt: &(impl Abort + AllocGlobal)) -> Result<(), Fail> {
    let docs = requests(rt.alloc())?;
    let doc = docs.get(0).ok_or("no document")?;
    assert_eq!(rt; body_len(rt.alloc(), doc)?, 5);
    Ok(())
}
