// A request that is kept, and services that are asked through their trait.
use action_dispatch::{Answer, EchoService, Measured, Served, Service, answer};
use document_lines::read_documents;
use duplex_server::Responder;
use nbfx_values::{Docs, Items, Quotas};
use std::alloc::Global;
use std::process::Abort;
use std::test::Fail;
use unit_streams::Memory;

const REQUEST: &[u8] = b"start \"s\" \"Envelope\"\n\
ns \"s\" \"http://www.w3.org/2003/05/soap-envelope\"\n\
ns \"a\" \"http://www.w3.org/2005/08/addressing\"\n\
start \"s\" \"Header\"\n\
start \"a\" \"Action\"\ntext string \"urn:echo\"\nclose\n\
start \"a\" \"MessageID\"\ntext string \"1\"\nclose\n\
close\n\
start \"s\" \"Body\"\n\
start \"\" \"x\"\nattr \"\" \"k\" list 2 number 1 bytes \"00ff\"\ncomment \"c\"\n\
array int32 \"\" \"a\"\nns \"p\" \"urn:p\"\nattr \"\" \"k\" string \"v\"\nvalues number 1 number 2\n\
close\nclose\nclose\n";

// The request alone, whose Body has five items.
pub(crate) fn requests(alloc: Global) -> Result<Docs, Fail> {
    match read_documents(alloc, REQUEST) {
        Ok(docs) => Ok(docs),
        Err(_) => Err("no document".into()),
    }
}

fn answered(alloc: Global, docs: &Docs) -> Result<Measured, Fail> {
    let doc = docs.get(0).ok_or("no document")?;
    Ok(answer(alloc, &Quotas::usual(), &EchoService, doc)?)
}

// Behind the header's 13 items there are those of Body, and two that close.
pub fn a_request_that_is_kept_is_answered(rt: &(impl Abort + AllocGlobal)) -> Result<(), Fail> {
    let docs = requests(rt.alloc())?;
    match answered(rt.alloc(), &docs)? {
        Measured::Made(Answer::Reply { doc, .. }) => assert_eq!(rt; doc.items().len(), 20),
        _ => return Err("no answer".into()),
    }
    Ok(())
}

fn replies<V: Service>(alloc: Global, service: &V) -> Result<bool, Memory> {
    let body = Items::new(alloc);
    Ok(matches!(service.serve(alloc, "urn:echo", &body)?, Served::Reply(_)))
}

pub fn services_that_echo_reply(rt: &(impl Abort + AllocGlobal)) -> Result<(), Fail> {
    assert!(rt; replies(rt.alloc(), &EchoService)?);
    assert!(rt; replies(rt.alloc(), &Responder::Echo)?);
    Ok(())
}
