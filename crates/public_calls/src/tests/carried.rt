// A document from one end of a session to the other.
use super::answers::requests;
use nbfx_values::{Doc, Kind, Quotas};
use session_ends::{carry, new_ends, tables};
use static_dictionary::StaticTable;
use std::alloc::Global;
use std::process::Abort;
use std::test::Fail;

// The document as it is read, and how many strings both ends have then.
fn carried(alloc: Global, statics: &StaticTable, doc: &Doc) -> Result<(Doc, [u32; 2]), Fail> {
    let usual = Quotas::usual();
    let (mut encoder, mut decoder) = new_ends(alloc, statics, usual, usual, Kind::Session);
    let mut room = Vec::new(alloc);
    let Ok(read) = carry(&mut encoder, &mut decoder, doc, &mut room) else {
        return Err("not carried".into());
    };
    let (sent, known) = tables(&encoder, &decoder);
    Ok((read, [sent.len(), known.len()]))
}

// Two of its names and namespaces are static, and nine are not.
pub fn a_document_is_carried(rt: &(impl Abort + AllocGlobal)) -> Result<(), Fail> {
    let statics = StaticTable::read(rt.alloc(), b"id,string\n2,Envelope\n8,Header\n")?;
    let docs = requests(rt.alloc())?;
    let doc = docs.get(0).ok_or("no document")?;
    let (read, strings) = carried(rt.alloc(), &statics, doc)?;
    assert_eq!(rt; read.items().len(), doc.items().len());
    assert_eq!(rt; strings, [9, 9]);
    Ok(())
}
