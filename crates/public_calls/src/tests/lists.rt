// A long line.
use document_lines::take_documents;
use io_edges::MemorySource;
use nbfx_values::{Docs, Quotas};
use std::alloc::{AllocError, Global};
use std::process::Abort;
use std::test::Fail;

// A document with a text of a million letters.
fn long_document(alloc: Global) -> Result<Vec<u8>, AllocError> {
    let mut lines = b"start \"\" \"x\"\ntext string \"".to_vec(alloc)?;
    for _ in 0..1_000_000 {
        lines.push(b'y')?;
    }
    lines.extend_from_slice(b"\"\nclose\n")?;
    Ok(lines)
}

// If each piece began the line anew, this would take hours.
pub fn a_line_of_a_megabyte_is_read_in_pieces(rt: &(impl Abort + AllocGlobal)) -> Result<(), Fail> {
    let lines = long_document(rt.alloc())?;
    let mut source = MemorySource::new(lines, 7, Vec::new(rt.alloc()));
    let docs = Docs::new(rt.alloc());
    let Ok(docs) = take_documents(rt.alloc(), &Quotas::usual(), docs, &mut source) else {
        return Err("no document".into());
    };
    assert_eq!(rt; docs.get(0).map(|doc| doc.content()), Some(1_000_001));
    Ok(())
}
