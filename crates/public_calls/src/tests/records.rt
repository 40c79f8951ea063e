// Records as they are written, and as they are read.
use nbfx_records::laws::record_fronts;
use nbfx_records::{NameRef, Node, NodePlace, NodeReader, NodeStep, put_node};
use nbfx_values::{Copied, Txt};
use std::alloc::Global;
use std::process::Abort;
use std::test::Fail;
use unit_streams::Memory;

// Appends the start of an element whose name is an identifier.
fn put_start(alloc: Global, out: &mut Vec<u8>) -> Result<(), Memory> {
    let prefix = Txt::of(alloc, "a")?;
    let name = NameRef::Id(2);
    put_node(&Node::Element { prefix, name }, out)
}

pub fn nodes_are_written(rt: &(impl Abort + AllocGlobal)) -> Result<(), Fail> {
    let mut out = Vec::new(rt.alloc());
    put_start(rt.alloc(), &mut out)?;
    put_node(&Node::EndElement, &mut out)?;
    assert_eq!(rt; out.as_slice(), b"\x44\x02\x01".as_slice());
    Ok(())
}

const WITHIN: NodePlace = NodePlace::Within {
    attributes: true,
    deeper: true,
};

// The node of a record.
fn read(alloc: Global, bytes: &[u8]) -> Option<Node> {
    let mut reader = NodeReader::new(alloc);
    record_fronts();
    match reader.feed(bytes, WITHIN) {
        Ok((_, NodeStep::Done(node))) => Some(node),
        _ => None,
    }
}

// An array of two numbers, with a declaration and an attribute: a list of a number and a string.
pub fn an_array_is_read_and_copied(rt: &(impl Abort + AllocGlobal)) -> Result<(), Fail> {
    let bytes = b"\x03\x42\x02\x0B\x01p\x04\x04\x01k\xA4\x82\
\xAA\x03\xA6\x01\x8B\x02\xFE\xFF\x00\x01";
    let Some(Node::Array(array)) = read(rt.alloc(), bytes) else {
        return Err("no array".into());
    };
    let copied = array.copy()?;
    assert_eq!(rt; (copied.attrs.len(), copied.values.len()), (2, 2));
    Ok(())
}
