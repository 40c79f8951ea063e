//! Envelopes with blocks of any standard.

ghost use Rattle.std.specs.Prelude.{◌≡◌, ◌++◌, IfOk, OnOk};
ghost use Rattle.soap_envelope.specs.Making.{IsContent};
ghost use Rattle.soap_envelope.specs.Plain.{plain_items};

use crate::making::{document, put_ending, put_middle, put_opening};
use crate::moving::put_moved;
use crate::versions::Addressing;
use nbfx_values::{Doc, Items};
use std::alloc::Global;
use unit_streams::Memory;

// An envelope with these blocks and this content of Body.
fn put_plain(
    alloc: Global,
    items: &mut Items,
    version: Addressing,
    blocks: Items,
    body: Items,
) -> Result<(), Memory>
    ensures { OnOk result (items.new ≡ items.old ++ plain_items version blocks body) }
{
    put_opening(alloc, items, version)?;
    put_moved(items, blocks)?;
    put_middle(alloc, items)?;
    put_moved(items, body)?;
    put_ending(items)?;
    Ok(())
}

/// An envelope of SOAP 1.2 whose Header has these blocks, and whose Body has this content. Neither
/// is copied. Both may use the prefixes `s` and `a`, which stand for the namespaces of envelopes
/// and of this version of addressing. It fails without memory, and both are gone then.
pub fn envelope_doc(
    alloc: Global,
    version: Addressing,
    blocks: Items,
    body: Items,
) -> Result<Doc, Memory>
    requires blocks { IsContent blocks }
    requires content { IsContent body }
    ensures { IfOk result (λ doc. doc ≡ plain_items version blocks body) }
{
    let mut items = Items::new(alloc);
    put_plain(alloc, &mut items, version, blocks, body)?;
    Ok(document(items))
}
