//! The element of a header block, for whoever reads a block of their own standard.

ghost use Rattle.std.specs.Prelude.{◌≡◌, IfOk, OnOk};
ghost use Rattle.soap_envelope.specs.Characters as characters;
ghost use Rattle.soap_envelope.specs.Elements as spec;
ghost use Rattle.soap_envelope.specs.Elements.{around_blocks, block_element};
ghost use Rattle.soap_envelope.specs.Parts as parts;
ghost use Rattle.soap_envelope.specs.Parts.{root_scope};

use crate::children::behind;
use crate::parts::{is_element, kept_children, parts_of};
use crate::scopes::Scopes;
use crate::texts::{has_plain_content, text_of};
use nbfx_values::{Doc, Item, Txt};
use std::alloc::Global;
use std::marker::Model;
use unit_streams::Memory;

/// The element of a header block. Contracts see the document's items, the place of the block's
/// Start, and the declarations within the block.
#[derive(Drop)]
pub struct BlockElement<'d> {
    items: &'d [Item],
    at: usize,
    scopes: Scopes<'d>,
}

impl<'d> Model for BlockElement<'d> {
    ghost use Rattle.std.specs.Prelude.{IsTrue};
    ghost use Rattle.std.specs.List.{list_all};
    ghost use Rattle.nbfx_values.specs.Items.{is_valid_item};
    ghost use Rattle.soap_envelope.specs.Elements.{Element};

    ghost Value = { Element };

    ghost view = { λ e. record { items = e.items.now; at = e.at; scope = e.scopes } };

    ghost invariant = { λ e. IsTrue (list_all is_valid_item e.items.now) };
}

// The declarations around the blocks of an envelope.
fn scopes_around<'d>(alloc: Global, doc: &'d Doc) -> Result<Scopes<'d>, Memory>
    ensures { IfOk result (λ scopes. scopes ≡ around_blocks doc.now) }
{
    let items = doc.items().as_slice();
    let mut scopes = Scopes::new(alloc);
    scopes.enter(behind(items, 0))?;
    if let Ok(parts) = parts_of(alloc, items, &scopes)? {
        if let Some(header) = parts.header {
            scopes.enter(behind(items, header))?;
        }
    }
    Ok(scopes)
}

impl<'d> BlockElement<'d> {
    /// The block that begins at a place of an envelope, as its `Block` has it. It fails without memory
    /// for the declarations around it.
    pub fn of(alloc: Global, doc: &'d Doc, at: usize) -> Result<BlockElement<'d>, Memory>
        ensures { IfOk result (λ element. element ≡ block_element doc.now at) }
    {
        let items = doc.items().as_slice();
        let mut scopes = scopes_around(alloc, doc)?;
        scopes.enter(behind(items, at))?;
        Ok(BlockElement { items, at, scopes })
    }

    /// The places of the block's children in order, without comments and blank texts. It fails without
    /// memory for them.
    pub fn children(&self, alloc: Global) -> Result<Vec<usize>, Memory>
        ensures { IfOk result
            (λ children. children.items ≡ parts.kept_children self.now.items self.now.at) }
    {
        kept_children(alloc, self.items, self.at)
    }

    /// Whether an element of this name is the child that begins at a place. It fails without memory for
    /// the child's declarations.
    pub fn is_named(
        &self,
        alloc: Global,
        uri: &str,
        local: &str,
        child: usize,
    ) -> Result<bool, Memory>
        ensures { IfOk result (λ found. found
            ≡ parts.is_element self.now.items self.now.scope uri.now local.now child) }
    {
        is_element(alloc, self.items, &self.scopes, uri, local, child)
    }

    /// Whether the child that begins at a place has only comments and texts with characters.
    pub fn has_plain_content(&self, child: usize) -> bool
        ensures { result ≡ characters.has_plain_content self.now.items child }
    {
        has_plain_content(self.items, child)
    }

    /// The characters of the child that begins at a place: those of its texts, joined. It fails without
    /// memory for them.
    pub fn text(&self, alloc: Global, child: usize) -> Result<Txt, Memory>
        ensures { IfOk result (λ text. text ≡ characters.text_of self.now.items child) }
    {
        text_of(alloc, self.items, child)
    }

    /// Whether the child that begins at a place has no children but comments and blank texts. It fails
    /// without memory for their places.
    pub fn is_empty(&self, alloc: Global, child: usize) -> Result<bool, Memory>
        ensures { IfOk result (λ empty. empty ≡ spec.is_empty self.now.items child) }
    {
        let children = kept_children(alloc, self.items, child)?;
        Ok(children.is_empty())
    }
}
