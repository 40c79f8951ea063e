// Documents.
ghost use Rattle.std.specs.Prelude.{◌≡◌, ◌↔◌, IfErr, IfOk, IsOk, OnOk, Some};
ghost use Rattle.nbfx_values.specs.Documents.{IsDocument, IsRefusedAt};
ghost use Rattle.nbfx_values.specs.Measured.{AreMeasuresOf, IsMeasuredDocument};
ghost use Rattle.nbfx_values.specs.Measures.{capped, content_of, depth_of};
ghost use Rattle.nbfx_values.specs.Positions.{StopsAt, position_of};

use crate::content::{Item, Items};
use crate::copies::Copied;
use crate::lists::Sequence;
use crate::measures::Measures;
use crate::position::Position;
use std::marker::Model;
use unit_streams::Memory;

// The measures of a document's items, or where the items are refused.
fn measures_of(items: &[Item]) -> Result<Measures, usize>
    ensures document { OnOk result (position_of items.now ≡ Some Position.After) }
    ensures measures { IfOk result (AreMeasuresOf items.now) }
    ensures refused { IfErr result (StopsAt items.now) }
{
    let mut position = Position::start();
    let mut measures = Measures::none();
    for (at, item) in items.iter().enumerate() {
        let Some(next) = position.after(item) else {
            return Err(at);
        };
        measures = measures.with(position.open_count(), item);
        position = next;
    }
    if position.has_ended() {
        Ok(measures)
    } else {
        Err(items.len())
    }
}

/// A document: the items of one element, in the order in which a payload gives them. Contracts see
/// the list of its items.
#[derive(Debug, Drop)]
pub struct Doc {
    items: Items,
    measures: Measures,
}

impl Model for Doc {
    ghost use Rattle.std.specs.Prelude.{List};
    ghost use Rattle.nbfx_values.specs.declared.content.Item.{Item};
    ghost use Rattle.nbfx_values.specs.Measured.{IsMeasuredDocument};

    ghost Value = { List Item };

    ghost view = { λ d. d.items };

    ghost invariant = { λ d. IsMeasuredDocument d.items d.measures };
}

/// A list of items that isn't a document, and where it stops being one.
#[derive(Debug, Drop)]
pub struct NotADoc {
    /// The place of the first item that may not stand there, counted from 0; or the length of a
    /// list that is only too short.
    pub at: usize,
    /// The items, given back.
    pub items: Items,
}

impl Doc {
    // The document with these items, which have these measures.
    pub(crate) fn with_measures(items: Items, measures: Measures) -> Doc
        requires { IsMeasuredDocument items measures }
        ensures { result ≡ items }
    {
        Doc { items, measures }
    }

    /// The document with these items. It fails where they aren't one document, and gives them back.
    pub fn of(items: Items) -> Result<Doc, NotADoc>
        ensures ok { IsOk result ↔ IsDocument items }
        ensures same { IfOk result (λ doc. doc ≡ items) }
        ensures at { IfErr result (λ refusal. IsRefusedAt items refusal.at) }
        ensures handed_back { IfErr result (λ refusal. refusal.items ≡ items) }
    {
        match measures_of(items.as_slice()) {
            Ok(measures) => Ok(Doc { items, measures }),
            Err(at) => Err(NotADoc { at, items }),
        }
    }

    /// The items of the document.
    pub fn items(&self) -> &Items
        ensures same { result.now ≡ self.now }
        ensures document { IsDocument self.now }
    {
        &self.items
    }

    /// The items, without the document.
    pub fn into_items(self) -> Items
        ensures same { result ≡ self }
        ensures document { IsDocument self }
    {
        let Doc { items, .. } = self;
        items
    }

    /// The greatest number of elements that are open at one moment, an array's element included.
    pub fn depth(&self) -> u64
        ensures { result ≡ depth_of self.now }
    {
        self.measures.depth
    }

    /// The document's content, up to 2^64 - 1: the bytes of its prefixes, names, URIs, comments,
    /// texts and byte lists, 16 for each Decimal, UniqueId and Uuid, and 8 for each other value.
    pub fn content(&self) -> u64
        ensures { result ≡ capped (content_of self.now) }
    {
        self.measures.content
    }
}

impl Copied for Doc {
    fn copy(&self) -> Result<Doc, Memory> {
        Ok(Doc {
            items: self.items.copy()?,
            measures: self.measures,
        })
    }
}

/// Documents in the order of their messages.
pub type Docs = Sequence<Doc>;
