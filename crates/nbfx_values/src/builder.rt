// Documents that grow item by item.
ghost use Rattle.std.specs.Prelude.{◌≡◌, ◌+◌, ◌^◌, ◌<◌, ◌≤◌, ◌↔◌, [], ◌∷◌, ◌++◌, None, Some, IfSome, IfNone, IsErrOf, IsSome, IsTrue, OnErr, OnOk, OnSome};
ghost use Rattle.nbfx_values.specs.Documents.{IsDocument};
ghost use Rattle.nbfx_values.specs.Items.{is_valid_item};
ghost use Rattle.nbfx_values.specs.Measures.{capped, content_of, depth_of, opened_by};
ghost use Rattle.nbfx_values.specs.Positions as spec;
ghost use Rattle.nbfx_values.specs.Positions.{position_of};
ghost use Rattle.nbfx_values.specs.Scalars.{is_valid_value};

use crate::content::{Item, Items};
use crate::document::Doc;
use crate::lists::discard;
use crate::measures::Measures;
use crate::position::Position;
use crate::scalars::Value;
use std::alloc::Global;
use std::marker::Model;
use unit_streams::Memory;

/// Why an item wasn't put after those before it, which stay as they were.
#[derive(Clone, Copy, Debug, PartialEq, Eq)]
pub enum PushFault {
    /// The item may not stand there in a document.
    OutOfPlace,
    /// The content of the items would be above what the caller admits.
    TooMuchContent,
    /// Out of memory.
    Memory,
}

impl From<Memory> for PushFault {
    ghost use Rattle.std.specs.Prelude.{◌≡◌};
    ghost use Rattle.nbfx_values.specs.declared.builder.PushFault.TheVariants as faults;

    ghost from_gives = { λ _ fault. fault ≡ faults.Memory };

    fn from(_memory: Memory) -> PushFault {
        PushFault::Memory
    }
}

/// A document that grows item by item; no call goes over the items again. Contracts see the list of
/// its items, which is the front of a document.
#[derive(Debug, Drop)]
pub struct DocBuilder {
    items: Items,
    position: Position,
    measures: Measures,
}

impl Model for DocBuilder {
    ghost use Rattle.std.specs.Prelude.{List};
    ghost use Rattle.nbfx_values.specs.declared.content.Item.{Item};
    ghost use Rattle.nbfx_values.specs.Measured.{IsMeasuredFront};

    ghost Value = { List Item };

    ghost view = { λ b. b.items };

    ghost invariant = { λ b. IsMeasuredFront b.items b.position b.measures };
}

impl DocBuilder {
    /// A builder without items.
    pub fn new(alloc: Global) -> DocBuilder
        ensures { result ≡ [] }
    {
        DocBuilder {
            items: Items::new(alloc),
            position: Position::start(),
            measures: Measures::none(),
        }
    }

    /// The items so far.
    pub fn items(&self) -> &Items
        ensures { result.now ≡ self.now }
    {
        &self.items
    }

    /// Where in a document the items end.
    #[inline(always)]
    pub fn position(&self) -> Position
        ensures ends { position_of self.now ≡ Some result }
        ensures few { spec.open_count result < 2 ^ 63 }
    {
        // No slice holds as many items as would make the count of open ones overflow.
        let _items = self.items.as_slice();
        self.position
    }

    /// How many elements are open.
    pub fn open_count(&self) -> usize
        ensures opened { result ≡ opened_by 0 self.now }
        ensures few { result < 2 ^ 63 }
    {
        self.position().open_count()
    }

    /// The greatest number of elements that were open at one moment, an array's element included.
    pub fn depth(&self) -> u64
        ensures { result ≡ depth_of self.now }
    {
        self.measures.depth
    }

    /// The [content](Doc::content) of the items, up to 2^64 - 1.
    #[inline(always)]
    pub fn content(&self) -> u64
        ensures { result ≡ capped (content_of self.now) }
    {
        self.measures.content
    }

    /// Puts one more item after the others. It fails with `OutOfPlace` where the item may not stand
    /// there, or without memory; then the item is dropped, and the others stay.
    pub fn push(&mut self, item: Item) -> Result<(), PushFault>
        requires { IsTrue (is_valid_item item) }
        ensures pushed { OnOk result (self.new ≡ self.old ++ item ∷ []) }
        ensures out_of_place { IsErrOf result PushFault.OutOfPlace
            ↔ (position_of (self.old ++ item ∷ []) ≡ None) }
        ensures never { IsErrOf result PushFault.TooMuchContent → ⊥ }
        ensures unchanged { OnErr result (self.new ≡ self.old) }
    {
        self.push_within(u64::MAX, item)
    }

    /// Puts one more item after the others, if their content is then at most `most`. It fails as
    /// [`push`](Self::push) does, or with `TooMuchContent`; then the item is dropped, and the
    /// others stay.
    #[inline(always)]
    pub fn push_within(&mut self, most: u64, item: Item) -> Result<(), PushFault>
        requires { IsTrue (is_valid_item item) }
        ensures pushed { OnOk result ((self.new ≡ self.old ++ item ∷ [])
            × (capped (content_of self.new) ≤ most)) }
        ensures out_of_place { IsErrOf result PushFault.OutOfPlace
            ↔ (position_of (self.old ++ item ∷ []) ≡ None) }
        ensures too_much { IsErrOf result PushFault.TooMuchContent
            → most < capped (content_of (self.old ++ item ∷ [])) }
        ensures unchanged { OnErr result (self.new ≡ self.old) }
    {
        let before = self.position();
        let Some(position) = before.moved(&item) else {
            discard(item);
            return Err(PushFault::OutOfPlace);
        };
        let measures = self.measures.with(before.open_count(), &item);
        if measures.content > most {
            discard(item);
            return Err(PushFault::TooMuchContent);
        }
        self.items.push(item)?;
        self.position = position;
        self.measures = measures;
        Ok(())
    }

    /// Puts a text, and the end of the element that holds it, after the other items, if their
    /// content is then at most `most`. It fails as [`push_within`](Self::push_within) does; then
    /// the text is dropped, and the others stay.
    #[inline(always)]
    pub fn push_last_text(&mut self, most: u64, value: Value) -> Result<(), PushFault>
        requires { IsTrue (is_valid_value value) }
        ensures pushed { OnOk result ((self.new ≡ self.old ++ Item.Text value ∷ Item.Close ∷ [])
            × (capped (content_of self.new) ≤ most)) }
        ensures out_of_place { IsErrOf result PushFault.OutOfPlace
            ↔ (position_of (self.old ++ Item.Text value ∷ Item.Close ∷ []) ≡ None) }
        ensures too_much { IsErrOf result PushFault.TooMuchContent
            → most < capped (content_of (self.old ++ Item.Text value ∷ Item.Close ∷ [])) }
        ensures unchanged { OnErr result (self.new ≡ self.old) }
    {
        let before = self.position();
        let Some(behind) = before.moved(&Item::Close) else {
            discard(value);
            return Err(PushFault::OutOfPlace);
        };
        let open = before.open_count();
        let measures = self
            .measures
            .with_text(open, &value)
            .with(open, &Item::Close);
        if measures.content > most {
            discard(value);
            return Err(PushFault::TooMuchContent);
        }
        self.items.push_two(Item::Text(value), Item::Close)?;
        self.position = behind;
        self.measures = measures;
        Ok(())
    }

    /// The document, if the root has ended: the builder is empty then. Otherwise None, and the
    /// items stay.
    pub fn finish(&mut self) -> Option<Doc>
        ensures document { IsSome result ↔ IsDocument self.old }
        ensures same { IfSome result (λ doc. doc ≡ self.old) }
        ensures anew { OnSome result (self.new ≡ []) }
        ensures unchanged { IfNone result (self.new ≡ self.old) }
    {
        if !self.position.has_ended() {
            return None;
        }
        let doc = Doc::with_measures(self.items.take(), self.measures);
        self.position = Position::start();
        self.measures = Measures::none();
        Some(doc)
    }

    /// Allocates memory for so many items more. It fails without that memory; the items stay either
    /// way.
    pub fn reserve(&mut self, count: usize) -> Result<(), Memory>
        ensures { self.new ≡ self.old }
    {
        self.items.reserve(count)
    }

    /// Begins another document, in the memory of one that is no longer needed. The items that the
    /// builder had are dropped.
    pub fn begin_in(&mut self, doc: Doc)
        ensures { self.new ≡ [] }
    {
        let mut items = doc.into_items();
        items.clear();
        self.items = items;
        self.position = Position::start();
        self.measures = Measures::none();
    }
}
