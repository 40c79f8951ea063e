// The table of one direction's strings.
ghost use Rattle.std.specs.Prelude.{◌≡◌, ◌≢◌, ℕ, ◌+◌, ◌*◌, ◌^◌, ◌<◌, ◌≤◌, ◌↔◌, [], ◌∷◌, ◌++◌, length, take, drop, option_map, Some, IfOk, IfNone, IfSome, IsErrOf, IsTrue, OnOk, OnErr};
ghost use Rattle.std.specs.List.{flat_map};
ghost use Rattle.multibyte_ints.specs.Text.{string_bytes_of};
ghost use Rattle.string_tables.specs.SessionStrings.{cost, least_session_id, session_text, used_cost};
ghost use Rattle.string_tables.specs.StringTable.{IsLeastName};
ghost use Rattle.session_dictionary.specs.Marks.{IsMarkOf};
ghost use Rattle.session_dictionary.specs.Order.{IsFirst, IsOrderOf, KeepsOrder, text_of};

use crate::order::{TextOrder, add_last, cut_off, first_of, first_walked};
use crate::texts::Texts;
use multibyte_ints::put_string;
use std::alloc::{AllocError, Global};
use std::marker::Model;
use unit_streams::Memory;

/// Why a string wasn't added. The table is as before.
#[derive(Clone, Copy, Debug, PartialEq, Eq)]
pub enum AddFault {
    /// The string would take the table's cost above its limit.
    Full,
    /// Out of memory.
    Memory,
}

/// A state of a table to go back to.
#[derive(Clone, Copy, Debug, PartialEq, Eq)]
pub struct Mark {
    /// How many strings there were.
    pub count: u32,
    /// What they cost together, in bytes.
    pub used: u32,
}

/// The session strings of one direction (MC-NBFSE). String i has the identifier 2i + 1.
#[derive(Drop)]
pub struct SessionTable {
    texts: Texts,
    /// None of a table for reading.
    order: Option<TextOrder>,
    used: u32,
    limit: u32,
}

impl Model for SessionTable {
    ghost use Rattle.session_dictionary.specs.Strings.{LimitedStrings};

    ghost Value = { LimitedStrings };

    ghost use Rattle.session_dictionary.specs.Inside.{strings_in, IsTable};

    ghost view = { strings_in };

    ghost invariant = { IsTable };
}

impl SessionTable {
    /// A writer's table without strings, whose cost stays within `limit` bytes. It keeps its texts
    /// in order, by which [`id`](Self::id) finds one.
    pub fn new(alloc: Global, limit: u32) -> Self
        requires { limit ≤ 2 ^ 30 }
        ensures { result ≡ record { strings = []; limit = limit } }
    {
        Self::empty(alloc, limit, Some(TextOrder::new(alloc)))
    }

    /// The same for a reader, which looks texts up by their identifiers alone: no order is kept, so
    /// [`add`](Self::add) takes less time, and [`id`](Self::id) goes through all texts.
    pub fn for_reading(alloc: Global, limit: u32) -> Self
        requires { limit ≤ 2 ^ 30 }
        ensures { result ≡ record { strings = []; limit = limit } }
    {
        Self::empty(alloc, limit, None)
    }

    fn empty(alloc: Global, limit: u32, order: Option<TextOrder>) -> Self
        requires small { limit ≤ 2 ^ 30 }
        requires order { KeepsOrder [] order }
        ensures { result ≡ record { strings = []; limit = limit } }
    {
        SessionTable {
            texts: Texts::new(alloc),
            order,
            used: 0,
            limit,
        }
    }

    /// The string that a session identifier names; None where the table has none for it.
    pub fn text(&self, id: u32) -> Option<&str>
        ensures { option_map (λ s. s.now) result ≡ session_text self.now.strings id }
    {
        if id % 2 == 0 {
            return None;
        }
        self.texts.get(id as usize / 2)
    }

    /// The least session identifier of a text; None where no string is that text.
    pub fn id(&self, text: &str) -> Option<u32>
        ensures least { result ≡ least_session_id self.now.strings text.now }
        ensures found { IfSome result (IsLeastName (session_text self.now.strings) text.now) }
        ensures none { IfNone result ((id : ℕ) → session_text self.now.strings id ≢ Some text.now) }
        ensures small { IfSome result (λ id. id < 2 ^ 31) }
    {
        let position = first_position(&self.texts, &self.order, text)?;
        Some(2 * position + 1)
    }

    /// What the strings cost together: the bytes of each, and 1 for an empty one.
    pub fn used(&self) -> u32
        ensures cost { result ≡ used_cost self.now.strings }
        ensures within { result ≤ self.now.limit }
        ensures limited { self.now.limit ≤ 2 ^ 30 }
    {
        self.used
    }

    /// How many strings there are.
    pub fn len(&self) -> u32
        ensures count { result ≡ length self.now.strings }
        ensures within { result ≤ used_cost self.now.strings }
    {
        self.texts.len() as u32
    }

    /// Whether there are no strings.
    pub fn is_empty(&self) -> bool
        ensures { IsTrue result ↔ (self.now.strings ≡ []) }
    {
        self.texts.is_empty()
    }

    /// Appends a string and answers its identifier. It fails with `Full` where the string would
    /// take the cost above the limit, or without memory; then the table is as before.
    pub fn add(&mut self, text: &str) -> Result<u32, AddFault>
        ensures id { IfOk result (λ id. id ≡ 2 * length self.old.strings + 1) }
        ensures small { IfOk result (λ id. id < 2 ^ 31) }
        ensures added { OnOk result
            (self.new ≡ record self.old { strings = self.old.strings ++ text.now ∷ [] }) }
        ensures within { OnOk result (used_cost self.new.strings ≤ self.new.limit) }
        ensures full { IsErrOf result AddFault.Full
            ↔ (self.old.limit < used_cost self.old.strings + cost text.now) }
        ensures err { OnErr result (self.new ≡ self.old) }
    {
        let cost = text.len().max(1);
        if cost > (self.limit - self.used) as usize {
            return Err(AddFault::Full);
        }
        let id = 2 * self.texts.len() as u32 + 1;
        match push_text(&mut self.texts, &mut self.order, text) {
            Ok(()) => {
                self.used += cost as u32;
                Ok(id)
            }
            Err(_) => Err(AddFault::Memory),
        }
    }

    /// The present state of the table, for [`back_to`](Self::back_to).
    pub fn mark(&self) -> Mark
        ensures { result
            ≡ record { count = length self.now.strings; used = used_cost self.now.strings } }
    {
        Mark {
            count: self.len(),
            used: self.used,
        }
    }

    /// Cuts off the strings that were added after this mark of the table was made.
    pub fn back_to(&mut self, mark: Mark)
        requires { IsMarkOf mark self.old.strings }
        ensures { self.new ≡ record self.old { strings = take mark.count self.old.strings } }
    {
        truncate(&mut self.texts, &mut self.order, mark.count);
        self.used = mark.used;
    }

    /// Appends the strings that were added after a mark of this table to `out`, each as a String of
    /// MC-NBFX, as the string table of an MC-NBFSE document has them. Without memory it fails, and
    /// `out` is as before.
    pub fn put_strings(&self, mark: Mark, out: &mut Vec<u8>) -> Result<(), Memory>
        requires { IsMarkOf mark self.now.strings }
        ensures written { OnOk result (out.new.items
            ≡ out.old.items ++ flat_map string_bytes_of (drop mark.count self.now.strings)) }
        ensures unchanged { OnErr result (out.new.items ≡ out.old.items) }
    {
        put_texts(&self.texts, mark.count as usize, out)
    }
}

// Appends the texts from a place on as Strings.
fn put_texts(texts: &Texts, from: usize, out: &mut Vec<u8>) -> Result<(), Memory>
    requires few { used_cost texts.now ≤ 2 ^ 30 }
    requires there { from ≤ length texts.now }
    ensures written { OnOk result (out.new.items
        ≡ out.old.items ++ flat_map string_bytes_of (drop from texts.now)) }
    ensures unchanged { OnErr result (out.new.items ≡ out.old.items) }
{
    let start = out.len();
    for place in from..texts.len() {
        if put_string(texts.nth(place), out).is_err() {
            out.truncate(start);
            return Err(Memory);
        }
    }
    Ok(())
}

// The first position that has a text, by the order of the texts where there is one.
fn first_position(texts: &Texts, order: &Option<TextOrder>, text: &str) -> Option<u32>
    requires few { length texts.now ≤ 2 ^ 30 }
    requires order { KeepsOrder texts.now order.now }
    ensures found { IfSome result (IsFirst texts.now text.now) }
    ensures none { IfNone result
        ((other : ℕ) → other < length texts.now → text_of texts.now other ≢ text.now) }
{
    match order {
        Some(order) => first_of(texts, &order.positions, &order.cuts, text),
        None => first_walked(texts, text),
    }
}

// Copies a text to the end of the texts.
fn push_text(texts: &mut Texts, order: &mut Option<TextOrder>, text: &str) -> Result<(), AllocError>
    requires few { length texts.old ≤ 2 ^ 30 }
    requires order { KeepsOrder texts.old order.old }
    ensures ok { OnOk result (texts.new ≡ texts.old ++ text.now ∷ []) }
    ensures err { OnErr result (texts.new ≡ texts.old) }
    ensures order { KeepsOrder texts.new order.new }
{
    match order {
        Some(order) => push_in_order(texts, order, text),
        None => texts.push(text),
    }
}

// The same, and puts its position into the order. All growths come before any change.
fn push_in_order(texts: &mut Texts, order: &mut TextOrder, text: &str) -> Result<(), AllocError>
    requires few { length texts.old ≤ 2 ^ 30 }
    requires order { IsOrderOf texts.old order.old }
    ensures ok { OnOk result (texts.new ≡ texts.old ++ text.now ∷ []) }
    ensures err { OnErr result (texts.new ≡ texts.old) }
    ensures order { IsOrderOf texts.new order.new }
{
    order.positions.reserve(1)?;
    order.cuts.reserve(1)?;
    texts.push(text)?;
    add_last(order.alloc, texts, &mut order.positions, &mut order.cuts);
    Ok(())
}

// Leaves the first so many texts.
fn truncate(texts: &mut Texts, order: &mut Option<TextOrder>, count: u32)
    requires there { count ≤ length texts.old }
    requires order { KeepsOrder texts.old order.old }
    ensures texts { texts.new ≡ take count texts.old }
    ensures order { KeepsOrder texts.new order.new }
{
    match order {
        Some(order) => {
            cut_off(texts, &mut order.positions, &mut order.cuts, count);
            texts.truncate(count as usize);
        }
        None => texts.truncate(count as usize),
    }
}
