// Where what a line says leads.
ghost use Rattle.std.specs.Prelude.{◌≡◌, [], None, Some, Ok, Err, IfErr, IfOk, IsTrue};
ghost use Rattle.nbfx_values.specs.Items.{is_valid_attribute, is_valid_item};
ghost use Rattle.nbfx_values.specs.Positions.{position_of};
ghost use Rattle.line_notation.specs.Placing.{IsHeld, IsOpen, Places, PlacesRead, is_held};
ghost use Rattle.line_notation.specs.LineReaderState as spec;
ghost use Rattle.line_notation.specs.LineReaderState.{is_passed_over, kind_of, on, outcome, placed, placed_array, placed_item, with_attribute};

use crate::line::{Keyword, Line};
use crate::lines::read_behind;
use crate::reader::LineKind;
use crate::words::{Stop, Words};
use nbfx_values::{ArrayItem, ArrayKind, AttrItem, DocBuilder, Item, Memory, Position, PushFault};
use std::alloc::Global;

/// Why a line is refused where it comes.
#[derive(Clone, Copy, Debug)]
pub enum Refusal {
    /// This is wrong with it.
    Kind(LineKind),
    /// Out of memory.
    Memory,
}

impl From<LineKind> for Refusal {
    ghost use Rattle.std.specs.Prelude.{◌≡◌};
    ghost use Rattle.line_notation.specs.declared.placing.Refusal.TheVariants as refusals;

    ghost from_gives = { λ kind refusal. refusal ≡ refusals.Kind kind };

    fn from(kind: LineKind) -> Refusal {
        Refusal::Kind(kind)
    }
}

impl From<Stop> for Refusal {
    ghost use Rattle.std.specs.Prelude.{◌≡◌};
    ghost use Rattle.line_notation.specs.Placing.{stopped};

    ghost from_gives = { λ stop refusal. refusal ≡ stopped stop };

    fn from(stop: Stop) -> Refusal {
        match stop {
            Stop::NotALine => Refusal::Kind(LineKind::NotALine),
            Stop::Memory => Refusal::Memory,
        }
    }
}

impl From<Memory> for Refusal {
    ghost use Rattle.std.specs.Prelude.{◌≡◌};
    ghost use Rattle.line_notation.specs.declared.placing.Refusal.TheVariants as refusals;

    ghost from_gives = { λ _ refusal. refusal ≡ refusals.Memory };

    fn from(_memory: Memory) -> Refusal {
        Refusal::Memory
    }
}

/// What an accepted line leads to.
#[derive(Clone, Copy, Debug)]
pub enum Leads {
    /// A place within a document, or between documents.
    On,
    /// The end of the document that the builder holds.
    ToTheEnd,
}

// What an item does that is appended to the others.
#[inline(always)]
fn place_item(builder: &mut DocBuilder, item: Item) -> Result<Leads, Refusal>
    requires { IsTrue (is_valid_item item) }
    ensures { Places result (placed_item builder.old item) builder.new None }
{
    match builder.push_within(u64::MAX, item) {
        Ok(()) => {}
        Err(PushFault::OutOfPlace) => return Err(Refusal::Kind(LineKind::OutOfPlace)),
        Err(PushFault::TooMuchContent) => unreachable!(),
        Err(PushFault::Memory) => return Err(Refusal::Memory),
    }
    match builder.position() {
        Position::After => Ok(Leads::ToTheEnd),
        Position::Before | Position::Within { .. } => Ok(Leads::On),
    }
}

// An array, where it may begin: within the root.
fn opened(builder: &DocBuilder, begun: ArrayItem) -> Result<ArrayItem, Refusal>
    ensures ok { IfOk result (λ a.
        placed_array (position_of builder.now) builder.now begun ≡ Ok (on builder.now (Some a))) }
    ensures err { IfErr result (λ refusal. refusal ≡ Refusal.Kind LineKind.OutOfPlace
        × (placed_array (position_of builder.now) builder.now begun ≡ Err LineKind.OutOfPlace)) }
    ensures same { IfOk result (λ a. a ≡ begun) }
{
    match builder.position() {
        Position::Within { .. } => Ok(begun),
        Position::Before | Position::After => Err(Refusal::Kind(LineKind::OutOfPlace)),
    }
}

// The array with one attribute more.
fn with_attribute(array: ArrayItem, one: AttrItem) -> Result<ArrayItem, Memory>
    requires held { IsTrue (is_held array) }
    requires valid { IsTrue (is_valid_attribute one) }
    ensures more { IfOk result (λ more. more ≡ with_attribute array one) }
    ensures held { IfOk result (λ more. IsTrue (is_held more)) }
{
    let mut array = array;
    array.attrs.push(one)?;
    Ok(array)
}

// What a line does that says this, whether an array is open or none is.
#[inline(never)]
fn place_by_array(
    builder: &mut DocBuilder,
    array: &mut Option<ArrayItem>,
    line: Line,
) -> Result<Leads, Refusal>
    requires open { IsOpen array.old }
    requires held { IsHeld (kind_of array.old) line }
    ensures places { Places result (placed builder.old array.old line) builder.new array.new }
    ensures open { IsOpen array.new }
{
    match (array.take(), line) {
        (None, Line::Item(item)) => place_item(builder, item),
        (None, Line::Array(begun)) => {
            *array = Some(opened(builder, begun)?);
            Ok(Leads::On)
        }
        (Some(open), Line::Item(item)) => {
            let one = item.into_attribute().ok_or(LineKind::OutOfPlace)?;
            *array = Some(with_attribute(open, one)?);
            Ok(Leads::On)
        }
        (Some(open), Line::Values(values)) => {
            place_item(builder, Item::Array(ArrayItem { values, ..open }))
        }
        (None, Line::Values(_)) | (Some(_), Line::Array(_)) => {
            Err(Refusal::Kind(LineKind::OutOfPlace))
        }
    }
}

// What a line does that says this, where an array is open or none is. Most lines are of an item in
// no array, for which nothing is moved but the item.
#[inline(always)]
fn place(
    builder: &mut DocBuilder,
    array: &mut Option<ArrayItem>,
    line: Line,
) -> Result<Leads, Refusal>
    requires open { IsOpen array.old }
    requires held { IsHeld (kind_of array.old) line }
    ensures places { Places result (placed builder.old array.old line) builder.new array.new }
    ensures open { IsOpen array.new }
{
    match line {
        Line::Item(item) if array.is_none() => place_item(builder, item),
        other => place_by_array(builder, array, other),
    }
}

// Whether a line stands between documents and is empty.
fn is_passed_over(builder: &DocBuilder, array: &Option<ArrayItem>, line: &[u8]) -> bool
    ensures { result ≡ is_passed_over builder.now array.now line.now }
{
    line.is_empty() && array.is_none() && builder.items().len() == 0
}

// The kind of the array that is open.
fn open_kind(array: &Option<ArrayItem>) -> Option<ArrayKind>
    ensures { result ≡ kind_of array.now }
{
    array.as_ref().map(|array| array.kind)
}

// Reads the words after a keyword, and places what they say.
#[inline(always)]
fn place_read(
    alloc: Global,
    builder: &mut DocBuilder,
    array: &mut Option<ArrayItem>,
    keyword: Keyword,
    words: &mut Words,
) -> Result<Leads, Refusal>
    requires { IsOpen array.old }
    ensures { PlacesRead result keyword words.old builder.old array.old builder.new array.new }
{
    let line = read_behind(alloc, open_kind(array), keyword, words)??;
    place(builder, array, line)
}

// The same, apart from the code for the keywords that come most often.
#[inline(never)]
fn place_rare(
    alloc: Global,
    builder: &mut DocBuilder,
    array: &mut Option<ArrayItem>,
    keyword: Keyword,
    words: &mut Words,
) -> Result<Leads, Refusal>
    requires { IsOpen array.old }
    ensures { PlacesRead result keyword words.old builder.old array.old builder.new array.new }
{
    place_read(alloc, builder, array, keyword, words)
}

// The same. Each keyword that comes often has a copy of the code, which makes its item where it is
// put.
#[inline(always)]
fn place_behind(
    alloc: Global,
    builder: &mut DocBuilder,
    array: &mut Option<ArrayItem>,
    keyword: Keyword,
    words: &mut Words,
) -> Result<Leads, Refusal>
    requires { IsOpen array.old }
    ensures { PlacesRead result keyword words.old builder.old array.old builder.new array.new }
{
    match keyword {
        Keyword::Start => place_read(alloc, builder, array, Keyword::Start, words),
        Keyword::Ns => place_read(alloc, builder, array, Keyword::Ns, words),
        Keyword::Attr => place_read(alloc, builder, array, Keyword::Attr, words),
        Keyword::Text => place_read(alloc, builder, array, Keyword::Text, words),
        Keyword::Close => place_read(alloc, builder, array, Keyword::Close, words),
        Keyword::Comment | Keyword::Array | Keyword::Values => {
            place_rare(alloc, builder, array, keyword, words)
        }
    }
}

/// Reads a line, and puts what it says into the document. It fails where the line is refused, or
/// without memory.
#[inline(never)]
pub fn read_placed(
    alloc: Global,
    builder: &mut DocBuilder,
    array: &mut Option<ArrayItem>,
    line: &[u8],
) -> Result<Leads, Refusal>
    requires { IsOpen array.old }
    ensures places { Places result (outcome builder.old array.old line.now) builder.new array.new }
    ensures open { IsOpen array.new }
{
    if is_passed_over(builder, array, line) {
        return Ok(Leads::On);
    }
    let mut words = Words::of(line);
    let keyword = words.next_keyword()?;
    place_behind(alloc, builder, array, keyword, &mut words)
}
