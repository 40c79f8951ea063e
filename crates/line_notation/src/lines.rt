// What a line says, unless it is refused for itself.
ghost use Rattle.std.specs.Prelude.{◌≡◌, Some};
ghost use Rattle.line_notation.specs.Options.{alone};
ghost use Rattle.line_notation.specs.BehindKeywords as spec;
ghost use Rattle.line_notation.specs.BehindKeywords.{judged_behind};
ghost use Rattle.line_notation.specs.Steps.{Finds};

use crate::arrays::array_kind;
use crate::judged::{Judged, both};
use crate::line::{Keyword, Line};
use crate::reader::LineKind;
use crate::texts::{text, two_texts};
use crate::values::{Holder, gathered, value};
use crate::words::{Stop, Words};
use nbfx_values::{ArrayItem, ArrayKind, Attrs, Item, Txt, Values};
use std::alloc::Global;

// What was read, if no word is left after it.
#[inline(always)]
fn alone<T: Drop>(one: T, words: &Words) -> Result<T, Stop>
    ensures { Finds (λ one. one) result (alone (Some (one, words.now))) }
{
    if words.is_empty() {
        Ok(one)
    } else {
        Err(Stop::NotALine)
    }
}

// The two texts that all words are.
#[inline(always)]
fn texts_alone(alloc: Global, words: &mut Words) -> Result<Judged<(Txt, Txt)>, Stop>
    ensures { Finds (λ texts. texts) result (spec.texts_alone words.old) }
{
    let texts = two_texts(alloc, words)?;
    alone(texts, words)
}

#[inline(always)]
fn start(alloc: Global, words: &mut Words) -> Result<Judged<Line>, Stop>
    ensures { Finds (λ line. line) result (spec.read_start words.old) }
{
    let texts = texts_alone(alloc, words)?;
    Ok(texts.map(|(prefix, local)| Line::Item(Item::Start { prefix, local })))
}

#[inline(always)]
fn declaration(alloc: Global, words: &mut Words) -> Result<Judged<Line>, Stop>
    ensures { Finds (λ line. line) result (spec.read_declaration words.old) }
{
    let texts = texts_alone(alloc, words)?;
    Ok(texts.map(|(prefix, uri)| Line::Item(Item::Xmlns { prefix, uri })))
}

#[inline(always)]
fn attribute(alloc: Global, words: &mut Words) -> Result<Judged<Line>, Stop>
    ensures { Finds (λ line. line) result (spec.read_attribute words.old) }
{
    let texts = two_texts(alloc, words)?;
    let value = value(alloc, words)?;
    Ok(both(texts, value).map(|((prefix, local), value)| {
        Line::Item(Item::Attr {
            prefix,
            local,
            value,
        })
    }))
}

#[inline(always)]
fn text_item(alloc: Global, words: &mut Words) -> Result<Judged<Line>, Stop>
    ensures { Finds (λ line. line) result (spec.read_text words.old) }
{
    let value = value(alloc, words)?;
    Ok(value.map(|value| Line::Item(Item::Text(value))))
}

fn comment(alloc: Global, words: &mut Words) -> Result<Judged<Line>, Stop>
    ensures { Finds (λ line. line) result (spec.read_comment words.old) }
{
    let text = alone(text(alloc, words)?, words)?;
    Ok(text.map(|text| Line::Item(Item::Comment(text))))
}

fn array(alloc: Global, words: &mut Words) -> Result<Judged<Line>, Stop>
    ensures { Finds (λ line. line) result (spec.read_array words.old) }
{
    let kind = array_kind(words.next()?).ok_or(Stop::NotALine)?;
    let texts = texts_alone(alloc, words)?;
    Ok(texts.map(|(prefix, local)| {
        Line::Array(ArrayItem {
            prefix,
            local,
            attrs: Attrs::new(alloc),
            kind,
            values: Values::new(alloc),
        })
    }))
}

fn values_of(kind: Option<ArrayKind>, values: Judged<Values>) -> Judged<Line>
    ensures { result ≡ spec.values_of kind values }
{
    match (kind, values) {
        (_, Err(refusal)) => Err(refusal),
        (None, Ok(_)) => Err(LineKind::OutOfPlace),
        (Some(_), Ok(values)) => Ok(Line::Values(values)),
    }
}

fn values(alloc: Global, kind: Option<ArrayKind>, words: &mut Words) -> Result<Judged<Line>, Stop>
    ensures { Finds (λ line. line) result (spec.read_values kind words.old) }
{
    let all = gathered(alloc, Holder::of(kind), words)?;
    if all.tally.count == 0 {
        return Err(Stop::NotALine);
    }
    Ok(values_of(kind, all.values))
}

#[inline(always)]
fn close(words: &Words) -> Result<Judged<Line>, Stop>
    ensures { Finds (λ line. line) result (spec.read_close words.now) }
{
    if words.is_empty() {
        Ok(Ok(Line::Item(Item::Close)))
    } else {
        Err(Stop::NotALine)
    }
}

/// What the words after a keyword say, where an array of this kind is open, or none is. It fails
/// where they have no form, or without memory.
#[inline(always)]
pub fn read_behind(
    alloc: Global,
    kind: Option<ArrayKind>,
    keyword: Keyword,
    words: &mut Words,
) -> Result<Judged<Line>, Stop>
    ensures { Finds (λ line. line) result (judged_behind kind keyword words.old) }
{
    match keyword {
        Keyword::Start => start(alloc, words),
        Keyword::Ns => declaration(alloc, words),
        Keyword::Attr => attribute(alloc, words),
        Keyword::Text => text_item(alloc, words),
        Keyword::Comment => comment(alloc, words),
        Keyword::Array => array(alloc, words),
        Keyword::Values => values(alloc, kind, words),
        Keyword::Close => close(words),
    }
}
