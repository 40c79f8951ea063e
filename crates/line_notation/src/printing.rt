// Documents, put as lines.
ghost use Rattle.std.specs.Prelude.{◌≡◌, ◌≤◌, ◌++◌, ◌∷◌, [], IsTrue, map};
ghost use Rattle.std.specs.List.{flat_map, list_all};
ghost use Rattle.hex.specs.Hex.{encode_lower};
ghost use Rattle.nbfx_values.specs.Items.{is_valid_array, is_valid_attribute, is_valid_item};
ghost use Rattle.nbfx_values.specs.Scalars.{is_valid_scalar, is_valid_value};
ghost use Rattle.line_notation.specs.Forms.{array, attr, form_words, keyword_word, line_of, text, values};
ghost use Rattle.line_notation.specs.Lines.{attribute_form, form_text, item_text, items_text, with_line_feed};
ghost use Rattle.io_edges.specs.Puts.{Puts};
ghost use Rattle.line_notation.specs.Puts.{IsPuttable, spaced_words, word_bytes};
ghost use Rattle.line_notation.specs.Quoted.{quoted};
ghost use Rattle.line_notation.specs.Scalars.{scalar_kind_word, scalar_words, sign_word, truth_word};
ghost use Rattle.line_notation.specs.Values.{value_words, written_scalars, written_value};
ghost use Rattle.line_notation.specs.Words.{behind_spaces, spaced};
ghost use Rattle.std.specs.Prelude.{All};

use crate::arrays::array_kind_word;
use crate::line::Keyword;
use crate::puts::{
    Word, put_bytes, put_spaced_word, put_spaced_words, put_within_quotes, put_words,
};
use crate::scalars::ScalarKind;
use io_edges::{Sink, SinkFault};
use nbfx_values::{
    ArrayItem, ArrayKind, AttrItem, Blob, Dec, Doc, Item, Scalar, Txt, Value, Values,
};

fn truth_word(truth: bool) -> &'static str
    ensures { result.now ≡ truth_word truth }
{
    if truth { "true" } else { "false" }
}

// The sign of a decimal number.
fn sign_word(negative: bool) -> &'static str
    ensures { result.now ≡ sign_word negative }
{
    if negative { "-" } else { "+" }
}

// Puts a value of one word.
#[inline(always)]
fn put_one<K: Sink>(kind: ScalarKind, word: Word, sink: &mut K) -> Result<(), SinkFault>
    requires { IsPuttable word }
    ensures { Puts (K.view sink.old) (K.view sink.new)
        (behind_spaces (scalar_kind_word kind ∷ word_bytes word.entry ∷ [])) result }
{
    put_bytes(b" ", sink)?;
    put_bytes(kind.word().as_bytes(), sink)?;
    put_spaced_word(&word, sink)
}

fn put_decimal<K: Sink>(dec: Dec, sink: &mut K) -> Result<(), SinkFault>
    ensures { Puts (K.view sink.old) (K.view sink.new)
        (behind_spaces (scalar_words (Scalar.Decimal dec))) result }
{
    let words = [
        Word::Plain(ScalarKind::Decimal.word()),
        Word::Natural(u128::from(dec.scale)),
        Word::Plain(sign_word(dec.negative)),
        Word::Natural(dec.magnitude),
    ];
    put_spaced_words(&words, sink)
}

// Puts a bit pattern by its bytes.
fn put_bits<K: Sink>(kind: ScalarKind, bytes: &[u8], sink: &mut K) -> Result<(), SinkFault>
    ensures { Puts (K.view sink.old) (K.view sink.new)
        (behind_spaces (scalar_kind_word kind ∷ encode_lower bytes.now ∷ [])) result }
{
    put_one(kind, Word::Digits(bytes), sink)
}

fn put_blob<K: Sink>(bytes: &Blob, sink: &mut K) -> Result<(), SinkFault>
    ensures { Puts (K.view sink.old) (K.view sink.new)
        (behind_spaces (scalar_words (Scalar.Bytes bytes.now))) result }
{
    put_one(
        ScalarKind::Bytes,
        Word::DigitsInQuotes(bytes.as_slice()),
        sink,
    )
}

fn put_name<K: Sink>(letter: u8, name: &Txt, sink: &mut K) -> Result<(), SinkFault>
    requires { letter ≤ 25 }
    ensures { Puts (K.view sink.old) (K.view sink.new)
        (behind_spaces (scalar_words (Scalar.QName letter name.now))) result }
{
    let words = [
        Word::Plain(ScalarKind::QName.word()),
        Word::Letter(letter),
        Word::Quoted(name.as_str()),
    ];
    put_spaced_words(&words, sink)
}

// Puts a value's words, each after a space.
fn put_scalar<K: Sink>(scalar: &Scalar, sink: &mut K) -> Result<(), SinkFault>
    requires { IsTrue (is_valid_scalar scalar.now) }
    ensures { Puts (K.view sink.old) (K.view sink.new)
        (behind_spaces (scalar_words scalar.now)) result }
{
    match scalar {
        Scalar::Number(n) => put_one(ScalarKind::Number, Word::Integer(*n), sink),
        Scalar::Truth(truth) => put_one(ScalarKind::Truth, Word::Plain(truth_word(*truth)), sink),
        Scalar::Float(bits) => put_bits(ScalarKind::Float, &bits.to_be_bytes(), sink),
        Scalar::Double(bits) => put_bits(ScalarKind::Double, &bits.to_be_bytes(), sink),
        Scalar::Decimal(dec) => put_decimal(*dec, sink),
        Scalar::DateTime(pattern) => put_bits(ScalarKind::DateTime, &pattern.to_be_bytes(), sink),
        Scalar::TimeSpan(span) => {
            put_one(ScalarKind::TimeSpan, Word::Integer(i128::from(*span)), sink)
        }
        Scalar::Text(text) => put_one(ScalarKind::Text, Word::Quoted(text.as_str()), sink),
        Scalar::Bytes(bytes) => put_blob(bytes, sink),
        Scalar::UniqueId(id) => put_one(ScalarKind::UniqueId, Word::Identifier(id), sink),
        Scalar::Uuid(id) => put_one(ScalarKind::Uuid, Word::Identifier(id), sink),
        Scalar::QName(letter, name) => put_name(*letter, name, sink),
    }
}

// Puts values' words, each after a space.
fn put_scalars<K: Sink>(scalars: &[Scalar], sink: &mut K) -> Result<(), SinkFault>
    requires { IsTrue (list_all is_valid_scalar scalars.now) }
    ensures { Puts (K.view sink.old) (K.view sink.new)
        (behind_spaces (flat_map scalar_words scalars.now)) result }
{
    for scalar in scalars {
        put_scalar(scalar, sink)?;
    }
    Ok(())
}

fn put_list<K: Sink>(values: &Values, sink: &mut K) -> Result<(), SinkFault>
    requires { IsTrue (list_all is_valid_scalar values.now) }
    ensures { Puts (K.view sink.old) (K.view sink.new)
        (behind_spaces (value_words (written_value (Value.List values.now)))) result }
{
    let count = values.len();
    put_spaced_words(&[Word::Plain("list"), Word::Natural(count as u128)], sink)?;
    put_scalars(values.as_slice(), sink)
}

fn put_value<K: Sink>(value: &Value, sink: &mut K) -> Result<(), SinkFault>
    requires { IsTrue (is_valid_value value.now) }
    ensures { Puts (K.view sink.old) (K.view sink.new)
        (behind_spaces (value_words (written_value value.now))) result }
{
    match value {
        Value::One(scalar) => put_scalar(scalar, sink),
        Value::List(values) => put_list(values, sink),
    }
}

// Puts a line of a keyword and words.
fn put_line<K: Sink>(keyword: Keyword, words: &[Word], sink: &mut K) -> Result<(), SinkFault>
    requires { All IsPuttable words.now }
    ensures { Puts (K.view sink.old) (K.view sink.new)
        (with_line_feed (keyword_word keyword ++ spaced_words words.now)) result }
{
    put_words(keyword.word(), words, sink)
}

// Puts a keyword and two texts.
#[inline(always)]
fn put_names<K: Sink>(
    keyword: Keyword,
    first: &Txt,
    second: &Txt,
    sink: &mut K,
) -> Result<(), SinkFault>
    ensures { Puts (K.view sink.old) (K.view sink.new)
        (spaced (keyword_word keyword ∷ quoted first.now ∷ quoted second.now ∷ [])) result }
{
    put_bytes(keyword.word().as_bytes(), sink)?;
    put_bytes(b" \"", sink)?;
    put_within_quotes(first.as_str(), sink)?;
    put_bytes(b"\" \"", sink)?;
    put_within_quotes(second.as_str(), sink)?;
    put_bytes(b"\"", sink)
}

// Puts a line of a keyword and two texts.
#[inline(always)]
fn put_named<K: Sink>(
    keyword: Keyword,
    first: &Txt,
    second: &Txt,
    sink: &mut K,
) -> Result<(), SinkFault>
    ensures { Puts (K.view sink.old) (K.view sink.new)
        (with_line_feed (spaced (keyword_word keyword ∷ quoted first.now ∷ quoted second.now ∷ [])))
        result }
{
    put_names(keyword, first, second, sink)?;
    put_bytes(b"\n", sink)
}

fn put_attribute<K: Sink>(
    prefix: &Txt,
    local: &Txt,
    value: &Value,
    sink: &mut K,
) -> Result<(), SinkFault>
    requires { IsTrue (is_valid_value value.now) }
    ensures { Puts (K.view sink.old) (K.view sink.new)
        (form_text (attr prefix.now local.now (written_value value.now))) result }
{
    put_names(Keyword::Attr, prefix, local, sink)?;
    put_value(value, sink)?;
    put_bytes(b"\n", sink)
}

fn put_text<K: Sink>(value: &Value, sink: &mut K) -> Result<(), SinkFault>
    requires { IsTrue (is_valid_value value.now) }
    ensures { Puts (K.view sink.old) (K.view sink.new)
        (form_text (text (written_value value.now))) result }
{
    put_bytes(Keyword::Text.word().as_bytes(), sink)?;
    put_value(value, sink)?;
    put_bytes(b"\n", sink)
}

fn put_array_attribute<K: Sink>(one: &AttrItem, sink: &mut K) -> Result<(), SinkFault>
    requires { IsTrue (is_valid_attribute one.now) }
    ensures { Puts (K.view sink.old) (K.view sink.new) (form_text (attribute_form one.now)) result }
{
    match one {
        AttrItem::Xmlns { prefix, uri } => put_named(Keyword::Ns, prefix, uri, sink),
        AttrItem::Attr {
            prefix,
            local,
            value,
        } => put_attribute(prefix, local, value, sink),
    }
}

fn put_array_attributes<K: Sink>(all: &[AttrItem], sink: &mut K) -> Result<(), SinkFault>
    requires { IsTrue (list_all is_valid_attribute all.now) }
    ensures { Puts (K.view sink.old) (K.view sink.new)
        (flat_map form_text (map attribute_form all.now)) result }
{
    for one in all {
        put_array_attribute(one, sink)?;
    }
    Ok(())
}

fn put_array_values<K: Sink>(scalars: &[Scalar], sink: &mut K) -> Result<(), SinkFault>
    requires { IsTrue (list_all is_valid_scalar scalars.now) }
    ensures { Puts (K.view sink.old) (K.view sink.new)
        (form_text (values (written_scalars scalars.now))) result }
{
    put_bytes(Keyword::Values.word().as_bytes(), sink)?;
    put_scalars(scalars, sink)?;
    put_bytes(b"\n", sink)
}

fn put_array_start<K: Sink>(
    kind: ArrayKind,
    prefix: &Txt,
    local: &Txt,
    sink: &mut K,
) -> Result<(), SinkFault>
    ensures { Puts (K.view sink.old) (K.view sink.new)
        (form_text (array kind prefix.now local.now)) result }
{
    let words = [
        Word::Plain(array_kind_word(kind)),
        Word::Quoted(prefix.as_str()),
        Word::Quoted(local.as_str()),
    ];
    put_line(Keyword::Array, &words, sink)
}

fn put_array<K: Sink>(array: &ArrayItem, sink: &mut K) -> Result<(), SinkFault>
    requires { IsTrue (is_valid_array array.now) }
    ensures { Puts (K.view sink.old) (K.view sink.new) (item_text (Item.Array array.now)) result }
{
    put_array_start(array.kind, &array.prefix, &array.local, sink)?;
    put_array_attributes(array.attrs.as_slice(), sink)?;
    put_array_values(array.values.as_slice(), sink)
}

fn put_item<K: Sink>(item: &Item, sink: &mut K) -> Result<(), SinkFault>
    requires { IsTrue (is_valid_item item.now) }
    ensures { Puts (K.view sink.old) (K.view sink.new) (item_text item.now) result }
{
    match item {
        Item::Start { prefix, local } => put_named(Keyword::Start, prefix, local, sink),
        Item::Xmlns { prefix, uri } => put_named(Keyword::Ns, prefix, uri, sink),
        Item::Attr {
            prefix,
            local,
            value,
        } => put_attribute(prefix, local, value, sink),
        Item::Text(value) => put_text(value, sink),
        Item::Comment(text) => put_line(Keyword::Comment, &[Word::Quoted(text.as_str())], sink),
        Item::Array(array) => put_array(array, sink),
        Item::Close => put_bytes(b"close\n", sink),
    }
}

fn put_items<K: Sink>(items: &[Item], sink: &mut K) -> Result<(), SinkFault>
    requires { IsTrue (list_all is_valid_item items.now) }
    ensures { Puts (K.view sink.old) (K.view sink.new) (items_text items.now) result }
{
    for item in items {
        put_item(item, sink)?;
    }
    Ok(())
}

/// Puts the lines of a document, each with its line feed. A line goes in several puts: where a put
/// is expensive, give a buffering sink, such as `io_edges::GatheringSink`. On an error first bytes
/// of the lines were put. Only the sink takes memory.
pub fn print<K: Sink>(doc: &Doc, sink: &mut K) -> Result<(), SinkFault>
    ensures { Puts (K.view sink.old) (K.view sink.new) (items_text doc.now) result }
{
    put_items(doc.items().as_slice(), sink)
}
