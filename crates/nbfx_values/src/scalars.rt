//! The values of items, and which of them are valid.

ghost use Rattle.std.specs.Prelude.{◌≡◌};
ghost use Rattle.std.specs.List.{list_all};
ghost use Rattle.nbfx_values.specs.Scalars as spec;
ghost use Rattle.nbfx_values.specs.Scalars.{is_valid_scalar, is_valid_value};

use crate::copies::Copied;
use crate::lists::Sequence;
use crate::texts::{Blob, Txt};
use unit_streams::Memory;

/// A decimal number of a DecimalText record: its magnitude, divided by 10 to the power of its
/// scale, and negative or not.
#[derive(Clone, Copy, Debug, PartialEq, Eq)]
pub struct Dec {
    /// The number of decimal places: at most 28 where the value is valid.
    pub scale: u8,
    /// Whether the sign is minus, also of 0.
    pub negative: bool,
    /// The digits as an integer: below 2^96 where the value is valid.
    pub magnitude: u128,
}

/// One value of a text record of MC-NBFX, of any type but lists.
#[derive(Debug)]
pub enum Scalar {
    /// A whole number, from -2^63 to 2^64 - 1: of ZeroText, OneText, the Int types and UInt64Text.
    Number(i128),
    /// Of FalseText, TrueText and BoolText.
    Truth(bool),
    /// The bit pattern of a number in binary32: of FloatText.
    Float(u32),
    /// The bit pattern of a number in binary64: of DoubleText.
    Double(u64),
    /// Of DecimalText: a scale of at most 28 and a magnitude below 2^96.
    Decimal(Dec),
    /// The 64 bits of a DateTimeText, of which any pattern is read.
    DateTime(u64),
    /// A time span in units of 100 ns: of TimeSpanText.
    TimeSpan(i64),
    /// Characters: of the Chars, UnicodeChars, Empty and Dictionary types.
    Text(Txt),
    /// Bytes that mean no characters: of the Bytes types.
    Bytes(Blob),
    /// The 16 bytes of a UniqueIdText, in the order of the wire.
    UniqueId([u8; 16]),
    /// The 16 bytes of a UuidText, in the order of the wire.
    Uuid([u8; 16]),
    /// A qualified name of a QNameDictionaryText: the number of its prefix's letter, from 0 for a
    /// to 25 for z, and the local name.
    QName(u8, Txt),
}

// Most values hold no memory of their own, and needn't be moved to be dropped.
impl Drop for Scalar {
    #[inline(always)]
    fn drop(self) {
        match self {
            Scalar::Text(_text) => {}
            Scalar::Bytes(_bytes) => {}
            Scalar::QName(_letter, _name) => {}
            Scalar::Number(_)
            | Scalar::Truth(_)
            | Scalar::Float(_)
            | Scalar::Double(_)
            | Scalar::Decimal(_)
            | Scalar::DateTime(_)
            | Scalar::TimeSpan(_)
            | Scalar::UniqueId(_)
            | Scalar::Uuid(_) => {}
        }
    }
}

/// The values of a list or an array.
pub type Values = Sequence<Scalar>;

/// The value of a text or of an attribute.
#[derive(Debug)]
pub enum Value {
    /// One value, of any text record that is no list.
    One(Scalar),
    /// A list, StartListText to EndListText, which may be empty.
    List(Values),
}

impl Drop for Value {
    #[inline(always)]
    fn drop(self) {
        match self {
            Value::One(_scalar) => {}
            Value::List(_values) => {}
        }
    }
}

// Whether all are bytes, as those of every list of bytes are.
fn are_bytes(bytes: &[u8]) -> bool
    ensures { result ≡ spec.are_bytes bytes.now }
{
    bytes.iter().all(|byte| *byte <= u8::MAX)
}

// Whether these are an identifier's bytes, as all sixteen bytes are.
fn is_identifier(bytes: &[u8; 16]) -> bool
    ensures { result ≡ spec.is_identifier bytes.now }
{
    bytes.len() == 16 && are_bytes(bytes)
}

impl Scalar {
    /// Whether the value is one that a record can hold.
    pub fn check(&self) -> bool
        ensures { result ≡ is_valid_scalar self.now }
    {
        match self {
            Scalar::Number(number) => { (i64::MIN as i128..=u64::MAX as i128).contains(number) }
            Scalar::Truth(_) => true,
            Scalar::Float(bits) => *bits <= u32::MAX,
            Scalar::Double(bits) => *bits <= u64::MAX,
            Scalar::Decimal(dec) => dec.scale <= 28 && dec.magnitude < 1 << 96,
            Scalar::DateTime(pattern) => *pattern <= u64::MAX,
            Scalar::TimeSpan(span) => i64::MIN <= *span && *span <= i64::MAX,
            Scalar::Text(text) => text.check(),
            Scalar::Bytes(bytes) => are_bytes(bytes.as_slice()),
            Scalar::UniqueId(bytes) => is_identifier(bytes),
            Scalar::Uuid(bytes) => is_identifier(bytes),
            Scalar::QName(letter, name) => *letter <= 25 && name.check(),
        }
    }
}

// Whether each value is one that a record can hold.
fn are_valid(scalars: &[Scalar]) -> bool
    ensures { result ≡ list_all is_valid_scalar scalars.now }
{
    scalars.iter().all(|scalar| scalar.check())
}

impl Value {
    /// Whether the value, or each value of the list, is one that a record can hold.
    pub fn check(&self) -> bool
        ensures { result ≡ is_valid_value self.now }
    {
        match self {
            Value::One(scalar) => scalar.check(),
            Value::List(values) => are_valid(values.as_slice()),
        }
    }
}

impl Copied for Scalar {
    fn copy(&self) -> Result<Scalar, Memory> {
        Ok(match self {
            Scalar::Number(number) => Scalar::Number(*number),
            Scalar::Truth(truth) => Scalar::Truth(*truth),
            Scalar::Float(bits) => Scalar::Float(*bits),
            Scalar::Double(bits) => Scalar::Double(*bits),
            Scalar::Decimal(dec) => Scalar::Decimal(*dec),
            Scalar::DateTime(pattern) => Scalar::DateTime(*pattern),
            Scalar::TimeSpan(span) => Scalar::TimeSpan(*span),
            Scalar::Text(text) => Scalar::Text(text.copy()?),
            Scalar::Bytes(bytes) => Scalar::Bytes(bytes.copy()?),
            Scalar::UniqueId(bytes) => Scalar::UniqueId(*bytes),
            Scalar::Uuid(bytes) => Scalar::Uuid(*bytes),
            Scalar::QName(letter, name) => Scalar::QName(*letter, name.copy()?),
        })
    }
}

impl Copied for Value {
    fn copy(&self) -> Result<Value, Memory> {
        Ok(match self {
            Value::One(scalar) => Value::One(scalar.copy()?),
            Value::List(values) => Value::List(values.copy()?),
        })
    }
}
