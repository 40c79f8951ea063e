// The characters of a value. They are copied only where the value doesn't have them as a text.

ghost use Rattle.std.specs.Prelude.{◌≡◌, IfOk, IfSome, IsTrue, is_some};
ghost use Rattle.std.specs.Fmt.{signed_decimal};
ghost use Rattle.nbfx_values.specs.Characters.{value_characters};
ghost use Rattle.nbfx_values.specs.Scalars.{is_valid_value};
ghost use Rattle.soap_envelope.specs.Spelled.{bytes_of};

use nbfx_values::{Scalar, Txt, Value};
use std::alloc::Global;
use std::marker::Model;
use unit_streams::Memory;

#[derive(Drop)]
enum Spelled<'d> {
    Borrowed(&'d str),
    Owned(Txt),
}

// Characters, which contracts see as the list of their UTF-8 bytes.
#[derive(Drop)]
pub(crate) struct Characters<'d> {
    spelled: Spelled<'d>,
}

impl<'d> Model for Characters<'d> {
    ghost use Rattle.std.specs.Prelude.{ℕ, List};
    ghost use Rattle.soap_envelope.specs.Spelled.{bytes_of};

    ghost Value = { List ℕ };

    ghost view = { λ c. bytes_of c.spelled };
}

impl<'d> Characters<'d> {
    fn borrowed(text: &'d str) -> Characters<'d>
        ensures { result ≡ text.now }
    {
        Characters {
            spelled: Spelled::Borrowed(text),
        }
    }

    fn owned(text: Txt) -> Characters<'d>
        ensures { result ≡ text }
    {
        Characters {
            spelled: Spelled::Owned(text),
        }
    }

    pub(crate) fn as_str(&self) -> &str
        ensures { result.now ≡ self.now }
    {
        match &self.spelled {
            Spelled::Borrowed(text) => text,
            Spelled::Owned(text) => text.as_str(),
        }
    }
}

// The characters of a value that isn't a text, if it has some.
fn written_out<'d>(alloc: Global, value: &'d Value) -> Result<Option<Characters<'d>>, Memory>
    requires { IsTrue (is_valid_value value.now) }
    ensures { IfOk result (λ characters. characters ≡ value_characters value.now) }
{
    match value.characters(alloc)? {
        Some(text) => Ok(Some(Characters::owned(text))),
        None => Ok(None),
    }
}

// The digits of 0 and 1, as attributes have them.
fn usual_digits(number: i128) -> Option<&'static str>
    ensures { IfSome result (λ digits. digits.now ≡ signed_decimal number) }
{
    if number == 0 {
        return Some("0");
    }
    if number == 1 {
        return Some("1");
    }
    None
}

// The characters of a value, if it has some. Those of a text and the usual numbers take no memory.
pub(crate) fn characters_in<'d>(
    alloc: Global,
    value: &'d Value,
) -> Result<Option<Characters<'d>>, Memory>
    requires { IsTrue (is_valid_value value.now) }
    ensures { IfOk result (λ characters. characters ≡ value_characters value.now) }
{
    match value {
        Value::One(Scalar::Text(text)) => Ok(Some(Characters::borrowed(text.as_str()))),
        Value::One(Scalar::Number(number)) => match usual_digits(*number) {
            Some(digits) => Ok(Some(Characters::borrowed(digits))),
            None => written_out(alloc, value),
        },
        _ => written_out(alloc, value),
    }
}

// Whether a value has characters.
pub(crate) fn has_characters(value: &Value) -> bool
    ensures { result ≡ is_some (value_characters value.now) }
{
    match value {
        Value::One(scalar) => match scalar {
            Scalar::Text(_) | Scalar::Number(_) | Scalar::UniqueId(_) | Scalar::Uuid(_) => true,
            Scalar::Truth(true) | Scalar::Truth(false) | Scalar::QName(..) => true,
            _ => false,
        },
        Value::List(_) => false,
    }
}
