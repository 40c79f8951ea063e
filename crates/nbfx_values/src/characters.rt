//! The characters of a value.

ghost use Rattle.std.specs.Prelude.{◌≡◌, ◌≤◌, ◌+◌, ◌∷◌, IfOk, IsTrue};
ghost use Rattle.uuid.specs.Parts.{swap_fields};
ghost use Rattle.uuid.specs.Text.{hyphenated_text, lower, urn_text};
ghost use Rattle.nbfx_values.specs.Characters.{scalar_characters, value_characters};
ghost use Rattle.nbfx_values.specs.Scalars.{is_valid_scalar, is_valid_value};

use crate::copies::Copied;
use crate::scalars::{Scalar, Value};
use crate::texts::Txt;
use std::alloc::Global;
use unit_streams::Memory;
use uuid::Uuid;

fn hyphenated(alloc: Global, bytes: &[u8; 16]) -> Result<Txt, Memory>
    ensures { IfOk result (λ text. text ≡ hyphenated_text lower (swap_fields bytes.now)) }
{
    let mut buffer = Uuid::encode_buffer();
    let id = Uuid::from_bytes_le(*bytes);
    Txt::of(alloc, id.hyphenated().encode_lower(&mut buffer))
}

fn urn(alloc: Global, bytes: &[u8; 16]) -> Result<Txt, Memory>
    ensures { IfOk result (λ text. text ≡ urn_text lower (swap_fields bytes.now)) }
{
    let mut buffer = Uuid::encode_buffer();
    let id = Uuid::from_bytes_le(*bytes);
    Txt::of(alloc, id.urn().encode_lower(&mut buffer))
}

// A name, after its prefix of one letter.
fn prefixed(alloc: Global, letter: u8, name: &Txt) -> Result<Txt, Memory>
    requires { letter ≤ 25 }
    ensures { IfOk result (λ text. text ≡ (97 + letter) ∷ 58 ∷ name.now) }
{
    let mut text = String::new(alloc);
    text.push((b'a' + letter) as char)?;
    text.push(':')?;
    text.push_str(name.as_str())?;
    Ok(Txt::from(text))
}

fn of_scalar(alloc: Global, scalar: &Scalar) -> Result<Option<Txt>, Memory>
    requires { IsTrue (is_valid_scalar scalar.now) }
    ensures { IfOk result (λ text. text ≡ scalar_characters scalar.now) }
{
    Ok(match scalar {
        Scalar::Text(text) => Some(text.copy()?),
        Scalar::Number(number) => Some(Txt::from(number.to_string(alloc)?)),
        Scalar::Truth(true) => Some(Txt::of(alloc, "true")?),
        Scalar::Truth(false) => Some(Txt::of(alloc, "false")?),
        Scalar::UniqueId(bytes) => Some(urn(alloc, bytes)?),
        Scalar::Uuid(bytes) => Some(hyphenated(alloc, bytes)?),
        Scalar::QName(letter, name) => Some(prefixed(alloc, *letter, name)?),
        _ => None,
    })
}

impl Value {
    /// The characters that the value stands for in XML: those of a text, a number in decimal, a
    /// truth, an identifier in hyphenated lower case, with `urn:uuid:` before a UniqueId, or a
    /// qualified name. None for the other kinds, and for a list. It fails without memory for them.
    pub fn characters(&self, alloc: Global) -> Result<Option<Txt>, Memory>
        requires { IsTrue (is_valid_value self.now) }
        ensures { IfOk result (λ text. text ≡ value_characters self.now) }
    {
        match self {
            Value::One(scalar) => of_scalar(alloc, scalar),
            Value::List(_) => Ok(None),
        }
    }
}
