//! Appends the parts of a record: type bytes, numbers, strings, texts. Without memory a call fails,
//! and may leave first bytes of the part.

ghost use Rattle.std.specs.Prelude.{◌≡◌, ◌∷◌, ◌++◌, [], ◌<◌, ◌^◌, IsTrue, length};
ghost use Rattle.std.specs.Int.{byte_len};
ghost use Rattle.multibyte_ints.specs.Integer.{shortest};
ghost use Rattle.multibyte_ints.specs.Text.{string_bytes_of};
ghost use Rattle.nbfx_records.specs.Chosen as spec;
ghost use Rattle.nbfx_records.specs.Putting.{Puts};
ghost use Rattle.nbfx_records.specs.TypeBytes.{byte_of, is_kind};

use crate::kinds::{LengthForm, RecordKind, TextKind};
use crate::type_bytes::type_byte;
use multibyte_ints::put_int;
use unit_streams::Memory;

/// Appends a byte.
pub fn put_byte(byte: u8, out: &mut Vec<u8>) -> Result<(), Memory>
    ensures { Puts result out.old.items out.new.items (byte ∷ []) }
{
    out.push(byte)?;
    Ok(())
}

/// Appends these bytes.
pub fn put_bytes(bytes: &[u8], out: &mut Vec<u8>) -> Result<(), Memory>
    ensures { Puts result out.old.items out.new.items bytes.now }
{
    out.extend_from_slice(bytes)?;
    Ok(())
}

/// Appends a MultiByteInt31 in its shortest spelling.
pub fn put_integer(number: u32, out: &mut Vec<u8>) -> Result<(), Memory>
    requires { number < 2 ^ 31 }
    ensures { Puts result out.old.items out.new.items (shortest number) }
{
    let mut spelling = [0; 5];
    let used = put_int(number, &mut spelling);
    put_bytes(&spelling[..used], out)
}

/// Appends a String of MC-NBFX: the length of the text and the text.
pub fn put_string(text: &str, out: &mut Vec<u8>) -> Result<(), Memory>
    requires { length text.now < 2 ^ 31 }
    ensures { Puts result out.old.items out.new.items (string_bytes_of text.now) }
{
    multibyte_ints::put_string(text, out)
}

/// Appends a String of these bytes, which have to be UTF-8 if it is to be read.
pub fn put_raw_string(text: &[u8], out: &mut Vec<u8>) -> Result<(), Memory>
    requires { length text.now < 2 ^ 31 }
    ensures { Puts result out.old.items out.new.items (string_bytes_of text.now) }
{
    put_integer(text.len() as u32, out)?;
    put_bytes(text, out)
}

/// Appends the type byte of a record of this kind.
pub fn put_kind(kind: RecordKind, out: &mut Vec<u8>) -> Result<(), Memory>
    requires { IsTrue (is_kind kind) }
    ensures { Puts result out.old.items out.new.items (byte_of kind ∷ []) }
{
    put_byte(type_byte(kind), out)
}
