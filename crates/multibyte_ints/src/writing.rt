//! Integers and strings as they are written: in the shortest spelling.

ghost use Rattle.std.specs.Prelude.{◌≡◌, ℕ, ◌^◌, ◌<◌, ◌++◌, length, drop, OnOk, OnErr};
ghost use Rattle.multibyte_ints.specs.Integer.{shortest};
ghost use Rattle.multibyte_ints.specs.Text.{string_bytes_of};

use crate::Memory;

/// Writes the shortest spelling of `n`, as a MultiByteInt31 of MC-NBFX, to the front of `out`, and
/// says how many bytes it has. The rest of `out` stays.
pub fn put_int(n: u32, out: &mut [u8; 5]) -> usize
    requires { n < 2 ^ 31 }
    ensures len { result ≡ length (shortest n) }
    ensures written { out.new ≡ shortest n ++ drop result out.old }
{
    let mut rest = n;
    let mut count = 0;
    while rest >= 128 {
        out[count] = (rest % 128) as u8 + 128;
        rest /= 128;
        count += 1;
    }
    out[count] = rest as u8;
    count + 1
}

/// Appends a String of MC-NBFX: the length of the text in bytes, in its shortest spelling, and the
/// text. Without memory it fails, and `out` is as it was.
pub fn put_string(text: &str, out: &mut Vec<u8>) -> Result<(), Memory>
    requires { length text.now < 2 ^ 31 }
    ensures written { OnOk result (out.new.items ≡ out.old.items ++ string_bytes_of text.now) }
    ensures unchanged { OnErr result (out.new.items ≡ out.old.items) }
{
    let mut spelling = [0; 5];
    let used = put_int(text.len() as u32, &mut spelling);
    out.reserve(used + text.len())?;
    out.extend_from_slice(&spelling[..used]).unwrap();
    out.extend_from_slice(text.as_bytes()).unwrap();
    Ok(())
}
