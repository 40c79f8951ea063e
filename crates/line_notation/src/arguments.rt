// What stands in lines of other notations: texts in quotes, and numbers.
ghost use Rattle.std.specs.Prelude.{◌≡◌};
ghost use Rattle.line_notation.specs.Arguments as spec;
ghost use Rattle.line_notation.specs.Arguments.{Unquotes};

use crate::numbers::natural_up_to;
use crate::texts::{between_quotes, judged_text, unescaped};
use crate::words::Stop;
use nbfx_values::Txt;
use std::alloc::Global;

/// Why a text in quotes isn't read.
#[derive(Clone, Copy, Debug, PartialEq, Eq)]
pub enum QuoteFault {
    /// It isn't quotes round plain bytes and escapes.
    NotQuoted,
    /// The bytes that it writes aren't UTF-8.
    BadText,
    /// Out of memory.
    Memory,
}

/// The text that a text in quotes writes, as [`quote`](crate::quote) puts it or in another spelling.
/// It fails where the bytes are no such text, else where what they write isn't UTF-8, or without
/// memory.
pub fn unquote(alloc: Global, text: &[u8]) -> Result<Txt, QuoteFault>
    ensures { Unquotes text.now result }
{
    let Some(pieces) = between_quotes(text) else {
        return Err(QuoteFault::NotQuoted);
    };
    match unescaped(alloc, pieces) {
        Ok(bytes) => match judged_text(bytes) {
            Ok(text) => Ok(text),
            Err(_) => Err(QuoteFault::BadText),
        },
        Err(Stop::NotALine) => Err(QuoteFault::NotQuoted),
        Err(Stop::Memory) => Err(QuoteFault::Memory),
    }
}

/// The number that decimal digits without a leading zero write; None where the bytes aren't such
/// digits, or write a greater one than `most`.
pub fn number_up_to(most: u64, digits: &[u8]) -> Option<u64>
    ensures { result ≡ spec.number_up_to most digits.now }
{
    match natural_up_to(u128::from(most), digits)? {
        Ok(n) => u64::try_from(n).ok(),
        Err(_) => None,
    }
}
