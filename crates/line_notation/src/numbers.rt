// Numbers out of words.
ghost use Rattle.std.specs.Prelude.{◌≡◌, ◌<◌, ◌^◌};
ghost use Rattle.std.specs.Char.{is_ascii_digit};
ghost use Rattle.std.specs.List.{list_all};
ghost use Rattle.line_notation.specs.Numerals as spec;
ghost use Rattle.line_notation.specs.Parts.{integer_up_to, natural_up_to};

use crate::judged::Judged;
use crate::reader::LineKind;
use std::str;

// Whether a 0 stands before another digit.
fn has_zero_in_front(word: &[u8]) -> bool
    ensures { result ≡ spec.has_zero_in_front word.now }
{
    word.len() > 1 && word[0] == b'0'
}

fn are_decimal_digits(word: &[u8]) -> bool
    ensures { result ≡ list_all is_ascii_digit word.now }
{
    word.iter().all(|byte| byte.is_ascii_digit())
}

// Whether a word is digits without zeros in front.
fn is_natural(word: &[u8]) -> bool
    ensures { result ≡ spec.is_natural word.now }
{
    !(word.is_empty() || has_zero_in_front(word)) && are_decimal_digits(word)
}

/// The number that a word writes in decimal digits, if it does; it is out of range above `most`.
pub fn natural_up_to(most: u128, word: &[u8]) -> Option<Judged<u128>>
    requires { most < 2 ^ 127 }
    ensures { result ≡ natural_up_to most word.now }
{
    if !is_natural(word) {
        return None;
    }
    let Ok(digits) = str::from_utf8(word) else {
        return None;
    };
    Some(match digits.parse::<u128>() {
        Ok(n) if n <= most => Ok(n),
        _ => Err(LineKind::OutOfRange),
    })
}

/// The number that a word writes in decimal digits, with a minus if it is negative, if it does; it
/// is out of range below -2^63 and above `most`.
pub fn integer_up_to(most: u128, word: &[u8]) -> Option<Judged<i128>>
    requires { most < 2 ^ 127 }
    ensures { result ≡ integer_up_to most word.now }
{
    if let [b'-', digits @ ..] = word {
        return match natural_up_to(1 << 63, digits)? {
            Ok(0) => None,
            Ok(n) => Some(Ok(-(n as i128))),
            Err(kind) => Some(Err(kind)),
        };
    }
    Some(natural_up_to(most, word)?.map(|n| n as i128))
}
