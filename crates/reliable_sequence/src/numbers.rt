//! Numbers as documents have them.

ghost use Rattle.std.specs.Prelude.{◌≡◌, ◌^◌, ◌<◌, IfSome};
ghost use Rattle.reliable_sequence.specs.Numbers as spec;

// The number that decimal digits write behind others, if it is below 2^63.
fn with_digit(number: u64, digit: u8) -> Option<u64>
    ensures read { result ≡ spec.behind_digit number digit }
    ensures small { IfSome result (λ next. next < 2 ^ 63) }
{
    if !digit.is_ascii_digit() {
        return None;
    }
    let next = number as u128 * 10 + (digit - b'0') as u128;
    if next < 1 << 63 {
        Some(next as u64)
    } else {
        None
    }
}

// The number that a text writes: decimal digits without a leading zero, from 1 to 2^63 - 1.
pub(crate) fn number_in(text: &str) -> Option<u64>
    ensures read { result ≡ spec.number_in text.now }
    ensures small { IfSome result (λ number. number < 2 ^ 63) }
{
    let digits = text.as_bytes();
    if digits.is_empty() || digits[0] <= b'0' {
        return None;
    }
    let mut number = 0;
    for digit in digits {
        number = with_digit(number, *digit)?;
    }
    Some(number)
}
