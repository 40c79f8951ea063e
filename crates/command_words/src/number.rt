// The number that a value writes.
ghost use Rattle.std.specs.Prelude.{◌≡◌, ◌≢◌, ◌<◌, ◌≤◌, ◌^◌, ℕ, IfNone, IfSome};
ghost use Rattle.std.specs.Fmt.{decimal};
ghost use Rattle.command_words.specs.WordAnswers.{begins_plain};
ghost use Rattle.command_words.specs.Values.{IsNumber, text_behind};

// Whether a text begins as a number does: with a digit, which is the zero only where it is alone.
fn begins_plain(text: &[u8]) -> bool
    ensures { result ≡ begins_plain text.now }
{
    match text {
        [b'0'..=b'9'] | [b'1'..=b'9', _, ..] => true,
        _ => false,
    }
}

/// The number below 2^64 that decimal digits without a leading zero write; None where the text
/// isn't such digits.
pub fn number_in(text: &str) -> Option<u64>
    ensures written { IfSome result (λ n. text.now ≡ decimal n) }
    ensures none { IfNone result ((n : ℕ) → n < 2 ^ 64 → text.now ≢ decimal n) }
{
    if !begins_plain(text.as_bytes()) {
        return None;
    }
    text.parse::<u64>().ok()
}

/// The number that a value writes, or `usual` without a value; None where the value isn't a number.
pub fn number_or(value: Option<&str>, usual: u64) -> Option<u64>
    ensures written { IfSome result (IsNumber (text_behind value.entry) usual) }
    ensures none { IfNone result ((n : ℕ) → n < 2 ^ 64
        → ¬ IsNumber (text_behind value.entry) usual n) }
{
    match value {
        Some(text) => number_in(text),
        None => Some(usual),
    }
}

/// The same, if it is below 2^32.
pub fn small_or(value: Option<&str>, usual: u64) -> Option<u32>
    ensures written { IfSome result (IsNumber (text_behind value.entry) usual) }
    ensures none { IfNone result ((n : ℕ) → n < 2 ^ 32
        → ¬ IsNumber (text_behind value.entry) usual n) }
{
    u32::try_from(number_or(value, usual)?).ok()
}

/// The same, if it is at least `least` and at most `most`.
pub fn number_within(value: Option<&str>, usual: u32, least: u32, most: u32) -> Option<u32>
    ensures written { IfSome result (λ n.
        IsNumber (text_behind value.entry) usual n × (least ≤ n) × (n ≤ most)) }
    ensures none { IfNone result ((n : ℕ) → least ≤ n → n ≤ most
        → ¬ IsNumber (text_behind value.entry) usual n) }
{
    let n = small_or(value, u64::from(usual))?;
    if n < least || n > most {
        return None;
    }
    Some(n)
}
