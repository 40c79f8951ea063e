// The modes and encodings that values name.
ghost use Rattle.std.specs.Prelude.{◌≡◌, ◌≢◌, IfNone, IfSome};
ghost use Rattle.command_words.specs.Values.{IsEncoding, IsMode, encoding_text, mode_name, text_behind};

use nbfx_values::{Encoding, Kind, Mode};

/// The mode that this word names; None where it names none.
pub fn mode_named(name: &str) -> Option<Mode>
    ensures named { IfSome result (λ mode. name.now ≡ mode_name mode) }
    ensures unknown { IfNone result ((mode : Mode) → name.now ≢ mode_name mode) }
{
    match name {
        "duplex" => Some(Mode::Duplex),
        "simplex" => Some(Mode::Simplex),
        "singleton" => Some(Mode::Singleton),
        _ => None,
    }
}

/// The mode that a value names, duplex without a value; None where the value names none.
pub fn mode_in(value: Option<&str>) -> Option<Mode>
    ensures named { IfSome result (IsMode (text_behind value.entry)) }
    ensures none { IfNone result ((mode : Mode) → ¬ IsMode (text_behind value.entry) mode) }
{
    match value {
        Some(name) => mode_named(name),
        None => Some(Mode::Duplex),
    }
}

// The encoding that this word names; None where it names none.
#[tactic(auto, using(crate::proofs::NumberFacts::seven, crate::proofs::NumberFacts::eight))]
fn encoding_named(name: &str) -> Option<Encoding>
    ensures named { IfSome result (λ encoding. name.now ≡ encoding_text encoding) }
    ensures unknown { IfNone result ((encoding : Encoding) → name.now ≢ encoding_text encoding) }
{
    match name {
        "7" => Some(Encoding::Known(Kind::Plain)),
        "8" => Some(Encoding::Known(Kind::Session)),
        "msbin1" => Some(Encoding::Extensible(Kind::Plain)),
        "msbinsession1" => Some(Encoding::Extensible(Kind::Session)),
        _ => None,
    }
}

/// The encoding that a value names, 8 without a value; None where the value names none.
pub fn encoding_in(value: Option<&str>) -> Option<Encoding>
    ensures named { IfSome result (IsEncoding (text_behind value.entry)) }
    ensures none { IfNone result ((encoding : Encoding)
        → ¬ IsEncoding (text_behind value.entry) encoding) }
{
    match value {
        Some(name) => encoding_named(name),
        None => Some(Encoding::Known(Kind::Session)),
    }
}
