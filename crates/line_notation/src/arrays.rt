// The words that name kinds of arrays.
ghost use Rattle.std.specs.Prelude.{◌≡◌};
ghost use Rattle.line_notation.specs.Forms.{array_kind_in, array_kind_word};

use nbfx_values::ArrayKind;

const ALL: [ArrayKind; 10] = [
    ArrayKind::Bool,
    ArrayKind::Int16,
    ArrayKind::Int32,
    ArrayKind::Int64,
    ArrayKind::Float,
    ArrayKind::Double,
    ArrayKind::Decimal,
    ArrayKind::DateTime,
    ArrayKind::TimeSpan,
    ArrayKind::Uuid,
];

/// The word that names this kind of array in a line.
pub fn array_kind_word(kind: ArrayKind) -> &'static str
    ensures { result.now ≡ array_kind_word kind }
{
    match kind {
        ArrayKind::Bool => "bool",
        ArrayKind::Int16 => "int16",
        ArrayKind::Int32 => "int32",
        ArrayKind::Int64 => "int64",
        ArrayKind::Float => "float",
        ArrayKind::Double => "double",
        ArrayKind::Decimal => "decimal",
        ArrayKind::DateTime => "datetime",
        ArrayKind::TimeSpan => "timespan",
        ArrayKind::Uuid => "uuid",
    }
}

/// The kind of array that a word names, if it names one.
pub fn array_kind(word: &[u8]) -> Option<ArrayKind>
    ensures { result ≡ array_kind_in word.now }
{
    ALL.iter()
        .copied()
        .find(|kind| array_kind_word(*kind).as_bytes() == word)
}
