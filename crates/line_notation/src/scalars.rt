// One value, as words.
ghost use Rattle.std.specs.Prelude.{◌≡◌};
ghost use Rattle.line_notation.specs.Scalars as spec;

/// The kind of a value that is no list, which the first word of the value names.
#[derive(Clone, Copy, Debug, PartialEq, Eq)]
pub enum ScalarKind {
    Number,
    Truth,
    Float,
    Double,
    Decimal,
    DateTime,
    TimeSpan,
    Text,
    Bytes,
    UniqueId,
    Uuid,
    QName,
}

impl ScalarKind {
    const ALL: [ScalarKind; 12] = [
        ScalarKind::Number,
        ScalarKind::Truth,
        ScalarKind::Float,
        ScalarKind::Double,
        ScalarKind::Decimal,
        ScalarKind::DateTime,
        ScalarKind::TimeSpan,
        ScalarKind::Text,
        ScalarKind::Bytes,
        ScalarKind::UniqueId,
        ScalarKind::Uuid,
        ScalarKind::QName,
    ];

    /// The word that names the kind.
    pub fn word(self) -> &'static str
        ensures { result.now ≡ spec.scalar_kind_word self }
    {
        match self {
            ScalarKind::Number => "number",
            ScalarKind::Truth => "truth",
            ScalarKind::Float => "float",
            ScalarKind::Double => "double",
            ScalarKind::Decimal => "decimal",
            ScalarKind::DateTime => "datetime",
            ScalarKind::TimeSpan => "timespan",
            ScalarKind::Text => "string",
            ScalarKind::Bytes => "bytes",
            ScalarKind::UniqueId => "id",
            ScalarKind::Uuid => "uuid",
            ScalarKind::QName => "qname",
        }
    }

    /// The kind that a word names, if it names one.
    pub fn of(word: &[u8]) -> Option<ScalarKind>
        ensures { result ≡ spec.scalar_kind_in word.now }
    {
        ScalarKind::ALL
            .iter()
            .copied()
            .find(|kind| kind.word().as_bytes() == word)
    }
}
