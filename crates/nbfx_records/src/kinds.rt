//! What the type bytes of MC-NBFX's records begin.

/// The kind of a text record: its name in MC-NBFX is the variant's with `Text` after it.
#[derive(Clone, Copy, Debug, PartialEq, Eq)]
pub enum TextKind {
    Zero,
    One,
    False,
    True,
    Int8,
    Int16,
    Int32,
    Int64,
    Float,
    Double,
    Decimal,
    DateTime,
    Chars8,
    Chars16,
    Chars32,
    Bytes8,
    Bytes16,
    Bytes32,
    StartList,
    EndList,
    Empty,
    Dictionary,
    UniqueId,
    TimeSpan,
    Uuid,
    UInt64,
    Bool,
    UnicodeChars8,
    UnicodeChars16,
    UnicodeChars32,
    QNameDictionary,
}

/// How a record spells its prefix.
#[derive(Clone, Copy, Debug, PartialEq, Eq)]
pub enum PrefixForm {
    /// It has no prefix.
    Unprefixed,
    /// The type byte implies a prefix of one letter, which is this one in ASCII.
    Lettered(u8),
    /// The prefix is a String.
    Prefixed,
}

/// How a record spells its name, or its URI.
#[derive(Clone, Copy, Debug, PartialEq, Eq)]
pub enum NameForm {
    /// As a String.
    Inlined,
    /// As a DictionaryString, which is an identifier.
    Identified,
}

/// What a type byte begins.
#[derive(Clone, Copy, Debug, PartialEq, Eq)]
pub enum RecordKind {
    /// EndElement.
    EndElement,
    /// Comment.
    Comment,
    /// Array.
    Array,
    /// An attribute, by the forms of its prefix and its name.
    Attribute(PrefixForm, NameForm),
    /// The declaration of a prefix (an Xmlns record), by the forms of the prefix and the URI.
    Declaration(PrefixForm, NameForm),
    /// An element, by the forms of its prefix and its name.
    Element(PrefixForm, NameForm),
    /// A text of this kind, and whether it ends the element that holds it.
    Text(TextKind, bool),
}

/// How many bytes the length of a text has.
#[derive(Clone, Copy, Debug, PartialEq, Eq)]
pub enum LengthForm {
    /// One, unsigned: Chars8, Bytes8, UnicodeChars8.
    OneByte,
    /// Two, unsigned: Chars16, Bytes16, UnicodeChars16.
    TwoBytes,
    /// Four, signed and not negative: Chars32, Bytes32, UnicodeChars32.
    FourBytes,
}

/// What follows the type byte of a text record.
#[derive(Clone, Copy, Debug, PartialEq, Eq)]
pub enum Body {
    /// So many bytes.
    Fixed(u8),
    /// A length in this form, and as many bytes as it says.
    Counted(LengthForm),
    /// An identifier.
    Named,
    /// A letter and an identifier.
    Qualified,
    /// Text records, and then the end of the list.
    Listed,
    /// Nothing: it is itself the end of a list.
    Ending,
}

/// The kinds in the order of their type bytes, which are the even ones from 0x80 on.
pub const TEXT_KINDS: [TextKind; 31] = [
    TextKind::Zero,
    TextKind::One,
    TextKind::False,
    TextKind::True,
    TextKind::Int8,
    TextKind::Int16,
    TextKind::Int32,
    TextKind::Int64,
    TextKind::Float,
    TextKind::Double,
    TextKind::Decimal,
    TextKind::DateTime,
    TextKind::Chars8,
    TextKind::Chars16,
    TextKind::Chars32,
    TextKind::Bytes8,
    TextKind::Bytes16,
    TextKind::Bytes32,
    TextKind::StartList,
    TextKind::EndList,
    TextKind::Empty,
    TextKind::Dictionary,
    TextKind::UniqueId,
    TextKind::TimeSpan,
    TextKind::Uuid,
    TextKind::UInt64,
    TextKind::Bool,
    TextKind::UnicodeChars8,
    TextKind::UnicodeChars16,
    TextKind::UnicodeChars32,
    TextKind::QNameDictionary,
];
