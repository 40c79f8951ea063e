// What one line says.
ghost use Rattle.std.specs.Prelude.{◌≡◌};
ghost use Rattle.line_notation.specs.Forms.{keyword_in, keyword_word};

use nbfx_values::{ArrayItem, Item, Values};

/// The first word of a line, which is the variant's name in lower case.
#[derive(Clone, Copy, Debug, PartialEq, Eq)]
pub enum Keyword {
    Start,
    Ns,
    Attr,
    Text,
    Comment,
    Array,
    Values,
    Close,
}

impl Keyword {
    const ALL: [Keyword; 8] = [
        Keyword::Start,
        Keyword::Ns,
        Keyword::Attr,
        Keyword::Text,
        Keyword::Comment,
        Keyword::Array,
        Keyword::Values,
        Keyword::Close,
    ];

    /// The keyword as a line has it.
    #[inline(always)]
    pub fn word(self) -> &'static str
        ensures { result.now ≡ keyword_word self }
    {
        match self {
            Keyword::Start => "start",
            Keyword::Ns => "ns",
            Keyword::Attr => "attr",
            Keyword::Text => "text",
            Keyword::Comment => "comment",
            Keyword::Array => "array",
            Keyword::Values => "values",
            Keyword::Close => "close",
        }
    }

    /// The keyword that a word is, if it is one.
    pub fn of(word: &[u8]) -> Option<Keyword>
        ensures { result ≡ keyword_in word.now }
    {
        Keyword::ALL
            .iter()
            .copied()
            .find(|keyword| keyword.word().as_bytes() == word)
    }
}

/// What a line says that has a form, and whose texts and values are ones that records can hold.
#[derive(Debug, Drop)]
pub enum Line {
    /// An item, other than an array.
    Item(Item),
    /// An array begins, which has no value yet.
    Array(ArrayItem),
    /// The values of the array that is open.
    Values(Values),
}
