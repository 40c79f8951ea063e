//! Texts and bytes.

ghost use Rattle.std.specs.Prelude.{◌≡◌, ◌<◌, [], ◌∷◌, IfNone, IfOk, IfSome, IsTrue, length, string_bytes};
ghost use Rattle.std.specs.Str.{is_utf8};
ghost use Rattle.nbfx_values.specs.Texts.{bytes_of};

use crate::copies::Copied;
use arrayvec::ArrayString;
use std::alloc::Global;
use std::fmt;
use std::marker::Model;
use unit_streams::Memory;

// A text of up to 16 bytes lies in the value itself, so that most names take no allocation.
#[derive(Drop)]
enum Letters {
    Short(ArrayString<16>),
    Long(String),
}

impl Letters {
    #[inline(never)]
    fn long(alloc: Global, text: &str) -> Result<Letters, Memory>
        ensures { IfOk result (λ letters. bytes_of letters ≡ text.now) }
    {
        Ok(Letters::Long(String::from_str(alloc, text)?))
    }

    #[inline]
    fn as_str(&self) -> &str
        ensures { result.now ≡ bytes_of self.now }
    {
        match self {
            Letters::Short(text) => text.as_str(),
            Letters::Long(text) => text.as_str(),
        }
    }
}

/// A text, which contracts see as the list of its UTF-8 bytes.
#[derive(Drop)]
pub struct Txt {
    letters: Letters,
}

impl Model for Txt {
    ghost use Rattle.std.specs.Prelude.{ℕ, List};
    ghost use Rattle.nbfx_values.specs.Texts.{bytes_of};

    ghost Value = { List ℕ };

    ghost view = { λ t. bytes_of t.letters };
}

impl Txt {
    /// The text with these characters, if they have at most 16 bytes, which lie in the value
    /// itself. It takes no memory.
    #[inline(always)]
    pub fn short(text: &str) -> Option<Txt>
        ensures same { IfSome result (λ t. t ≡ text.now) }
        ensures utf8 { IfSome result (λ t. IsTrue (is_utf8 t)) }
        ensures long { IfNone result (16 < length text.now) }
    {
        match ArrayString::from(text) {
            Ok(short) => Some(Txt {
                letters: Letters::Short(short),
            }),
            Err(_) => None,
        }
    }

    /// The text with these characters. It fails without memory for them.
    #[inline]
    pub fn of(alloc: Global, text: &str) -> Result<Txt, Memory>
        ensures same { IfOk result (λ t. t ≡ text.now) }
        ensures utf8 { IfOk result (λ t. IsTrue (is_utf8 t)) }
    {
        if let Some(short) = Txt::short(text) {
            return Ok(short);
        }
        Ok(Txt {
            letters: Letters::long(alloc, text)?,
        })
    }

    /// The text without characters.
    #[inline(always)]
    pub fn empty() -> Txt
        ensures same { result ≡ [] }
        ensures utf8 { IsTrue (is_utf8 result) }
    {
        let text = Txt {
            letters: Letters::Short(ArrayString::new()),
        };

        // Characters are UTF-8.
        let _characters = text.as_str();
        text
    }

    /// The text of one ASCII character.
    #[inline(always)]
    pub fn of_ascii(character: u8) -> Txt
        requires { character < 128 }
        ensures same { result ≡ character ∷ [] }
        ensures utf8 { IsTrue (is_utf8 result) }
    {
        let mut letters = ArrayString::new();
        letters.push(character as char);
        let text = Txt {
            letters: Letters::Short(letters),
        };

        // Characters are UTF-8.
        let _characters = text.as_str();
        text
    }

    /// The same text, if it has at most 16 bytes, which lie in the value itself. It takes no
    /// memory.
    #[inline(always)]
    pub fn short_copy(&self) -> Option<Txt>
        ensures same { IfSome result (λ t. t ≡ self.now) }
        ensures utf8 { IfSome result (λ t. IsTrue (is_utf8 t)) }
        ensures long { IfNone result (16 < length self.now) }
    {
        // Characters are UTF-8.
        let _characters = self.as_str();
        match &self.letters {
            Letters::Short(text) => Some(Txt {
                letters: Letters::Short(*text),
            }),
            Letters::Long(text) if text.len() <= 16 => short_of(text),
            Letters::Long(_) => None,
        }
    }

    // Whether the bytes are UTF-8, as those of every text are.
    pub(crate) fn check(&self) -> bool
        ensures { result ≡ is_utf8 self.now }
    {
        let _text = self.as_str();
        true
    }

    /// The characters of the text.
    #[inline]
    pub fn as_str(&self) -> &str
        ensures same { result.now ≡ self.now }
        ensures utf8 { IsTrue (is_utf8 self.now) }
    {
        self.letters.as_str()
    }

    /// How many bytes the text has.
    #[inline]
    pub fn len(&self) -> usize
        ensures { result ≡ length self.now }
    {
        match &self.letters {
            Letters::Short(text) => text.len(),
            Letters::Long(text) => text.len(),
        }
    }
}

// Equal texts are shown alike, wherever they lie.
impl fmt::Debug for Txt {
    fn fmt<W: fmt::Write>(&self, f: &mut fmt::Formatter<W>) -> fmt::Result {
        fmt::Debug::fmt(&self.as_str(), f)
    }
}

impl From<String> for Txt {
    ghost from_gives = { λ text t. t ≡ string_bytes text };

    fn from(text: String) -> Txt {
        Txt {
            letters: Letters::Long(text),
        }
    }
}

impl Copied for Txt {
    fn copy(&self) -> Result<Txt, Memory> {
        Ok(Txt {
            letters: match &self.letters {
                Letters::Short(text) => Letters::Short(*text),
                Letters::Long(text) => Letters::Long(text.clone()?),
            },
        })
    }
}

// Few texts that lie apart are short, so this is kept out of the way of the others.
#[inline(never)]
fn short_of(text: &String) -> Option<Txt>
    ensures same { IfSome result (λ t. t ≡ string_bytes text.now) }
    ensures utf8 { IfSome result (λ t. IsTrue (is_utf8 t)) }
    ensures long { IfNone result (16 < length (string_bytes text.now)) }
{
    Txt::short(text.as_str())
}

/// A list of bytes, which contracts see as that list.
#[derive(Debug, Drop)]
pub struct Blob {
    bytes: Vec<u8>,
}

impl Model for Blob {
    ghost use Rattle.std.specs.Prelude.{ℕ, List};

    ghost Value = { List ℕ };

    ghost view = { λ b. b.bytes.items };
}

impl Blob {
    /// The list of these bytes. It fails without memory for them.
    pub fn of(alloc: Global, bytes: &[u8]) -> Result<Blob, Memory>
        ensures same { IfOk result (λ b. b ≡ bytes.now) }
    {
        Ok(Blob {
            bytes: Vec::from_slice(alloc, bytes)?,
        })
    }

    /// The bytes.
    pub fn as_slice(&self) -> &[u8]
        ensures { result.now ≡ self.now }
    {
        self.bytes.as_slice()
    }
}

impl From<Vec<u8>> for Blob {
    ghost from_gives = { λ bytes b. b ≡ bytes.items };

    fn from(bytes: Vec<u8>) -> Blob {
        Blob { bytes }
    }
}

impl Copied for Blob {
    fn copy(&self) -> Result<Blob, Memory> {
        Ok(Blob {
            bytes: self.bytes.clone()?,
        })
    }
}
