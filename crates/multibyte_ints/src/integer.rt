//! One integer after the other, byte by byte.

ghost use Rattle.std.specs.Prelude.{◌≡◌, ℕ, ◌^◌, ◌<◌, ◌≤◌, ◌↔◌, List, [], ◌∷◌, ◌++◌};
ghost use Rattle.multibyte_ints.specs.Integer.{Spells};
ghost use Rattle.multibyte_ints.specs.IntState.{count_of, sum_of};

/// A greater fifth byte would take an integer past 31 bits.
const GREATEST_FIFTH: u8 = 7;

/// What a byte did to the integer that is being read.
#[derive(Clone, Copy, Debug, PartialEq, Eq)]
pub enum IntStep {
    /// Further bytes follow.
    More,
    /// The integer is complete.
    Done(u32),
    /// A fifth byte was above 7, now or earlier: no integer begins so.
    Bad,
}

/// What there is of the integer that is read.
#[derive(Clone, Copy, Debug, PartialEq, Eq)]
enum State {
    /// So many bytes, which add up to the value.
    Within { count: u8, value: u32 },
    /// No integer: a byte was refused.
    Refused,
}

/// Reads integers (MultiByteInt31 of MC-NBFX) byte by byte, each of them in whatever spelling it
/// comes.
#[derive(Debug, Drop)]
pub struct IntReader {
    state: State,
    ghost few: { count_of state ≤ 4 },
    ghost below: { sum_of state < 128 ^ count_of state },
}

impl IntReader {
    ghost use Rattle.multibyte_ints.specs.Reader.{StandsFor, AnswersAt, since};

    /// A reader before the first byte.
    pub fn new() -> IntReader
        ensures { StandsFor result [] }
    {
        IntReader {
            state: State::Within { count: 0, value: 0 },
        }
    }

    /// Takes one byte. After `Done` the next byte begins an integer; after `Bad` each byte is
    /// `Bad`.
    pub fn feed(&mut self, b: u8) -> IntStep
        ensures answers { (p : List ℕ) → StandsFor self.old p → AnswersAt (p ++ b ∷ []) result }
        ensures done { (p : List ℕ) (n : ℕ) → StandsFor self.old p
            → (result ≡ IntStep.Done n) ↔ Spells n (p ++ b ∷ []) }
        ensures stands { (p : List ℕ) → StandsFor self.old p
            → StandsFor self.new (since result (p ++ b ∷ [])) }
    {
        let State::Within { count, value } = self.state else {
            return IntStep::Bad;
        };
        if count == 4 && b > GREATEST_FIFTH {
            self.state = State::Refused;
            return IntStep::Bad;
        }
        let sum = value + (b % 128) as u32 * 128u32.pow(count as u32);
        if b < 128 {
            *self = IntReader::new();
            return IntStep::Done(sum);
        }
        self.state = State::Within {
            count: count + 1,
            value: sum,
        };
        IntStep::More
    }
}
