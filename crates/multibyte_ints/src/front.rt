//! The integer at the front of some bytes.

ghost use Rattle.multibyte_ints.specs.AtFront.{StandsAtFront};

use crate::integer::{IntReader, IntStep};

/// What stands at the front of some bytes, read as a MultiByteInt31 of MC-NBFX.
#[derive(Clone, Copy, Debug, PartialEq, Eq)]
pub enum IntRead {
    /// The beginning of an integer.
    More,
    /// The integer `value`, in the first `used` bytes.
    Done { value: u32, used: usize },
    /// No integer: the fifth byte is above 7.
    Bad,
}

/// Reads the MultiByteInt31 of MC-NBFX at the front of the bytes, in whatever spelling it stands
/// there.
pub fn read_int(bytes: &[u8]) -> IntRead
    ensures { StandsAtFront bytes.now result }
{
    let mut reader = IntReader::new();
    for (at, byte) in bytes.iter().enumerate() {
        match reader.feed(*byte) {
            IntStep::More => {}
            IntStep::Done(value) => {
                return IntRead::Done {
                    value,
                    used: at + 1,
                };
            }
            IntStep::Bad => return IntRead::Bad,
        }
    }
    IntRead::More
}
