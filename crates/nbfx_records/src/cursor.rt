//! The smallest parts of a record. Each function reads one from an offset on, and answers it with
//! the offset after it; or it says that the bytes end within the part, or what is wrong with it.

ghost use Rattle.std.specs.Prelude.{◌≡◌, ◌^◌, ◌<◌, ◌≤◌, IfOk, length};
ghost use Rattle.unit_streams.specs.Parts.{a_byte, some_bytes};
ghost use Rattle.nbfx_records.specs.Asked as asked;
ghost use Rattle.nbfx_records.specs.Cursor.{Tells};
ghost use Rattle.nbfx_records.specs.Shapes.{a_string, an_integer};

use crate::nodes::RecordFault;
use multibyte_ints::{IntReader, IntStep};

/// Why no complete part was read.
#[derive(Clone, Copy, Debug, PartialEq, Eq)]
pub enum Stop {
    /// The bytes end within it. So many bytes in all are wanted at least.
    More { wants: usize },
    /// It is wrong, which the first `shown_by` bytes show.
    Fault { fault: RecordFault, shown_by: usize },
}

/// The error that so many bytes show this fault.
#[inline(always)]
pub fn fault<T>(fault: RecordFault, shown_by: usize) -> Result<T, Stop>
    ensures { result ≡ Err (Stop.Fault fault shown_by) }
{
    Err(Stop::Fault { fault, shown_by })
}

/// Reads a byte.
#[inline(always)]
pub fn byte_at(bytes: &[u8], at: usize) -> Result<(u8, usize), Stop>
    requires { at ≤ length bytes.now }
    ensures { Tells (λ byte. byte) a_byte asked.a_byte bytes.now at result }
{
    if at == bytes.len() {
        return Err(Stop::More { wants: at + 1 });
    }
    Ok((bytes[at], at + 1))
}

/// Reads `count` bytes.
#[inline(always)]
pub fn bytes_at(bytes: &[u8], at: usize, count: usize) -> Result<(&[u8], usize), Stop>
    requires within { at ≤ length bytes.now }
    requires few { count < 2 ^ 62 }
    ensures tells { Tells (λ part. part.now) (some_bytes count)
        (asked.some_bytes count) bytes.now at result }
    ensures size { IfOk result (λ read. length read.0.now ≡ count) }
{
    let to = at + count;
    if bytes.len() < to {
        return Err(Stop::More { wants: to });
    }
    Ok((&bytes[at..to], to))
}

/// Reads a MultiByteInt31. Most have one byte.
#[inline(always)]
pub fn integer_at(bytes: &[u8], from: usize) -> Result<(u32, usize), Stop>
    requires { from ≤ length bytes.now }
    ensures tells { Tells (λ n. n) an_integer
        asked.an_integer bytes.now from result }
    ensures small { IfOk result (λ read. read.0 < 2 ^ 31) }
{
    if from < bytes.len() && bytes[from] < 128 {
        return Ok((bytes[from] as u32, from + 1));
    }
    any_integer_at(bytes, from)
}

// An integer of any number of bytes.
#[inline(never)]
fn any_integer_at(bytes: &[u8], from: usize) -> Result<(u32, usize), Stop>
    requires { from ≤ length bytes.now }
    ensures tells { Tells (λ n. n) an_integer
        asked.an_integer bytes.now from result }
    ensures small { IfOk result (λ read. read.0 < 2 ^ 31) }
{
    let mut reader = IntReader::new();
    for at in from..bytes.len() {
        match reader.feed(bytes[at]) {
            IntStep::More => {}
            IntStep::Done(n) => return Ok((n, at + 1)),
            IntStep::Bad => {
                return Err(Stop::Fault {
                    fault: RecordFault::BadInt,
                    shown_by: at + 1,
                });
            }
        }
    }
    Err(Stop::More {
        wants: bytes.len() + 1,
    })
}

/// Reads a String, whose text isn't judged.
#[inline(always)]
pub fn string_at(bytes: &[u8], from: usize) -> Result<(&[u8], usize), Stop>
    requires { from ≤ length bytes.now }
    ensures { Tells (λ part. part.now) a_string asked.a_string bytes.now from result }
{
    let (count, at) = integer_at(bytes, from)?;
    bytes_at(bytes, at, count as usize)
}
