//! The strings of a payload's own table.

ghost use Rattle.std.specs.Prelude.{◌≡◌, ◌<◌, ◌≤◌, ◌^◌, Err};
ghost use Rattle.nbfx_decoder.specs.Units.{HeadStands, StringStands};

use crate::faults::{UnitFault, refused};
use multibyte_ints::{IntRead, read_int};
use nbfx_values::Reason;
use std::str;

/// What stands at the front of some bytes.
#[derive(Clone, Copy, Debug)]
pub(crate) enum StringRead<'a> {
    /// A string has begun, which needs at least so many bytes in all.
    More { wants: usize },
    /// A string of so many bytes.
    Done { text: &'a str, used: usize },
}

/// A length's place: how many bytes it has, and how many the text after it has.
#[derive(Clone, Copy, Debug)]
struct Head {
    used: usize,
    size: usize,
}

// The length of a string, if so many bytes of the table are left, and so much of the dictionary
// quota. None where it is incomplete.
fn head_at(bytes: &[u8], left: usize, room: usize) -> Result<Option<Head>, UnitFault>
    requires { 0 < left }
    ensures { HeadStands room left bytes.now result }
{
    let within = &bytes[..bytes.len().min(left)];
    match read_int(within) {
        IntRead::More if bytes.len() < left => Ok(None),
        IntRead::More => refused(Reason::TableCut, left),
        IntRead::Bad => refused(Reason::BadInt, 5),
        IntRead::Done { value, used } => {
            let size = value as usize;
            if size > left - used {
                return refused(Reason::TableCut, used);
            }
            if size.max(1) > room {
                return refused(Reason::DictionaryFull, used);
            }
            Ok(Some(Head { used, size }))
        }
    }
}

/// The string at the front of the bytes, of a table of which so many bytes are left, where the
/// dictionary quota admits so much more.
pub(crate) fn string_at(bytes: &[u8], left: usize, room: usize) -> Result<StringRead<'_>, UnitFault>
    requires { 0 < left }
    ensures { StringStands room left bytes.now result }
{
    let Some(head) = head_at(bytes, left, room)? else {
        return Ok(StringRead::More {
            wants: bytes.len() + 1,
        });
    };
    let used = head.used + head.size;
    if bytes.len() < used {
        return Ok(StringRead::More { wants: used });
    }
    match str::from_utf8(&bytes[head.used..used]) {
        Ok(text) => Ok(StringRead::Done { text, used }),
        Err(_) => refused(Reason::BadUtf8, used),
    }
}
