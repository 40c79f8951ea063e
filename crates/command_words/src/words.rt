// What the arguments ask for.
ghost use Rattle.std.specs.Prelude.{map, string_bytes, IfOk, IsErrOf};
ghost use Rattle.command_words.specs.Asking.{asked_of};
ghost use Rattle.command_words.specs.Requests.{Asked, IsRequest};

use crate::action::action_of;
use crate::judged::judged;
use crate::parsed::parsed;
use crate::request::Request;
use std::alloc::Global;

/// Why arguments ask for nothing.
#[derive(Clone, Copy, Debug, PartialEq, Eq)]
pub enum WordsFault {
    /// They aren't valid.
    NotUnderstood,
    /// Out of memory.
    Memory,
}

/// What the arguments ask for, of which the first is the program's name. It fails with
/// `NotUnderstood` where they aren't valid, or without memory.
pub fn read<'w>(alloc: Global, words: &'w [String]) -> Result<Request<'w>, WordsFault>
    ensures understood { IfOk result (λ request.
        IsRequest (map string_bytes words.entry.now) (asked_of request)) }
    ensures refused { IsErrOf result WordsFault.NotUnderstood → (asked : Asked)
        → ¬ IsRequest (map string_bytes words.entry.now) asked }
{
    let [_, command, options @ ..] = words else {
        return Err(WordsFault::NotUnderstood);
    };
    let Some(action) = action_of(command.as_str()) else {
        return Err(WordsFault::NotUnderstood);
    };
    let matches = parsed(alloc, action, options)?;
    match judged(action, &matches) {
        Some(request) => Ok(request),
        None => Err(WordsFault::NotUnderstood),
    }
}
