// The options of a command, as clap reads them.
ghost use Rattle.std.specs.Prelude.{◌≡◌, ◌≢◌, ◌↔◌, All, Any, IfOk, IsErrOf, IsTrue, List, [], map, Some, string_bytes};
ghost use Rattle.std.specs.Bool.{OnFalse, OnTrue};
ghost use Rattle.clap.specs.Values.{kind_of};
ghost use Rattle.command_words.specs.Commands.{options_of};
ghost use Rattle.command_words.specs.Options.{Given};
ghost use Rattle.command_words.specs.WordAnswers.{HasFound, HasTaken, IsLoneHyphens, IsReadable, found_values};
ghost use Rattle.command_words.specs.Values.{text_behind};
ghost use Rattle.command_words.specs.Requests.{GiveOptions};

use crate::action::{Action, options_of};
use crate::described::described;
use crate::option_name::{OptionName, option_text};
use crate::words::WordsFault;
use clap::error::ErrorKind;
use clap::{ArgMatches, Error};
use std::alloc::Global;

// Whether a word is one or two hyphens alone, which `clap` treats specially.
fn is_lone(word: &str) -> bool
    ensures { IsTrue result ↔ IsLoneHyphens word.now }
{
    word == "-" || word == "--"
}

// Whether no word is hyphens alone.
fn are_readable(words: &[String]) -> bool
    ensures readable { OnTrue result (All (λ word. IsReadable (string_bytes word)) words.now) }
    ensures lone { OnFalse result (Any (λ word. IsLoneHyphens (string_bytes word)) words.now) }
{
    for word in words {
        if is_lone(word.as_str()) {
            return false;
        }
    }
    true
}

// What an error of clap means.
fn fault_of(error: &Error) -> WordsFault
    ensures { (result ≡ WordsFault.Memory) ↔ (kind_of error.now ≡ ErrorKind.OutOfMemory) }
{
    match error.kind() {
        ErrorKind::OutOfMemory => WordsFault::Memory,
        _ => WordsFault::NotUnderstood,
    }
}

/// The value that an option was given; None where it wasn't given.
pub fn given_for<'w>(matches: &ArgMatches<'w>, option: OptionName) -> Option<&'w str>
    ensures { text_behind result ≡ found_values matches.now option }
{
    matches.get_str(option_text(option))
}

// What clap takes of the words, whether values are empty or not.
fn taken<'w>(
    alloc: Global,
    action: Action,
    words: &'w [String],
) -> Result<ArgMatches<'w>, WordsFault>
    ensures taken { IfOk result (HasTaken action (map string_bytes words.entry.now)) }
    ensures refused { IsErrOf result WordsFault.NotUnderstood → (given : List Given)
        → ¬ GiveOptions action (map string_bytes words.entry.now) given }
{
    if !are_readable(words) {
        return Err(WordsFault::NotUnderstood);
    }
    let Ok(command) = described(alloc, action) else {
        return Err(WordsFault::Memory);
    };
    match command.try_get_matches_from(words) {
        Ok(matches) => Ok(matches),
        Err(error) => Err(fault_of(&error)),
    }
}

// Whether there is a value, and it is empty.
fn is_empty(value: Option<&str>) -> bool
    ensures { IsTrue result ↔ (text_behind value.entry ≡ Some []) }
{
    match value {
        Some(text) => text.is_empty(),
        None => false,
    }
}

// Whether no option of a command was given an empty value.
fn have_values(action: Action, matches: &ArgMatches<'_>) -> bool
    ensures full { OnTrue result
        (All (λ option. found_values matches.now option ≢ Some []) (options_of action)) }
    ensures empty { OnFalse result
        (Any (λ option. found_values matches.now option ≡ Some []) (options_of action)) }
{
    for option in options_of(action) {
        if is_empty(given_for(matches, *option)) {
            return false;
        }
    }
    true
}

/// The options of a command, with their values, out of the words after the command. It fails where
/// the words aren't options that the command has, each once and with a value, or without memory.
pub fn parsed<'w>(
    alloc: Global,
    action: Action,
    words: &'w [String],
) -> Result<ArgMatches<'w>, WordsFault>
    ensures found { IfOk result (HasFound action (map string_bytes words.entry.now)) }
    ensures refused { IsErrOf result WordsFault.NotUnderstood → (given : List Given)
        → ¬ GiveOptions action (map string_bytes words.entry.now) given }
{
    let matches = taken(alloc, action, words)?;
    if !have_values(action, &matches) {
        return Err(WordsFault::NotUnderstood);
    }
    Ok(matches)
}
