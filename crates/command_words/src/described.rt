// The description of a command for `clap`.
ghost use Rattle.std.specs.Prelude.{◌≡◌, IfOk};
ghost use Rattle.clap.specs.Simple.{app_of};
ghost use Rattle.command_words.specs.Commands.{word_of};
ghost use Rattle.command_words.specs.WordAnswers.{app_for, app_without_options, with_option};

use crate::action::{Action, options_of, word_of};
use crate::option_name::{OptionName, option_text};
use clap::{Arg, Command};
use std::alloc::{AllocError, Global};

// A command without options. It is given the words after the command, and has no flag for help.
fn without_options<'w>(alloc: Global, action: Action) -> Command<'w>
    ensures { app_of result ≡ app_without_options (word_of action) }
{
    let name: &'w str = word_of(action);
    Command::new(alloc, name)
        .no_binary_name(true)
        .disable_help_flag(true)
}

// The command with one option more, which takes one value as text.
fn with_option<'w>(
    alloc: Global,
    command: Command<'w>,
    option: OptionName,
) -> Result<Command<'w>, AllocError>
    ensures { IfOk result (λ more. app_of more ≡ with_option (app_of command.entry) option) }
{
    let name: &'w str = option_text(option);
    command.arg(Arg::new(alloc, name).long(name))
}

/// The command with its options, as `clap` takes it. It fails without memory for it.
pub fn described<'w>(alloc: Global, action: Action) -> Result<Command<'w>, AllocError>
    ensures { IfOk result (λ command. app_of command ≡ app_for action) }
{
    let mut command = without_options(alloc, action);
    for option in options_of(action) {
        command = with_option(alloc, command, *option)?;
    }
    Ok(command)
}
