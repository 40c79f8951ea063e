//! What holds of words by their definitions alone. The function does nothing: its contract is a
//! law, which a caller has where it calls the function.

ghost use Rattle.command_words.specs.Laws.{AskForOne};

/// Arguments parse in at most one way.
pub fn one_request()
    ensures { AskForOne }
{}
