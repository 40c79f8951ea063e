//! What holds of answers by their definition alone. The function does nothing: its contract is a
//! law, which a caller has where it calls the function.

ghost use Rattle.action_dispatch.specs.Laws.{AsksTheService};

/// A request that is to be served is answered by what the service says to its action and to the
/// content of its Body, whatever their size. That an answer doesn't fit is judged when it is sent.
pub fn services()
    ensures { AsksTheService }
{}
