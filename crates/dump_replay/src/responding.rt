//! The service that answers requests, by what the arguments ask for.

ghost use Rattle.std.specs.Prelude.{◌≡◌, Some, IfErr, IfOk};
ghost use Rattle.io_edges.specs.Faults.{CountsFaults};
ghost use Rattle.io_edges.specs.Files.{Tells};
ghost use Rattle.stream_reader.specs.Sides.{endpoint_of};
ghost use Rattle.duplex_server.specs.Responding.{reading_actions};
ghost use Rattle.command_words.specs.Asking.{serving_of};
ghost use Rattle.command_words.specs.Values.{text_behind};
ghost use Rattle.dump_replay.specs.Answering.{IsAskedFor};
ghost use Rattle.dump_replay.specs.Responding.{HasFailed};
ghost use Rattle.dump_replay.specs.Running.{HasFetched, if_named};

use action_dispatch::ActionKind;
use command_words::Serving;
use duplex_server::{Responder, read_actions};
use io_edges::{FileFault, Shelf};
use nbfx_values::Txt;
use receiver_machine::Endpoint;
use std::alloc::Global;
use unit_streams::Memory;

/// A file of actions that isn't read, and why.
#[derive(Clone, Copy, Debug)]
pub struct UnreadActions<'w> {
    /// The name that the arguments give.
    pub name: &'w str,
    /// Why it isn't read.
    pub fault: FileFault<ActionKind>,
}

/// The only Via that is served, or any. It fails without memory for it.
pub fn endpoint_in(alloc: Global, served: Option<&str>) -> Result<Endpoint, Memory>
    ensures { IfOk result (λ endpoint. endpoint_of endpoint ≡ text_behind served.entry) }
{
    match served {
        Some(via) => Ok(Endpoint::Only(Txt::of(alloc, via)?)),
        None => Ok(Endpoint::Any),
    }
}

/// The service that is asked for: the echo, or the texts of the shelf's file of actions. It fails
/// where that file isn't read.
pub fn responder_in<'w, F: Shelf>(
    alloc: Global,
    serving: Serving<'w>,
    shelf: &mut F,
) -> Result<Responder, UnreadActions<'w>>
    ensures found { IfOk result
        (IsAskedFor (F.files shelf.old) (serving_of serving.entry).actions) }
    ensures unread { IfErr result (λ unread.
        ((serving_of serving.entry).actions ≡ Some unread.name.now)
        × Tells reading_actions (F.files shelf.old) unread.name.now unread.fault) }
    ensures kept { F.files shelf.new ≡ F.files shelf.old }
    ensures fetched { HasFetched (if_named (serving_of serving.entry).actions)
        (F.fetches shelf.old) (F.fetches shelf.new) }
    ensures counted { CountsFaults (F.faults shelf.old) (F.faults shelf.new) (HasFailed result) }
{
    let Some(name) = serving.actions else {
        return Ok(Responder::Echo);
    };
    match read_actions(alloc, shelf, name) {
        Ok(texts) => Ok(texts),
        Err(fault) => Err(UnreadActions { name, fault }),
    }
}
