//! How a side is read up to what begins its session.

ghost use Rattle.std.specs.Prelude.{◌≡◌};
ghost use Rattle.relay.specs.Beginning.{begun_at};
ghost use Rattle.relay.specs.Events.{is_fault};

use nbfx_encoder::Side;
use nbfx_values::{Kind, Mode};
use session_report::Event;
use stream_loop::EventHandler;

/// What begins a session.
#[derive(Clone, Copy, Drop)]
pub enum Begun {
    /// The front's preamble.
    Opened { mode: Mode, kind: Kind },
    /// The back's Ack.
    Accepted,
}

/// Waits for what begins the session that is written as one end, and stops the reading there.
#[derive(Clone, Copy, Drop)]
pub struct Beginning {
    pub(crate) side: Side,
    // Whether the last event was a Fault.
    pub(crate) faulted: bool,
}

/// Whether an event is a Fault.
pub(crate) fn is_fault(event: &Event) -> bool
    ensures { result ≡ is_fault event.now }
{
    matches!(event, Event::PeerFault { .. })
}

impl Beginning {
    // What an event begins.
    fn begun_at(&self, event: &Event) -> Option<Begun>
        ensures { result ≡ begun_at event.now self.now.side }
    {
        match (event, self.side) {
            (Event::Opened { mode, kind, .. }, Side::Initiator) => Some(Begun::Opened {
                mode: *mode,
                kind: *kind,
            }),
            (Event::Accepted, Side::Receiver) => Some(Begun::Accepted),
            _ => None,
        }
    }
}

impl EventHandler<Event, ()> for Beginning {
    ghost use Rattle.std.specs.Prelude.{◌≡◌, ◌++◌, false, ⊤};
    ghost use Rattle.nbfx_encoder.specs.declared.sender.Side.{Side as Written};
    ghost use Rattle.relay.specs.Beginning.{HasBegun, HasWaited};

    type Halt = Begun;

    ghost Settings = { Written };

    ghost settings = { λ beginning. beginning.side };

    ghost handled = { λ first paused since beginning now. HasWaited (paused ++ since) beginning };

    ghost halted = { λ first paused since at halt beginning now. HasBegun (paused ++ since) at halt
        beginning };

    ghost may_halt = { λ beginning. ⊤ };

    ghost may_wait = { λ beginning now. ⊤ };

    ghost ended = { λ output. false };

    ghost has_stopped = { λ beginning. ⊥ };

    ghost is_unput = { λ old new. ⊤ };

    fn handle(&mut self, event: Event, _output: &mut ()) -> Result<Option<Event>, Begun> {
        match self.begun_at(&event) {
            Some(begun) => Err(begun),
            None => {
                self.faulted = is_fault(&event);
                Ok(Some(event))
            }
        }
    }

    fn pause(&mut self, _output: &mut ()) -> Result<(), Begun> {
        Ok(())
    }
}
