//! A reporter as what handles the events of a stream.

ghost use Rattle.std.specs.Prelude.{◌≡◌, ℕ, [], ⊤, true};

use crate::{EventHandler, Reporter};
use io_edges::{Sink, SinkFault};
use std::marker::PhantomData;

/// A reporter that stops the reading where the output fails.
#[derive(Drop)]
pub struct Reporting<'t, R, T> {
    pub reporter: &'t mut T,
    pub refusals: PhantomData<R>,
}

impl<'t, Event: Drop, R, T: Reporter<Event, R>, K: Sink> EventHandler<Event, K>
    for Reporting<'t, R, T> {
    ghost use Rattle.unit_streams.specs.Tellers.{Teller};
    ghost use Rattle.stream_loop.specs.Report.{HasFailed, HasPut};

    type Halt = SinkFault;

    ghost Settings = { Teller T.State Event R × ℕ };

    ghost settings = { λ r. (T.rules r.reporter.now, r.reporter.ghost_name) };

    ghost handled = { λ first paused since r now. HasPut (T.rules r.reporter.now) (K.view first)
        paused since (T.state r.reporter.now) (K.view now) };

    ghost halted = { λ first paused since at fault r now. HasFailed (T.rules r.reporter.now)
        (K.view first) paused since at fault (K.view now) };

    ghost may_halt = { λ r. ⊤ };

    ghost may_wait = { λ r now. (K.view now).held ≡ [] };

    ghost ended = { λ sink. true };

    ghost has_stopped = { λ r. ⊥ };

    ghost is_unput = { λ old new. ⊤ };

    fn handle(&mut self, event: Event, output: &mut K) -> Result<Option<Event>, SinkFault> {
        self.reporter.put_event(&event, output)?;
        Ok(Some(event))
    }

    fn pause(&mut self, output: &mut K) -> Result<(), SinkFault> {
        output.flush()
    }
}
