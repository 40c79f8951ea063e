//! What writes about a stream.

ghost use Rattle.std.specs.Prelude.{◌≡◌, ⊤, List, OnOk};
ghost use Rattle.io_edges.specs.Puts.{Puts};
ghost use Rattle.unit_streams.specs.Tellers.{Teller};

use io_edges::{Sink, SinkFault};

/// What writes about a stream: of each event as it comes, and at the end.
///
/// It sees events as a [`ReadingEnd`](crate::ReadingEnd) says them. It takes no memory of its own:
/// a call can run out of memory only where the output can.
pub trait Reporter<Event, Refusal> {
    /// What is remembered of the events so far.
    ghost State: { Type 0 };

    /// What is written of an event and at the end, and what is remembered then.
    ghost rules: { Self → Teller State Event Refusal };

    /// What it remembers.
    ghost state: { Self → State };

    /// Puts what is written of an event. It fails as the output does.
    fn put_event<K: Sink>(&mut self, event: &Event, output: &mut K) -> Result<(), SinkFault>
        ensures puts { Puts (K.view output.old) (K.view output.new)
            ((rules self.old).told (state self.old) event.now) result }
        ensures next { OnOk result (state self.new
            ≡ (rules self.old).next (state self.old) event.now) }
        ensures rules { rules self.new ≡ rules self.old };

    /// Puts what is written at the end: of the refusal, or of a stream that ended as it may. It
    /// fails as the output does.
    fn put_ending<K: Sink>(
        &mut self,
        refusal: &Option<Refusal>,
        output: &mut K,
    ) -> Result<(), SinkFault>
        ensures puts { Puts (K.view output.old) (K.view output.new)
            ((rules self.old).ends (state self.old) refusal.now) result }
        ensures state { state self.new ≡ state self.old }
        ensures rules { rules self.new ≡ rules self.old };
}
