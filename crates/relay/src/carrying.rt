//! How one direction is written.

ghost use Rattle.std.specs.Prelude.{◌≡◌, ◌++◌, ◌∷◌, [], List, ℕ, IfOk, true, false, None};
ghost use Rattle.io_edges.specs.Views.{SinkView};
ghost use Rattle.session_report.specs.declared.reading.Event.{Event as Heard};
ghost use Rattle.session_report.specs.declared.reading.Received.{Received as Envelope};
ghost use Rattle.std.specs.Option.{option_map};
ghost use Rattle.nbfx_encoder.specs.EncoderState.{Refuses};
ghost use Rattle.nbfx_encoder.specs.Refusals.{told};
ghost use Rattle.nbfx_encoder.specs.Sending.{kind_in, limits_in, names_in, state_in};
ghost use Rattle.nbfx_encoder.specs.Spelling.{encoded};
ghost use Rattle.nbfx_encoder.specs.declared.sender.SendState.{SendState};
ghost use Rattle.relay.specs.declared.beginning.Begun.{Begun as Halt};
ghost use Rattle.relay.specs.Beginning.{BeginsSo};
ghost use Rattle.stream_loop.specs.Writing.{Wrote};
ghost use Rattle.relay.specs.Carried.{Carries, Carrying, carried_by, carries, last_of};
ghost use Rattle.relay.specs.Events.{has_begun};
ghost use Rattle.relay.specs.Outcomes.{last_by, written_by};
ghost use Rattle.relay.specs.Relayed.{IsStopped};
ghost use Rattle.relay.specs.Writing.{HasCarried, HasPut, HasStopped, IsGoing, IsNamed};
ghost use Rattle.relay.specs.Writing.{carrying_by, carrying_of};

use crate::beginning::is_fault;
use crate::carrier::{Carrier, CarrySettings};
use crate::outcome::{Pump, PumpIn, written_by};
use io_edges::Sink;
use nbfx_encoder::{EncodeFault, SendFault, Sender};
use nbfx_values::Doc;
use nmf_records::record_types::END;
use session_report::Event;
use std::alloc::Global;
use stream_loop::{EventHandler, PartWriter};
use unit_streams::Memory;

impl<'s> Carrier<'s> {
    /// Opens the session: writes what was made for that, and what the sink holds. Where it can't be
    /// written, or there was no memory to make it, the sink's direction is ended.
    pub fn open<K: Sink>(
        alloc: Global,
        settings: CarrySettings<'s>,
        opening: Result<Vec<u8>, Memory>,
        sink: &mut K,
    ) -> Self
        ensures carried { (bytes : List ℕ) → IfOk opening (λ made. made.items ≡ bytes)
            → (events : List Heard) (halt : Halt)
            → BeginsSo settings.entry.side events halt
            → IsNamed (carrying_by settings.entry bytes) events
            → HasCarried (carrying_by settings.entry bytes) (K.view sink.old) events result
            (K.view sink.new) }
        ensures set { (bytes : List ℕ) → IfOk opening (λ made. made.items ≡ bytes)
            → IsGoing result → carrying_of result ≡ carrying_by settings.entry bytes }
    {
        let CarrySettings {
            side,
            statics,
            quotas,
            mode,
            kind,
        } = settings;
        let mut carrier = Carrier {
            sender: Sender::new(alloc, statics, quotas, kind, mode, side),
            opening: Vec::new(alloc),
            parts: PartWriter::new(alloc),
            unfit: None,
            faulted: false,
            over: false,
        };
        let Ok(bytes) = opening else {
            carrier.parts.run_out(sink);
            sink.end();
            return carrier;
        };
        carrier.parts.put_part(&bytes, sink);
        carrier.parts.pause(sink);
        carrier.opening = bytes;
        carrier
    }

    /// Whether more may be written.
    pub fn is_going(&self) -> bool
        ensures going { result ≡ true → IsGoing self.now }
        ensures stopped { result ≡ false → IsGoing self.now → ⊥ }
    {
        self.parts.outbound.is_going()
    }

    // Ends the writing since there was no memory for the next envelope, or notes why its document
    // doesn't fit.
    fn refuse<K: Sink>(&mut self, fault: EncodeFault, sink: &mut K)
        requires going { IsGoing self.old }
        requires fits { self.old.unfit ≡ None }
        ensures carried { (x : Carrying) (first : SinkView) (events : List Heard)
            (received : Envelope) → x ≡ carrying_of self.old
            → state_in self.old.sender ≡ SendState.Ready
            → Refuses (encoded (limits_in self.old.sender) (kind_in self.old.sender)
            (names_in self.old.sender) received.doc) fault
            → HasPut x first events self.old (K.view sink.old)
            → HasPut x first (events ++ Heard.Message received ∷ []) self.new (K.view sink.new) }
        ensures set { carrying_of self.new ≡ carrying_of self.old }
        ensures same_end { K.ended sink.new ≡ K.ended sink.old }
        ensures faulted { self.new.faulted ≡ self.old.faulted }
        ensures over { self.new.over ≡ self.old.over }
    {
        match fault {
            EncodeFault::Memory => self.parts.run_out(sink),
            unfit => self.unfit = Some(unfit),
        }
    }

    // Makes the envelope of a document, and gathers it. Where the document doesn't fit, that is
    // noted, and nothing more is gathered.
    fn carry<K: Sink>(&mut self, doc: &Doc, sink: &mut K)
        ensures carried { (x : Carrying) (first : SinkView) (events : List Heard)
            (received : Envelope) → received.doc ≡ doc.now → x ≡ carrying_of self.old
            → HasPut x first events self.old (K.view sink.old)
            → HasPut x first (events ++ Heard.Message received ∷ []) self.new (K.view sink.new) }
        ensures set { carrying_of self.new ≡ carrying_of self.old }
        ensures same_end { K.ended sink.new ≡ K.ended sink.old }
        ensures stopped { HasStopped self.old
            → HasStopped self.new × (K.view sink.new ≡ K.view sink.old) }
        ensures faulted { self.new.faulted ≡ self.old.faulted }
    {
        if !self.parts.outbound.is_going() || self.unfit.is_some() {
            return;
        }
        let before = self.parts.gathered.len();
        match self.sender.message(doc, &mut self.parts.gathered) {
            Ok(()) => self.parts.end_part(before, sink),
            Err(SendFault::Refused(fault)) => self.refuse(fault, sink),
            // The mode admits no envelope, and no stream has one.
            Err(SendFault::WrongMoment { .. }) => {}
        }
    }

    // Makes what is due for an event. The session was opened before.
    fn write_for<K: Sink>(&mut self, event: &Event, sink: &mut K)
        ensures carried { (x : Carrying) (first : SinkView) (events : List Heard)
            → x ≡ carrying_of self.old → HasPut x first events self.old (K.view sink.old)
            → HasPut x first (events ++ event.now ∷ []) self.new (K.view sink.new) }
        ensures set { carrying_of self.new ≡ carrying_of self.old }
        ensures same_end { K.ended sink.new ≡ K.ended sink.old }
        ensures stopped { HasStopped self.old
            → HasStopped self.new × (K.view sink.new ≡ K.view sink.old) }
        ensures faulted { self.new.faulted ≡ self.old.faulted }
    {
        match event {
            Event::Message(received) => self.carry(&received.doc, sink),
            _ => {}
        }
    }

    // The bytes that are written at last, where the reading ended so.
    fn last(&self, read: PumpIn) -> &'static [u8]
        ensures { result.now ≡ last_by read self.now.unfit }
    {
        match (read, self.unfit) {
            (PumpIn::Ended, None) => &[END],
            (PumpIn::Ended, Some(_)) => &[],
            (PumpIn::Offended(_), _) => &[],
            (PumpIn::PeerFault, _) => &[],
            (PumpIn::NotOpened, _) => &[],
            (PumpIn::ReadFault, _) => &[],
            (PumpIn::Memory, _) => &[],
        }
    }

    // Writes what is gathered, the last bytes and what the sink holds, unless the writing is over.
    fn close<K: Sink>(&mut self, read: PumpIn, sink: &mut K)
        ensures wrote { (x : Carrying) (first : SinkView) (events : List Heard)
            → HasPut x first events self.old (K.view sink.old)
            → Wrote (carries x) self.new.parts.outbound (last_of read (carried_by x events)) first
            events (λ s. self.new.parts.whole ≡ s.documents) (K.view sink.new) }
        ensures fits { (x : Carrying) (first : SinkView) (events : List Heard)
            → HasPut x first events self.old (K.view sink.old) → IsGoing self.new
            → self.new.unfit ≡ option_map told (carried_by x events).unfit }
        ensures stopped { (IsGoing self.old → ⊥) → IsGoing self.new → ⊥ }
    {
        if !self.parts.outbound.is_going() {
            return;
        }
        let last = self.last(read);
        self.parts.close(last, sink);
    }

    // What became of the direction, where the reading ended so.
    fn pump(&self, read: PumpIn) -> Pump
        ensures documents { result.documents ≡ self.now.parts.whole }
        ensures read { result.read ≡ read }
        ensures written { result.written
            ≡ written_by self.now.parts.outbound self.now.unfit self.now.parts.whole }
    {
        Pump {
            documents: self.parts.whole,
            read,
            written: written_by(self.parts.outbound, self.unfit, self.parts.whole),
        }
    }

    /// Ends the direction, where the reading ended so: writes an End record, where the session that
    /// was read ended well and all documents fitted, and what is gathered and held; and ends the
    /// sink's direction.
    pub fn finish<K: Sink>(&mut self, read: PumpIn, sink: &mut K) -> Pump
        ensures carries { (x : Carrying) (first : SinkView) (events : List Heard)
            → HasCarried x first events self.old (K.view sink.old)
            → Carries x (last_of read (carried_by x events)) events first (K.view sink.new)
            result }
        ensures stopped { (IsGoing self.old → ⊥) → IsStopped result.written }
        ensures read { result.read ≡ read }
        ensures ended { K.ended sink.new ≡ true }
    {
        self.close(read, sink);
        sink.end();
        self.pump(read)
    }
}

/// Ends a direction in which no session was opened, where the reading ended so: writes these bytes,
/// and what the sink holds, and ends the sink's direction.
pub fn close_unopened<K: Sink>(alloc: Global, read: PumpIn, last: &[u8], sink: &mut K) -> Pump
    ensures carries { (x : Carrying) (events : List Heard) → has_begun x.side events ≡ false
        → Carries x last.now events (K.view sink.old) (K.view sink.new) result }
    ensures none { result.documents ≡ 0 }
    ensures read { result.read ≡ read }
    ensures ended { K.ended sink.new ≡ true }
{
    let mut parts = PartWriter::new(alloc);
    parts.close(last, sink);
    sink.end();
    Pump {
        documents: parts.whole,
        read,
        written: written_by(parts.outbound, None, parts.whole),
    }
}

impl<'s, K: Sink> EventHandler<Event, K> for Carrier<'s> {
    ghost use Rattle.std.specs.Prelude.{◌≡◌, ◌++◌, true, ◌⊎◌};
    ghost use Rattle.stream_loop.specs.PartsGiven.{MayWait};
    ghost use Rattle.relay.specs.Carried.{Carrying as Conveying};
    ghost use Rattle.relay.specs.Writing.{HasCarried, HasStopped, carrying_of};

    type Halt = Memory;

    ghost Settings = { Conveying };

    ghost settings = { λ carrier. carrying_of carrier };

    ghost handled = { λ first paused since carrier now. HasCarried (carrying_of carrier)
        (K.view first) (paused ++ since) carrier (K.view now) };

    ghost halted = { λ first paused since at halt carrier now. ⊥ };

    ghost may_halt = { λ carrier. ⊥ };

    ghost may_wait = { λ carrier now. (K.ended now ≡ true) ⊎ MayWait carrier.parts.outbound
        carrier.parts.gathered.items (K.view now) (K.ended now) };

    ghost ended = { λ sink. K.ended sink };

    ghost has_stopped = { λ carrier. HasStopped carrier };

    ghost is_unput = { λ old new. K.view new ≡ K.view old };

    fn handle(&mut self, event: Event, sink: &mut K) -> Result<Option<Event>, Memory> {
        self.faulted = is_fault(&event);
        self.write_for(&event, sink);
        Ok(Some(event))
    }

    // Where a document didn't fit, the envelopes before it are written first.
    fn pause(&mut self, sink: &mut K) -> Result<(), Memory> {
        if self.over {
            sink.end();
            return Ok(());
        }
        self.parts.pause(sink);
        if self.unfit.is_none() {
            return Ok(());
        }
        sink.end();
        self.over = true;
        Ok(())
    }
}
