//! A reader of the stream of either side, whose events have all that their lines need.

ghost use Rattle.std.specs.Prelude.{◌≡◌, ◌<◌, ◌^◌, ℕ, List, [], IfOk};
ghost use Rattle.unit_streams.specs.Grammar.{standing};
ghost use Rattle.nbfx_values.specs.Limits.{IsGood};
ghost use Rattle.nbfx_values.specs.Measures.{content_of};
ghost use Rattle.nbfx_values.specs.QuotasOf.{limits_of};
ghost use Rattle.stream_reader.specs.Sides.{side_of};
ghost use Rattle.stream_reader.specs.StreamReaderState.{StandsFor, settings_of};
ghost use Rattle.stream_reader.specs.Stream.{stream};
ghost use Rattle.session_report.specs.Saying.{SaysStep};

use nbfx_values::{Doc, Kind, Mode, Offence, Quotas, Txt};
use static_dictionary::StaticTable;
use std::alloc::Global;
use stream_loop::{FeedFault, ReadingEnd};
use stream_reader::{ReadRefusal, Side, StreamReader, StreamStep};
use unit_streams::Memory;

/// An envelope with its document.
#[derive(Debug, Drop)]
pub struct Received {
    /// Its number, from 0.
    pub number: u64,
    /// How many bytes its payload has, of all chunks.
    pub size: u32,
    /// The content of its document.
    pub content: u64,
    /// How many session strings the direction has after it.
    pub strings: u32,
    /// What these cost together: their bytes, and 1 for an empty one.
    pub used: u32,
    /// Its document.
    pub doc: Doc,
}

/// The event that the bytes of a stream completed.
#[derive(Debug, Drop)]
pub enum Event {
    /// An initiator's preamble, up to its Preamble End Record.
    Opened { mode: Mode, kind: Kind, via: Txt },
    /// A receiver's Preamble Ack Record.
    Accepted,
    /// An envelope with its document.
    Message(Received),
    /// An End Record, which ends the session of this many bytes.
    Ended { bytes: u64 },
    /// A receiver's Fault Record with this text, which ends the session of this many bytes.
    PeerFault { bytes: u64, text: Txt },
}

// An envelope with the content of its document.
#[inline(always)]
fn envelope(number: u64, size: u32, strings: u32, used: u32, doc: Doc) -> Received
    ensures number { result.number ≡ number }
    ensures size { result.size ≡ size }
    ensures strings { result.strings ≡ strings }
    ensures used { result.used ≡ used }
    ensures doc { result.doc ≡ doc }
    ensures content { content_of doc < 2 ^ 64 → result.content ≡ content_of doc }
{
    Received {
        number,
        size,
        content: doc.content(),
        strings,
        used,
        doc,
    }
}

/// Reads the stream of one side, and owns the texts of its events.
#[derive(Drop)]
pub struct StreamEnd<'s> {
    alloc: Global,
    reader: StreamReader<'s>,
    ghost good: { IsGood (settings_of reader).limits },
}

impl<'s> StreamEnd<'s> {
    /// A reader before the first byte. It fails without memory for what it needs before the first
    /// envelope.
    pub fn new(
        alloc: Global,
        statics: &'s StaticTable,
        quotas: Quotas,
        side: Side,
    ) -> Result<StreamEnd<'s>, Memory>
        ensures stands { IfOk result (λ end. StandsFor end.reader []) }
        ensures settings { IfOk result (λ end. settings_of end.reader ≡ record {
          side = side_of side;
          statics = statics.now;
          limits = limits_of quotas;
        }) }
    {
        let reader = StreamReader::new(alloc, statics, quotas, side)?;
        Ok(StreamEnd { alloc, reader })
    }

    // The text of the last Via or Fault.
    fn text(&self) -> Result<Txt, Memory>
        ensures { IfOk result (λ text. (p : List ℕ) → StandsFor self.now.reader p
            → text ≡ (standing (stream (settings_of self.now.reader)) p).situation.text) }
    {
        Txt::of(self.alloc, self.reader.text())
    }

    // The event that a step which was just made has completed.
    #[inline(always)]
    fn event(&self, step: StreamStep) -> Result<Option<Event>, Memory>
        ensures { IfOk result (SaysStep self.now.reader step) }
    {
        match step {
            StreamStep::More => Ok(None),
            StreamStep::Opened { mode, kind } => {
                let via = self.text()?;
                Ok(Some(Event::Opened { mode, kind, via }))
            }
            StreamStep::Accepted => Ok(Some(Event::Accepted)),
            StreamStep::Message {
                number,
                size,
                doc,
                strings,
                used,
            } => Ok(Some(Event::Message(envelope(number, size, strings, used, doc)))),
            StreamStep::Ended { bytes } => Ok(Some(Event::Ended { bytes })),
            StreamStep::PeerFault { bytes } => {
                let text = self.text()?;
                Ok(Some(Event::PeerFault { bytes, text }))
            }
        }
    }
}

impl<'s> ReadingEnd for StreamEnd<'s> {
    type Event = Event;

    type Refusal = Offence;

    ghost use Rattle.stream_reader.specs.StreamReaderState.{settings_of, taken_of, StandsFor, counts_taken};
    ghost use Rattle.stream_reader.specs.Stream.{Situation as StreamSituation, StreamUnit, StreamEvent, ends as is_last, stream};
    ghost use Rattle.session_report.specs.Saying.{event_for};

    ghost Situation = { StreamSituation };

    ghost UnitOf = { StreamUnit };

    ghost Completed = { StreamEvent };

    ghost event_for = { event_for };

    ghost grammar = { λ end. stream (settings_of end.reader) };

    ghost stands = { λ end. StandsFor end.reader };

    ghost taken = { λ end. taken_of end.reader };

    ghost most = { λ end. (settings_of end.reader).limits.session };

    ghost ends = { is_last };

    ghost counts = { λ end. counts_taken end.reader };

    #[inline(always)]
    fn feed(&mut self, piece: &[u8]) -> Result<(usize, Option<Event>), FeedFault<Offence>> {
        match self.reader.feed(piece) {
            Ok((n, step)) => match self.event(step) {
                Ok(event) => Ok((n, event)),
                Err(Memory) => Err(FeedFault::Memory),
            },
            Err(ReadRefusal::Offence(offence)) => Err(FeedFault::Refused(offence)),
            Err(ReadRefusal::Memory) => Err(FeedFault::Memory),
        }
    }

    fn end_of_input(&mut self) -> Result<(), Offence> {
        match self.reader.end_of_input() {
            Ok(()) => Ok(()),
            Err(ReadRefusal::Offence(offence)) => Err(offence),
            Err(ReadRefusal::Memory) => unreachable!(),
        }
    }

    fn is_end(&self, event: &Event) -> bool {
        match event {
            Event::Ended { .. } | Event::PeerFault { .. } => true,
            Event::Opened { .. } | Event::Accepted | Event::Message(_) => false,
        }
    }

    fn recycle(&mut self, event: Event) {
        if let Event::Message(received) = event {
            self.reader.reuse(received.doc);
        }
    }
}
