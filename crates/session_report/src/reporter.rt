//! What is written of a stream as its events come.

ghost use Rattle.std.specs.Prelude.{◌≡◌, None};
ghost use Rattle.io_edges.specs.Puts.{Puts};
ghost use Rattle.session_report.specs.Report.{last_line};
ghost use Rattle.session_report.specs.Saying.{said_by, said_document, said_line, said_outcome};

use crate::lines;
use crate::reading::Event;
use command_words::Detail;
use io_edges::{Sink, SinkFault};
use line_notation::print;
use nbfx_values::Offence;
use stream_loop::Reporter;

/// How a session has ended by its events.
#[derive(Clone, Copy, Debug, PartialEq, Eq)]
pub enum Outcome {
    /// No event has ended it yet.
    Open,
    /// With an End Record.
    Ended,
    /// With a receiver's Fault Record.
    Faulted,
}

/// The bytes of a receiver's Ack.
const ACK_LENGTH: u64 = 1;

// How the session has ended after an event.
fn outcome_after(outcome: Outcome, event: &Event) -> Outcome
    ensures { result ≡ said_outcome outcome event.now }
{
    match event {
        Event::Ended { .. } => Outcome::Ended,
        Event::PeerFault { .. } => Outcome::Faulted,
        Event::Opened { .. } | Event::Accepted | Event::Message(_) => outcome,
    }
}

// Puts the line of an event.
fn put_line<K: Sink>(event: &Event, output: &mut K) -> Result<(), SinkFault>
    ensures { Puts (K.view output.old) (K.view output.new) (said_line event.now) result }
{
    match event {
        Event::Opened { mode, kind, via } => lines::put_open(*mode, *kind, via.as_str(), output),
        Event::Accepted => lines::put_accepted(output),
        Event::Message(received) => lines::put_message(received, output),
        Event::Ended { bytes } => lines::put_ended(*bytes, output),
        Event::PeerFault { bytes, text } => lines::put_fault(*bytes, text.as_str(), output),
    }
}

// Puts the lines of the document that an event brings.
#[inline(never)]
fn put_document<K: Sink>(event: &Event, output: &mut K) -> Result<(), SinkFault>
    ensures { Puts (K.view output.old) (K.view output.new) (said_document event.now) result }
{
    match event {
        Event::Message(received) => print(&received.doc, output),
        _ => Ok(()),
    }
}

// Puts the line at the end of a stream that isn't refused. Where no event has ended it, it is the
// receiver's Ack alone.
fn put_last<K: Sink>(outcome: Outcome, output: &mut K) -> Result<(), SinkFault>
    ensures { Puts (K.view output.old) (K.view output.new) (last_line outcome None) result }
{
    match outcome {
        Outcome::Open => lines::put_ended(ACK_LENGTH, output),
        Outcome::Ended | Outcome::Faulted => Ok(()),
    }
}

/// Writes the report of a stream, and remembers how its session ended.
#[derive(Debug, Drop)]
pub struct LineReporter {
    /// What is shown of each document.
    pub detail: Detail,
    /// How the session has ended by the events so far.
    pub outcome: Outcome,
}

impl LineReporter {
    /// A reporter before the first event, of documents with their lines or without.
    pub fn new(detail: Detail) -> LineReporter
        ensures { result ≡ record { detail = detail; outcome = Outcome.Open } }
    {
        LineReporter {
            detail,
            outcome: Outcome::Open,
        }
    }
}

impl Reporter<Event, Offence> for LineReporter {
    ghost use Rattle.session_report.specs.Saying.{said_by};
    ghost use Rattle.session_report.specs.declared.reporter.Outcome.{Outcome as Reached};

    ghost State = { Reached };

    ghost rules = { λ reporter. said_by reporter.detail };

    ghost state = { λ reporter. reporter.outcome };

    #[inline(always)]
    fn put_event<K: Sink>(&mut self, event: &Event, output: &mut K) -> Result<(), SinkFault> {
        self.outcome = outcome_after(self.outcome, event);
        put_line(event, output)?;
        match self.detail {
            Detail::Summary => Ok(()),
            Detail::Whole => put_document(event, output),
        }
    }

    fn put_ending<K: Sink>(
        &mut self,
        refusal: &Option<Offence>,
        output: &mut K,
    ) -> Result<(), SinkFault> {
        match refusal {
            Some(offence) => lines::put_offence(*offence, output),
            None => put_last(self.outcome, output),
        }
    }
}
