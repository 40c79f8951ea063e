//! How the peer's answers are read and reported, up to its Preamble Ack and behind it.

ghost use Rattle.std.specs.Prelude.{◌≡◌, ◌++◌, ◌∷◌, [], List, ℕ, IfOk, IfSome, IfNone, true, false, ⊤};
ghost use Rattle.io_edges.specs.Faults.{CountsFaults};
ghost use Rattle.io_edges.specs.Views.{SinkView};
ghost use Rattle.stream_reader.specs.Stream.{Settings as Reads};
ghost use Rattle.stream_loop.specs.Edges.{Input, input_at};
ghost use Rattle.stream_loop.specs.Writing.{Writes, Wrote};
ghost use Rattle.command_words.specs.declared.task.Detail.{Detail as Shown};
ghost use Rattle.session_report.specs.declared.reading.Event.{Event as Heard};
ghost use Rattle.session_report.specs.Saying.{said_by, said_outcome};
ghost use Rattle.client.specs.Called.{closing_of};
ghost use Rattle.client.specs.Calling.{Reports};
ghost use Rattle.client.specs.Answering.{HasComeSo, IsFollowed, ending_by, reads_by};

use crate::report_lines::{put_last, put_lines, reached_after};
use crate::settings::CallSettings;
use io_edges::{Sink, Source};
use nbfx_values::Offence;
use session_report::{Event, Outcome, StreamEnd};
use std::alloc::Global;
use stream_loop::{EventHandler, FollowEnding, InputBuffer, Outbound, ReadOn, flush, read_on};
use stream_reader::Side;
use unit_streams::Memory;

/// How far a call is.
#[derive(Clone, Copy, Debug, PartialEq, Eq)]
pub enum Stage {
    /// The opening is written, and the peer's Preamble Ack is awaited.
    Opened,
    /// The Ack was read.
    Acked,
    /// The opening couldn't be written. An Ack means nothing.
    Unopened,
}

/// The peer's Preamble Ack was read.
#[derive(Clone, Copy, Debug, PartialEq, Eq, Drop)]
pub struct AckRead;

/// Reports the events of the peer's stream, and stops behind the Preamble Ack that is awaited.
#[derive(Drop)]
pub struct AnswerHandler {
    pub(crate) stage: Stage,
    /// How the peer's session has ended by its events so far.
    pub(crate) reached: Outcome,
    /// How the writing of the report stands.
    pub(crate) report: Outbound,
}

impl AnswerHandler {
    /// Before the first event, at this stage of a call.
    pub fn new(stage: Stage) -> Self
        ensures stage { result.stage ≡ stage }
        ensures reached { result.reached ≡ Outcome.Open }
        ensures report { result.report ≡ Outbound.Done }
    {
        AnswerHandler {
            stage,
            reached: Outcome::Open,
            report: Outbound::Done,
        }
    }

    // Puts the lines of an event, unless the writing of the report has ended.
    fn report<O: Sink>(&mut self, event: &Event, output: &mut O)
        ensures reports { Reports event.now self.old.report self.new.report (O.view output.old)
            (O.view output.new) }
        ensures reached { self.new.reached ≡ said_outcome self.old.reached event.now }
        ensures stage { self.new.stage ≡ self.old.stage }
    {
        if self.report.is_going() {
            self.report = put_lines(self.reached, event, output);
        }
        self.reached = reached_after(self.reached, event);
    }

    // Whether the reading stops behind this event: at the Preamble Ack that is awaited.
    fn stops_at(&self, event: &Event) -> bool
        ensures stops { result ≡ true → (self.now.stage ≡ Stage.Opened)
            × (event.now ≡ Heard.Accepted) }
        ensures goes_on { result ≡ false → self.now.stage ≡ Stage.Opened
            → event.now ≡ Heard.Accepted → ⊥ }
    {
        match self.stage {
            Stage::Opened => matches!(event, Event::Accepted),
            Stage::Acked | Stage::Unopened => false,
        }
    }

    // Writes the lines that the output holds, unless the writing of the report has ended.
    fn write_lines<O: Sink>(&mut self, output: &mut O)
        ensures writes { (first : SinkView) (events : List Heard)
            → Writes (said_by Shown.Whole) self.old.report
            first events self.old.reached (λ s. ⊤) (O.view output.old)
            → Writes (said_by Shown.Whole) self.new.report
            first events self.old.reached (λ s. ⊤) (O.view output.new) }
        ensures written { self.new.report ≡ Outbound.Done → (O.view output.new).held ≡ [] }
        ensures reached { self.new.reached ≡ self.old.reached }
        ensures stage { self.new.stage ≡ self.old.stage }
    {
        if self.report.is_going() {
            self.report = flush(output);
        }
    }
}

impl AnswerHandler {
    /// Puts the last line of the report, and writes what the output holds, unless the writing of the
    /// report has ended.
    pub fn close<O: Sink>(&mut self, ending: FollowEnding<Offence>, output: &mut O)
        ensures closed { (first : SinkView) (events : List Heard)
            → Writes (said_by Shown.Whole) self.old.report first events self.old.reached (λ s. ⊤)
            (O.view output.old)
            → Wrote (said_by Shown.Whole) self.new.report (closing_of ending self.old.reached) first
            events (λ s. ⊤) (O.view output.new) }
        ensures reached { self.new.reached ≡ self.old.reached }
    {
        if !self.report.is_going() {
            return;
        }
        self.report = put_last(ending, self.reached, output);
        if self.report.is_going() {
            self.report = flush(output);
        }
    }
}

impl<O: Sink> EventHandler<Event, O> for AnswerHandler {
    ghost use Rattle.std.specs.Prelude.{◌≡◌, ◌++◌, [], false, ⊤};
    ghost use Rattle.stream_loop.specs.declared.outbound.Outbound.{Outbound as Stands};
    ghost use Rattle.client.specs.declared.answers.Stage.{Stage as Far};
    ghost use Rattle.client.specs.Answering.{HasHalted, HasReported};

    type Halt = AckRead;

    ghost Settings = { Far };

    ghost settings = { λ handler. handler.stage };

    ghost handled = { λ first paused since handler now. HasReported (O.view first)
        (paused ++ since) handler (O.view now) };

    ghost halted = { λ first paused since at halt handler now. HasHalted (O.view first)
        (paused ++ since) at handler (O.view now) };

    ghost may_halt = { λ handler. handler.stage ≡ Far.Opened };

    ghost may_wait = { λ handler now. handler.report ≡ Stands.Done → (O.view now).held ≡ [] };

    ghost ended = { λ output. false };

    ghost has_stopped = { λ handler. ⊥ };

    ghost is_unput = { λ old new. ⊤ };

    fn handle(&mut self, event: Event, output: &mut O) -> Result<Option<Event>, AckRead> {
        self.report(&event, output);
        if self.stops_at(&event) {
            return Err(AckRead);
        }
        Ok(Some(event))
    }

    fn pause(&mut self, output: &mut O) -> Result<(), AckRead> {
        self.write_lines(output);
        Ok(())
    }
}

// How the reading of a stream ended, unless the handler stopped it.
fn ending_of(read: ReadOn<Offence, AckRead>) -> Option<FollowEnding<Offence>>
    ensures { result ≡ ending_by read }
{
    match read {
        ReadOn::Judged(judged) => Some(FollowEnding::Judged(judged)),
        ReadOn::ReadFault => Some(FollowEnding::ReadFault),
        ReadOn::Memory => Some(FollowEnding::Memory),
        ReadOn::Halted(AckRead) => None,
    }
}

/// Reads the peer's stream, and reports it.
#[derive(Drop)]
pub struct AnswerReader<'s> {
    pub(crate) buffer: InputBuffer,
    pub(crate) end: StreamEnd<'s>,
    pub(crate) handler: AnswerHandler,
}

impl<'s> AnswerReader<'s> {
    /// Before the first byte, at this stage of a call. It fails without memory for what it needs
    /// before the first envelope.
    pub fn new(alloc: Global, settings: CallSettings<'s>, stage: Stage) -> Result<Self, Memory>
        requires { stage ≡ Stage.Acked → ⊥ }
        ensures comes { IfOk result (λ reader. (i : Input) (first : SinkView)
            → HasComeSo (reads_by settings.entry) i first [] reader i first) }
        ensures stage { IfOk result (λ reader. reader.handler.stage ≡ stage) }
    {
        let CallSettings {
            statics,
            quotas,
            mode,
            encoding,
        } = settings;
        let side = Side::Receiver {
            mode,
            kind: encoding.kind(),
        };
        let end = StreamEnd::new(alloc, statics, quotas.back, side)?;
        let buffer = InputBuffer::new(alloc)?;
        Ok(AnswerReader {
            buffer,
            end,
            handler: AnswerHandler::new(stage),
        })
    }

    /// Reads on to the end of the stream. Where the Ack is awaited it stops behind that, and answers
    /// `None`.
    pub fn read<S: Source, O: Sink>(
        self,
        source: &mut S,
        output: &mut O,
    ) -> (Self, Option<FollowEnding<Offence>>)
        requires { (y : Reads) × (i : Input) × (first : O) × (p : List ℕ)
            × HasComeSo y i (O.view first) p self
            (input_at S.left S.taken S.faults S.empty_takes source.old) (O.view output.old) }
        ensures followed { (y : Reads) (i : Input) (first : O) (p : List ℕ)
            → HasComeSo y i (O.view first) p self.entry
            (input_at S.left S.taken S.faults S.empty_takes source.old) (O.view output.old)
            → IfSome result.1 (IsFollowed y i (O.view first) self.entry.handler.stage result.0
            (input_at S.left S.taken S.faults S.empty_takes source.new) (O.view output.new)) }
        ensures acked { (y : Reads) (i : Input) (first : O) (p : List ℕ)
            → HasComeSo y i (O.view first) p self.entry
            (input_at S.left S.taken S.faults S.empty_takes source.old) (O.view output.old)
            → IfNone result.1 ((q : List ℕ) × HasComeSo y i (O.view first) q result.0
            (input_at S.left S.taken S.faults S.empty_takes source.new) (O.view output.new)) }
        ensures stage { IfNone result.1 ((self.entry.handler.stage ≡ Stage.Opened)
            × (result.0.handler.stage ≡ Stage.Acked)) }
        ensures counted { IfSome result.1 (λ ending. CountsFaults (S.faults source.old)
            (S.faults source.new) (ending ≡ FollowEnding.ReadFault)) }
        ensures uncounted { IfNone result.1 (S.faults source.new ≡ S.faults source.old) }
    {
        let AnswerReader {
            mut buffer,
            mut end,
            mut handler,
        } = self;
        let read = read_on(&mut buffer, &mut end, &mut handler, source, output);
        match ending_of(read) {
            Some(ending) => {
                let reader = AnswerReader {
                    buffer,
                    end,
                    handler,
                };
                (reader, Some(ending))
            }
            None => {
                handler.stage = Stage::Acked;
                let reader = AnswerReader {
                    buffer,
                    end,
                    handler,
                };
                (reader, None)
            }
        }
    }

    /// The same behind the Ack.
    pub fn read_rest<S: Source, O: Sink>(
        self,
        source: &mut S,
        output: &mut O,
    ) -> (Self, FollowEnding<Offence>)
        requires acked { self.handler.stage ≡ Stage.Acked }
        requires come { (y : Reads) × (i : Input) × (first : O) × (p : List ℕ)
            × HasComeSo y i (O.view first) p self
            (input_at S.left S.taken S.faults S.empty_takes source.old) (O.view output.old) }
        ensures followed { (y : Reads) (i : Input) (first : O) (p : List ℕ)
            → HasComeSo y i (O.view first) p self.entry
            (input_at S.left S.taken S.faults S.empty_takes source.old) (O.view output.old)
            → IsFollowed y i (O.view first) Stage.Acked result.0
            (input_at S.left S.taken S.faults S.empty_takes source.new) (O.view output.new)
            result.1 }
        ensures counted { CountsFaults (S.faults source.old) (S.faults source.new)
            (result.1 ≡ FollowEnding.ReadFault) }
    {
        let (reader, ending) = self.read(source, output);
        match ending {
            Some(ending) => (reader, ending),
            None => unreachable!(),
        }
    }
}
