//! The lines of a report: of each event of the peer's stream, and the last one.

ghost use Rattle.std.specs.Prelude.{◌≡◌, true};
ghost use Rattle.stream_loop.specs.Writing.{Goes, outbound_by};
ghost use Rattle.command_words.specs.declared.task.Detail.{Detail as Shown};
ghost use Rattle.session_report.specs.Saying.{said_lines, said_outcome};
ghost use Rattle.client.specs.Called.{closing_of};

use command_words::Detail;
use io_edges::{Sink, SinkFault};
use nbfx_values::Offence;
use session_report::{Event, LineReporter, Outcome};
use stream_loop::{FollowEnding, Outbound, Reporter};

// How the session has ended after an event.
pub(crate) fn reached_after(reached: Outcome, event: &Event) -> Outcome
    ensures { result ≡ said_outcome reached event.now }
{
    match event {
        Event::Ended { .. } => Outcome::Ended,
        Event::PeerFault { .. } => Outcome::Faulted,
        Event::Opened { .. } | Event::Accepted | Event::Message(_) => reached,
    }
}

// How the writing stands after a put that was answered so.
fn outbound_by(answer: Result<(), SinkFault>) -> Outbound
    ensures { result ≡ outbound_by answer }
{
    match answer {
        Ok(()) => Outbound::Done,
        Err(fault) => match fault {
            SinkFault::Failed => Outbound::WriteFault,
            SinkFault::Memory => Outbound::Memory,
        },
    }
}

// Puts the lines of an event, with its document.
pub(crate) fn put_lines<O: Sink>(reached: Outcome, event: &Event, output: &mut O) -> Outbound
    ensures { Goes result (said_lines Shown.Whole event.now) (O.view output.old)
        (O.view output.new) }
{
    let mut reporter = LineReporter {
        detail: Detail::Whole,
        outcome: reached,
    };
    outbound_by(reporter.put_event(event, output))
}

// Puts the last line of the report; there is none if the stream was neither accepted nor refused.
pub(crate) fn put_last<O: Sink>(
    ending: FollowEnding<Offence>,
    reached: Outcome,
    output: &mut O,
) -> Outbound
    ensures goes { Goes result (closing_of ending reached) (O.view output.old) (O.view output.new) }
    ensures memory { result ≡ Outbound.Memory → (O.view output.old).may_run_out ≡ true }
{
    let FollowEnding::Judged(refusal) = ending else {
        return Outbound::Done;
    };
    let mut reporter = LineReporter {
        detail: Detail::Whole,
        outcome: reached,
    };
    outbound_by(reporter.put_ending(&refusal, output))
}
