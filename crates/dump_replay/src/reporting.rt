//! The commands `check` and `dump`, which report a stream.

ghost use Rattle.std.specs.Prelude.{◌≡◌};
ghost use Rattle.nbfx_values.specs.QuotasOf.{limits_of};
ghost use Rattle.command_words.specs.Asking.{two_of};
ghost use Rattle.stream_loop.specs.Edges.{input_at};
ghost use Rattle.stream_reader.specs.Sides.{side_of};
ghost use Rattle.dump_replay.specs.Statuses.{status_at};
ghost use Rattle.dump_replay.specs.Reporting.{Reports};
ghost use Rattle.dump_replay.specs.Running.{offence_status};
ghost use Rattle.dump_replay.specs.Statics.{limits_for, settings_for, side_for};

use command_words::{Detail, Origin};
use io_edges::{GatheringSink, Sink, Source, gathering_room};
use nbfx_values::{Offence, Quotas, Reason, Two};
use session_report::{LineReporter, Outcome, StreamEnd};
use static_dictionary::StaticTable;
use std::alloc::Global;
use stream_loop::{ReportEnding, report_stream};
use stream_reader::{Endpoint, Side};

// Whose stream is read. Where it is an initiator's, any Via is served.
fn side_of(origin: Origin) -> Side
    ensures { side_of result ≡ side_for origin }
{
    match origin {
        Origin::Initiator => Side::Initiator(Endpoint::Any),
        Origin::Receiver { mode, kind } => Side::Receiver { mode, kind },
    }
}

// The quotas of what that end sends.
fn quotas_of(origin: Origin, quotas: &Two) -> Quotas
    ensures { limits_of result ≡ limits_for origin (two_of quotas.now) }
{
    match origin {
        Origin::Initiator => quotas.forward,
        Origin::Receiver { .. } => quotas.back,
    }
}

/// The status of a stream that is refused with this offence.
pub fn offence_status(offence: Offence) -> u8
    ensures { result ≡ offence_status offence }
{
    match offence.reason {
        Reason::SessionTooLong => 10,
        _ => 1,
    }
}

fn status(ending: ReportEnding<Offence>, outcome: Outcome) -> u8
    ensures { result ≡ status_at ending outcome }
{
    match ending {
        ReportEnding::Judged(Some(offence)) => offence_status(offence),
        ReportEnding::Judged(None) => match outcome {
            Outcome::Faulted => 9,
            Outcome::Open | Outcome::Ended => 0,
        },
        ReportEnding::ReadFault => 3,
        ReportEnding::WriteFault => 4,
        ReportEnding::Memory => 5,
    }
}

/// Reads the stream that the input gives, which the named end of a session sent, and writes its
/// report. Answers the status, with the output.
pub fn report_input<I: Source, O: Sink>(
    alloc: Global,
    detail: Detail,
    origin: Origin,
    statics: &StaticTable,
    quotas: &Two,
    input: &mut I,
    output: O,
) -> (u8, O)
    ensures { Reports detail (settings_for origin statics.now (two_of quotas.now))
        (input_at I.left I.taken I.faults I.empty_takes input.old)
        (input_at I.left I.taken I.faults I.empty_takes input.new) (O.view output) (O.view result.1)
        result.0 }
{
    let Ok(mut end) = StreamEnd::new(alloc, statics, quotas_of(origin, quotas), side_of(origin))
    else {
        return (5, output);
    };
    let Ok(room) = gathering_room(alloc) else {
        return (5, output);
    };
    let mut reporter = LineReporter::new(detail);
    let mut gathered = GatheringSink::new(room, output);
    let ending = report_stream(alloc, &mut end, &mut reporter, input, &mut gathered);
    (status(ending, reporter.outcome), gathered.into_sink())
}
