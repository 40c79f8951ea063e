//! The command `rehearse`, which plays the history of a reliable sequence.

ghost use Rattle.std.specs.Prelude.{◌≡◌, ◌<◌, ◌≤◌, false};
ghost use Rattle.stream_loop.specs.Edges.{input_at};
ghost use Rattle.command_words.specs.Asking.{rehearsal_of};
ghost use Rattle.command_words.specs.Values.{is_blank};
ghost use Rattle.dump_replay.specs.Rehearsing.{Rehearses, status_of_rehearsal};

use command_words::Rehearsal;
use io_edges::{GatheringSink, Sink, Source, gathering_room};
use rehearsal::{HistoryFault, HistoryReader, HistoryReporter};
use std::alloc::Global;
use stream_loop::{ReportEnding, report_stream};

/// Plays the history that the input gives in lines, and writes a line for each body that is
/// delivered, and the counts at last. Answers how that ended, with the output.
pub fn rehearse_input<I: Source, O: Sink>(
    alloc: Global,
    asked: Rehearsal<'_>,
    input: &mut I,
    output: O,
) -> (ReportEnding<HistoryFault>, O)
    requires some { 0 < asked.window }
    requires most { asked.window ≤ 1024 }
    requires named { is_blank asked.id.now ≡ false }
    ensures { Rehearses (rehearsal_of asked.entry)
        (input_at I.left I.taken I.faults I.empty_takes input.old)
        (input_at I.left I.taken I.faults I.empty_takes input.new)
        (O.view output) (O.view result.1) result.0 }
{
    let Ok(mut reader) = HistoryReader::new(alloc, asked.id, asked.window) else {
        return (ReportEnding::Memory, output);
    };
    let Ok(room) = gathering_room(alloc) else {
        return (ReportEnding::Memory, output);
    };
    let mut reporter = HistoryReporter::new();
    let mut gathered = GatheringSink::new(room, output);
    let ending = report_stream(alloc, &mut reader, &mut reporter, input, &mut gathered);
    (ending, gathered.into_sink())
}

/// The status of a run that ends so.
pub fn rehearse_status(ending: ReportEnding<HistoryFault>) -> u8
    ensures { result ≡ status_of_rehearsal ending }
{
    match ending {
        ReportEnding::Judged(None) => 0,
        ReportEnding::Judged(Some(HistoryFault::Line { .. })) => 6,
        ReportEnding::Judged(Some(HistoryFault::TooLong)) => 10,
        ReportEnding::ReadFault => 3,
        ReportEnding::WriteFault => 4,
        ReportEnding::Memory => 5,
    }
}
