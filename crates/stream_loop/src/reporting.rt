//! A stream that is read and reported.

ghost use Rattle.std.specs.Prelude.{◌≡◌, ⊤, Result, ℕ, ◌≤◌, List, [], ◌++◌, Option, Some, None, Err, IfOk, IfErr, OnOk, OnErr, IsErrOf};
ghost use Rattle.io_edges.specs.Faults.{CountsFaults};
ghost use Rattle.io_edges.specs.Puts.{Puts};
ghost use Rattle.io_edges.specs.declared.SinkFault.{SinkFault as Fault};
ghost use Rattle.stream_loop.specs.Answers.{EndsWithin, written_by};
ghost use Rattle.stream_loop.specs.Edges.{input_at};
ghost use Rattle.stream_loop.specs.LoopParts.{HasReported, done, ended_by};
ghost use Rattle.stream_loop.specs.Reported.{EndsAs};

use crate::input_buffer::InputBuffer;
use crate::report::Reporting;
use crate::resuming::{ReadOn, read_on};
use crate::{ReadingEnd, Reporter};
use io_edges::{Sink, SinkFault, Source};
use std::alloc::Global;
use std::marker::PhantomData;

/// How the reporting of a stream ended.
#[derive(Clone, Copy, Debug, PartialEq, Eq, Drop)]
pub enum ReportEnding<R> {
    /// The stream ended as it may; or it is refused, for this reason.
    Judged(Option<R>),
    /// A read met an I/O error.
    ReadFault,
    /// A write met an I/O error.
    WriteFault,
    /// Out of memory.
    Memory,
}

// Reads the stream that the input gives by an end that has read nothing of it, and puts its report.
// What is due for a piece is written before more is read.
fn put_lines<I: Source, O: Sink, E: ReadingEnd, T: Reporter<E::Event, E::Refusal>>(
    buffer: &mut InputBuffer,
    end: &mut E,
    reporting: &mut Reporting<'_, E::Refusal, T>,
    input: &mut I,
    output: &mut O,
) -> Result<ReportEnding<E::Refusal>, SinkFault>
    requires ends { EndsWithin (E.grammar end.old) E.ends (E.most end.old) }
    requires fresh { E.stands end.old [] }
    requires empty { buffer.old ≡ [] }
    requires first { T.state reporting.old.reporter.now
        ≡ (T.rules reporting.old.reporter.now).start }
    ensures reports { (lines : List ℕ)
        × Puts (O.view output.old) (O.view output.new) lines (done result)
        × HasReported (E.grammar end.old)
        (written_by E.event_for (T.rules reporting.old.reporter.now))
        (input_at I.left I.taken I.faults I.empty_takes input.old)
        (input_at I.left I.taken I.faults I.empty_takes input.new)
        (O.view output.old) (O.view output.new)
        (T.state reporting.new.reporter.now) result lines }
    ensures counted { CountsFaults (I.faults input.old) (I.faults input.new)
        (result ≡ Ok ReportEnding.ReadFault) }
    ensures grammar { E.grammar end.new ≡ E.grammar end.old }
    ensures rules { T.rules reporting.new.reporter.now ≡ T.rules reporting.old.reporter.now }
    ensures same_reporter { reporting.new.reporter.ghost_name
        ≡ reporting.old.reporter.ghost_name }
{
    output.flush()?;
    match read_on(buffer, end, reporting, input, output) {
        ReadOn::Judged(refusal) => {
            reporting.reporter.put_ending(&refusal, output)?;
            Ok(ReportEnding::Judged(refusal))
        }
        ReadOn::ReadFault => Ok(ReportEnding::ReadFault),
        ReadOn::Memory => Ok(ReportEnding::Memory),
        ReadOn::Halted(fault) => Err(fault),
    }
}

// The same, with a buffer of its own.
fn put_report<I: Source, O: Sink, E: ReadingEnd, T: Reporter<E::Event, E::Refusal>>(
    alloc: Global,
    end: &mut E,
    reporter: &mut T,
    input: &mut I,
    output: &mut O,
) -> Result<ReportEnding<E::Refusal>, SinkFault>
    requires ends { EndsWithin (E.grammar end.old) E.ends (E.most end.old) }
    requires fresh { E.stands end.old [] }
    requires first { T.state reporter.old ≡ (T.rules reporter.old).start }
    ensures reports { (last : T) × (last ≡ reporter.new) × (lines : List ℕ)
        × Puts (O.view output.old) (O.view output.new) lines (done result)
        × HasReported (E.grammar end.old) (written_by E.event_for (T.rules reporter.old))
        (input_at I.left I.taken I.faults I.empty_takes input.old)
        (input_at I.left I.taken I.faults I.empty_takes input.new)
        (O.view output.old) (O.view output.new)
        (T.state last) result lines }
    ensures counted { CountsFaults (I.faults input.old) (I.faults input.new)
        (result ≡ Ok ReportEnding.ReadFault) }
    ensures grammar { E.grammar end.new ≡ E.grammar end.old }
    ensures rules { T.rules reporter.new ≡ T.rules reporter.old }
{
    let Ok(mut buffer) = InputBuffer::new(alloc) else {
        return Ok(ReportEnding::Memory);
    };
    let mut reporting = Reporting {
        reporter,
        refusals: PhantomData,
    };
    put_lines(&mut buffer, end, &mut reporting, input, output)
}

// Writes what the output holds, unless it has failed. Where a read failed it holds nothing.
fn written<R: Drop, O: Sink>(
    ending: Result<ReportEnding<R>, SinkFault>,
    output: &mut O,
) -> ReportEnding<R>
    ensures kept { ending ≡ Ok ReportEnding.ReadFault → (result ≡ ReportEnding.ReadFault)
        × (O.view output.new ≡ O.view output.old) }
    ensures failed { IfErr ending (λ fault. (result ≡ ended_by fault)
        × (O.view output.new ≡ O.view output.old)) }
    ensures flushed { IfOk ending (λ e. (e ≡ ReportEnding.ReadFault → ⊥) → (flush : Result ⊤ Fault)
        × Puts (O.view output.old) (O.view output.new) [] flush
        × OnOk flush ((result ≡ e) × ((O.view output.new).held ≡ []))
        × IfErr flush (λ fault. result ≡ ended_by fault)) }
{
    match ending {
        Err(fault) => stopped(fault),
        Ok(ReportEnding::ReadFault) => ReportEnding::ReadFault,
        Ok(ending) => match output.flush() {
            Ok(()) => ending,
            Err(fault) => stopped(fault),
        },
    }
}

/// Reads the stream that the input gives and writes its report, by an end that has read nothing and
/// a reporter that has put nothing. It ends with the stream or its refusal, or where a read or a
/// write fails, or without memory. What the output holds at the call is written first. The buffer
/// for a piece, of 64 KiB, is allocated once.
pub fn report_stream<I: Source, O: Sink, E: ReadingEnd, T: Reporter<E::Event, E::Refusal>>(
    alloc: Global,
    end: &mut E,
    reporter: &mut T,
    input: &mut I,
    output: &mut O,
) -> ReportEnding<E::Refusal>
    requires ends { EndsWithin (E.grammar end.old) E.ends (E.most end.old) }
    requires fresh { E.stands end.old [] }
    requires first { T.state reporter.old ≡ (T.rules reporter.old).start }
    ensures reported { EndsAs (E.grammar end.old) (written_by E.event_for (T.rules reporter.old))
        (input_at I.left I.taken I.faults I.empty_takes input.old)
        (input_at I.left I.taken I.faults I.empty_takes input.new)
        (O.view output.old) (O.view output.new)
        (T.state reporter.new) result }
    ensures grammar { E.grammar end.new ≡ E.grammar end.old }
    ensures rules { T.rules reporter.new ≡ T.rules reporter.old }
{
    let ending = put_report(alloc, end, reporter, input, output);
    written(ending, output)
}

fn stopped<R>(fault: SinkFault) -> ReportEnding<R>
    ensures { result ≡ ended_by fault }
{
    match fault {
        SinkFault::Failed => ReportEnding::WriteFault,
        SinkFault::Memory => ReportEnding::Memory,
    }
}
