//! The line of a generated session.

ghost use Rattle.std.specs.Prelude.{◌≡◌, [], OnOk};
ghost use Rattle.io_edges.specs.Puts.{Puts};
ghost use Rattle.nbfx_values.specs.QuotasOf.{limits_of};
ghost use Rattle.session_generator.specs.Documents.{documents};
ghost use Rattle.session_generator.specs.Summary.{Summarizes, status_of, summary_line};
ghost use Rattle.session_generator.specs.Measuring.{Measures, line_of, summary_by};

use crate::ends::GenFault;
use crate::generating::generate;
use io_edges::{GatheringSink, Sink, SinkFault, gathering_room};
use line_notation::{Word, put_words};
use nbfx_values::{Offence, Quotas};
use static_dictionary::StaticTable;
use std::alloc::Global;

/// What became of the line of a generated session.
#[derive(Clone, Copy, Debug, PartialEq, Eq)]
pub enum Summary {
    /// The line is written.
    Written,
    /// The session has more bytes than the session quota, and its reader refuses it with this
    /// offence. Nothing is written.
    TooLong(Offence),
    /// A write met an I/O error.
    WriteFault,
    /// Out of memory.
    Memory,
}

impl Summary {
    /// The status of a run that ends so.
    pub fn status(&self) -> u8
        ensures { result ≡ status_of self.now }
    {
        match self {
            Summary::Written => 0,
            Summary::TooLong(_) => 10,
            Summary::WriteFault => 4,
            Summary::Memory => 5,
        }
    }
}

/// The numbers of a session's line.
#[derive(Clone, Copy, Debug, PartialEq, Eq)]
pub struct Measured {
    /// How many documents were sent and read.
    pub documents: u64,
    /// How many bytes the session has.
    pub bytes: u64,
    /// How many session strings it has.
    pub strings: u32,
    /// What these cost together.
    pub used: u32,
}

// Puts the line of a session that measures this.
fn put_measured<O: Sink>(measured: Measured, output: &mut O) -> Result<(), SinkFault>
    ensures { Puts (O.view output.old) (O.view output.new) (line_of measured) result }
{
    let words = [
        Word::Plain("documents"),
        Word::Natural(u128::from(measured.documents)),
        Word::Plain("bytes"),
        Word::Natural(u128::from(measured.bytes)),
        Word::Plain("strings"),
        Word::Natural(u128::from(measured.strings)),
        Word::Plain("used"),
        Word::Natural(u128::from(measured.used)),
    ];
    put_words("gen", &words, output)
}

// Puts it, and writes what the output holds.
fn put_summary<O: Sink>(measured: Measured, output: &mut O) -> Result<(), SinkFault>
    ensures puts { Puts (O.view output.old) (O.view output.new) (line_of measured) result }
    ensures emptied { OnOk result ((O.view output.new).held ≡ []) }
{
    put_measured(measured, output)?;
    output.flush()
}

// What became of the line, by the answer of its put.
fn summary_by(put: Result<(), SinkFault>) -> Summary
    ensures { result ≡ summary_by put }
{
    match put {
        Ok(()) => Summary::Written,
        Err(SinkFault::Failed) => Summary::WriteFault,
        Err(SinkFault::Memory) => Summary::Memory,
    }
}

// Makes the session, and measures it.
fn measure(
    alloc: Global,
    statics: &StaticTable,
    quotas: &Quotas,
    seed: u64,
    count: u32,
) -> Result<Measured, GenFault>
    ensures { Measures (limits_of quotas.now) statics.now (documents seed count) result }
{
    let ends = generate(alloc, statics, *quotas, seed, count)?;
    let table = ends.receiver.table();
    Ok(Measured {
        documents: ends.documents,
        bytes: ends.bytes,
        strings: table.len(),
        used: table.used(),
    })
}

/// Makes the session of the `count` documents that follow the seed, and writes its line. Answers
/// what became of that, with the output.
pub fn summarize<O: Sink>(
    alloc: Global,
    statics: &StaticTable,
    quotas: &Quotas,
    seed: u64,
    count: u32,
    output: O,
) -> (Summary, O)
    ensures { Summarizes (limits_of quotas.now) statics.now (documents seed count) (O.view output)
        (O.view result.1) result.0 }
{
    let measured = match measure(alloc, statics, quotas, seed, count) {
        Ok(measured) => measured,
        Err(GenFault::SessionTooLong(offence)) => return (Summary::TooLong(offence), output),
        Err(GenFault::Memory) => return (Summary::Memory, output),
    };
    let Ok(room) = gathering_room(alloc) else {
        return (Summary::Memory, output);
    };
    let mut gathered = GatheringSink::new(room, output);
    let put = put_summary(measured, &mut gathered);
    (summary_by(put), gathered.into_sink())
}
