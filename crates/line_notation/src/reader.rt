// Documents out of lines.
ghost use Rattle.std.specs.Prelude.{◌≡◌, [], Ok, Err, IsErrOf};
ghost use Rattle.nbfx_values.specs.Documents.{IsDocument};
ghost use Rattle.line_notation.specs.Between.{IsUnrefused, is_between, next_line};
ghost use Rattle.line_notation.specs.Placing.{fault_of};
ghost use Rattle.line_notation.specs.LineReaderState.{HasFailed, HasReadFew, StandsBehind, UnlessMemory, after, answer, ended, ending};

use crate::placing::{Leads, Refusal, read_placed};
use nbfx_values::{ArrayItem, Doc, DocBuilder, Memory};
use std::alloc::Global;
use std::marker::Model;

/// What a line did to the document that is being read.
#[derive(Debug, Drop)]
pub enum LineStep {
    /// The document is incomplete, or none has begun.
    More,
    /// The document is complete.
    Done(Doc),
}

/// What is wrong with a line, or with the number of documents.
#[derive(Clone, Copy, Debug, PartialEq, Eq)]
pub enum LineKind {
    /// It has none of the forms of a line.
    NotALine,
    /// A text in it isn't UTF-8.
    BadText,
    /// A number is out of the range of its value, a list stands in a list, or a value of an array
    /// isn't of its kind.
    OutOfRange,
    /// It may not stand where it comes.
    OutOfPlace,
    /// The lines end within a document.
    Cut,
    /// There are more documents or fewer than there should be. [`LineReader`] doesn't answer this.
    WrongCount,
}

/// Why a line isn't read.
#[derive(Clone, Copy, Debug, PartialEq, Eq)]
pub enum LineFault {
    /// The line with this number, from 1, is refused, for this reason.
    Bad { line: u64, kind: LineKind },
    /// Out of memory.
    Memory,
}

impl From<Memory> for LineFault {
    ghost use Rattle.std.specs.Prelude.{◌≡◌};
    ghost use Rattle.line_notation.specs.declared.reader.LineFault.TheVariants as faults;

    ghost from_gives = { λ _ fault. fault ≡ faults.Memory };

    fn from(_memory: Memory) -> LineFault {
        LineFault::Memory
    }
}

impl Refusal {
    // The fault of the line that has this number.
    fn of_line(self, line: u64) -> LineFault
        ensures { result ≡ fault_of line self }
    {
        match self {
            Refusal::Kind(kind) => LineFault::Bad { line, kind },
            Refusal::Memory => LineFault::Memory,
        }
    }
}

// The document that has ended, apart from the code for lines that end none.
#[inline(never)]
fn whole(builder: &mut DocBuilder) -> Result<LineStep, LineFault>
    requires { IsDocument builder.old }
    ensures document { result ≡ Ok (LineStep.Done builder.old) }
    ensures anew { builder.new ≡ [] }
{
    match builder.finish() {
        Some(doc) => Ok(LineStep::Done(doc)),
        None => unreachable!(),
    }
}

// Refuses a line, apart from the code for lines that aren't refused.
#[inline(never)]
fn refused(fault: LineFault) -> Result<LineStep, LineFault>
    ensures { result ≡ Err fault }
{
    Err(fault)
}

/// Reads documents from lines, each of which is given without its line feed. Contracts see after
/// how many lines it is, the items and the open array of the incomplete document, or that it has
/// refused a line.
#[derive(Debug, Drop)]
pub struct LineReader {
    alloc: Global,
    builder: DocBuilder,
    array: Option<ArrayItem>,
    lines: u64,
    fault: Option<LineFault>,
}

impl Model for LineReader {
    ghost use Rattle.std.specs.Prelude.{◌≤◌, ◌^◌};
    ghost use Rattle.line_notation.specs.Placing.{IsOpen};
    ghost use Rattle.line_notation.specs.LineReaderState.{Standing, standing_kept};

    ghost Value = { Standing };

    ghost view = { λ r. standing_kept r.fault r.lines r.builder r.array };

    ghost invariant = { λ r. IsOpen r.array × (r.lines ≤ 2 ^ 63) };
}

impl LineReader {
    /// A reader that has read no line.
    pub fn new(alloc: Global) -> LineReader
        ensures { StandsBehind result [] }
    {
        LineReader {
            alloc,
            builder: DocBuilder::new(alloc),
            array: None,
            lines: 0,
            fault: None,
        }
    }

    /// Whether no document is incomplete.
    pub fn is_between(&self) -> bool
        ensures { result ≡ is_between self.now }
    {
        self.fault.is_none() && self.array.is_none() && self.builder.items().len() == 0
    }

    /// The number of the next line, from 1, if no line was refused.
    pub fn next_line(&self) -> u64
        ensures { IsUnrefused self.now → result ≡ next_line self.now }
    {
        self.lines + 1
    }

    /// Takes back a document that is no longer needed; the next one reuses its memory.
    pub fn reuse(&mut self, doc: Doc)
        ensures { self.new ≡ self.old }
    {
        if self.is_between() {
            self.builder.begin_in(doc);
        }
    }

    /// Allocates memory for so many items more of the incomplete document. It fails without that
    /// memory; the items stay either way.
    pub fn reserve(&mut self, count: usize) -> Result<(), Memory>
        ensures { self.new ≡ self.old }
    {
        self.builder.reserve(count)
    }

    /// Reads one line more, and answers the document that it completes, if any. It fails with `Bad`
    /// where the line is refused, or without memory, and each further line in the same way.
    #[inline(always)]
    pub fn line(&mut self, line: &[u8]) -> Result<LineStep, LineFault>
        requires few { HasReadFew self.old }
        ensures answer { UnlessMemory result (result ≡ answer self.old line.now) }
        ensures stands { UnlessMemory result (self.new ≡ after self.old line.now) }
        ensures out_of_memory { IsErrOf result LineFault.Memory
            → HasFailed self.new LineFault.Memory }
        ensures again { (fault : LineFault) → HasFailed self.old fault → IsErrOf result fault }
    {
        if let Some(fault) = self.fault {
            return Err(fault);
        }
        self.lines += 1;
        match read_placed(self.alloc, &mut self.builder, &mut self.array, line) {
            Ok(Leads::On) => Ok(LineStep::More),
            Ok(Leads::ToTheEnd) => whole(&mut self.builder),
            Err(refusal) => {
                let fault = refusal.of_line(self.lines);
                self.fault = Some(fault);
                refused(fault)
            }
        }
    }

    /// Ends the lines. It fails with `Cut` within a document.
    pub fn finish(&mut self) -> Result<(), LineFault>
        ensures answer { result ≡ ending self.old }
        ensures stands { self.new ≡ ended self.old }
    {
        if let Some(fault) = self.fault {
            return Err(fault);
        }
        if self.array.is_none() && self.builder.items().len() == 0 {
            return Ok(());
        }
        let fault = LineFault::Bad {
            line: self.lines + 1,
            kind: LineKind::Cut,
        };
        self.fault = Some(fault);
        Err(fault)
    }
}
