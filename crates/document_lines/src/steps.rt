//! Lines of documents, as what each does to the document that is being read.

ghost use Rattle.std.specs.Prelude.{◌≡◌, ℕ, ◌-◌, ◌^◌};
ghost use Rattle.line_notation.specs.Between.{next_line};
ghost use Rattle.line_notation.specs.LineReaderState.{at_start};

use crate::InputFault;
use line_notation::{LineFault, LineKind, LineReader, LineStep};
use line_streams::LineEnd;
use std::alloc::Global;
use std::mem;
use stream_loop::FeedFault;
use unit_streams::Memory;

/// Answers lines of documents.
#[derive(Drop)]
pub struct DocumentSteps {
    /// The reader of lines.
    pub lines: LineReader,
    /// So many bytes are too many.
    pub quota: u64,
    /// For how many items of the next document memory is allocated before it begins.
    pub wanted: usize,
}

impl DocumentSteps {
    /// Before the first line.
    pub fn new(alloc: Global, quota: u64) -> Self
        ensures lines { result.lines ≡ at_start }
        ensures quota { result.quota ≡ quota }
    {
        DocumentSteps {
            lines: LineReader::new(alloc),
            quota,
            wanted: 0,
        }
    }

    // Allocates the memory that is wanted.
    fn make_room(&mut self) -> Result<(), Memory>
        ensures lines { self.new.lines ≡ self.old.lines }
        ensures quota { self.new.quota ≡ self.old.quota }
    {
        let wanted = mem::replace(&mut self.wanted, 0);
        if wanted == 0 {
            return Ok(());
        }
        self.lines.reserve(wanted)
    }
}

impl LineEnd for DocumentSteps {
    ghost use Rattle.std.specs.Prelude.{Bool};
    ghost use Rattle.line_notation.specs.LineReaderState.{Standing, after, answer};
    ghost use Rattle.line_streams.specs.LineRules.{each_silent};
    ghost use Rattle.document_lines.specs.Steps.{IsIn, brought, step_rules};

    type Event = LineStep;

    type Refusal = InputFault;

    ghost Situation = { Standing };

    ghost Settings = { ℕ };

    ghost settings = { λ steps. steps.quota };

    ghost rules = { step_rules };

    ghost silent = { λ quota. each_silent (λ z line. brought (after z line) (answer z line)) };

    ghost is_in = { λ steps. IsIn steps.lines };

    ghost count = { λ steps. next_line steps.lines - 1 };

    ghost most_lines = { 2 ^ 63 };

    // A document that isn't given back was as long as the next one may be: a list that grew item by
    // item would be moved, and have memory for twice as many.
    #[inline(always)]
    fn line(&mut self, line: &[u8]) -> Result<Option<LineStep>, FeedFault<InputFault>> {
        let Ok(()) = self.make_room() else {
            return Err(FeedFault::Memory);
        };
        match self.lines.line(line) {
            Ok(LineStep::More) => Ok(Some(LineStep::More)),
            Ok(LineStep::Done(doc)) => {
                self.wanted = doc.items().len();
                Ok(Some(LineStep::Done(doc)))
            }
            Err(LineFault::Bad { line, kind }) => {
                Err(FeedFault::Refused(InputFault::Line { line, kind }))
            }
            Err(LineFault::Memory) => Err(FeedFault::Memory),
        }
    }

    fn fault_at_end(&self, within_line: bool) -> Option<InputFault> {
        if within_line || !self.lines.is_between() {
            return Some(InputFault::Line {
                line: self.lines.next_line(),
                kind: LineKind::Cut,
            });
        }
        None
    }

    fn too_long(&self) -> InputFault {
        InputFault::TooLong
    }

    fn reuse(&mut self, step: LineStep) {
        if let LineStep::Done(doc) = step {
            self.wanted = 0;
            self.lines.reuse(doc);
        }
    }
}
