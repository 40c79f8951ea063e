//! A reader of lines of documents, in any pieces, whose events are the lines.
#![tactic(auto, unfolding(crate::specs::StepReaderState::StandsFor, crate::specs::StepReaderState::quota_of, crate::specs::StepReaderState::taken_of))]

ghost use Rattle.std.specs.Prelude.{◌≡◌, ◌≤◌, ◌^◌, ℕ, List, [], Bool, false};

use crate::InputFault;
use crate::steps::DocumentSteps;
use line_notation::LineStep;
use line_streams::LineStream;
use std::alloc::Global;
use stream_loop::{FeedFault, ReadingEnd};

/// Reads lines of documents, and answers what each did to the document that is being read. It holds
/// the bytes of the incomplete line, and the items of the incomplete document.
#[derive(Drop)]
pub struct StepReader {
    stream: LineStream<DocumentSteps>,
}

impl StepReader {
    ghost use Rattle.document_lines.specs.StepReaderState.{StandsFor, quota_of};

    /// Before the first byte, where so many bytes are too many.
    pub fn new(alloc: Global, quota: u64) -> Self
        requires { quota ≤ 2 ^ 63 }
        ensures stands { StandsFor result [] }
        ensures quota { quota_of result ≡ quota }
    {
        StepReader {
            stream: LineStream::new(alloc, DocumentSteps::new(alloc, quota), quota),
        }
    }
}

impl ReadingEnd for StepReader {
    type Event = LineStep;

    type Refusal = InputFault;

    ghost use Rattle.line_notation.specs.declared.reader.LineStep.{LineStep as Step};
    ghost use Rattle.line_notation.specs.LineReaderState.{Standing};
    ghost use Rattle.line_streams.specs.LineRules.{lines_by};
    ghost use Rattle.document_lines.specs.StepReaderState.{StandsFor, counts_taken, quota_of, taken_of};
    ghost use Rattle.document_lines.specs.Steps.{step_rules};

    ghost Situation = { Standing };

    ghost UnitOf = { List ℕ };

    ghost Completed = { Step };

    ghost event_for = { λ step. step };

    ghost grammar = { λ reader. lines_by (step_rules (quota_of reader)) };

    ghost stands = { StandsFor };

    ghost taken = { taken_of };

    ghost most = { quota_of };

    ghost ends = { λ _. false };

    ghost counts = { counts_taken };

    fn feed(&mut self, piece: &[u8]) -> Result<(usize, Option<LineStep>), FeedFault<InputFault>> {
        self.stream.feed(piece)
    }

    fn end_of_input(&mut self) -> Result<(), InputFault> {
        self.stream.end_of_input()
    }

    fn is_end(&self, _event: &LineStep) -> bool {
        false
    }

    fn recycle(&mut self, event: LineStep) {
        self.stream.recycle(event);
    }
}
