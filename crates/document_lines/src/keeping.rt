//! A keeper as what handles the events of lines.

ghost use Rattle.std.specs.Prelude.{◌≡◌, ⊤, Bool, false, ◌++◌};

use crate::keeper::Keeper;
use line_notation::LineStep;
use stream_loop::EventHandler;
use unit_streams::Memory;

/// Gives each document to the keeper that is its output.
#[derive(Drop)]
pub struct Keeping;

impl<D: Keeper> EventHandler<LineStep, D> for Keeping {
    ghost use Rattle.document_lines.specs.Steps.{documents_of_steps};

    type Halt = Memory;

    ghost Settings = { ⊤ };

    ghost settings = { λ _. tt };

    ghost handled = { λ first paused since _ now.
        D.kept first (documents_of_steps (paused ++ since)) now };

    ghost halted = { λ first paused since _ _ _ now.
        D.kept first (documents_of_steps (paused ++ since)) now };

    ghost may_halt = { λ _. ⊤ };

    ghost may_wait = { λ _ _. ⊤ };

    ghost ended = { λ _. false };

    ghost has_stopped = { λ _. ⊥ };

    ghost is_unput = { λ _ _. ⊤ };

    fn handle(&mut self, step: LineStep, keeper: &mut D) -> Result<Option<LineStep>, Memory> {
        let LineStep::Done(doc) = step else {
            return Ok(None);
        };
        match keeper.keep(doc) {
            Ok(Some(spent)) => Ok(Some(LineStep::Done(spent))),
            Ok(None) => Ok(None),
            Err(Memory) => Err(Memory),
        }
    }

    fn pause(&mut self, _keeper: &mut D) -> Result<(), Memory> {
        Ok(())
    }
}
