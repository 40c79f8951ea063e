//! Lines of documents as the loop of every command reads them.

ghost use Rattle.std.specs.Prelude.{◌≡◌, ℕ, List, Bool, false};

use crate::InputFault;
use crate::envelope::Envelope;
use crate::reader::DocumentReader;
use stream_loop::{FeedFault, ReadingEnd};

impl<'s> ReadingEnd for DocumentReader<'s> {
    type Event = Envelope;

    type Refusal = InputFault;

    ghost use Rattle.document_lines.specs.Input.{Situation as InputSituation, lines_of_documents};
    ghost use Rattle.document_lines.specs.DocumentReaderState.{StandsFor, counts_taken, settings_of, taken_of};

    ghost Situation = { InputSituation };

    ghost UnitOf = { List ℕ };

    ghost Completed = { List ℕ };

    ghost event_for = { λ envelope. envelope };

    ghost grammar = { λ reader. lines_of_documents (settings_of reader) };

    ghost stands = { StandsFor };

    ghost taken = { taken_of };

    ghost most = { λ reader. (settings_of reader).limits.session };

    ghost ends = { λ _. false };

    ghost counts = { counts_taken };

    fn feed(&mut self, piece: &[u8]) -> Result<(usize, Option<Envelope>), FeedFault<InputFault>> {
        DocumentReader::feed(self, piece)
    }

    fn end_of_input(&mut self) -> Result<(), InputFault> {
        match DocumentReader::end_of_input(self) {
            Ok(()) => Ok(()),
            Err(FeedFault::Refused(fault)) => Err(fault),
            Err(FeedFault::Memory) => unreachable!(),
        }
    }

    fn is_end(&self, _event: &Envelope) -> bool {
        false
    }

    fn recycle(&mut self, event: Envelope) {
        self.reuse(event);
    }
}
