//! What is sent is read at once.

ghost use Rattle.std.specs.Prelude.{◌≡◌, false};
ghost use Rattle.unit_streams.specs.Judging.{answer, is_over_at};
ghost use Rattle.stream_reader.specs.Stream.{stream};
ghost use Rattle.receiver_machine.specs.ReceiverState.{WhereItStands, settings_of};
ghost use Rattle.session_generator.specs.UnderWay.{IsReadSo};

use crate::ends::GenFault;
use receiver_machine::{ReadRefusal, Receiver, Step};

// Has the receiver read these bytes, of which only the last may complete an event.
pub(crate) fn read(receiver: &mut Receiver<'_>, bytes: &[u8]) -> Result<(), GenFault>
    ensures settings { settings_of receiver.new ≡ settings_of receiver.old }
    ensures answered { WhereItStands receiver.old (λ p.
        is_over_at (stream (settings_of receiver.old)) p ≡ false
        → IsReadSo (answer (stream (settings_of receiver.old)) p bytes.now) p bytes.now
        receiver.new result) }
{
    let step = match receiver.feed(bytes) {
        Ok((_, step)) => step,
        Err(ReadRefusal::Offence(offence)) => return Err(GenFault::SessionTooLong(offence)),
        Err(ReadRefusal::Memory) => return Err(GenFault::Memory),
    };
    if let Step::Message { doc, .. } = step {
        receiver.reuse(doc);
    }
    Ok(())
}
