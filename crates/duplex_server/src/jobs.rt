//! What a writer of replies is asked to write.

ghost use Rattle.std.specs.Prelude.{◌≡◌};
ghost use Rattle.soap_envelope.specs.Making.{AreTexts};
ghost use Rattle.duplex_server.specs.Serving.{closing_of};

use nbfx_values::{Doc, Items, Kind, Mode, Offence};
use receiver_machine::closing_record;
use soap_envelope::Addressing;
use stream_loop::FollowEnding;

/// What an answer relates to, and its version of addressing. A fault in its place has both too.
#[derive(Debug, Drop)]
pub struct Related {
    /// The texts to which it relates, one after the other.
    pub items: Items,
    /// Its version of addressing.
    pub version: Addressing,
    ghost texts: { AreTexts items },
}

/// What a writer of replies is asked to write next.
#[derive(Debug, Drop)]
pub enum Job {
    /// The Preamble Ack. Answers go by this mode and this encoding.
    Ack { mode: Mode, kind: Kind },
    /// The envelope of this answer; or, if it doesn't fit, of the fault that says so.
    Answer { doc: Doc, relates: Related },
    /// The envelope of that fault. The answer wasn't made, since it is larger than any that fits.
    TooLarge { relates: Related },
    /// What is owed last, by how the reading ended. No job follows.
    Last(FollowEnding<Offence>),
    /// Nothing, not even what is held. No job follows.
    Back,
}

impl Job {
    ghost use Rattle.duplex_server.specs.Jobs.{is_last};

    /// Whether no job follows.
    pub fn is_last(&self) -> bool
        ensures { result ≡ is_last self.now }
    {
        matches!(self, Job::Last(_) | Job::Back)
    }
}

/// What is left of an answer whose job was done, for the thread that asked for its memory.
#[derive(Debug, Drop)]
pub struct Spent {
    /// The answer, if it was made.
    pub doc: Option<Doc>,
    /// What it was related to, or the fault in its place.
    pub items: Items,
}

/// What is owed last, by how the reading ended.
pub fn last_bytes(ending: FollowEnding<Offence>) -> &'static [u8]
    ensures { result.now ≡ closing_of ending }
{
    match ending {
        FollowEnding::Judged(refusal) => closing_record(refusal),
        FollowEnding::ReadFault | FollowEnding::Memory => &[],
    }
}
