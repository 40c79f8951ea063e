//! The writer of a call with the sink that it owns, and the reader with source and output: each is on
//! a thread of its own.

use crate::answers::AnswerReader;
use crate::lane_writer::LaneWriter;
use io_edges::{Sink, Source};
use nbfx_values::{Docs, Offence};
use stream_loop::FollowEnding;
use two_lanes::{Lane, LaneJob, LaneWorker, Meanwhile};

/// Sends the documents of two lists to a sink, in the order in which jobs name them.
#[derive(Drop)]
pub struct OwnedWriter<'s, K> {
    /// The first list.
    pub a: &'s Docs,
    /// The second list.
    pub b: &'s Docs,
    /// What makes their envelopes.
    pub writer: LaneWriter<'s>,
    /// The peer.
    pub sink: K,
}

impl<'s, K: Sink> LaneWorker for OwnedWriter<'s, K> {
    ghost use Rattle.std.specs.Prelude.{◌≡◌, true};
    ghost use Rattle.client.specs.LaneWriting.{HasDone, HasFinished, NothingWaits};

    ghost did = { λ first jobs now. HasDone K.view first jobs now };

    ghost finished = { λ first jobs now. HasFinished K.view first jobs now
        × (K.ended now.sink ≡ true) };

    ghost may_wait = { λ now. NothingWaits K.view K.ended now };

    fn work(&mut self, job: LaneJob) {
        let LaneJob::Send { lane, number } = job else {
            return;
        };
        let docs = match lane {
            Lane::A => self.a,
            Lane::B => self.b,
        };
        if let Some(doc) = docs.as_slice().get(number as usize) {
            self.writer.send(lane, doc, &mut self.sink);
        }
    }

    fn catch_up(&mut self) {
        self.writer.catch_up(&mut self.sink);
    }

    fn finish(&mut self) {
        self.writer.finish(&mut self.sink);
    }
}

/// Reads the peer's stream from a source, and reports it.
#[derive(Drop)]
pub struct OwnedReader<'s, S, O> {
    /// What reads it.
    pub reader: AnswerReader<'s>,
    /// The peer.
    pub source: S,
    /// The report.
    pub output: O,
}

impl<'s, S: Source, O: Sink> Meanwhile for OwnedReader<'s, S, O> {
    ghost use Rattle.std.specs.Prelude.{◌≡◌, List, ℕ};
    ghost use Rattle.io_edges.specs.Faults.{CountsFaults};
    ghost use Rattle.stream_reader.specs.Stream.{Settings as Reads};
    ghost use Rattle.stream_loop.specs.Edges.{Input, input_at};
    ghost use Rattle.stream_loop.specs.declared.following.FollowEnding.{FollowEnding as Ended};
    ghost use Rattle.stream_loop.specs.declared.following.FollowEnding.TheVariants.{ReadFault};
    ghost use Rattle.client.specs.declared.answers.Stage.{Stage as Far};
    ghost use Rattle.client.specs.Answering.{HasComeSo, IsFollowed};

    type Done = (Self, FollowEnding<Offence>);

    ghost may_run = { λ owned. (owned.reader.handler.stage ≡ Far.Acked) × (y : Reads)
        × (i : Input) × (first : O) × (p : List ℕ) × HasComeSo y i (O.view first) p owned.reader
        (input_at S.left S.taken S.faults S.empty_takes owned.source) (O.view owned.output) };

    ghost ran = { λ owned done. ((y : Reads) (i : Input) (first : O) (p : List ℕ)
        → HasComeSo y i (O.view first) p owned.reader
        (input_at S.left S.taken S.faults S.empty_takes owned.source) (O.view owned.output)
        → IsFollowed y i (O.view first) Far.Acked done.0.reader
        (input_at S.left S.taken S.faults S.empty_takes done.0.source) (O.view done.0.output)
        done.1) × CountsFaults (S.faults owned.source) (S.faults done.0.source)
        (done.1 ≡ Ended.ReadFault) };

    fn run(self) -> (Self, FollowEnding<Offence>) {
        let OwnedReader {
            reader,
            mut source,
            mut output,
        } = self;
        let (reader, ending) = reader.read_rest(&mut source, &mut output);
        let owned = OwnedReader {
            reader,
            source,
            output,
        };
        (owned, ending)
    }
}
