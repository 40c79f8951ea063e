//! One record after the other, in any pieces.

ghost use Rattle.std.specs.Prelude.{◌≡◌, ◌-◌, ◌<◌, [], length, max, min, take, IfErr, IfOk, None, OnOk, Some};
ghost use Rattle.unit_streams.specs.Front.{begun};
ghost use Rattle.nbfx_records.specs.RecordAtFront.{node_at};
ghost use Rattle.nbfx_records.specs.Answers.{FeedAnswers, IsLeft, StepIsValid};
ghost use Rattle.nbfx_records.specs.NodeReaderState.{begun_of, failure_of};

use crate::begun_bytes::BegunBytes;
use crate::building::node;
use crate::cursor::Stop;
use crate::nodes::{Node, NodeFault, NodePlace};
use crate::records::parts_at;
use std::alloc::Global;

/// What a piece has completed.
#[derive(Debug, Drop)]
pub enum NodeStep {
    /// No record is complete yet.
    More,
    /// A record is complete.
    Done(Node),
}

/// Reads the records of MC-NBFX, one after the other, in whatever pieces their bytes come. It holds
/// the bytes of the incomplete record, and within a call no others.
#[derive(Drop)]
pub struct NodeReader {
    alloc: Global,
    begun: BegunBytes,
    /// How many bytes in all the record that has begun needs at least.
    wants: usize,
    failure: Option<NodeFault>,
}

impl NodeReader {
    ghost use Rattle.nbfx_records.specs.declared.nodes.NodeFault.{NodeFault as Why};

    /// A reader before the first byte.
    pub fn new(alloc: Global) -> NodeReader
        ensures begun { begun_of result ≡ [] }
        ensures going { failure_of result ≡ None }
    {
        NodeReader {
            alloc,
            begun: BegunBytes::new(alloc),
            wants: 0,
            failure: None,
        }
    }

    /// Reads on with a piece, up to the byte that completes a record, and answers how many bytes of
    /// the piece it used, and the node of the record. Where no record is complete it has used all.
    /// `place` says which records may stand here, and has to be the same for all pieces of one
    /// record. It fails at the first byte that shows a fault, or without memory; from then on it
    /// holds no bytes and fails in the same way.
    pub fn feed(&mut self, piece: &[u8], place: NodePlace) -> Result<(usize, NodeStep), NodeFault>
        requires { failure_of self.old ≡ None → node_at place (begun_of self.old) ≡ begun }
        ensures answers { failure_of self.old ≡ None
            → FeedAnswers place (begun_of self.old) piece.now result }
        ensures left { failure_of self.old ≡ None
            → IsLeft (begun_of self.old) piece.now (begun_of self.new) result }
        ensures valid { IfOk result (λ answer. StepIsValid answer.1) }
        ensures going { OnOk result (failure_of self.new ≡ None) }
        ensures failed { IfErr result (λ why. failure_of self.new ≡ Some why) }
        ensures emptied { failure_of self.old ≡ None → IfErr result (λ why. begun_of self.new ≡ []) }
        ensures repeated { (why : Why) → failure_of self.old ≡ Some why → result ≡ Err why }
        ensures unchanged { (why : Why) → failure_of self.old ≡ Some why → self.new ≡ self.old }
    {
        if let Some(why) = self.failure {
            return Err(why);
        }
        match self.take(piece, place) {
            Ok(answer) => Ok(answer),
            Err(why) => {
                self.begun.clear();
                self.failure = Some(why);
                Err(why)
            }
        }
    }

    /// How many bytes of the incomplete record it holds.
    pub fn pending(&self) -> u64
        ensures { result ≡ length (begun_of self.now) }
    {
        // No slice has as many bytes as would not be counted.
        let _bytes = self.begun.as_slice();
        self.begun.len() as u64
    }

    // Takes some of the piece.
    fn take(&mut self, piece: &[u8], place: NodePlace) -> Result<(usize, NodeStep), NodeFault>
        requires { node_at place self.old.begun ≡ begun }
        ensures answers { FeedAnswers place self.old.begun piece.now result }
        ensures left { IsLeft self.old.begun piece.now self.new.begun result }
        ensures valid { IfOk result (λ answer. StepIsValid answer.1) }
        ensures failure { self.new.failure ≡ self.old.failure }
    {
        if self.begun.len() == 0 {
            self.take_whole(piece, place)
        } else {
            self.take_on(piece, place)
        }
    }

    // Reads a record out of the piece, or keeps it all.
    fn take_whole(&mut self, piece: &[u8], place: NodePlace) -> Result<(usize, NodeStep), NodeFault>
        requires { self.old.begun ≡ [] }
        ensures answers { FeedAnswers place self.old.begun piece.now result }
        ensures left { IsLeft self.old.begun piece.now self.new.begun result }
        ensures valid { IfOk result (λ answer. StepIsValid answer.1) }
        ensures failure { self.new.failure ≡ self.old.failure }
    {
        match parts_at(place, piece) {
            Ok((part, used)) => {
                let node = node(self.alloc, &part)?;
                Ok((used, NodeStep::Done(node)))
            }
            Err(Stop::More { wants }) => {
                self.begun.keep(piece)?;
                self.wants = wants;
                Ok((piece.len(), NodeStep::More))
            }
            Err(Stop::Fault { fault, .. }) => Err(NodeFault::Record(fault)),
        }
    }

    // Reads on the incomplete record, of which no more is kept than it needs.
    fn take_on(&mut self, piece: &[u8], place: NodePlace) -> Result<(usize, NodeStep), NodeFault>
        requires { node_at place self.old.begun ≡ begun }
        ensures answers { FeedAnswers place self.old.begun piece.now result }
        ensures left { IsLeft self.old.begun piece.now self.new.begun result }
        ensures valid { IfOk result (λ answer. StepIsValid answer.1) }
        ensures failure { self.new.failure ≡ self.old.failure }
    {
        let mut used = 0;
        while used < piece.len() {
            let part = self.wanted(&piece[used..]);
            let (more, step) = self.read_on(part, place)?;
            match step {
                NodeStep::More => used += more,
                NodeStep::Done(node) => return Ok((used + more, NodeStep::Done(node))),
            }
        }
        Ok((used, NodeStep::More))
    }

    // The first of these bytes, as many as the incomplete record still needs at least, or one.
    fn wanted<'a>(&self, bytes: &'a [u8]) -> &'a [u8]
        requires { 0 < length bytes.now }
        ensures { result.now ≡ take (min (max (self.now.wants - length self.now.begun) 1)
            (length bytes.now)) bytes.now }
    {
        let wanted = self.wants.saturating_sub(self.begun.len()).max(1);
        &bytes[..wanted.min(bytes.len())]
    }

    // Reads on the incomplete record, with all of the piece kept.
    fn read_on(&mut self, piece: &[u8], place: NodePlace) -> Result<(usize, NodeStep), NodeFault>
        requires { node_at place self.old.begun ≡ begun }
        ensures answers { FeedAnswers place self.old.begun piece.now result }
        ensures left { IsLeft self.old.begun piece.now self.new.begun result }
        ensures valid { IfOk result (λ answer. StepIsValid answer.1) }
        ensures failure { self.new.failure ≡ self.old.failure }
    {
        let before = self.begun.len();
        self.begun.keep(piece)?;
        match self.begun.parts(place) {
            Ok((part, used)) => {
                let node = node(self.alloc, &part)?;
                self.begun.clear();
                Ok((used - before, NodeStep::Done(node)))
            }
            Err(Stop::More { wants }) => {
                self.wants = wants;
                self.begun.look(place);
                Ok((piece.len(), NodeStep::More))
            }
            Err(Stop::Fault { fault, .. }) => Err(NodeFault::Record(fault)),
        }
    }
}
