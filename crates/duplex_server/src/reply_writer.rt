//! What writes the replies of a connection.

ghost use Rattle.std.specs.Prelude.{◌≡◌, [], ◌∷◌, ◌++◌, List, None};
ghost use Rattle.std.specs.Option.{option_copied};
ghost use Rattle.nbfx_values.specs.QuotasOf.{limits_of};
ghost use Rattle.stream_loop.specs.Parts.{Part};
ghost use Rattle.stream_loop.specs.PartsGiven.{IsFresh};
ghost use Rattle.duplex_server.specs.Jobs.{ack, behind_job, part_for, reply_part, reply_payload};
ghost use Rattle.duplex_server.specs.ServerStream.{Replying, behind_reply, opened};
ghost use Rattle.io_edges.specs.Views.{SinkView};

use crate::jobs::{Job, Related, Spent};
use crate::spelling::spell_answer;
use io_edges::Sink;
use nbfx_encoder::{Sender, Side};
use nbfx_values::{Doc, Items, Kind, Mode, Quotas};
use nmf_records::record_types::PREAMBLE_ACK;
use static_dictionary::StaticTable;
use std::alloc::Global;
use stream_loop::{Outbound, PartWriter};
use unit_streams::Memory;

/// Writes what jobs ask for. It may live on another thread than what makes the jobs.
#[derive(Drop)]
pub struct ReplyWriter<'s> {
    alloc: Global,
    pub(crate) statics: &'s StaticTable,
    pub(crate) quotas: Quotas,
    // The sending half, from the preamble on.
    sender: Option<Sender<'s>>,
    // What is due and not written yet. Each answer in it is a part that counts.
    pub(crate) parts: PartWriter,
}

impl<'s> ReplyWriter<'s> {
    ghost use Rattle.duplex_server.specs.Replying.{KeepsWriting, StandsAt};

    /// Before the first job.
    pub fn new(alloc: Global, statics: &'s StaticTable, quotas: Quotas) -> Self
        ensures statics { result.statics.now ≡ statics.now }
        ensures quotas { result.quotas ≡ quotas }
        ensures fresh { IsFresh result.parts }
        ensures unopened { result.sender ≡ None }
    {
        ReplyWriter {
            alloc,
            statics,
            quotas,
            sender: None,
            parts: PartWriter::new(alloc),
        }
    }

    // Begins the session with the mode and the encoding of its preamble.
    fn open<K: Sink>(&mut self, mode: Mode, kind: Kind, sink: &mut K)
        requires going { self.old.parts.outbound ≡ Outbound.Done }
        ensures stands { (first : SinkView) (parts : List Part) (s : Replying)
            → StandsAt first parts s self.old (K.view sink.old)
            → StandsAt first (parts ++ ack ∷ [])
            (opened self.old.statics.now mode kind s) self.new (K.view sink.new) }
        ensures kept { KeepsWriting K.ended self.old self.new sink.old sink.new }
    {
        self.sender = Some(Sender::new(
            self.alloc,
            self.statics,
            self.quotas,
            kind,
            mode,
            Side::Receiver,
        ));
        self.parts.put_part(&[PREAMBLE_ACK], sink);
    }

    // Gathers an answer, or the fault in its place, where either fits and the mode admits one.
    // Where the answer wasn't made it doesn't fit. What it was related to is left.
    fn answer<K: Sink>(
        &mut self,
        doc: Option<&Doc>,
        relates: Related,
        sink: &mut K,
        left: &mut Items,
    )
        requires { self.old.parts.outbound ≡ Outbound.Done }
        ensures stands { (first : SinkView) (parts : List Part) (s : Replying)
            → StandsAt first parts s self.old (K.view sink.old)
            → StandsAt first
            (parts ++ reply_part s.mode (reply_payload (limits_of self.old.quotas) s
            (option_copied doc.entry) relates) ∷ [])
            (behind_reply (reply_payload (limits_of self.old.quotas) s (option_copied doc.entry)
            relates) s) self.new (K.view sink.new) }
        ensures kept { KeepsWriting K.ended self.old self.new sink.old sink.new }
    {
        let before = self.parts.gathered.len();
        match &mut self.sender {
            Some(sender) => {
                match spell_answer(
                    self.alloc,
                    sender,
                    doc,
                    relates,
                    &mut self.parts.gathered,
                    left,
                ) {
                    Ok(true) => self.parts.end_part(before, sink),
                    Ok(false) => {}
                    Err(Memory) => self.parts.run_out(sink),
                }
            }
            None => {}
        }
    }

    /// Writes what a job asks for, unless the writing has ended, and gives back what it leaves of an
    /// answer's. What is owed last isn't written here.
    pub fn work<K: Sink>(&mut self, job: Job, sink: &mut K) -> Option<Spent>
        ensures stands { (first : SinkView) (parts : List Part) (s : Replying)
            → StandsAt first parts s self.old (K.view sink.old)
            → StandsAt first
            (parts ++ part_for self.old.statics.now (limits_of self.old.quotas) s job ∷ [])
            (behind_job self.old.statics.now (limits_of self.old.quotas) s job) self.new (K.view
            sink.new) }
        ensures kept { KeepsWriting K.ended self.old self.new sink.old sink.new }
    {
        if !self.parts.outbound.is_going() {
            return None;
        }
        match job {
            Job::Ack { mode, kind } => {
                self.open(mode, kind, sink);
                None
            }
            Job::Answer { doc, relates } => {
                let mut items = Items::new(self.alloc);
                self.answer(Some(&doc), relates, sink, &mut items);
                Some(Spent {
                    doc: Some(doc),
                    items,
                })
            }
            Job::TooLarge { relates } => {
                let mut items = Items::new(self.alloc);
                self.answer(None, relates, sink, &mut items);
                Some(Spent { doc: None, items })
            }
            Job::Last(_) => None,
            Job::Back => None,
        }
    }
}
