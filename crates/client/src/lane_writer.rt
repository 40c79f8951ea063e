//! What makes the envelopes of documents, and puts them to the peer.

ghost use Rattle.std.specs.Prelude.{◌≡◌, ◌++◌, ◌∷◌, [], List, None, true};
ghost use Rattle.io_edges.specs.Views.{SinkView};
ghost use Rattle.nbfx_values.specs.declared.content.Item.{Item as Part};
ghost use Rattle.nbfx_encoder.specs.EncoderState.{Refuses};
ghost use Rattle.nbfx_encoder.specs.Sending.{kind_in, limits_in, names_in};
ghost use Rattle.nbfx_encoder.specs.Spelling.{encoded};
ghost use Rattle.stream_loop.specs.PartsGiven.{MayWait};
ghost use Rattle.two_lanes.specs.Merges.{Step};
ghost use Rattle.client.specs.LaneWriting.{HasEnded, IsSetAs, IsUnwritten, IsWriting, writer_out};

use crate::outcome::{ClientOut, client_out};
use crate::settings::CallSettings;
use io_edges::Sink;
use nbfx_encoder::{EncodeFault, SendFault, Sender, Side};
use nbfx_values::Doc;
use nmf_records::record_types::END;
use std::alloc::Global;
use stream_loop::{Outbound, PartWriter};
use two_lanes::Lane;

/// A letter for each of the envelopes of two lists, in the order in which they are sent.
pub type Tags = Vec<Lane>;

/// Makes the envelopes of documents in the order in which they come, so that they have the session
/// strings of that order, and puts them to the peer. After a document that doesn't fit, a failed
/// write, or when out of memory, it sends nothing more.
#[derive(Drop)]
pub struct LaneWriter<'s> {
    pub(crate) settings: CallSettings<'s>,
    pub(crate) sender: Sender<'s>,
    // Why the next document doesn't fit.
    pub(crate) unfit: Option<EncodeFault>,
    // A letter for each envelope that was made.
    pub(crate) tags: Tags,
    pub(crate) parts: PartWriter,
}

impl<'s> LaneWriter<'s> {
    /// Before the first document.
    pub fn new(alloc: Global, settings: CallSettings<'s>) -> Self
        ensures settings { result.settings ≡ settings.entry }
        ensures unwritten { IsUnwritten result }
    {
        let CallSettings {
            statics,
            quotas,
            mode,
            encoding,
        } = settings;
        LaneWriter {
            settings,
            sender: Sender::new(
                alloc,
                statics,
                quotas.forward,
                encoding.kind(),
                mode,
                Side::Initiator,
            ),
            unfit: None,
            tags: Vec::new(alloc),
            parts: PartWriter::new(alloc),
        }
    }

    // Sends no more, since there was no memory for the next envelope.
    fn run_out<K: Sink>(&mut self, sink: &mut K)
        requires going { self.old.parts.outbound ≡ Outbound.Done }
        ensures writing { (first : SinkView) (all more : List (Step (List Part)))
            → IsWriting first all self.old (K.view sink.old)
            → IsWriting first (all ++ more) self.new (K.view sink.new) }
        ensures set { IsSetAs self.old self.new }
        ensures same_end { K.ended sink.new ≡ K.ended sink.old }
    {
        self.parts.run_out(sink);
    }

    // Ends the writing since there was no memory for the next envelope, or notes why its document
    // doesn't fit.
    fn refuse<K: Sink>(&mut self, fault: EncodeFault, sink: &mut K)
        requires going { self.old.parts.outbound ≡ Outbound.Done }
        requires fits { self.old.unfit ≡ None }
        ensures writing { (first : SinkView) (all : List (Step (List Part))) (lane : Lane)
            (document : List Part) → Refuses (encoded (limits_in self.old.sender)
            (kind_in self.old.sender) (names_in self.old.sender) document) fault
            → IsWriting first all self.old (K.view sink.old)
            → IsWriting first (all ++ (lane, document) ∷ []) self.new (K.view sink.new) }
        ensures set { IsSetAs self.old self.new }
        ensures same_end { K.ended sink.new ≡ K.ended sink.old }
    {
        match fault {
            EncodeFault::Memory => self.run_out(sink),
            unfit => self.unfit = Some(unfit),
        }
    }

    /// Makes the envelope of the next document, which is one of that list, and puts it.
    pub fn send<K: Sink>(&mut self, lane: Lane, doc: &Doc, sink: &mut K)
        ensures writing { (first : SinkView) (all : List (Step (List Part)))
            → IsWriting first all self.old (K.view sink.old)
            → IsWriting first (all ++ (lane, doc.now) ∷ []) self.new (K.view sink.new) }
        ensures set { IsSetAs self.old self.new }
        ensures same_end { K.ended sink.new ≡ K.ended sink.old }
    {
        if !self.parts.outbound.is_going() || self.unfit.is_some() {
            return;
        }
        if self.tags.reserve(1).is_err() {
            return self.run_out(sink);
        }
        let before = self.parts.gathered.len();
        match self.sender.message(doc, &mut self.parts.gathered) {
            Ok(()) => {
                self.tags.push_reserved(lane);
                self.parts.end_part(before, sink);
            }
            Err(SendFault::Refused(fault)) => self.refuse(fault, sink),
            // A second document in singleton mode: such documents aren't sent.
            Err(SendFault::WrongMoment { .. }) => {}
        }
    }

    /// Writes what is gathered, since the next document may be long in coming. Where the writing has
    /// failed, the direction of the sink is ended.
    pub fn catch_up<K: Sink>(&mut self, sink: &mut K)
        ensures writing { (first : SinkView) (all : List (Step (List Part)))
            → IsWriting first all self.old (K.view sink.old)
            → IsWriting first all self.new (K.view sink.new) }
        ensures set { IsSetAs self.old self.new }
        ensures may_wait { MayWait self.new.parts.outbound self.new.parts.gathered.items
            (K.view sink.new) (K.ended sink.new) }
        ensures same_end { self.new.parts.outbound ≡ Outbound.Done
            → K.ended sink.new ≡ K.ended sink.old }
    {
        self.parts.pause(sink);
    }

    /// Puts the End record if each document has its envelope, writes all, and ends the direction of
    /// the sink. Letters stay for the envelopes that were put whole.
    pub fn finish<K: Sink>(&mut self, sink: &mut K)
        ensures sent { (first : SinkView) (all : List (Step (List Part)))
            → IsWriting first all self.old (K.view sink.old)
            → HasEnded self.old.settings first all self.new (K.view sink.new) }
        ensures ended { K.ended sink.new ≡ true }
    {
        if self.unfit.is_none() && self.parts.outbound.is_going() {
            self.parts.close(&[END], sink);
        } else {
            self.parts.close(&[], sink);
        }
        sink.end();
        let whole = (self.parts.whole as usize).min(self.tags.len());
        self.tags.truncate(whole);
    }

    /// The letters of the envelopes that were put whole, and how the writing ended.
    pub fn into_outcome(self) -> (Tags, ClientOut)
        ensures tags { result.0 ≡ self.entry.tags }
        ensures outbound { result.1 ≡ writer_out self.entry }
    {
        let outbound = match (self.parts.outbound, self.unfit) {
            (Outbound::Done, Some(fault)) => ClientOut::Unfit {
                number: self.tags.len() as u64,
                fault,
            },
            (outbound, _) => client_out(outbound),
        };
        (self.tags, outbound)
    }
}
