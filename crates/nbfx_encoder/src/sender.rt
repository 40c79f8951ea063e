//! The sending half of a session: documents in envelopes, and then End.
#![tactic(auto, unfolding(crate::specs::Sending::kind_in, crate::specs::Sending::limits_in, crate::specs::Sending::mode_in, crate::specs::Sending::names_in, crate::specs::Sending::side_in, crate::specs::Sending::state_in,))]

ghost use Rattle.std.specs.Prelude.{◌≡◌, ◌++◌, ◌<◌, ◌≤◌, ◌^◌, [], false, OnOk, OnErr, IfErr, IfOk};
ghost use Rattle.nbfx_values.specs.Limits.{Limits};
ghost use Rattle.nbfx_values.specs.QuotasOf.{limits_of};
ghost use Rattle.nbfx_records.specs.Putting.{Puts};
ghost use Rattle.string_tables.specs.SessionStrings.{used_cost};
ghost use Rattle.nmf_records.specs.Writing.{frame_bytes_of, has_text, size_told};
ghost use Rattle.nbfx_encoder.specs.Envelopes.{envelope_end, envelope_head};
ghost use Rattle.nbfx_encoder.specs.ReadBack.{AdmitsAsMuch, AppendsEnvelope};
ghost use Rattle.nbfx_encoder.specs.EncoderState.{payload_in};
ghost use Rattle.nbfx_encoder.specs.Spelling.{encoded};

use crate::encoder::Encoder;
use crate::faults::EncodeFault;
use nbfx_values::{Doc, Kind, Mode, Quotas};
use nmf_records::{Frame, put_head};
use session_dictionary::SessionTable;
use static_dictionary::StaticTable;
use std::alloc::Global;
use unit_streams::Memory;

// The most bytes of records about a payload (MC-NMF): the type and the size of an Unsized Envelope
// Record's chunk, and the size of the chunk that ends it.
const AROUND_PAYLOAD: usize = 7;

/// Which end of the session sends.
#[derive(Clone, Copy, Debug, PartialEq, Eq)]
pub enum Side {
    /// The end that connected.
    Initiator,
    /// The end that accepted the connection.
    Receiver,
}

/// Where a sending half is in its session.
#[derive(Clone, Copy, Debug, PartialEq, Eq)]
pub enum SendState {
    /// A message may be sent.
    Ready,
    /// No message may be sent any more, and End may.
    Spent,
    /// End was sent.
    Closed,
}

/// Why a message isn't sent. The sending half and its output are as before.
#[derive(Clone, Copy, Debug, PartialEq, Eq)]
pub enum SendFault {
    /// No message may be sent in this state.
    WrongMoment { state: SendState },
    /// The document isn't written, for this reason.
    Refused(EncodeFault),
}

/// The sending half of a session (MC-NMF), after its preamble.
#[derive(Drop)]
pub struct Sender<'s> {
    pub(crate) encoder: Encoder<'s>,
    pub(crate) mode: Mode,
    pub(crate) side: Side,
    pub(crate) state: SendState,
}

impl<'s> Sender<'s> {
    ghost use Rattle.nbfx_encoder.specs.Sending.{KeepsSettings, MayNotEnd, RefusesMessage, Sends, behind_message, first_state, kind_in, limits_in, mode_in, names_in, side_in, state_in};

    /// The sending half of this end in a session of this mode, whose payloads have this encoding. A
    /// receiver in simplex mode may send no message.
    pub fn new(
        alloc: Global,
        statics: &'s StaticTable,
        quotas: Quotas,
        kind: Kind,
        mode: Mode,
        side: Side,
    ) -> Self
        ensures limits { limits_in result ≡ limits_of quotas }
        ensures kind { kind_in result ≡ kind }
        ensures mode { mode_in result ≡ mode }
        ensures side { side_in result ≡ side }
        ensures state { state_in result ≡ first_state mode side }
        ensures names { names_in result ≡ record { statics = statics.now; strings = [] } }
    {
        let state = match (mode, side) {
            (Mode::Simplex, Side::Receiver) => SendState::Spent,
            _ => SendState::Ready,
        };
        Sender {
            encoder: Encoder::new(alloc, statics, quotas, kind),
            mode,
            side,
            state,
        }
    }

    /// The session strings of the direction so far, which cost no more than the dictionary quota.
    pub fn table(&self) -> &SessionTable
        ensures strings { result.now.strings ≡ (names_in self.now).strings }
        ensures within { used_cost result.now.strings ≤ (limits_in self.now).dictionary }
    {
        self.encoder.table()
    }

    /// Whether a message, or End, may be sent.
    pub fn state(&self) -> SendState
        ensures { result ≡ state_in self.now }
    {
        self.state
    }

    /// Ends the session, and answers the byte of the End Record, which the caller sends last. It
    /// fails where End was sent before, and in singleton mode before the initiator's message; then
    /// nothing changes, and the state is answered.
    pub fn end(&mut self) -> Result<u8, SendState>
        ensures byte { IfOk result (λ byte. byte ≡ 7) }
        ensures may { OnOk result (MayNotEnd (mode_in self.old) (side_in self.old) (state_in self.old) → ⊥) }
        ensures closed { OnOk result (state_in self.new ≡ SendState.Closed) }
        ensures refused { OnErr result (MayNotEnd (mode_in self.old) (side_in self.old) (state_in self.old)) }
        ensures state { IfErr result (λ state. state ≡ state_in self.old) }
        ensures unchanged { OnErr result (state_in self.new ≡ state_in self.old) }
        ensures names { names_in self.new ≡ names_in self.old }
        ensures kept { KeepsSettings self.old self.new }
    {
        match (self.state, self.mode, self.side) {
            (SendState::Closed, _, _) => Err(SendState::Closed),
            (SendState::Ready, Mode::Singleton, Side::Initiator) => Err(SendState::Ready),
            _ => {
                self.state = SendState::Closed;
                Ok(7)
            }
        }
    }

    /// Appends the envelope of a document, and carries the session strings on. Any reader that has
    /// the same static and session strings, and quotas as great, reads the document from its
    /// payload, and has the same session strings afterwards. In singleton mode it is an Unsized
    /// Envelope Record of one chunk, and no other message may follow; else a Sized Envelope Record.
    /// It fails where no message may be sent, before the document is judged, or as
    /// [`Encoder::encode`] does; then the sending half and `out` are as before.
    pub fn message(&mut self, doc: &Doc, out: &mut Vec<u8>) -> Result<(), SendFault>
        ensures ready { OnOk result (state_in self.old ≡ SendState.Ready) }
        ensures written { OnOk result (Sends
            (encoded (limits_in self.old) (kind_in self.old) (names_in self.old) doc.now)
            (mode_in self.old) out.old.items out.new.items (names_in self.new)) }
        ensures payload { (reader : Limits) → AdmitsAsMuch reader (limits_in self.old)
            → OnOk result (AppendsEnvelope reader (kind_in self.old) (mode_in self.old)
            (names_in self.old) doc.now out.old.items out.new.items (names_in self.new)) }
        ensures state { OnOk result (state_in self.new ≡ behind_message (mode_in self.old)) }
        ensures refused { IfErr result (RefusesMessage
            (encoded (limits_in self.old) (kind_in self.old) (names_in self.old) doc.now)
            (state_in self.old)) }
        ensures unchanged { OnErr result ((out.new.items ≡ out.old.items)
            × (names_in self.new ≡ names_in self.old) × (state_in self.new ≡ state_in self.old)) }
        ensures kept { KeepsSettings self.old self.new }
    {
        if self.state != SendState::Ready {
            return Err(SendFault::WrongMoment { state: self.state });
        }
        let prepared = match self.encoder.prepare(doc) {
            Ok(prepared) => prepared,
            Err(fault) => return Err(SendFault::Refused(fault)),
        };
        let before = out.len();
        match put_envelope(&self.encoder, self.mode, prepared.size, out) {
            Ok(()) => {
                self.state = self.behind_message();
                Ok(())
            }
            Err(Memory) => {
                out.truncate(before);
                self.encoder.take_back(prepared.mark);
                Err(SendFault::Refused(EncodeFault::Memory))
            }
        }
    }

    // The state after a message.
    fn behind_message(&self) -> SendState
        ensures { result ≡ behind_message self.now.mode }
    {
        match self.mode {
            Mode::Singleton => SendState::Spent,
            Mode::Duplex | Mode::Simplex => SendState::Ready,
        }
    }
}

// Appends a record or a chunk's size.
fn put_record(frame: Frame, out: &mut Vec<u8>) -> Result<(), Memory>
    requires textless { has_text frame ≡ false }
    requires size { size_told frame < 2 ^ 31 }
    ensures { Puts result out.old.items out.new.items (frame_bytes_of frame []) }
{
    let mut front = [0u8; 8];
    let len = put_head(frame, &mut front);
    out.extend_from_slice(&front[..len])?;
    Ok(())
}

// Appends what stands before a payload of so many bytes.
fn put_envelope_head(mode: Mode, size: u32, out: &mut Vec<u8>) -> Result<(), Memory>
    requires { size < 2 ^ 31 }
    ensures { Puts result out.old.items out.new.items (envelope_head mode size) }
{
    match mode {
        Mode::Singleton => {
            put_record(Frame::UnsizedEnvelope, out)?;
            put_record(Frame::Chunk(size), out)
        }
        Mode::Duplex | Mode::Simplex => put_record(Frame::SizedEnvelope(size), out),
    }
}

// Appends what stands after it.
fn put_envelope_end(mode: Mode, out: &mut Vec<u8>) -> Result<(), Memory>
    ensures { Puts result out.old.items out.new.items (envelope_end mode) }
{
    match mode {
        Mode::Singleton => put_record(Frame::Chunk(0), out),
        Mode::Duplex | Mode::Simplex => Ok(()),
    }
}

// Appends the envelope of the payload that an encoder has prepared.
fn put_envelope(
    encoder: &Encoder<'_>,
    mode: Mode,
    size: u32,
    out: &mut Vec<u8>,
) -> Result<(), Memory>
    requires { size < 2 ^ 31 }
    ensures { Puts result out.old.items out.new.items
        (envelope_head mode size ++ (payload_in encoder.now ++ envelope_end mode)) }
{
    out.reserve(size as usize + AROUND_PAYLOAD)?;
    put_envelope_head(mode, size, out)?;
    encoder.put_payload(out)?;
    put_envelope_end(mode, out)
}
