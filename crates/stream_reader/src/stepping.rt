//! The parts of a reader's step: a record or a chunk's size, bytes of a payload, and what each
//! leads to.

ghost use Rattle.std.specs.Prelude.{◌≡◌, ℕ, ◌+◌, ◌≤◌, ◌<◌, List, [], length, take, IfOk, IfErr, OnOk, Ok, Some, None, false, true};
ghost use Rattle.unit_streams.specs.Judging.{is_over_at};
ghost use Rattle.nbfx_values.specs.QuotasOf.{limits_of};
ghost use Rattle.stream_reader.specs.Stream.{stream, offence_at};

use crate::awaited::{Awaited, Closing, Form, PayloadLeft};
use crate::judging;
use crate::reader::{ReadRefusal, StreamReader, StreamStep};
use nbfx_decoder::{DecodeFault, Decoder};
use nbfx_values::{Kind, Mode, Offence, Place, Reason};
use nmf_records::{Due, Frame, FrameStep};

impl<'s> StreamReader<'s> {
    ghost use Rattle.nbfx_decoder.specs.DecoderState.{settings_of as decoder_settings, StandsFor as DecoderStandsFor, WhereItStands as WhereDecoderStands};
    ghost use Rattle.nmf_records.specs.declared.frame.Frame.{Frame as Record};
    ghost use Rattle.nmf_records.specs.Reader.{ShowsText as FramesShowText};
    ghost use Rattle.nmf_records.specs.{RecordFronts.text_kind, Writing.has_text};
    ghost use Rattle.stream_reader.specs.Sides.{side_of};
    ghost use Rattle.stream_reader.specs.StreamReaderState.{settings_of, failure_of, awaited_at, WhereItStands};
    ghost use Rattle.stream_reader.specs.Stepping.{UnitAnswers, BehindAnswers, HasDecoded, IsDue, DecodesAfter, IsMoved, KeepsFraming, KeepsParts, KeepsShown, MakesPayload, MayTake, RecordAnswers, awaited_after, bare_step, begun_by, closing_after, closing_step, is_chunked_form, mode_after, due_of, has_ended, may_end_at, opened_at, size_before_of, taken_since, refusal_told};
    ghost use Rattle.stream_reader.specs.Stream.{Settings, Situation, Stage, OpenPayload, behind_payload, completed, completed_payload, direction_of, frame as frame_unit, led, reason_in, refused_payload, after_record, completed_record, refused_record, payload_by};

    pub(crate) fn has_ended(&self) -> bool
        ensures { result ≡ has_ended self.now.awaited }
    {
        matches!(self.awaited, Awaited::Record(Due::Over))
    }

    // The event that ended the session.
    pub(crate) fn closing_step(&self) -> StreamStep
        ensures { result ≡ closing_step self.now.closing self.now.taken }
    {
        let bytes = self.taken;
        match self.closing {
            Closing::End => StreamStep::Ended { bytes },
            Closing::Fault => StreamStep::PeerFault { bytes },
        }
    }

    // Whether the input may end here.
    pub(crate) fn may_end(&self) -> bool
        ensures { result ≡ may_end_at (direction_of (side_of self.now.side)) self.now.mode
            self.now.awaited self.now.unit_from self.now.taken }
    {
        match self.awaited {
            Awaited::Record(Due::Over) => true,
            Awaited::Record(due) => {
                due.may_end(self.side.direction(), self.mode) && self.unit_from == self.taken
            }
            _ => false,
        }
    }

    // How many of so many bytes may be read within the session quota.
    pub(crate) fn room(&self, len: usize) -> usize
        ensures within { result ≤ len }
        ensures quota { self.now.taken ≤ self.now.quotas.session
            → self.now.taken + result ≤ self.now.quotas.session }
        ensures full { result < len → self.now.quotas.session ≤ self.now.taken + result }
        ensures none { self.now.quotas.session < self.now.taken → result ≡ 0 }
    {
        let room = self.quotas.session.saturating_sub(self.taken);
        len.min(room as usize)
    }

    // The first byte of the unfinished record.
    pub(crate) fn open_from(&self) -> u64
        ensures { result ≡ opened_at self.now.awaited self.now.unit_from }
    {
        match self.awaited {
            Awaited::Payload(payload) | Awaited::Chunk(payload) => payload.from,
            Awaited::Record(_) => self.unit_from,
        }
    }

    // Fails from now on, by a record that begins at this offset.
    pub(crate) fn refuse(&mut self, from: u64, reason: Reason) -> ReadRefusal
        ensures offence { result ≡ ReadRefusal.Offence (offence_at from reason) }
        ensures failure { self.new.failure ≡ Some result }
        ensures taken { self.new.taken ≡ self.old.taken }
        ensures shown { KeepsShown self.old self.new }
    {
        let place = Place::Frame(from);
        self.fail(ReadRefusal::Offence(Offence { place, reason }))
    }

    // Fails from now on, by a payload.
    pub(crate) fn refuse_payload(&mut self, fault: DecodeFault) -> ReadRefusal
        ensures told { result ≡ refusal_told self.old.messages fault }
        ensures failure { self.new.failure ≡ Some result }
        ensures taken { self.new.taken ≡ self.old.taken }
        ensures shown { KeepsShown self.old self.new }
    {
        match fault {
            DecodeFault::Payload { at, reason, .. } => {
                let message = self.messages;
                let place = Place::Payload { message, at };
                self.fail(ReadRefusal::Offence(Offence { place, reason }))
            }
            DecodeFault::Memory => self.fail(ReadRefusal::Memory),
        }
    }

    // The refusal of a call before which so many bytes were used. Where memory ran out, those of
    // the call don't count as used.
    pub(crate) fn refused_since(&mut self, before: u64, refusal: ReadRefusal) -> ReadRefusal
        ensures same { result ≡ refusal }
        ensures failure { self.new.failure ≡ self.old.failure }
        ensures taken { self.new.taken ≡ taken_since before self.old.taken refusal }
        ensures shown { KeepsShown self.old self.new }
    {
        if refusal == ReadRefusal::Memory {
            self.taken = before;
        }
        refusal
    }

    fn fail(&mut self, refusal: ReadRefusal) -> ReadRefusal
        ensures same { result ≡ refusal }
        ensures failure { self.new.failure ≡ Some refusal }
        ensures taken { self.new.taken ≡ self.old.taken }
        ensures shown { KeepsShown self.old self.new }
    {
        self.failure = Some(refusal);
        refusal
    }

    // Takes bytes of one unit, or of several of a payload.
    pub(crate) fn unit(&mut self, bytes: &[u8]) -> Result<(usize, StreamStep), ReadRefusal>
        requires some { 0 < length bytes.now }
        requires fits { self.old.taken + length bytes.now ≤ self.old.quotas.session }
        ensures answers { WhereItStands self.old (λ p.
            is_over_at (stream (settings_of self.old)) p ≡ false
            → UnitAnswers (settings_of self.old) p bytes.now self.new result) }
        ensures refused { IfErr result (λ refusal. failure_of self.new ≡ Some refusal) }
        ensures settings { settings_of self.new ≡ settings_of self.old }
        ensures within { IfOk result (λ answer. answer.0 ≤ length bytes.now) }
        ensures taken { IfOk result (λ answer. self.new.taken ≡ self.old.taken + answer.0) }
    {
        match self.awaited {
            Awaited::Payload(payload) => self.payload(payload, bytes),
            Awaited::Chunk(payload) => self.chunks(payload, bytes),
            Awaited::Record(due) => self.record(due, bytes),
        }
    }

    // Takes bytes of the payload, as far as they are its own.
    fn payload(
        &mut self,
        payload: PayloadLeft,
        bytes: &[u8],
    ) -> Result<(usize, StreamStep), ReadRefusal>
        requires awaited { self.old.awaited ≡ Awaited.Payload payload }
        requires some { 0 < length bytes.now }
        requires fits { self.old.taken + length bytes.now ≤ self.old.quotas.session }
        ensures answers { WhereItStands self.old (λ p.
            UnitAnswers (settings_of self.old) p bytes.now self.new result) }
        ensures refused { IfErr result (λ refusal. failure_of self.new ≡ Some refusal) }
        ensures settings { settings_of self.new ≡ settings_of self.old }
        ensures within { IfOk result (λ answer. answer.0 ≤ length bytes.now) }
        ensures taken { IfOk result (λ answer. self.new.taken ≡ self.old.taken + answer.0) }
    {
        let most = bytes.len().min(payload.left as usize);
        let n = most.min(self.payload_room());
        if n == 0 {
            return Ok((0, StreamStep::More));
        }
        if let Err(fault) = self.decoder.feed(&bytes[..n]) {
            self.taken = self.taken.saturating_add(payload.more_shown(fault) as u64);
            return Err(self.refuse_payload(fault));
        }
        self.taken += n as u64;
        self.unit_from = self.taken;
        let left = payload.left - n as u32;
        let payload = PayloadLeft { left, ..payload };
        self.awaited = Awaited::Payload(payload);
        if self.awaits_more(payload) {
            return Ok((n, StreamStep::More));
        }
        let step = self.behind_last(payload)?;
        Ok((n, step))
    }

    // How many more bytes of a payload the decoder may take.
    pub(crate) fn payload_room(&self) -> usize
        ensures may { (n : ℕ) → 0 < n → n ≤ result → MayTake self.now.decoder self.now.quotas n }
        ensures all { WhereDecoderStands self.now.decoder (λ strings p.
            self.now.quotas.payload ≤ length p + result) }
    {
        self.quotas.payload.saturating_sub(self.decoder.taken()) as usize
    }

    // Whether more of a payload is to come after bytes of it: others of the same part, or another
    // chunk, whose size is awaited then.
    fn awaits_more(&mut self, payload: PayloadLeft) -> bool
        requires awaited { self.old.awaited ≡ Awaited.Payload payload }
        ensures answers { result ≡ true → (x : Settings) (z : Situation) (p : OpenPayload)
            → HasDecoded self.old x z payload p
            → BehindAnswers x (behind_payload x z p) (completed_payload x z p)
            (refused_payload x z p) self.new (Ok StreamStep.More) }
        ensures last { result ≡ false → payload.left ≡ 0 }
        ensures unchunked { result ≡ false → is_chunked_form payload.form ≡ false }
        ensures unchanged { result ≡ false → self.new ≡ self.old }
        ensures unit_from { self.new.unit_from ≡ self.old.unit_from }
        ensures unfailed { self.new.failure ≡ self.old.failure }
        ensures keeps { KeepsFraming self.old self.new }
    {
        if payload.left > 0 {
            return true;
        }
        if payload.form.is_chunked() {
            self.awaited = Awaited::Chunk(payload);
            return true;
        }
        false
    }

    // Goes on after bytes of a payload; after the last of them it answers its document.
    fn behind_payload(&mut self, payload: PayloadLeft) -> Result<StreamStep, ReadRefusal>
        requires awaited { self.old.awaited ≡ Awaited.Payload payload }
        ensures answers { (x : Settings) (z : Situation) (p : OpenPayload)
            → HasDecoded self.old x z payload p
            → BehindAnswers x (behind_payload x z p) (completed_payload x z p)
            (refused_payload x z p) self.new result }
        ensures refused { IfErr result (λ refusal. failure_of self.new ≡ Some refusal) }
        ensures unit_from { OnOk result (self.new.unit_from ≡ self.old.unit_from) }
        ensures unfailed { OnOk result (self.new.failure ≡ self.old.failure) }
        ensures keeps { KeepsFraming self.old self.new }
    {
        if self.awaits_more(payload) {
            return Ok(StreamStep::More);
        }
        self.behind_last(payload)
    }

    // Answers the document of a payload whose last byte was taken.
    fn behind_last(&mut self, payload: PayloadLeft) -> Result<StreamStep, ReadRefusal>
        requires last { payload.left ≡ 0 }
        requires unchunked { is_chunked_form payload.form ≡ false }
        ensures answers { (x : Settings) (z : Situation) (p : OpenPayload)
            → HasDecoded self.old x z payload p
            → BehindAnswers x (behind_payload x z p) (completed_payload x z p)
            (refused_payload x z p) self.new result }
        ensures refused { IfErr result (λ refusal. failure_of self.new ≡ Some refusal) }
        ensures unit_from { OnOk result (self.new.unit_from ≡ self.old.unit_from) }
        ensures unfailed { OnOk result (self.new.failure ≡ self.old.failure) }
        ensures keeps { KeepsFraming self.old self.new }
    {
        let doc = match self.decoder.finish() {
            Ok(doc) => doc,
            Err(fault) => return Err(self.refuse_payload(fault)),
        };
        self.awaited = Awaited::Record(payload.form.due_after());
        let number = self.messages;
        self.messages = number.saturating_add(1);
        let table = self.decoder.table();
        Ok(StreamStep::Message {
            number,
            size: payload.size,
            doc,
            strings: table.len(),
            used: table.used(),
        })
    }

    // Takes bytes of a record, or of a chunk's size.
    #[inline(never)]
    pub(crate) fn record(
        &mut self,
        due: Due,
        bytes: &[u8],
    ) -> Result<(usize, StreamStep), ReadRefusal>
        requires awaited { due_of self.old.awaited ≡ Some due }
        requires some { 0 < length bytes.now }
        requires fits { self.old.taken + length bytes.now ≤ self.old.quotas.session }
        ensures answers { WhereItStands self.old (λ p.
            is_over_at (stream (settings_of self.old)) p ≡ false
            → UnitAnswers (settings_of self.old) p bytes.now self.new result) }
        ensures refused { IfErr result (λ refusal. failure_of self.new ≡ Some refusal) }
        ensures settings { settings_of self.new ≡ settings_of self.old }
        ensures within { IfOk result (λ answer. answer.0 ≤ length bytes.now) }
        ensures taken { IfOk result (λ answer. self.new.taken ≡ self.old.taken + answer.0) }
    {
        let expect = due.expect(self.side.direction());
        match self.frames.feed(bytes, expect) {
            Ok((n, FrameStep::More)) => {
                self.taken += n as u64;
                Ok((n, StreamStep::More))
            }
            Ok((n, FrameStep::Done(frame))) => {
                self.taken += n as u64;
                let step = self.behind(frame)?;
                Ok((n, step))
            }
            Err(refusal) => {
                self.taken = self.unit_from.saturating_add(refusal.shown_by as u64);
                let reason = judging::reason_of(due, refusal.fault);
                Err(self.refuse(self.unit_from, reason))
            }
        }
    }

    // Goes on after a whole record, or a chunk's size.
    fn behind(&mut self, frame: Frame) -> Result<StreamStep, ReadRefusal>
        ensures answers { (read : Record) (z : Situation) (text : List ℕ) → frame ≡ read
            → IsDue self.old (settings_of self.old) z read text
            → RecordAnswers self.old z read text self.new result }
        ensures refused { IfErr result (λ refusal. failure_of self.new ≡ Some refusal) }
        ensures unit_from { OnOk result (self.new.unit_from ≡ self.old.taken) }
        ensures unfailed { OnOk result (self.new.failure ≡ self.old.failure) }
        ensures keeps { KeepsFraming self.old self.new }
    {
        if let Some(reason) = self.reason_in(frame) {
            return Err(self.refuse(self.unit_from, reason));
        }
        let made = self.payload_by(frame);
        self.unit_from = self.taken;
        if let Some(payload) = made {
            self.awaited = Awaited::Payload(payload);
            return self.behind_payload(payload);
        }
        Ok(self.after_bare_record(frame))
    }

    // Why what a whole record says is refused.
    fn reason_in(&self, frame: Frame) -> Option<Reason>
        ensures { (stage : Stage) (text : List ℕ) → self.now.awaited ≡ awaited_at stage
            → (has_text frame ≡ true → FramesShowText (text_kind frame) self.now.frames text)
            → result ≡ reason_in (settings_of self.now) stage frame text }
    {
        match frame {
            Frame::Version { major: 1, minor: 0 } => None,
            Frame::Version { .. } => Some(Reason::BadVersion),
            Frame::Mode(byte) => judging::bad_mode(byte),
            Frame::Via if self.side.serves(self.frames.text()) => None,
            Frame::Via => Some(Reason::EndpointNotFound),
            Frame::KnownEncoding(encoding) => judging::bad_encoding(encoding),
            Frame::ExtensibleEncoding => judging::bad_content_type(self.frames.content_type()),
            Frame::SizedEnvelope(size) => judging::too_large(&self.quotas, u64::from(size)),
            Frame::Chunk(size) => {
                let size = u64::from(self.size_before()) + u64::from(size);
                judging::too_large(&self.quotas, size)
            }
            _ => None,
        }
    }

    // How many bytes of a payload came before a chunk.
    fn size_before(&self) -> u32
        ensures { result ≡ size_before_of self.now.awaited }
    {
        match self.awaited {
            Awaited::Chunk(payload) => payload.size,
            _ => 0,
        }
    }

    // The payload that a record makes or resumes.
    fn payload_by(&self, frame: Frame) -> Option<PayloadLeft>
        ensures { MakesPayload self.now.awaited self.now.unit_from frame result }
    {
        match self.awaited {
            Awaited::Record(_) => self.payload_of_head(frame),
            Awaited::Chunk(payload) => match frame {
                Frame::Chunk(size) => Some(payload.with_chunk(size)),
                _ => None,
            },
            Awaited::Payload(_) => None,
        }
    }

    // The payload that the head of an envelope begins.
    fn payload_of_head(&self, frame: Frame) -> Option<PayloadLeft>
        ensures { result ≡ begun_by self.now.unit_from frame }
    {
        match frame {
            Frame::SizedEnvelope(size) => {
                Some(PayloadLeft::new(self.unit_from, size, Form::Sized))
            }
            Frame::UnsizedEnvelope => Some(PayloadLeft::new(self.unit_from, 0, Form::Chunked)),
            _ => None,
        }
    }

    // Goes on after a record that has no payload.
    fn after_bare_record(&mut self, frame: Frame) -> StreamStep
        ensures moves { IsMoved self.old frame self.new result }
    {
        self.await_next(frame);
        self.take_in(frame);
        self.bare_step(frame)
    }

    // Another record is due where one was.
    fn await_next(&mut self, frame: Frame)
        ensures awaited { self.new.awaited ≡ awaited_after (direction_of (side_of self.old.side))
            self.old.mode self.old.awaited frame }
        ensures decoder { self.new.decoder ≡ self.old.decoder }
        ensures mode { self.new.mode ≡ self.old.mode }
        ensures kind { self.new.kind ≡ self.old.kind }
        ensures closing { self.new.closing ≡ self.old.closing }
        ensures parts { KeepsParts self.old self.new }
    {
        if let Awaited::Record(due) = self.awaited {
            self.awaited = Awaited::Record(due.behind(self.side.direction(), self.mode, frame));
        }
    }

    // Takes in what a record says of the session.
    fn take_in(&mut self, frame: Frame)
        ensures mode { self.new.mode ≡ mode_after self.old.mode frame }
        ensures decodes { DecodesAfter self.old frame self.new }
        ensures closing { self.new.closing ≡ closing_after self.old.closing frame }
        ensures awaited { self.new.awaited ≡ self.old.awaited }
        ensures parts { KeepsParts self.old self.new }
    {
        match frame {
            Frame::Mode(byte) => self.mode = judging::mode_of(byte),
            Frame::KnownEncoding(encoding) => self.set_kind(judging::kind_of(encoding)),
            Frame::ExtensibleEncoding => {
                let kind = judging::kind_of_type(self.frames.content_type());
                self.set_kind(kind);
            }
            Frame::End => self.closing = Closing::End,
            Frame::Fault => self.closing = Closing::Fault,
            _ => {}
        }
    }

    // The event that a record completes which has no payload.
    fn bare_step(&self, frame: Frame) -> StreamStep
        ensures { result ≡ bare_step self.now frame }
    {
        let bytes = self.taken;
        match frame {
            Frame::PreambleEnd => StreamStep::Opened {
                mode: self.mode,
                kind: self.kind,
            },
            Frame::PreambleAck => StreamStep::Accepted,
            Frame::End => StreamStep::Ended { bytes },
            Frame::Fault => StreamStep::PeerFault { bytes },
            _ => StreamStep::More,
        }
    }

    // From here on payloads are of this kind, with no strings before.
    #[inline(never)]
    fn set_kind(&mut self, kind: Kind)
        ensures kind { self.new.kind ≡ kind }
        ensures stands { DecoderStandsFor self.new.decoder [] [] }
        ensures decodes { decoder_settings self.new.decoder ≡ record {
          statics = self.old.statics.now;
          kind = kind;
          limits = limits_of self.old.quotas;
        } }
        ensures mode { self.new.mode ≡ self.old.mode }
        ensures closing { self.new.closing ≡ self.old.closing }
        ensures awaited { self.new.awaited ≡ self.old.awaited }
        ensures parts { KeepsParts self.old self.new }
    {
        self.kind = kind;
        self.decoder = Decoder::new(self.alloc, self.statics, self.quotas, kind);
    }
}
