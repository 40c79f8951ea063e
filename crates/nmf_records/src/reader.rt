//! One record after the other, in any pieces.

ghost use Rattle.std.specs.Prelude.{◌≡◌, ℕ, ◌+◌, ◌-◌, ◌^◌, min, ◌≤◌, ◌<◌, List, [], ◌∷◌, ◌++◌, length, take, IfOk, IfErr, Some, false};
ghost use Rattle.multibyte_ints.specs.Reader.{StandsFor as IntStandsFor};
ghost use Rattle.nmf_records.specs.declared.frame.Expect.{Expect as Expected};
ghost use Rattle.nmf_records.specs.RecordFronts.{content_type, limit_for, limits_within, longest_text, TextKind, via_or_fault};
ghost use Rattle.nmf_records.specs.Steps.{has_kind, starts_text};
ghost use Rattle.nmf_records.specs.Reader.{StandsFor, ShowsText, FrameAnswers, kind_of, reader_of, AfterPiece, limits_of, held_of, pending_of, failure_of, shown_behind};
ghost use Rattle.nmf_records.specs.Advancing.{SizeAnswers, TextAnswers, Progresses, ReadsBytes, BeginsAnew, Steps, Moves, KeepsFault, stage_after, pending_after};
ghost use Rattle.unit_streams.specs.Front.{begun};
ghost use Rattle.multibyte_ints.specs.Text.{string_at};
ghost use Rattle.multibyte_ints.specs.TextReader.{StringAnswersAt, StringStandsFor};

use crate::frame::{Expect, FrameFault, FrameRefusal, FrameStep};
use crate::head;
use crate::stage::{self, Progress, SizeRecord, Stage, TextRecord};
use multibyte_ints::{IntReader, IntStep, Memory, StringReader, StringStep};
use std::alloc::Global;

/// How many bytes a content type may have.
pub const CONTENT_TYPE_LIMIT: u32 = 256;

/// Reads the records of MC-NMF, one after the other, in whatever pieces their bytes come.
#[derive(Debug, Drop)]
pub struct FrameReader {
    stage: Stage,
    size: IntReader,
    text: StringReader,
    content_type: StringReader,
    /// How many bytes of the incomplete record were read, or show the fault.
    pending: u32,
}

impl FrameReader {
    /// A reader before the first byte, which takes Vias and Faults' texts of at most `limit` bytes,
    /// and content types of at most [`CONTENT_TYPE_LIMIT`]. It fails without memory for such a text
    /// and such a content type; no other call takes memory.
    pub fn new(alloc: Global, limit: u32) -> Result<FrameReader, Memory>
        ensures stands { IfOk result (λ reader. (expect : Expected) → StandsFor reader expect []) }
        ensures text { IfOk result (λ reader. (kind : TextKind) → ShowsText kind reader []) }
        ensures limits { IfOk result (λ reader. limits_of reader ≡ limits_within limit) }
    {
        Ok(FrameReader {
            stage: Stage::Type,
            size: IntReader::new(),
            text: StringReader::new(alloc, limit as usize)?,
            content_type: StringReader::new(alloc, CONTENT_TYPE_LIMIT as usize)?,
            pending: 0,
        })
    }

    /// Reads on with a piece, up to the byte that completes a record, and answers how many bytes it
    /// used and whether the record is complete. `expect` says what may come, and has to be the same
    /// for all pieces of one record. It fails at the first byte that shows a fault, and with the
    /// same refusal from then on.
    pub fn feed(&mut self, piece: &[u8], expect: Expect) -> Result<(usize, FrameStep), FrameRefusal>
        ensures within { IfOk result (λ answer. answer.0 ≤ length piece.now) }
        ensures answers { (p : List ℕ) → StandsFor self.old expect p
            → FrameAnswers (limits_of self.old) expect p piece.now result }
        ensures stands { (p : List ℕ) → StandsFor self.old expect p
            → AfterPiece self.new expect (p ++ piece.now) result }
        ensures text { (kind : TextKind) (p s : List ℕ) → StandsFor self.old expect p
            → ShowsText kind self.old s
            → ShowsText kind self.new
            (shown_behind kind (limits_of self.old) expect (p ++ piece.now) s) }
        ensures limits { limits_of self.new ≡ limits_of self.old }
        ensures failed { IfErr result (λ refusal. failure_of self.new ≡ Some refusal) }
        ensures counted { IfErr result (λ refusal. pending_of self.new ≡ refusal.shown_by) }
        ensures repeated { (refusal : FrameRefusal) → failure_of self.old ≡ Some refusal
            → result ≡ Err refusal }
        ensures unchanged { (refusal : FrameRefusal) → failure_of self.old ≡ Some refusal
            → self.new ≡ self.old }
    {
        if let Stage::Type = self.stage {
            if let Some((frame, used)) = head::head_at(piece, expect) {
                return Ok((used, FrameStep::Done(frame)));
            }
        }
        self.feed_on(piece, expect)
    }

    // The same for any record, byte by byte.
    fn feed_on(&mut self, piece: &[u8], expect: Expect) -> Result<(usize, FrameStep), FrameRefusal>
        ensures within { IfOk result (λ answer. answer.0 ≤ length piece.now) }
        ensures answers { (p : List ℕ) → StandsFor self.old expect p
            → FrameAnswers (limits_of self.old) expect p piece.now result }
        ensures stands { (p : List ℕ) → StandsFor self.old expect p
            → AfterPiece self.new expect (p ++ piece.now) result }
        ensures text { (kind : TextKind) (p s : List ℕ) → StandsFor self.old expect p
            → ShowsText kind self.old s
            → ShowsText kind self.new
            (shown_behind kind (limits_of self.old) expect (p ++ piece.now) s) }
        ensures limits { limits_of self.new ≡ limits_of self.old }
        ensures failed { IfErr result (λ refusal. failure_of self.new ≡ Some refusal) }
        ensures counted { IfErr result (λ refusal. pending_of self.new ≡ refusal.shown_by) }
        ensures repeated { (refusal : FrameRefusal) → failure_of self.old ≡ Some refusal
            → result ≡ Err refusal }
        ensures unchanged { (refusal : FrameRefusal) → failure_of self.old ≡ Some refusal
            → self.new ≡ self.old }
    {
        if let Stage::Failed(fault) = self.stage {
            return Err(self.refusal(fault));
        }
        let mut used = 0;
        while used < piece.len() {
            let (n, progress) = self.advance(&piece[used..], expect);
            used += n;
            match progress {
                Progress::Going(_) => {}
                Progress::Done(frame) => return Ok((used, FrameStep::Done(frame))),
                Progress::Wrong(fault) => return Err(self.refusal(fault)),
            }
        }
        Ok((used, FrameStep::More))
    }

    /// The text of the last Via or Fault Record. It is empty before the first one, while one is
    /// read, and after one that was refused.
    pub fn text(&self) -> &str
        ensures { (s : List ℕ) → ShowsText via_or_fault self.now s → result.now ≡ s }
    {
        self.text.text()
    }

    /// The content type of the last Extensible Encoding Record. It is empty before the first one,
    /// while one is read, and after one that was refused.
    pub fn content_type(&self) -> &str
        ensures { (s : List ℕ) → ShowsText content_type self.now s → result.now ≡ s }
    {
        self.content_type.text()
    }

    /// How many bytes of the incomplete record were read; after a refusal, how many show it.
    pub fn pending(&self) -> u32
        ensures counted { result ≡ pending_of self.now }
        ensures stands { (expect : Expected) (p : List ℕ) → StandsFor self.now expect p
            → result ≡ length p }
        ensures within { (expect : Expected) (p : List ℕ) → StandsFor self.now expect p
            → result ≤ longest_text (limits_of self.now) + 5 }
    {
        self.pending
    }

    /// How many bytes of texts it holds.
    pub fn held(&self) -> usize
        ensures counted { result ≡ held_of self.now }
        ensures within { result ≤ (limits_of self.now).text + (limits_of self.now).content_type }
    {
        self.text.held() + self.content_type.held()
    }

    // The refusal by a fault that all bytes so far show.
    #[tactic(auto, unfolding(crate::specs::Reader::pending_of))]
    fn refusal(&self, fault: FrameFault) -> FrameRefusal
        ensures { result ≡ record { fault = fault; shown_by = pending_of self.now } }
    {
        FrameRefusal {
            fault,
            shown_by: self.pending as usize,
        }
    }

    // Reads some of the bytes, and goes on to where they led.
    fn advance(&mut self, bytes: &[u8], expect: Expect) -> (usize, Progress)
        requires { 0 < length bytes.now }
        ensures within { result.0 ≤ length bytes.now }
        ensures moves { Moves result.0 result.1 }
        ensures steps { (p : List ℕ) → StandsFor self.old expect p
            → Steps (limits_of self.old) expect (p ++ take result.0 bytes.now) self.new result.1 }
        ensures text { (kind : TextKind) (p s : List ℕ) → StandsFor self.old expect p
            → ShowsText kind self.old s
            → ShowsText kind self.new
            (shown_behind kind (limits_of self.old) expect (p ++ take result.0 bytes.now) s) }
        ensures limits { limits_of self.new ≡ limits_of self.old }
        ensures kept { KeepsFault self.new result.1 }
    {
        let (n, progress) = self.read_some(bytes, expect);
        self.settle(n, progress);
        (n, progress)
    }

    // Reads those of the bytes that belong to a text, or one byte elsewhere.
    fn read_some(&mut self, bytes: &[u8], expect: Expect) -> (usize, Progress)
        requires { 0 < length bytes.now }
        ensures within { result.0 ≤ length bytes.now }
        ensures moves { Moves result.0 result.1 }
        ensures progresses { (p : List ℕ) → StandsFor self.old expect p
            → Progresses (limits_of self.old) expect (p ++ take result.0 bytes.now) self.new
            result.1 }
        ensures text { (kind : TextKind) (p s : List ℕ) → StandsFor self.old expect p
            → ShowsText kind self.old s
            → ShowsText kind self.new
            (shown_behind kind (limits_of self.old) expect (p ++ take result.0 bytes.now) s) }
        ensures limits { limits_of self.new ≡ limits_of self.old }
        ensures pending { self.new.pending ≡ self.old.pending }
    {
        match self.stage {
            Stage::Text(text) => self.read_text(text, bytes),
            Stage::Failed(fault) => (0, Progress::Wrong(fault)),
            _ => (1, self.read_byte(bytes[0], expect)),
        }
    }

    // Goes on to where n bytes led.
    fn settle(&mut self, n: usize, progress: Progress)
        ensures stage { self.new.stage ≡ stage_after progress }
        ensures pending { self.new.pending
            ≡ pending_after (min (self.old.pending + n) (2 ^ 32 - 1)) progress }
        ensures size { self.new.size ≡ self.old.size }
        ensures text { self.new.text ≡ self.old.text }
        ensures content_type { self.new.content_type ≡ self.old.content_type }
    {
        let n = u32::try_from(n).unwrap_or(u32::MAX);
        let pending = self.pending.saturating_add(n);
        (self.stage, self.pending) = match progress {
            Progress::Going(stage) => (stage, pending),
            Progress::Done(_) => (Stage::Type, 0),
            Progress::Wrong(fault) => (Stage::Failed(fault), pending),
        };
    }

    // Reads a byte that belongs to no text.
    fn read_byte(&mut self, byte: u8, expect: Expect) -> Progress
        ensures progresses { (p : List ℕ) → StandsFor self.old expect p → ReadsBytes self.old.stage
            → Progresses (limits_of self.old) expect (p ++ byte ∷ []) self.new result }
        ensures text { (kind : TextKind) (p s : List ℕ) → StandsFor self.old expect p
            → ReadsBytes self.old.stage → ShowsText kind self.old s
            → ShowsText kind self.new
            (shown_behind kind (limits_of self.old) expect (p ++ byte ∷ []) s) }
        ensures limits { limits_of self.new ≡ limits_of self.old }
        ensures others { self.new ≡ record self.old {
          size = self.new.size;
          text = self.new.text;
          content_type = self.new.content_type;
        } }
    {
        match self.stage {
            Stage::Field(field) => stage::after_field(field, byte),
            Stage::Size(size) => self.read_size_byte(size, byte),
            _ => self.read_first_byte(byte, expect),
        }
    }

    // Reads the first byte of a record or of a chunk's size.
    fn read_first_byte(&mut self, byte: u8, expect: Expect) -> Progress
        ensures progresses { StandsFor self.old expect [] → self.old.stage ≡ Stage.Type
            → Progresses (limits_of self.old) expect (byte ∷ []) self.new result }
        ensures text { (kind : TextKind) (s : List ℕ) → ShowsText kind self.old s
            → ShowsText kind self.new
            (shown_behind kind (limits_of self.old) expect (byte ∷ []) s) }
        ensures limits { limits_of self.new ≡ limits_of self.old }
        ensures others { self.new ≡ record self.old {
          size = self.new.size;
          text = self.new.text;
          content_type = self.new.content_type;
        } }
    {
        match expect {
            Expect::Chunk => self.read_size_byte(SizeRecord::Chunk, byte),
            Expect::Types(types) => {
                let progress = stage::after_type(types, byte);
                self.begin_text(progress);
                progress
            }
        }
    }

    // Begins a text anew, where one begins.
    #[tactic(auto, unfolding(crate::specs::Reader::limits_of))]
    fn begin_text(&mut self, progress: Progress)
        ensures anew { BeginsAnew self.new progress }
        ensures unchanged { (kind : TextKind) → starts_text kind progress ≡ false
            → reader_of kind self.new ≡ reader_of kind self.old }
        ensures limits { limits_of self.new ≡ limits_of self.old }
        ensures others { self.new ≡ record self.old {
          text = self.new.text;
          content_type = self.new.content_type;
        } }
    {
        if let Progress::Going(Stage::Text(text)) = progress {
            match text {
                TextRecord::Via | TextRecord::Fault => self.text.restart(),
                TextRecord::ContentType => self.content_type.restart(),
            }
        }
    }

    // Reads a byte of a size.
    fn read_size_byte(&mut self, size: SizeRecord, byte: u8) -> Progress
        ensures answers { (q : List ℕ) → IntStandsFor self.old.size q
            → SizeAnswers size (q ++ byte ∷ []) self.new.size result }
        ensures others { self.new ≡ record self.old { size = self.new.size } }
    {
        match self.size.feed(byte) {
            IntStep::More => Progress::Going(Stage::Size(size)),
            IntStep::Done(n) => Progress::Done(size.frame(n)),
            IntStep::Bad => Progress::Wrong(FrameFault::BadInt),
        }
    }

    // Reads the bytes that belong to a text.
    fn read_text(&mut self, text: TextRecord, bytes: &[u8]) -> (usize, Progress)
        ensures within { result.0 ≤ length bytes.now }
        ensures moves { 0 < length bytes.now → Moves result.0 result.1 }
        ensures answers { (q : List ℕ) → StringStandsFor (reader_of (kind_of text) self.old) q
            → string_at (limit_for (kind_of text) (limits_of self.old)) q ≡ begun
            → TextAnswers (limits_of self.old) text (q ++ take result.0 bytes.now)
            (reader_of (kind_of text) self.new) result.1 }
        ensures stands { (q : List ℕ) → StringStandsFor (reader_of (kind_of text) self.old) q
            → StringStandsFor (reader_of (kind_of text) self.new) (q ++ take result.0 bytes.now) }
        ensures unchanged { (kind : TextKind) → has_kind kind text ≡ false
            → reader_of kind self.new ≡ reader_of kind self.old }
        ensures limits { limits_of self.new ≡ limits_of self.old }
        ensures others { self.new ≡ record self.old {
          text = self.new.text;
          content_type = self.new.content_type;
        } }
    {
        let (n, step) = self.feed_text(text, bytes);
        (n, stage::after_text(text, step))
    }

    // Feeds them to the reader of this text.
    #[tactic(auto, unfolding(crate::specs::Reader::limits_of))]
    fn feed_text(&mut self, text: TextRecord, bytes: &[u8]) -> (usize, StringStep)
        ensures within { result.0 ≤ length bytes.now }
        ensures all { result.1 ≡ StringStep.More → result.0 ≡ length bytes.now }
        ensures answers { (q : List ℕ) → StringStandsFor (reader_of (kind_of text) self.old) q
            → StringAnswersAt (limit_for (kind_of text) (limits_of self.old)) q bytes.now
            result.0 result.1 }
        ensures stands { (q : List ℕ) → StringStandsFor (reader_of (kind_of text) self.old) q
            → StringStandsFor (reader_of (kind_of text) self.new) (q ++ take result.0 bytes.now) }
        ensures unchanged { (kind : TextKind) → has_kind kind text ≡ false
            → reader_of kind self.new ≡ reader_of kind self.old }
        ensures limits { limits_of self.new ≡ limits_of self.old }
        ensures others { self.new ≡ record self.old {
          text = self.new.text;
          content_type = self.new.content_type;
        } }
    {
        match text {
            TextRecord::Via | TextRecord::Fault => self.text.feed(bytes),
            TextRecord::ContentType => self.content_type.feed(bytes),
        }
    }
}
