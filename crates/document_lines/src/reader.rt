//! A reader of lines of documents, in any pieces.
#![tactic(auto, unfolding(crate::specs::DocumentReaderState::StandsFor, crate::specs::DocumentReaderState::failure_of, crate::specs::LineEncoderState::settings_in, crate::specs::DocumentReaderState::settings_of))]

ghost use Rattle.std.specs.Prelude.{◌≡◌, ◌≤◌, [], ◌++◌, length, take, IfOk, IfErr, OnOk, Some, Err};
ghost use Rattle.unit_streams.specs.Judging.{answer, ending_at};
ghost use Rattle.nbfx_values.specs.QuotasOf.{limits_of};
ghost use Rattle.nbfx_encoder.specs.Sending.{limits_in};
ghost use Rattle.stream_loop.specs.Answers.{Says};
ghost use Rattle.document_lines.specs.Input.{lines_of_documents};

use crate::InputFault;
use crate::envelope::Envelope;
use crate::line_encoder::LineEncoder;
use line_streams::{LineEnd, LineStream};
use nbfx_values::{Kind, Mode, Quotas};
use static_dictionary::StaticTable;
use std::alloc::Global;
use stream_loop::FeedFault;

/// Reads lines of documents, in whatever pieces their bytes come, and answers an envelope (MC-NMF)
/// for each document that they complete. Of the input it holds the bytes of the incomplete line,
/// and the items of the incomplete document.
#[derive(Drop)]
pub struct DocumentReader<'s> {
    quotas: Quotas,
    stream: LineStream<LineEncoder<'s>>,
    failure: Option<FeedFault<InputFault>>,
    ghost limits: { limits_in stream.lines.sender ≡ limits_of quotas },
}

impl<'s> DocumentReader<'s> {
    ghost use Rattle.stream_loop.specs.declared.reading_end.FeedFault.{FeedFault as Fault};
    ghost use Rattle.document_lines.specs.declared.InputFault.{InputFault as Refusal};
    ghost use Rattle.document_lines.specs.DocumentReaderState.{StandsFor, WhereItStands, failure_of, said_at_end, settings_of};

    /// A reader before the first byte, of documents that are written within these quotas, in a
    /// session of this mode and encoding.
    pub fn new(
        alloc: Global,
        statics: &'s StaticTable,
        quotas: Quotas,
        kind: Kind,
        mode: Mode,
    ) -> Self
        ensures stands { StandsFor result [] }
        ensures settings { settings_of result ≡ record {
          limits = limits_of quotas;
          kind = kind;
          mode = mode;
          statics = statics.now;
        } }
    {
        let encoder = LineEncoder::new(alloc, statics, quotas, kind, mode);
        DocumentReader {
            quotas,
            stream: LineStream::new(alloc, encoder, quotas.session),
            failure: None,
        }
    }

    /// Uses the bytes of the piece up to and including the one that completes the next document,
    /// and answers how many they are, and its envelope; or all of the piece, where no byte
    /// completes one. It fails at the line feed of the first bad line or of the first document that
    /// doesn't fit, at the session quota, or without memory, and in the same way from then on.
    pub fn feed(&mut self, piece: &[u8]) -> Result<(usize, Option<Envelope>), FeedFault<InputFault>>
        ensures within { IfOk result (λ answer. answer.0 ≤ length piece.now) }
        // The answer is decided at the first byte that completes a document or shows a refusal.
        ensures answers { WhereItStands self.old (λ p. Says (λ envelope. envelope)
            (length piece.now)
            (answer (lines_of_documents (settings_of self.old)) p piece.now) result) }
        ensures repeated { (fault : Fault Refusal) → failure_of self.old ≡ Some fault
            → result ≡ Err fault }
        ensures unchanged { (fault : Fault Refusal) → failure_of self.old ≡ Some fault
            → self.new ≡ self.old }
        ensures stands { WhereItStands self.old (λ p.
            IfOk result (λ step. StandsFor self.new (p ++ take step.0 piece.now))) }
        ensures refused { IfErr result (λ fault. failure_of self.new ≡ Some fault) }
        ensures settings { settings_of self.new ≡ settings_of self.old }
    {
        if let Some(fault) = self.failure {
            return Err(fault);
        }
        match self.stream.read(piece) {
            Ok(answer) => Ok(answer),
            Err(fault) => Err(self.fail(fault)),
        }
    }

    /// Says that the input is over. It fails within a line or a document, and in singleton mode
    /// without a document.
    pub fn end_of_input(&mut self) -> Result<(), FeedFault<InputFault>>
        ensures answers { WhereItStands self.old (λ p.
            result ≡ said_at_end (ending_at (lines_of_documents (settings_of self.old)) p)) }
        ensures repeated { (fault : Fault Refusal) → failure_of self.old ≡ Some fault
            → result ≡ Err fault }
        ensures unchanged { (fault : Fault Refusal) → failure_of self.old ≡ Some fault
            → self.new ≡ self.old }
        ensures refused { IfErr result (λ fault. failure_of self.new ≡ Some fault) }
        ensures kept { OnOk result (self.new ≡ self.old) }
        ensures settings { settings_of self.new ≡ settings_of self.old }
    {
        if let Some(fault) = self.failure {
            return Err(fault);
        }
        match self.stream.fault_at_end() {
            Some(fault) => Err(self.fail(FeedFault::Refused(fault))),
            None => Ok(()),
        }
    }

    /// Takes back an envelope that is no longer needed; the next one reuses its memory.
    pub fn reuse(&mut self, envelope: Envelope)
        ensures stands { WhereItStands self.old (StandsFor self.new) }
        ensures failure { failure_of self.new ≡ failure_of self.old }
        ensures settings { settings_of self.new ≡ settings_of self.old }
    {
        let stream = &mut self.stream;
        LineEnd::reuse(&mut stream.lines, envelope);
    }

    // Fails from now on.
    fn fail(&mut self, fault: FeedFault<InputFault>) -> FeedFault<InputFault>
        ensures same { result ≡ fault }
        ensures failure { failure_of self.new ≡ Some fault }
        ensures settings { settings_of self.new ≡ settings_of self.old }
    {
        self.failure = Some(fault);
        fault
    }
}
