//! A reader of an initiator's stream, in any pieces.
#![tactic(auto, unfolding(crate::specs::ReceiverState::settings_of, crate::specs::ReceiverState::taken_of, crate::specs::ReceiverState::messages_of, crate::specs::ReceiverState::failure_of, crate::specs::ReceiverState::held_of, crate::specs::ReceiverState::content_held_of, crate::specs::ReceiverState::owed_of, crate::specs::ReceiverState::ShowsText, crate::specs::ReceiverState::ShowsStrings, crate::specs::ReceiverState::StandsFor, crate::specs::ReceiverState::FailedBehind))]

ghost use Rattle.std.specs.Prelude.{◌≡◌, ℕ, ◌+◌, ◌≤◌, List, [], ◌++◌, length, take, IfOk, IfErr, OnOk, IsErrOf, Ok, Err, Some, false, true};
ghost use Rattle.unit_streams.specs.Grammar.{standing};
ghost use Rattle.unit_streams.specs.Judging.{answer, event_at, is_over_at, ending_at};
ghost use Rattle.nbfx_values.specs.Measures.{content_of};
ghost use Rattle.nbfx_values.specs.QuotasOf.{limits_of};
ghost use Rattle.string_tables.specs.SessionStrings.{used_cost};
ghost use Rattle.stream_reader.specs.Sides.{endpoint_of};
ghost use Rattle.stream_reader.specs.Stream.{initiators, stream, strings_in};

use crate::owed::{Owed, owed_for};
use nbfx_values::{Doc, Kept, Offence, Quotas};
use session_dictionary::SessionTable;
use static_dictionary::StaticTable;
use std::alloc::Global;
use stream_reader::{Endpoint, ReadRefusal, Side, StreamReader, StreamStep};
use unit_streams::Memory;

/// Reads an initiator's stream (MC-NMF), in whatever pieces its bytes come.
#[derive(Drop)]
pub struct Receiver<'s> {
    reader: StreamReader<'s>,
    // For the last event.
    owed: Owed,
}

impl<'s> Receiver<'s> {
    ghost use Rattle.nbfx_values.specs.declared.refusals.Offence.{Offence as Refused};
    ghost use Rattle.stream_reader.specs.declared.reader.ReadRefusal.{ReadRefusal as Failure};
    ghost use Rattle.stream_reader.specs.StreamReaderState.{HasPayloads, begun_in, items_in, texts_within};
    ghost use Rattle.stream_reader.specs.Saying.{Says, Repeats};
    ghost use Rattle.receiver_machine.specs.Owed.{owed_at_end, owed_behind, owed_for};
    ghost use Rattle.stream_reader.specs.Calls.{told_at_end};
    ghost use Rattle.receiver_machine.specs.ReceiverState.{owed_of, settings_of, taken_of, held_of, content_held_of, messages_of, failure_of, StandsFor, FailedBehind, ShowsText, ShowsStrings, WhereItStands, WhereItFailed, FailsBy};

    /// A receiver before the first byte, which serves this endpoint. It allocates all that it needs
    /// up to the end of the preamble, and fails without that memory.
    pub fn new(
        alloc: Global,
        statics: &'s StaticTable,
        quotas: Quotas,
        endpoint: Endpoint,
    ) -> Result<Receiver<'s>, Memory>
        ensures stands { IfOk result (λ receiver. StandsFor receiver []) }
        ensures settings { IfOk result (λ receiver. settings_of receiver ≡ record {
          side = initiators (endpoint_of endpoint);
          statics = statics.now;
          limits = limits_of quotas;
        }) }
        ensures owed { IfOk result (λ receiver. owed_of receiver ≡ []) }
    {
        let reader = StreamReader::new(alloc, statics, quotas, Side::Initiator(endpoint))?;
        Ok(Receiver {
            reader,
            owed: Owed::Nothing,
        })
    }

    /// Uses the bytes of the piece up to and including the one that completes the next event, and
    /// answers how many they are, and the event. It fails at the first byte that shows why the
    /// stream is refused, or without memory, and in the same way from then on. After the session's
    /// end it uses nothing, and repeats the event that ended it.
    pub fn feed(&mut self, piece: &[u8]) -> Result<(usize, StreamStep), ReadRefusal>
        ensures within { IfOk result (λ answer. answer.0 ≤ length piece.now) }
        // The answer is decided at the first byte that completes an event or shows a refusal.
        ensures answers { WhereItStands self.old (λ p.
            is_over_at (stream (settings_of self.old)) p ≡ false
            → Says (length piece.now) (answer (stream (settings_of self.old)) p piece.now)
            result) }
        // Up to the preamble's end it takes no memory.
        ensures wanted { WhereItStands self.old (λ p. IsErrOf result ReadRefusal.Memory
            → HasPayloads (standing (stream (settings_of self.old)) p).situation.stage) }
        ensures ended { WhereItStands self.old (λ p.
            is_over_at (stream (settings_of self.old)) p ≡ true
            → Repeats (event_at (stream (settings_of self.old)) p) result) }
        ensures repeated { (refusal : Failure) → failure_of self.old ≡ Some refusal
            → result ≡ Err refusal }
        ensures unchanged { (refusal : Failure) → failure_of self.old ≡ Some refusal
            → self.new ≡ self.old }

        // What it stands for then, or shows of what is refused.
        ensures stands { WhereItStands self.old (λ p.
            IfOk result (λ step. StandsFor self.new (p ++ take step.0 piece.now))) }
        ensures failed { WhereItStands self.old (λ p.
            is_over_at (stream (settings_of self.old)) p ≡ false
            → IfErr result (FailsBy self.new p piece.now
            (answer (stream (settings_of self.old)) p piece.now))) }
        ensures refused { IfErr result (λ refusal. failure_of self.new ≡ Some refusal) }
        ensures settings { settings_of self.new ≡ settings_of self.old }
        // What it owes for the event, or for the refusal.
        ensures owed { WhereItStands self.old (λ p.
            owed_of self.new ≡ owed_behind (owed_of self.old) result) }
    {
        let answer = self.reader.feed(piece);
        self.owed = self.owed.after(&answer);
        answer
    }

    /// Says that the input is over. It fails with `Truncated` unless the session has ended, and
    /// from then on. A receiver that has refused the stream fails in the same way.
    pub fn end_of_input(&mut self) -> Result<(), Offence>
        requires { failure_of self.old ≡ Some ReadRefusal.Memory → ⊥ }
        ensures answers { WhereItStands self.old (λ p.
            result ≡ told_at_end (ending_at (stream (settings_of self.old)) p)) }
        ensures repeated { (o : Refused) → failure_of self.old ≡ Some (ReadRefusal.Offence o)
            → result ≡ Err o }
        ensures unchanged { (refusal : Failure) → failure_of self.old ≡ Some refusal
            → self.new ≡ self.old }
        ensures failed { WhereItStands self.old (λ p.
            IfErr result (λ o. FailedBehind self.new (ReadRefusal.Offence o) (length p) p)) }
        ensures refused { IfErr result (λ o. failure_of self.new ≡ Some (ReadRefusal.Offence o)) }
        ensures kept { OnOk result (self.new ≡ self.old) }
        ensures settings { settings_of self.new ≡ settings_of self.old }
        ensures owed { WhereItStands self.old (λ p.
            owed_of self.new ≡ owed_at_end (owed_of self.old) result) }
    {
        match self.reader.end_of_input() {
            Ok(()) => Ok(()),
            Err(ReadRefusal::Offence(offence)) => Err(offence),
            Err(ReadRefusal::Memory) => unreachable!(),
        }
    }

    /// Takes back a document that is no longer needed; the next one reuses its memory.
    pub fn reuse(&mut self, doc: Doc)
        ensures stands { WhereItStands self.old (StandsFor self.new) }
        ensures failed { WhereItFailed self.old (FailedBehind self.new) }
        ensures settings { settings_of self.new ≡ settings_of self.old }
        ensures owed { WhereItStands self.old (λ p. owed_of self.new ≡ owed_of self.old) }
    {
        self.reader.reuse(doc);
    }

    /// The record of MC-NMF that the framing owes the initiator for the last event: a Preamble Ack
    /// after `Opened`, an End after `Ended`; after an offence the Fault Record that says why, where
    /// MC-NMF has a text for it. Else there are no bytes. It takes no memory.
    pub fn owed(&self) -> &[u8]
        ensures shown { result.now ≡ owed_of self.now }
        ensures failed { WhereItFailed self.now (λ refusal taken p. result.now ≡ owed_for refusal) }
    {
        match self.reader.failure() {
            Some(refusal) => owed_for(refusal),
            None => self.owed.bytes(),
        }
    }

    /// The Via, once its record is complete; empty before.
    pub fn via(&self) -> &str
        ensures shown { (text : List ℕ) → ShowsText self.now text → result.now ≡ text }
        ensures stands { WhereItStands self.now (λ p.
            result.now ≡ (standing (stream (settings_of self.now)) p).situation.text) }
        ensures failed { WhereItFailed self.now (λ refusal taken p.
            result.now ≡ (standing (stream (settings_of self.now)) p).situation.text) }
    {
        self.reader.text()
    }

    /// How many bytes were used; after a refusal by `feed`, how many show it; after memory ran out,
    /// how many the calls before used.
    pub fn taken(&self) -> u64
        ensures counted { result ≡ taken_of self.now }
        ensures stands { WhereItStands self.now (λ p. result ≡ length p) }
        ensures failed { WhereItFailed self.now (λ refusal taken p. result ≡ taken) }
        ensures within { WhereItStands self.now (λ p.
            length p ≤ (settings_of self.now).limits.session) }
    {
        self.reader.taken()
    }

    /// How many documents were read.
    pub fn messages(&self) -> u64
        ensures counted { result ≡ messages_of self.now }
        ensures stands { WhereItStands self.now (λ p.
            result ≡ (standing (stream (settings_of self.now)) p).situation.messages) }
        ensures failed { WhereItFailed self.now (λ refusal taken p.
            result ≡ (standing (stream (settings_of self.now)) p).situation.messages) }
    {
        self.reader.messages()
    }

    /// The session strings of the direction so far; after a refusal in a payload, those read before
    /// it.
    pub fn table(&self) -> &SessionTable
        ensures shown { (strings : List (List ℕ)) → ShowsStrings self.now strings
            → result.now.strings ≡ strings }
        ensures stands { WhereItStands self.now (λ p. result.now.strings
            ≡ strings_in (standing (stream (settings_of self.now)) p).situation) }
        ensures failed { WhereItFailed self.now (λ refusal taken p. result.now.strings
            ≡ strings_in (standing (stream (settings_of self.now)) p).situation) }
        ensures within { WhereItStands self.now (λ p. used_cost result.now.strings
            ≤ (settings_of self.now).limits.dictionary) }
        ensures failed_within { WhereItFailed self.now (λ refusal taken p.
            used_cost result.now.strings ≤ (settings_of self.now).limits.dictionary) }
    {
        self.reader.table()
    }

    /// What it holds of the input: the bytes of the framing records' texts and of the payload's
    /// incomplete record, and the content of the document so far.
    pub fn kept(&self) -> Kept
        ensures held { result.raw ≡ held_of self.now }
        ensures content_held { result.content ≡ content_held_of self.now }
        ensures raw { WhereItStands self.now (λ p. result.raw
            ≤ length (begun_in (standing (stream (settings_of self.now)) p).situation.stage)
            + texts_within (settings_of self.now).limits) }
        ensures content { WhereItStands self.now (λ p. result.content
            ≡ content_of (items_in (standing (stream (settings_of self.now)) p).situation.stage)) }
        ensures within { WhereItStands self.now (λ p. (result.raw
            ≤ (settings_of self.now).limits.payload + texts_within (settings_of self.now).limits)
            × (result.content ≤ (settings_of self.now).limits.content)) }
        ensures failed { WhereItFailed self.now (λ refusal taken p. (result.raw
            ≤ (settings_of self.now).limits.payload + texts_within (settings_of self.now).limits)
            × (result.content ≤ (settings_of self.now).limits.content)) }
    {
        self.reader.kept()
    }
}
