//! What holds of the streams of either side by their definitions alone.

ghost use Rattle.unit_streams.specs.Laws.{StandingsGoOn, AnswersAreFirst, CutsChangeNothing, HistoryIsAnswers, PendingHistories, NoUnitGoesOn, EndsAreClosed, OffencesAreFirst, AcceptedOrOffended};
ghost use Rattle.unit_streams.specs.Tellers.{Closes};
ghost use Rattle.unit_streams.specs.Refusals.{RefusalsAreThree};
ghost use Rattle.stream_reader.specs.Stream.{Settings, stream, ends};
ghost use Rattle.stream_reader.specs.Laws.{DocumentsFit, PayloadsFit, MessagesAreCounted, EndsAreMeasured, FaultsAreMeasured, PreamblesAreTold, OpenPayloadsAreBounded, RefusedByRecord, RefusedFirst, InPayloadByBytes, InPayloadFirst, TooLongByLength, TooLongAtQuota, NoPieceCutsOff, CutOffByEnd, EndCutsOff, CutOffUnrefused};
ghost use Rattle.stream_reader.specs.Scripts.{SessionsAreScripts};
ghost use Rattle.stream_reader.specs.Sessions.{ClosedOrRefused, SessionsAreTold, SpellsOneSession};

/// The state of a stream depends only on the bytes read so far. A unit is a record, the size of a
/// chunk or a byte of a payload; none is the beginning of a longer unit that may come in its place,
/// and nothing comes after the end. End and Fault end a stream, and nothing else does.
pub fn units()
    ensures standings_go_on { (x : Settings) → StandingsGoOn (stream x) }
    ensures none_goes_on { (x : Settings) → NoUnitGoesOn (stream x) }
    ensures ends_are_closed { (x : Settings) → EndsAreClosed (stream x) }
    ensures closed { (x : Settings) → Closes (stream x) ends }
{}

/// A piece is answered by the first event or refusal that a byte of it brings. How the bytes are
/// cut into pieces changes nothing, and a stream's history is what a reader answers, piece by
/// piece. The history of bytes of which no prefix is refused or ends the stream is the events of
/// their prefixes, and then what their end brings.
pub fn answers()
    ensures are_first { (x : Settings) → AnswersAreFirst (stream x) }
    ensures cuts_change_nothing { (x : Settings) → CutsChangeNothing (stream x) }
    ensures make_the_history { (x : Settings) → HistoryIsAnswers (stream x) }
    ensures so_far { (x : Settings) → PendingHistories (stream x) }
{}

/// A stream's offence is the refusal of its shortest refused prefix, or else that of its end. A
/// prefix is refused by what its last unit says, by bytes that can be no unit which may come, or by
/// its length.
pub fn refusals()
    ensures first_is_the_offence { (x : Settings) → OffencesAreFirst (stream x) }
    ensures are_three { (x : Settings) → RefusalsAreThree (stream x) }
    ensures accepted { (x : Settings) → AcceptedOrOffended (stream x) }
{}

/// Each document that an envelope brings is within the quotas on depth and content, and the session
/// strings after it are within the dictionary quota, whatever follows. Its payload is within the
/// payload quota, unless the stream is refused before. What was read of an incomplete payload is
/// within these quotas too.
pub fn documents_fit()
    ensures documents { DocumentsFit }
    ensures payloads { PayloadsFit }
    ensures open_payloads { OpenPayloadsAreBounded }
{}

/// After a preamble the state has its mode, its encoding and the Via as text; after an envelope the
/// session strings that its document leaves, and it is counted. The events of End and Fault have
/// the number of bytes so far, and the text that the state has then.
pub fn events_are_told()
    ensures preambles { PreamblesAreTold }
    ensures messages { MessagesAreCounted }
    ensures ends { EndsAreMeasured }
    ensures faults { FaultsAreMeasured }
{}

/// For each reason, exactly which bytes show it by a record, so that a stream is refused there if
/// no shorter prefix of it is. The place is that of the record's first byte, or of a chunk's size.
pub fn reasons_of_records()
    ensures by_record { RefusedByRecord }
    ensures first { RefusedFirst }
{}

/// Exactly which bytes are refused in a payload, so that a stream is refused there if no shorter
/// prefix of it is: those of which the payload's bytes, chunks joined, show the reason by the
/// grammar of payloads; or a complete payload, which shows none, where the root hasn't ended. The
/// place is the envelope's number and the offset in its payload.
pub fn reasons_of_payloads()
    ensures by_bytes { InPayloadByBytes }
    ensures first { InPayloadFirst }
{}

/// A prefix is refused as too long if it has as many bytes as the session quota, the session isn't
/// over, and nothing else refuses it. A stream is refused so, if its bytes up to the quota are and
/// no shorter prefix is refused.
pub fn too_long()
    ensures by_length { TooLongByLength }
    ensures at_quota { TooLongAtQuota }
{}

/// No piece is refused as `Truncated`. The end of the input is, if the session isn't over and the
/// bytes aren't the Ack alone that is enough in simplex mode; and for no other reason.
pub fn cut_off()
    ensures no_piece { NoPieceCutsOff }
    ensures by_end { CutOffByEnd }
    ensures end_alone { EndCutsOff }
    ensures unrefused { CutOffUnrefused }
{}

/// If a session is at the front of a stream, the stream's events are its preamble or its Ack, a
/// message for each of its documents, with the session strings after it, and its end, whatever
/// follows; after an Ack alone, if nothing follows. So bytes are a session of at most one list of
/// documents, and leave at most one list of session strings after each.
pub fn sessions()
    ensures told { SessionsAreTold }
    ensures one { SpellsOneSession }
{}

/// A session is the records of a script of MC-NMF in its mode, none of which is refused by what it
/// says, with the payloads of documents after the heads of its envelopes, or in chunks, within the
/// session quota.
pub fn sessions_are_scripts()
    ensures { SessionsAreScripts }
{}

/// A stream either is accepted or has one offence, which its bytes determine. It is accepted if a
/// session is at its front: an initiator's preamble, documents and End; a receiver's Ack, documents
/// and End, or a Fault in place of a record; or, if nothing follows and messages are one-way, its
/// Ack alone.
pub fn closed_or_refused()
    ensures { ClosedOrRefused }
{}
