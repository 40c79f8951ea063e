//! Documents from one end to the other.

ghost use Rattle.std.specs.Prelude.{◌≡◌, [], IfErr, IfOk, IsErrOf, OnOk};
ghost use Rattle.nbfx_values.specs.QuotasOf.{limits_of};
ghost use Rattle.nbfx_encoder.specs.ReadBack.{AdmitsAsMuch};
ghost use Rattle.nbfx_encoder.specs.Spelling.{encoded};
ghost use Rattle.nbfx_encoder.specs.EncoderState.{KeepsSettings, Writes};
ghost use Rattle.nbfx_encoder.specs.EncoderState.{kind_in, limits_in, names_in};
ghost use Rattle.nbfx_decoder.specs.DecoderState.{settings_of, table_at};
ghost use Rattle.session_ends.specs.Level.{AreLevel, IsLost, IsUnsent};

use nbfx_decoder::{DecodeFault, Decoder};
use nbfx_encoder::{EncodeFault, Encoder};
use nbfx_values::{Doc, Kind, Quotas};
use session_dictionary::SessionTable;
use static_dictionary::StaticTable;
use std::alloc::Global;

/// Why a document isn't carried from one end to the other.
#[derive(Clone, Copy, Debug, PartialEq, Eq)]
pub enum CarryFault {
    /// The document isn't written. Both ends are as before.
    Unsent(EncodeFault),
    /// The document was written, and the writer has the strings after it. The reader ran out of
    /// memory, and fails from now on.
    Memory,
}

/// Both ends of a direction without session strings so far, with the same static strings. The
/// reader's quotas are at least the writer's.
pub fn new_ends<'s>(
    alloc: Global,
    statics: &'s StaticTable,
    writer: Quotas,
    reader: Quotas,
    kind: Kind,
) -> (Encoder<'s>, Decoder<'s>)
    requires { AdmitsAsMuch (limits_of reader) (limits_of writer) }
    ensures level { AreLevel result.0 result.1 }
    ensures limits { limits_in result.0 ≡ limits_of writer }
    ensures kind { kind_in result.0 ≡ kind }
    ensures names { names_in result.0 ≡ record { statics = statics.now; strings = [] } }
    ensures settings { settings_of result.1
        ≡ record { statics = statics.now; kind = kind; limits = limits_of reader } }
{
    let encoder = Encoder::new(alloc, statics, writer, kind);
    let decoder = Decoder::new(alloc, statics, reader, kind);
    (encoder, decoder)
}

/// The session tables of both ends, which have the same strings.
pub fn tables<'a>(
    encoder: &'a Encoder<'_>,
    decoder: &'a Decoder<'_>,
) -> (&'a SessionTable, &'a SessionTable)
    requires { AreLevel encoder.now decoder.now }
    ensures sent { result.0.now.strings ≡ (names_in encoder.now).strings }
    ensures read { result.1.now ≡ table_at decoder.now (names_in encoder.now).strings [] }
    ensures same { result.0.now.strings ≡ result.1.now.strings }
{
    (encoder.table(), decoder.table())
}

/// Writes the payload of a document into the buffer, in place of what it holds, and reads it at the
/// other end, which gives the document. Both ends have the same session strings afterwards.
///
/// It fails with `Unsent` where the writer does, for a document that doesn't fit or without memory,
/// as [`Encoder::encode`] says, and then both ends are as before. It fails with `Memory` where the
/// reader has none: that one fails from then on, and the writer has the strings of the document.
/// The reader refuses no document.
pub fn carry(
    encoder: &mut Encoder<'_>,
    decoder: &mut Decoder<'_>,
    doc: &Doc,
    room: &mut Vec<u8>,
) -> Result<Doc, CarryFault>
    requires { AreLevel encoder.old decoder.old }
    ensures read { IfOk result (λ read. read ≡ doc.now) }
    ensures level { OnOk result (AreLevel encoder.new decoder.new) }
    ensures written { OnOk result (Writes
        (encoded (limits_in encoder.old) (kind_in encoder.old) (names_in encoder.old) doc.now)
        [] room.new.items (names_in encoder.new)) }
    ensures unsent { IfErr result
        (IsUnsent encoder.old encoder.new decoder.old decoder.new doc.now) }
    ensures lost { IsErrOf result CarryFault.Memory
        → IsLost encoder.old encoder.new decoder.new doc.now room.new.items }
    ensures kept { KeepsSettings encoder.old encoder.new }
    ensures settings { settings_of decoder.new ≡ settings_of decoder.old }
{
    room.clear();
    if let Err(fault) = encoder.encode(doc, room) {
        return Err(CarryFault::Unsent(fault));
    }
    // Before its first byte no byte of a payload was read, and the bytes written are one payload.
    let _taken = decoder.taken();
    nbfx_decoder::laws::payloads();
    nbfx_decoder::laws::answers();
    match decoder.feed(room) {
        Ok(()) => {}
        Err(DecodeFault::Memory) => return Err(CarryFault::Memory),
        Err(DecodeFault::Payload { .. }) => unreachable!(),
    }
    match decoder.finish() {
        Ok(read) => Ok(read),
        Err(_) => unreachable!(),
    }
}
