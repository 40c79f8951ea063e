//! Records of MC-NMF as they are written: with the shortest spelling of each size and length.

ghost use Rattle.std.specs.Prelude.{◌≡◌, ℕ, ◌+◌, ◌^◌, ◌<◌, ◌≤◌, ◌∷◌, ◌++◌, ◌⊎◌, length, take, drop, false, OnOk, OnErr};
ghost use Rattle.multibyte_ints.specs.Integer.{shortest};
ghost use Rattle.nmf_records.specs.RecordFronts.{bare};
ghost use Rattle.nmf_records.specs.Writing.{CanHave, frame_bytes, has_text, size_told, text_frame_bytes};

use crate::frame::Frame;
use crate::record_types::{
    END, EXTENSIBLE_ENCODING, FAULT, KNOWN_ENCODING, MODE, PREAMBLE_ACK, PREAMBLE_END,
    SIZED_ENVELOPE, UNSIZED_ENVELOPE, VERSION, VIA,
};
use multibyte_ints::put_int;
use unit_streams::Memory;

/// Writes the record of MC-NMF, of an envelope its head, or the size of a chunk, to the front of
/// `out`, and says how many bytes it has. The rest of `out` stays. A Via, a Fault or
/// an Extensible Encoding Record has a text, which [`put_text_frame`] writes.
pub fn put_head(frame: Frame, out: &mut [u8; 8]) -> usize
    requires textless { has_text frame ≡ false }
    requires size { size_told frame < 2 ^ 31 }
    ensures len { result ≡ length (frame_bytes (bare frame)) }
    ensures written { out.new ≡ frame_bytes (bare frame) ++ drop result out.old }
{
    match frame {
        Frame::Version { major, minor } => put_front(&[VERSION, major, minor], out),
        Frame::Mode(mode) => put_front(&[MODE, mode], out),
        Frame::KnownEncoding(encoding) => put_front(&[KNOWN_ENCODING, encoding], out),
        Frame::UnsizedEnvelope => put_front(&[UNSIZED_ENVELOPE], out),
        Frame::Chunk(size) => put_size(size, out),
        Frame::SizedEnvelope(size) => put_typed_size(SIZED_ENVELOPE, size, out),
        Frame::End => put_front(&[END], out),
        Frame::PreambleAck => put_front(&[PREAMBLE_ACK], out),
        Frame::PreambleEnd => put_front(&[PREAMBLE_END], out),
        Frame::Via | Frame::Fault | Frame::ExtensibleEncoding => unreachable!(),
    }
}

/// Appends a record of MC-NMF that has a text: a Via Record, where `kind` is [`VIA`], a Fault
/// Record, where it is [`FAULT`], or an Extensible Encoding Record with its content type, where it
/// is [`EXTENSIBLE_ENCODING`]. Without memory it fails, and `out` is as before.
pub fn put_text_frame(kind: u8, text: &str, out: &mut Vec<u8>) -> Result<(), Memory>
    requires { CanHave kind (length text.now) }
    ensures written { OnOk result (out.new.items
        ≡ out.old.items ++ text_frame_bytes kind text.now) }
    ensures unchanged { OnErr result (out.new.items ≡ out.old.items) }
{
    let mut front = [0; 8];
    let used = put_typed_size(kind, text.len() as u32, &mut front);
    out.reserve(used + text.len())?;
    out.extend_from_slice(&front[..used]).unwrap();
    out.extend_from_slice(text.as_bytes()).unwrap();
    Ok(())
}

// Writes these bytes to the front, and says how many they are.
fn put_front(bytes: &[u8], out: &mut [u8; 8]) -> usize
    requires { length bytes.now ≤ 8 }
    ensures len { result ≡ length bytes.now }
    ensures written { out.new ≡ bytes.now ++ drop result out.old }
{
    out[..bytes.len()].copy_from_slice(bytes);
    bytes.len()
}

// Writes a size to the front, and says how many bytes it has.
fn put_size(size: u32, out: &mut [u8; 8]) -> usize
    requires { size < 2 ^ 31 }
    ensures len { result ≡ length (shortest size) }
    ensures written { out.new ≡ shortest size ++ drop result out.old }
{
    let mut spelling = [0; 5];
    let used = put_int(size, &mut spelling);
    put_front(&spelling[..used], out)
}

// Writes a type byte and then a size to the front, and says how many bytes they have.
fn put_typed_size(kind: u8, size: u32, out: &mut [u8; 8]) -> usize
    requires { size < 2 ^ 31 }
    ensures len { result ≡ 1 + length (shortest size) }
    ensures written { out.new ≡ kind ∷ shortest size ++ drop result out.old }
    ensures small { result ≤ 6 }
{
    let mut spelling = [0; 5];
    let used = put_int(size, &mut spelling);
    out[0] = kind;
    out[1..=used].copy_from_slice(&spelling[..used]);
    used + 1
}
