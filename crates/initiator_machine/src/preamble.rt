//! The bytes that an initiator sends before its first envelope.

ghost use Rattle.std.specs.Prelude.{◌≡◌, ◌≤◌, ◌++◌, length, OnOk, OnErr};
ghost use Rattle.nbfx_records.specs.Putting.{Puts};
ghost use Rattle.initiator_machine.specs.Opening.{encoding_bytes, opening_bytes};

use nbfx_values::{Encoding, Mode};
use nmf_records::put_text_frame;
use nmf_records::record_types::{
    EXTENSIBLE_ENCODING, KNOWN_ENCODING, MODE, PREAMBLE_END, VERSION, VIA,
};
use unit_streams::Memory;

/// Appends an initiator's preamble (MC-NMF): a Version Record of 1.0, the Mode Record, the Via
/// Record, the Known Encoding or Extensible Encoding Record and the Preamble End Record. Without
/// memory it fails, and `out` is as before.
pub fn opening(mode: Mode, encoding: Encoding, via: &str, out: &mut Vec<u8>) -> Result<(), Memory>
    requires { length via.now ≤ 2048 }
    ensures written { OnOk result (out.new.items
        ≡ out.old.items ++ opening_bytes mode encoding via.now) }
    ensures unchanged { OnErr result (out.new.items ≡ out.old.items) }
{
    let before = out.len();
    let put = put_opening(mode, encoding, via, out);
    if put.is_err() {
        out.truncate(before);
    }
    put
}

// After an error the first bytes of it may stand there.
fn put_opening(mode: Mode, encoding: Encoding, via: &str, out: &mut Vec<u8>) -> Result<(), Memory>
    requires { length via.now ≤ 2048 }
    ensures { Puts result out.old.items out.new.items (opening_bytes mode encoding via.now) }
{
    out.extend_from_slice(&[VERSION, 1, 0, MODE, mode.number()])?;
    put_text_frame(VIA, via, out)?;
    put_encoding(encoding, out)?;
    out.push(PREAMBLE_END)?;
    Ok(())
}

// The record that names the encoding.
fn put_encoding(encoding: Encoding, out: &mut Vec<u8>) -> Result<(), Memory>
    ensures written { OnOk result (out.new.items ≡ out.old.items ++ encoding_bytes encoding) }
    ensures unchanged { OnErr result (out.new.items ≡ out.old.items) }
{
    match encoding {
        Encoding::Known(kind) => Ok(out.extend_from_slice(&[KNOWN_ENCODING, kind.number()])?),
        Encoding::Extensible(kind) => {
            put_text_frame(EXTENSIBLE_ENCODING, kind.content_type(), out)
        }
    }
}
