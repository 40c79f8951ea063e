//! Whether a session is over within bytes that were taken already.

use nbfx_values::{Mode, Quotas};
use nmf_records::{Direction, Due, Frame, FrameReader, FrameStep};
use std::alloc::Global;

// How many bytes of a payload come behind this record's head, or this size of a chunk.
fn payload_behind(frame: Frame) -> usize {
    match frame {
        Frame::SizedEnvelope(size) => size as usize,
        Frame::Chunk(size) => size as usize,
        _ => 0,
    }
}

/// Whether the session that begins with these bytes is over within them, as far as its records tell
/// (MC-NMF): its End Record stands there, or one that may not come there. Without memory for a Via
/// it says that it isn't. No promise rests on it: it tells where a session is served.
pub fn is_whole(alloc: Global, bytes: &[u8], quotas: Quotas) -> bool {
    let Ok(mut frames) = FrameReader::new(alloc, quotas.via) else {
        return false;
    };
    let sender = Direction::FromInitiator;
    let mut mode = Mode::Duplex;
    let mut due = Due::first(sender);
    let mut rest = bytes;
    // Each record has a byte at least.
    for _ in 0..bytes.len() {
        let Ok((used, step)) = frames.feed(rest, due.expect(sender)) else {
            return true;
        };
        let FrameStep::Done(frame) = step else {
            return false;
        };
        if frame == Frame::Mode(Mode::Singleton.number()) {
            mode = Mode::Singleton;
        }
        due = due.behind(sender, mode, frame);
        if due == Due::Over {
            return true;
        }
        let Some(left) = rest.get(used.saturating_add(payload_behind(frame))..) else {
            return false;
        };
        rest = left;
    }
    false
}
