//! Two sessions joined.

ghost use Rattle.std.specs.Prelude.{◌≡◌, ◌≤◌, true, [], length};
ghost use Rattle.io_edges.specs.Faults.{CountsFaults};
ghost use Rattle.nbfx_values.specs.declared.session.Kind.{Kind as Spelled};
ghost use Rattle.nbfx_values.specs.declared.session.Mode.{Mode as Told};
ghost use Rattle.nmf_records.specs.Writing.{frame_bytes_of};
ghost use Rattle.nmf_records.specs.declared.frame.Frame.{Frame as Record};
ghost use Rattle.nbfx_encoder.specs.declared.sender.Side.{Side as End};
ghost use Rattle.stream_loop.specs.Edges.{Input, input_at};
ghost use Rattle.relay.specs.declared.beginning.Begun.{Begun as Halt};
ghost use Rattle.relay.specs.Beginning.{Begins};
ghost use Rattle.stream_reader.specs.Sides.{endpoint_of};
ghost use Rattle.relay.specs.Opening.{relay_by, relaying};
ghost use Rattle.relay.specs.Relayed.{FollowsBoth, IsRelayed, Relay, back_by, front_of, refusal_of};
ghost use Rattle.relay.specs.Relayed.{to_front};
ghost use Rattle.relay.specs.Joining.{IsOpened};
ghost use Rattle.relay.specs.Writing.{carrying_by};

use crate::carrier::{Carrier, CarrySettings};
use crate::carrying::close_unopened;
use crate::joining::pump_both;
use crate::listener::Listener;
use crate::opening::{Front, begin_back, begin_front, preamble, preamble_ack};
use crate::outcome::{PumpIn, RelayOutcome};
use crate::settings::RelaySettings;
use io_edges::{Sink, Source};
use nbfx_values::Two;
use receiver_machine::closing_record;
use static_dictionary::StaticTable;
use std::alloc::Global;
use std::thread::Threads;
use stream_reader::Endpoint;

// The Fault record that a front is sent which was refused before it opened a session.
fn refusal_record(read: PumpIn) -> &'static [u8]
    ensures { result.now ≡ refusal_of read }
{
    match read {
        PumpIn::Offended(offence) => closing_record(Some(offence)),
        _ => &[],
    }
}

// Relays behind the back's Ack.
fn relay_accepted<R: Threads, S: Source + Send, K: Sink + Send, A: Source + Send, B: Sink + Send>(
    rt: &R,
    alloc: Global,
    settings: CarrySettings<'_>,
    front: Listener<'_>,
    to_back: Carrier<'_>,
    back: Listener<'_>,
    front_in: &mut S,
    front_out: &mut K,
    back_in: &mut A,
    back_out: &mut B,
) -> RelayOutcome
    requires accepted { (x : Relay) × (mode : Told) × (kind : Spelled) × (fi bi : Input)
        × (bo : B) × IsOpened x mode kind fi
        (input_at S.left S.taken S.faults S.empty_takes front_in.old) (B.view bo)
        (B.view back_out.old)
        front to_back
        × Begins (back_by x mode kind) bi
        (input_at A.left A.taken A.faults A.empty_takes back_in.old) End.Receiver Halt.Accepted back
        × (carrying_by settings (frame_bytes_of Record.PreambleAck []) ≡ to_front x mode kind) }
    ensures follows { (x : Relay) (mode : Told) (kind : Spelled) (fi bi : Input)
        (bo : B) → IsOpened x mode kind fi
        (input_at S.left S.taken S.faults S.empty_takes front_in.old) (B.view bo)
        (B.view back_out.old)
        front.entry to_back.entry
        → Begins (back_by x mode kind) bi
        (input_at A.left A.taken A.faults A.empty_takes back_in.old) End.Receiver Halt.Accepted
        back.entry
        → carrying_by settings.entry (frame_bytes_of Record.PreambleAck []) ≡ to_front x mode kind
        → FollowsBoth x fi (input_at S.left S.taken S.faults S.empty_takes front_in.new) bi
        (input_at A.left A.taken A.faults A.empty_takes back_in.new) (K.view front_out.old)
        (K.view front_out.new) (B.view bo) (B.view back_out.new) result }
    ensures front_reads { CountsFaults (S.faults front_in.old) (S.faults front_in.new)
        (result.forward.read ≡ PumpIn.ReadFault) }
    ensures back_reads { CountsFaults (A.faults back_in.old) (A.faults back_in.new)
        (result.backward.read ≡ PumpIn.ReadFault) }
    ensures front_ended { K.ended front_out.new ≡ true }
    ensures back_ended { B.ended back_out.new ≡ true }
{
    let mut front = front;
    let mut to_back = to_back;
    let mut back = back;
    let mut to_front = Carrier::open(alloc, settings, preamble_ack(alloc), front_out);
    if !to_front.is_going() {
        let forward = to_back.finish(PumpIn::NotOpened, back_out);
        let backward = to_front.finish(PumpIn::NotOpened, front_out);
        return RelayOutcome { forward, backward };
    }
    pump_both(
        rt,
        &mut front,
        &mut to_back,
        &mut back,
        &mut to_front,
        front_in,
        front_out,
        back_in,
        back_out,
    )
}

// Relays behind the front's preamble.
fn relay_opened<R: Threads, S: Source + Send, K: Sink + Send, A: Source + Send, B: Sink + Send>(
    rt: &R,
    alloc: Global,
    settings: RelaySettings<'_>,
    front: Front<'_>,
    front_in: &mut S,
    front_out: &mut K,
    back_in: &mut A,
    back_out: &mut B,
) -> RelayOutcome
    requires via { length settings.via.now ≤ 2048 }
    requires begun { (fi : Input) × Begins (front_of (relay_by settings)) fi
        (input_at S.left S.taken S.faults S.empty_takes front_in.old) End.Initiator
        (Halt.Opened front.mode front.kind) front.listener }
    ensures follows { (fi : Input) → Begins (front_of (relay_by settings.entry)) fi
        (input_at S.left S.taken S.faults S.empty_takes front_in.old) End.Initiator
        (Halt.Opened front.entry.mode front.entry.kind) front.entry.listener
        → FollowsBoth (relay_by settings.entry) fi
        (input_at S.left S.taken S.faults S.empty_takes front_in.new)
        (input_at A.left A.taken A.faults A.empty_takes back_in.old)
        (input_at A.left A.taken A.faults A.empty_takes back_in.new) (K.view front_out.old)
        (K.view front_out.new) (B.view back_out.old) (B.view back_out.new) result }
    ensures front_reads { CountsFaults (S.faults front_in.old) (S.faults front_in.new)
        (result.forward.read ≡ PumpIn.ReadFault) }
    ensures back_reads { CountsFaults (A.faults back_in.old) (A.faults back_in.new)
        (result.backward.read ≡ PumpIn.ReadFault) }
    ensures front_ended { K.ended front_out.new ≡ true }
    ensures back_ended { B.ended back_out.new ≡ true }
{
    let Front {
        listener,
        mode,
        kind,
    } = front;
    let opening = preamble(alloc, mode, kind, settings.via);
    let mut carrier = Carrier::open(alloc, settings.to_back(mode, kind), opening, back_out);
    if !carrier.is_going() {
        let forward = carrier.finish(PumpIn::NotOpened, back_out);
        let backward = close_unopened(alloc, PumpIn::NotOpened, &[], front_out);
        return RelayOutcome { forward, backward };
    }
    match begin_back(alloc, settings, mode, kind, back_in) {
        Ok(back) => relay_accepted(
            rt,
            alloc,
            settings.to_front(mode, kind),
            listener,
            carrier,
            back,
            front_in,
            front_out,
            back_in,
            back_out,
        ),
        Err(read) => {
            let forward = carrier.finish(PumpIn::NotOpened, back_out);
            let backward = close_unopened(alloc, read, &[], front_out);
            RelayOutcome { forward, backward }
        }
    }
}

/// Joins two net.tcp sessions (MC-NMF): reads the front's preamble, calls the back by this Via with
/// the mode and the encoding that it names, and writes a Preamble Ack to the front once the back's
/// was read. Then both directions go on at once, each on a thread of its own where one is to be
/// had: documents are decoded from one session and encoded anew for the other, each with tables of
/// its own. Envelopes are gathered, up to 64 KiB and one envelope, and written before more is read.
///
/// A front that is refused before its preamble is complete gets the Fault record of its offence,
/// where MC-NMF has a text for it. Else no Fault is written. After a failed write, at a document
/// that doesn't fit, or when out of memory while writing, nothing more is put to that sink, and the
/// direction is read on to its end. Once nothing more is put to a sink, its direction is ended.
pub fn relay<R: Threads, S: Source + Send, K: Sink + Send, A: Source + Send, B: Sink + Send>(
    rt: &R,
    alloc: Global,
    front_in: &mut S,
    front_out: &mut K,
    back_in: &mut A,
    back_out: &mut B,
    front: &StaticTable,
    back: &StaticTable,
    quotas: &Two,
    endpoint: &Endpoint,
    via: &str,
) -> RelayOutcome
    requires via { length via.now ≤ 2048 }
    ensures relayed { IsRelayed
        (relaying front.now back.now quotas.now (endpoint_of endpoint.now) via.now)
        (input_at S.left S.taken S.faults S.empty_takes front_in.old)
        (input_at S.left S.taken S.faults S.empty_takes front_in.new)
        (input_at A.left A.taken A.faults A.empty_takes back_in.old)
        (input_at A.left A.taken A.faults A.empty_takes back_in.new) (K.view front_out.old)
        (K.view front_out.new) (B.view back_out.old) (B.view back_out.new) result }
    ensures front_ended { K.ended front_out.new ≡ true }
    ensures back_ended { B.ended back_out.new ≡ true }
{
    let settings = RelaySettings {
        front,
        back,
        quotas,
        endpoint,
        via,
    };
    match begin_front(alloc, settings, front_in) {
        Ok(opened) => relay_opened(
            rt, alloc, settings, opened, front_in, front_out, back_in, back_out,
        ),
        Err(read) => {
            let forward = close_unopened(alloc, read, &[], back_out);
            let refusal = refusal_record(read);
            let backward = close_unopened(alloc, PumpIn::NotOpened, refusal, front_out);
            RelayOutcome { forward, backward }
        }
    }
}
