//! How both sessions are opened.

ghost use Rattle.std.specs.Prelude.{◌≡◌, ◌≢◌, ◌≤◌, [], length, IfOk, IfErr, OnOk};
ghost use Rattle.io_edges.specs.Faults.{CountsFaults};
ghost use Rattle.nbfx_encoder.specs.declared.sender.Side.{Side as End};
ghost use Rattle.nmf_records.specs.Writing.{frame_bytes_of};
ghost use Rattle.nmf_records.specs.declared.frame.Frame.{Frame as Record};
ghost use Rattle.nbfx_values.specs.declared.session.Encoding.{Encoding as Spelling};
ghost use Rattle.initiator_machine.specs.Opening.{opening_bytes};
ghost use Rattle.stream_loop.specs.Edges.{Input, input_at};
ghost use Rattle.relay.specs.declared.beginning.Begun.{Begun as Halt};
ghost use Rattle.relay.specs.Beginning.{Begins, Comes, EndsBefore};
ghost use Rattle.relay.specs.Opening.{relay_by};
ghost use Rattle.relay.specs.Relayed.{EndsUnaccepted, back_by, front_of};

use crate::beginning::Begun;
use crate::listener::Listener;
use crate::outcome::PumpIn;
use crate::settings::RelaySettings;
use initiator_machine::opening;
use io_edges::Source;
use nbfx_encoder::Side as Written;
use nbfx_values::{Copied, Encoding, Kind, Mode};
use nmf_records::record_types::PREAMBLE_ACK;
use std::alloc::Global;
use stream_reader::{Endpoint, Side};
use unit_streams::Memory;

/// A front that opened a session.
#[derive(Drop)]
pub struct Front<'s> {
    /// What reads it on.
    pub(crate) listener: Listener<'s>,
    /// The mode that its preamble names.
    pub(crate) mode: Mode,
    /// The encoding that its preamble names.
    pub(crate) kind: Kind,
}

fn copy_of(alloc: Global, endpoint: &Endpoint) -> Result<Endpoint, Memory>
    ensures { IfOk result (λ copied. copied ≡ endpoint.now) }
{
    match endpoint {
        Endpoint::Any => Ok(Endpoint::Any),
        Endpoint::Only(via) => Ok(Endpoint::Only(via.copy()?)),
    }
}

fn front_listener<'s>(alloc: Global, settings: RelaySettings<'s>) -> Result<Listener<'s>, Memory>
    ensures comes { IfOk result (λ listener. (i : Input)
        → Comes (front_of (relay_by settings.entry)) i i (λ handled. handled ≡ []) listener) }
{
    let endpoint = copy_of(alloc, settings.endpoint)?;
    Listener::new(
        alloc,
        settings.front,
        settings.quotas.forward,
        Side::Initiator(endpoint),
    )
}

/// Reads the front up to its preamble. It fails with how the reading ended, where none comes.
pub fn begin_front<'s, S: Source>(
    alloc: Global,
    settings: RelaySettings<'s>,
    source: &mut S,
) -> Result<Front<'s>, PumpIn>
    ensures begun { IfOk result (λ front. Begins (front_of (relay_by settings.entry))
        (input_at S.left S.taken S.faults S.empty_takes source.old)
        (input_at S.left S.taken S.faults S.empty_takes source.new) End.Initiator
        (Halt.Opened front.mode front.kind) front.listener) }
    ensures ended { IfErr result (EndsBefore (front_of (relay_by settings.entry))
        (input_at S.left S.taken S.faults S.empty_takes source.old)
        (input_at S.left S.taken S.faults S.empty_takes source.new) End.Initiator) }
    ensures opened { IfErr result (λ read. read ≢ PumpIn.NotOpened) }
    ensures counted { IfErr result (λ read. CountsFaults (S.faults source.old)
        (S.faults source.new) (read ≡ PumpIn.ReadFault)) }
    ensures uncounted { OnOk result (S.faults source.new ≡ S.faults source.old) }
{
    let Ok(mut listener) = front_listener(alloc, settings) else {
        return Err(PumpIn::Memory);
    };
    match listener.begin(Written::Initiator, source) {
        Ok(Begun::Opened { mode, kind }) => Ok(Front {
            listener,
            mode,
            kind,
        }),
        Ok(Begun::Accepted) => unreachable!(),
        Err(read) => Err(read),
    }
}

/// Reads the back up to its Ack. It fails with how the reading ended, where that doesn't come.
pub fn begin_back<'s, A: Source>(
    alloc: Global,
    settings: RelaySettings<'s>,
    mode: Mode,
    kind: Kind,
    source: &mut A,
) -> Result<Listener<'s>, PumpIn>
    ensures begun { IfOk result (Begins (back_by (relay_by settings.entry) mode kind)
        (input_at A.left A.taken A.faults A.empty_takes source.old)
        (input_at A.left A.taken A.faults A.empty_takes source.new) End.Receiver
        Halt.Accepted) }
    ensures ended { IfErr result (EndsBefore (back_by (relay_by settings.entry) mode kind)
        (input_at A.left A.taken A.faults A.empty_takes source.old)
        (input_at A.left A.taken A.faults A.empty_takes source.new) End.Receiver) }
    ensures refused { IfErr result EndsUnaccepted }
    ensures counted { IfErr result (λ read. CountsFaults (A.faults source.old)
        (A.faults source.new) (read ≡ PumpIn.ReadFault)) }
    ensures uncounted { OnOk result (A.faults source.new ≡ A.faults source.old) }
{
    let Ok(mut listener) = Listener::new(
        alloc,
        settings.back,
        settings.quotas.back,
        Side::Receiver { mode, kind },
    ) else {
        return Err(PumpIn::Memory);
    };
    match listener.begin(Written::Receiver, source) {
        Ok(Begun::Accepted) => Ok(listener),
        Ok(Begun::Opened { .. }) => unreachable!(),
        Err(read) => Err(read),
    }
}

/// The preamble that the back is sent.
pub fn preamble(alloc: Global, mode: Mode, kind: Kind, via: &str) -> Result<Vec<u8>, Memory>
    requires { length via.now ≤ 2048 }
    ensures { IfOk result (λ bytes. bytes.items
        ≡ opening_bytes mode (Spelling.Known kind) via.now) }
{
    let mut bytes = Vec::new(alloc);
    opening(mode, Encoding::Known(kind), via, &mut bytes)?;
    Ok(bytes)
}

/// The Ack that the front is sent.
pub fn preamble_ack(alloc: Global) -> Result<Vec<u8>, Memory>
    ensures { IfOk result (λ bytes. bytes.items ≡ frame_bytes_of Record.PreambleAck []) }
{
    let mut bytes = Vec::new(alloc);
    bytes.push(PREAMBLE_ACK)?;
    Ok(bytes)
}
