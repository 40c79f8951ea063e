//! Both directions at once.

ghost use Rattle.stream_loop.specs.Edges.{input_at};
ghost use Rattle.relay.specs.Pumping.{CanPump, Pumps};

use crate::carrier::Carrier;
use crate::listener::Listener;
use crate::outcome::{Pump, RelayOutcome};
use crate::pumping::pump;
use io_edges::{Sink, Source};
use std::thread::{Threads, join_mut};

/// Has both directions go on to their ends, each on a thread of its own. The directions don't wait
/// for each other. Where no thread is to be had, the backward one goes on when the forward one is
/// at its end.
pub fn pump_both<R: Threads, S: Source + Send, K: Sink + Send, A: Source + Send, B: Sink + Send>(
    rt: &R,
    front: &mut Listener<'_>,
    to_back: &mut Carrier<'_>,
    back: &mut Listener<'_>,
    to_front: &mut Carrier<'_>,
    front_in: &mut S,
    front_out: &mut K,
    back_in: &mut A,
    back_out: &mut B,
) -> RelayOutcome
    requires forward { CanPump (input_at S.left S.taken S.faults S.empty_takes) B.view front.old
        to_back.old front_in.old back_out.old }
    requires backward { CanPump (input_at A.left A.taken A.faults A.empty_takes) K.view back.old
        to_front.old back_in.old front_out.old }
    ensures forward { Pumps (input_at S.left S.taken S.faults S.empty_takes) B.view B.ended
        front.old to_back.old front_in.old front_in.new back_out.old back_out.new result.forward }
    ensures backward { Pumps (input_at A.left A.taken A.faults A.empty_takes) K.view K.ended
        back.old to_front.old back_in.old back_in.new front_out.old front_out.new result.backward }
{
    let (backward, forward) = join_mut(
        rt,
        &mut || -> Pump
            requires { CanPump (input_at A.left A.taken A.faults A.empty_takes) K.view back.now
                to_front.now back_in.now front_out.now }
            ensures { Pumps (input_at A.left A.taken A.faults A.empty_takes) K.view K.ended
                back.entry.now to_front.entry.now back_in.entry.now back_in.exit.now
                front_out.entry.now front_out.exit.now result }
        { pump(back, to_front, back_in, front_out) },
        &mut || -> Pump
            requires { CanPump (input_at S.left S.taken S.faults S.empty_takes) B.view front.now
                to_back.now front_in.now back_out.now }
            ensures { Pumps (input_at S.left S.taken S.faults S.empty_takes) B.view B.ended
                front.entry.now to_back.entry.now front_in.entry.now front_in.exit.now
                back_out.entry.now back_out.exit.now result }
        { pump(front, to_back, front_in, back_out) },
    );
    RelayOutcome { forward, backward }
}
