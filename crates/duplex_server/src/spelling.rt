//! How the envelope of an answer is spelled.

ghost use Rattle.std.specs.Prelude.{◌≡◌, ⊤, IfOk, OnErr, false};
ghost use Rattle.std.specs.Option.{option_copied};
ghost use Rattle.nbfx_encoder.specs.Sending.{KeepsSettings, kind_in, limits_in, mode_in, names_in};
ghost use Rattle.nbfx_encoder.specs.Sending.{state_in};
ghost use Rattle.nbfx_encoder.specs.Spelling.{encoded};
ghost use Rattle.action_dispatch.specs.Refusals.{unfit_fault};
ghost use Rattle.duplex_server.specs.Jobs.{fitting};
ghost use Rattle.duplex_server.specs.ServerStream.{when_ready};
ghost use Rattle.duplex_server.specs.Spelling.{Spells, Tries};

use crate::jobs::Related;
use action_dispatch::unfit_doc;
use nbfx_encoder::{EncodeFault, SendFault, SendState, Sender};
use nbfx_values::{Doc, Items};
use std::alloc::Global;
use unit_streams::Memory;

// That a document doesn't fit, unless there was no memory to say so.
fn unfit(fault: EncodeFault) -> Result<bool, Memory>
    ensures { IfOk result (λ fits. (fits ≡ false) × (fault ≡ EncodeFault.Memory → ⊥)) }
{
    match fault {
        EncodeFault::Memory => Err(Memory),
        _ => Ok(false),
    }
}

// Appends the envelope of a document if it fits, and says whether it does.
fn spell_if_fits(sender: &mut Sender<'_>, doc: &Doc, out: &mut Vec<u8>) -> Result<bool, Memory>
    requires { state_in sender.old ≡ SendState.Ready }
    ensures tries { Tries (mode_in sender.old) out.old.items out.new.items
        (names_in sender.old) (names_in sender.new) (state_in sender.old) (state_in sender.new)
        (encoded (limits_in sender.old) (kind_in sender.old) (names_in sender.old) doc.now) result }
    ensures unchanged { OnErr result (out.new.items ≡ out.old.items) }
    ensures kept { KeepsSettings sender.old sender.new }
{
    match sender.message(doc, out) {
        Ok(()) => Ok(true),
        Err(SendFault::Refused(fault)) => unfit(fault),
        Err(SendFault::WrongMoment { .. }) => unreachable!(),
    }
}

// Appends the envelope of the fault in place of an answer, if it fits, and says whether it does. The
// fault's items are left.
fn spell_fault(
    alloc: Global,
    sender: &mut Sender<'_>,
    relates: Related,
    out: &mut Vec<u8>,
    left: &mut Items,
) -> Result<bool, Memory>
    requires { state_in sender.old ≡ SendState.Ready }
    ensures tries { Tries (mode_in sender.old) out.old.items out.new.items
        (names_in sender.old) (names_in sender.new) (state_in sender.old) (state_in sender.new)
        (encoded (limits_in sender.old) (kind_in sender.old) (names_in sender.old)
        (unfit_fault relates.version relates.items)) result }
    ensures unchanged { OnErr result (out.new.items ≡ out.old.items) }
    ensures kept { KeepsSettings sender.old sender.new }
{
    let fault = unfit_doc(alloc, relates.version, relates.items)?;
    let fits = spell_if_fits(sender, &fault, out)?;
    *left = fault.into_items();
    Ok(fits)
}

/// Appends the envelope of an answer, or, if it doesn't fit, of the fault in its place, which
/// relates to the same texts, in the same version. An answer that wasn't made is larger than any
/// that fits. Says whether either fits. If no answer may be sent now, or without memory, nothing is
/// appended.
///
/// What it was related to isn't dropped here, but left, since another thread asked for its memory.
pub fn spell_answer(
    alloc: Global,
    sender: &mut Sender<'_>,
    doc: Option<&Doc>,
    relates: Related,
    out: &mut Vec<u8>,
    left: &mut Items,
) -> Result<bool, Memory>
    ensures spells { Spells (mode_in sender.old) out.old.items out.new.items
        (names_in sender.old) (names_in sender.new) (state_in sender.old) (state_in sender.new)
        (when_ready (state_in sender.old) (fitting (limits_in sender.old) (kind_in sender.old)
        (names_in sender.old) (option_copied doc.entry) relates)) result }
    ensures unchanged { OnErr result (out.new.items ≡ out.old.items) }
    ensures kept { KeepsSettings sender.old sender.new }
{
    if sender.state() != SendState::Ready {
        *left = relates.items;
        return Ok(false);
    }
    match doc {
        Some(doc) => {
            if spell_if_fits(sender, doc, out)? {
                *left = relates.items;
                return Ok(true);
            }
            spell_fault(alloc, sender, relates, out, left)
        }
        None => spell_fault(alloc, sender, relates, out, left),
    }
}
