//! How a request is judged before its service is asked.

ghost use Rattle.std.specs.Prelude.{◌≡◌, IfOk};
ghost use Rattle.std.specs.Option.{option_copied};
ghost use Rattle.action_dispatch.specs.Answers as spec;

use crate::refusals::Refusal;
use nbfx_values::Txt;
use soap_envelope::{Addressing, Envelope, Names};
use std::alloc::Global;
use unit_streams::Memory;

// Where a request wants its answer.
#[derive(Clone, Copy)]
pub(crate) enum Destination {
    Sender,
    Nobody,
    Elsewhere,
}

// Whether an address is a version's for nobody, if it has one.
fn is_nobody(version: Addressing, address: &str) -> bool
    ensures { result ≡ spec.is_nobody version address.now }
{
    match version.nobody() {
        Some(nobody) => address == nobody,
        None => false,
    }
}

impl Destination {
    // By the address of the request's ReplyTo, if it has one.
    fn of(version: Addressing, address: Option<&str>) -> Destination
        ensures { result ≡ spec.destination version (option_copied address.entry) }
    {
        let Some(address) = address else {
            return Destination::Sender;
        };
        if is_nobody(version, address) {
            Destination::Nobody
        } else if address == version.anonymous() {
            Destination::Sender
        } else {
            Destination::Elsewhere
        }
    }
}

// What is done with a request.
#[derive(Drop)]
pub(crate) enum Judged<'d> {
    Unanswered,
    Refused(Refusal<'d>),
    // The service is asked for this action.
    Asked(Txt),
}

// What is done with a request with this action, if it has one, whose answer may be sent.
fn by_action<'d>(action: Option<Txt>, to: Destination) -> Judged<'d>
    ensures { result ≡ spec.by_action action to }
{
    let Some(action) = action else {
        return Judged::Refused(Refusal::NoAction);
    };
    match to {
        Destination::Elsewhere => Judged::Refused(Refusal::OtherReplyAddress),
        _ => Judged::Asked(action),
    }
}

// The same, unless blocks with these names must be understood and aren't.
fn unless_foreign<'d>(foreign: Names<'d>, action: Option<Txt>, to: Destination) -> Judged<'d>
    ensures { result ≡ spec.unless_foreign foreign.entry (spec.by_action action to) }
{
    if foreign.len() > 0 {
        return Judged::Refused(Refusal::NotUnderstood(foreign));
    }
    by_action(action, to)
}

/// What becomes of a request with this view.
pub(crate) fn judge<'d>(alloc: Global, envelope: Envelope<'d>) -> Result<Judged<'d>, Memory>
    ensures { IfOk result (λ judged. judged ≡ spec.judged envelope.entry) }
{
    let version = envelope.version();
    let to = Destination::of(version, envelope.reply_address());
    if matches!(to, Destination::Nobody) {
        return Ok(Judged::Unanswered);
    }
    let known = version.understood();
    let foreign = envelope.not_understood(alloc, &known)?;
    Ok(unless_foreign(foreign, envelope.into_action(), to))
}
