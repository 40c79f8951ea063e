//! What is left to do for a request once it was judged.

ghost use Rattle.std.specs.Prelude.{◌≡◌, IfOk, OnOk};
ghost use Rattle.nbfx_values.specs.QuotasOf.{limits_of};
ghost use Rattle.soap_envelope.specs.Making.{AreTexts};
ghost use Rattle.action_dispatch.specs.Answers as answers;
ghost use Rattle.action_dispatch.specs.Answers.{RelatesToTexts};
ghost use Rattle.action_dispatch.specs.Planning as spec;
ghost use Rattle.action_dispatch.specs.Planning.{Plans};

use crate::answers::{Answer, Measured};
use crate::judging::{Judged, judge};
use crate::refusals::Refusal;
use nbfx_values::{Doc, Items, Quotas, Txt};
use soap_envelope::{Addressing, Envelope, SoapFault};
use std::alloc::Global;
use unit_streams::Memory;

/// What is left to do for a request. It borrows nothing from the request's document.
#[derive(Drop)]
pub(crate) enum Plan {
    /// Nothing, since no service is asked.
    Answered(Measured),
    /// This fault is answered in this version, which relates to so many texts.
    Refused {
        fault: Doc,
        related: usize,
        version: Addressing,
    },
    /// The service is asked for this action. An answer is in this version and relates to these
    /// texts, and Body begins at this place of the document.
    Asks {
        version: Addressing,
        action: Txt,
        relates: Items,
        body_at: usize,
    },
}

/// The answer that a request isn't served.
pub(crate) fn refusal_answer(
    alloc: Global,
    version: Addressing,
    refusal: Refusal<'_>,
    relates: Items,
) -> Result<Answer, Memory>
    requires { AreTexts relates }
    ensures refused { IfOk result
        (λ answer. answer ≡ answers.refusal_answer version refusal.entry relates) }
    ensures texts { IfOk result RelatesToTexts }
{
    let doc = refusal.doc(alloc, version, &relates)?;
    Ok(Answer::Reply {
        doc,
        relates,
        version,
    })
}

// The fault that a request isn't served, where its names fit the quotas. Else it isn't made.
fn refused(
    alloc: Global,
    quotas: &Quotas,
    version: Addressing,
    refusal: Refusal<'_>,
    relates: Items,
) -> Result<Plan, Memory>
    requires { AreTexts relates }
    ensures { IfOk result
        (λ plan. plan ≡ spec.refused (limits_of quotas.now) version refusal.entry relates) }
{
    if !refusal.names_fit(quotas) {
        return Ok(Plan::Answered(Measured::TooLarge { relates, version }));
    }
    let related = relates.len();
    let fault = refusal.doc_with(alloc, version, relates)?;
    Ok(Plan::Refused {
        fault,
        related,
        version,
    })
}

// What is left to do for a request that was judged, which has this identifier and this place of
// Body.
fn plan_judged(
    alloc: Global,
    quotas: &Quotas,
    version: Addressing,
    judged: Judged<'_>,
    relates: Items,
    body_at: usize,
) -> Result<Plan, Memory>
    requires { AreTexts relates }
    ensures { IfOk result (λ plan. plan
        ≡ spec.planned (limits_of quotas.now) version judged.entry relates body_at) }
{
    match judged {
        Judged::Unanswered => Ok(Plan::Answered(Measured::Made(Answer::Nothing))),
        Judged::Refused(refusal) => refused(alloc, quotas, version, refusal, relates),
        Judged::Asked(action) => Ok(Plan::Asks {
            version,
            action,
            relates,
            body_at,
        }),
    }
}

// What is left to do for the request with this view.
fn plan_viewed(alloc: Global, quotas: &Quotas, envelope: Envelope<'_>) -> Result<Plan, Memory>
    ensures planned { IfOk result
        (λ plan. plan ≡ spec.planned_of (limits_of quotas.now) envelope.entry) }
    ensures texts { OnOk result (AreTexts envelope.entry.message_id) }
{
    let relates = envelope.message_id(alloc)?;
    let version = envelope.version();
    let body_at = envelope.body_at();
    let judged = judge(alloc, envelope)?;
    plan_judged(alloc, quotas, version, judged, relates, body_at)
}

/// What is left to do for the request that is this document.
pub(crate) fn plan_for(alloc: Global, quotas: &Quotas, doc: &Doc) -> Result<Plan, Memory>
    ensures { IfOk result (Plans (limits_of quotas.now) doc.now) }
{
    match Envelope::of(alloc, doc) {
        Ok(envelope) => plan_viewed(alloc, quotas, envelope),
        Err(SoapFault::Memory) => Err(Memory),
        Err(fault) => {
            let refusal = Refusal::of(fault);
            let answer = refusal_answer(alloc, Addressing::V10, refusal, Items::new(alloc))?;
            Ok(Plan::Answered(Measured::Made(answer)))
        }
    }
}
