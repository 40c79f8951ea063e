//! What a server answers to a request.

ghost use Rattle.std.specs.Prelude.{◌≡◌, [], IfOk, IsTrue, slice_get};
ghost use Rattle.nbfx_values.specs.QuotasOf.{limits_of};
ghost use Rattle.soap_envelope.specs.Body.{body_items};
ghost use Rattle.soap_envelope.specs.Children.{is_start};
ghost use Rattle.soap_envelope.specs.Faults.{related_texts};
ghost use Rattle.soap_envelope.specs.Making.{AreTexts, reply_items};
ghost use Rattle.soap_envelope.specs.Parts.{root_scope};
ghost use Rattle.action_dispatch.specs.Answers as spec;
ghost use Rattle.action_dispatch.specs.Answers.{IsMeasured, MeasuresTexts, RelatesToTexts, answered};
ghost use Rattle.action_dispatch.specs.Services.{MayStand};

use crate::answers::{Answer, Measured};
use crate::planning::{Plan, plan_for, refusal_answer};
use crate::refusals::Refusal;
use crate::service::{BodyUse, Served, Service};
use nbfx_values::{Copied, Doc, Items, Quotas};
use soap_envelope::{Addressing, related_texts, reply_doc_with, return_body, take_body};
use std::alloc::Global;
use unit_streams::Memory;

// The answer where the service says this.
fn answer_by(
    alloc: Global,
    version: Addressing,
    action: &str,
    relates: Items,
    said: Served,
) -> Result<Answer, Memory>
    requires relates { AreTexts relates }
    requires content { MayStand said }
    ensures answered { IfOk result (λ answer. answer
        ≡ spec.answer_by version action.now relates said) }
    ensures texts { IfOk result RelatesToTexts }
{
    match said {
        Served::Reply(body) => {
            let doc = reply_doc_with(alloc, version, action, &relates, body)?;
            Ok(Answer::Reply {
                doc,
                relates,
                version,
            })
        }
        Served::Nothing => Ok(Answer::Nothing),
        Served::Unknown => refusal_answer(alloc, version, Refusal::UnknownAction, relates),
        Served::Refuse(reason) => refusal_answer(
            alloc,
            version,
            Refusal::ByService(reason),
            relates,
        ),
    }
}

// The answer of a service to this action and no content.
fn answer_unread<V: Service>(
    alloc: Global,
    service: &V,
    version: Addressing,
    action: &str,
    relates: Items,
) -> Result<Answer, Memory>
    requires { AreTexts relates }
    ensures answered { IfOk result (λ answer. answer
        ≡ spec.answer_by version action.now relates (V.served service.now action.now [])) }
    ensures texts { IfOk result RelatesToTexts }
{
    let said = service.serve(alloc, action, &Items::new(alloc))?;
    answer_by(alloc, version, action, relates, said)
}

// The answer that has the request's content of Body; it isn't made if that doesn't fit the quotas.
fn answer_returned(
    alloc: Global,
    quotas: &Quotas,
    version: Addressing,
    action: &str,
    relates: Items,
    doc: Doc,
    body_at: usize,
) -> Result<Measured, Memory>
    requires relates { AreTexts relates }
    requires body { IsTrue (is_start (slice_get doc body_at)) }
    ensures measured { let body = body_items version doc (root_scope doc) body_at in
        IfOk result (IsMeasured (limits_of quotas.now)
        (Answer.Reply (reply_items version action.now relates body) relates version)) }
    ensures texts { IfOk result MeasuresTexts }
{
    match return_body(alloc, quotas, version, action, &relates, doc, body_at)? {
        Some(doc) => {
            Ok(Measured::Made(Answer::Reply {
                doc,
                relates,
                version,
            }))
        }
        None => Ok(Measured::TooLarge { relates, version }),
    }
}

// The answer of a service to this action and the content of the request's Body. There is no memory
// for content that doesn't fit the quotas.
fn answer_read<V: Service>(
    alloc: Global,
    quotas: &Quotas,
    service: &V,
    version: Addressing,
    action: &str,
    relates: Items,
    doc: Doc,
    body_at: usize,
) -> Result<Answer, Memory>
    requires relates { AreTexts relates }
    requires body { IsTrue (is_start (slice_get doc body_at)) }
    ensures answered { let body = body_items version doc (root_scope doc) body_at in
        IfOk result (λ answer. answer
        ≡ spec.answer_by version action.now relates (V.served service.now action.now body)) }
    ensures texts { IfOk result RelatesToTexts }
{
    match take_body(alloc, quotas, version, doc, body_at)? {
        Some(body) => {
            let said = service.serve_owned(alloc, action, body)?;
            answer_by(alloc, version, action, relates, said)
        }
        None => Err(Memory),
    }
}

// The answer to a request for this action, which is this document. Where the service's reply is too
// large whatever Body has, nothing is made.
fn answer_asked<V: Service>(
    alloc: Global,
    quotas: &Quotas,
    service: &V,
    version: Addressing,
    action: &str,
    relates: Items,
    doc: Doc,
    body_at: usize,
) -> Result<Measured, Memory>
    requires relates { AreTexts relates }
    requires body { IsTrue (is_start (slice_get doc body_at)) }
    ensures measured { let body = body_items version doc (root_scope doc) body_at in
        IfOk result (IsMeasured (limits_of quotas.now)
        (spec.answer_by version action.now relates (V.served service.now action.now body))) }
    ensures texts { IfOk result MeasuresTexts }
{
    if service.is_too_large(quotas, action) {
        return Ok(Measured::TooLarge { relates, version });
    }
    match service.body_use() {
        BodyUse::Unused => {
            drop(doc);
            let answer = answer_unread(alloc, service, version, action, relates)?;
            Ok(Measured::Made(answer))
        }
        BodyUse::Returned => answer_returned(alloc, quotas, version, action, relates, doc, body_at),
        BodyUse::Read => {
            let answer = answer_read(
                alloc, quotas, service, version, action, relates, doc, body_at,
            )?;
            Ok(Measured::Made(answer))
        }
    }
}

// The answer that is this fault in a version, which relates to so many texts.
fn refused_by(
    alloc: Global,
    fault: Doc,
    related: usize,
    version: Addressing,
) -> Result<Measured, Memory>
    ensures { IfOk result (λ measured. measured
        ≡ Measured.Made (Answer.Reply fault (related_texts related fault) version)) }
{
    let relates = related_texts(alloc, &fault, related)?;
    Ok(Measured::Made(Answer::Reply {
        doc: fault,
        relates,
        version,
    }))
}

/// What a server with this service answers to the request that is this document, by SOAP 1.2 and
/// the request's version of WS-Addressing: a fault if the document is no envelope or the request
/// isn't one to serve, else what the service says. It fails without memory for the answer.
///
/// What the answer copies of Body is measured before it is copied, and so are the names of blocks
/// that weren't understood: where they count more than the quotas admit, the answer isn't made,
/// since it would never be written. Nor is a reply that the service says is too large. A service
/// that doesn't use Body answers whatever Body has; one that reads it
/// ([`BodyUse::Read`](crate::BodyUse::Read)) is asked only if the content may fit the quotas, and
/// else there is no memory for it. Where a service gives the content back, its items are moved, and
/// the reply has the request's list of items; else the request is let go before its answer has
/// copies of the MessageID's texts.
pub fn answer_owned<V: Service>(
    alloc: Global,
    quotas: &Quotas,
    service: &V,
    doc: Doc,
) -> Result<Measured, Memory>
    ensures measured { IfOk result
        (IsMeasured (limits_of quotas.now) (answered (V.served service.now) doc)) }
    ensures texts { IfOk result MeasuresTexts }
{
    match plan_for(alloc, quotas, &doc)? {
        Plan::Answered(measured) => Ok(measured),
        Plan::Refused {
            fault,
            related,
            version,
        } => {
            drop(doc);
            refused_by(alloc, fault, related, version)
        }
        Plan::Asks {
            version,
            action,
            relates,
            body_at,
        } => {
            answer_asked(
                alloc,
                quotas,
                service,
                version,
                action.as_str(),
                relates,
                doc,
                body_at,
            )
        }
    }
}

/// The same answer to a request that is kept, whose document is copied. It fails without memory for
/// that too.
pub fn answer<V: Service>(
    alloc: Global,
    quotas: &Quotas,
    service: &V,
    doc: &Doc,
) -> Result<Measured, Memory>
    ensures measured { IfOk result
        (IsMeasured (limits_of quotas.now) (answered (V.served service.now) doc.now)) }
    ensures texts { IfOk result MeasuresTexts }
{
    answer_owned(alloc, quotas, service, doc.copy()?)
}
