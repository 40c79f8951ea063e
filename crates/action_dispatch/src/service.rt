//! What a service is.

ghost use Rattle.std.specs.Prelude.{◌≡◌, IfOk, List, true, ℕ};
ghost use Rattle.nbfx_values.specs.QuotasOf.{limits_of};
ghost use Rattle.nbfx_values.specs.declared.content.Item.{Item};
ghost use Rattle.soap_envelope.specs.Making.{IsContent};
ghost use Rattle.action_dispatch.specs.Services.{Ignores, MayStand, RepliesTooMuch, Returns};

use nbfx_values::{Items, Quotas, Txt};
use std::alloc::Global;
use unit_streams::Memory;

/// What a service says to a request.
#[derive(Debug, Drop)]
pub enum Served {
    /// A reply, whose Body has this content.
    Reply(Items),
    /// No answer is sent.
    Nothing,
    /// The service has no such action.
    Unknown,
    /// The service refuses the request, for this reason in English.
    Refuse(Txt),
}

/// What a service does with the content of a request's Body.
#[derive(Clone, Copy, Debug, PartialEq, Eq)]
pub enum BodyUse {
    /// Nothing: what it says doesn't depend on the content, which isn't made for it.
    Unused,
    /// It replies with the content, whatever the action.
    Returned,
    /// It reads the content.
    Read,
}

/// A service: a function of a request's action and the content of its Body.
pub trait Service {
    ghost use Rattle.action_dispatch.specs.declared.service.Served.{Served};

    ghost served: { Self → (action : List ℕ) → (body : List Item) → Served };

    /// What the service does with the content of Body. One that reads it is asked only if the
    /// content may fit the quotas; else the answer is out of memory.
    fn body_use(&self) -> BodyUse
        ensures unused { result ≡ BodyUse.Unused → Ignores (served self.now) }
        ensures returned { result ≡ BodyUse.Returned → Returns (served self.now) }
    {
        BodyUse::Read
    }

    /// Whether the service replies to this action with more than the quotas admit, whatever Body
    /// has. Then its reply isn't made. A service may answer false where it doesn't know.
    fn is_too_large(&self, quotas: &Quotas, action: &str) -> bool
        ensures unfit { result ≡ true
            → RepliesTooMuch (limits_of quotas.now) (served self.now) action.now }
    {
        false
    }

    /// What the service says to a request with this action, whose Body has this content. It fails
    /// without memory.
    fn serve(&self, alloc: Global, action: &str, body: &Items) -> Result<Served, Memory>
        requires { IsContent body.now }
        ensures same { IfOk result (λ said. said ≡ served self.now action.now body.now) }
        ensures content { IfOk result MayStand };

    /// The same, with content that the service may keep, so that one that gives it back needs no
    /// copy. It fails without memory.
    fn serve_owned(&self, alloc: Global, action: &str, body: Items) -> Result<Served, Memory>
        requires { IsContent body }
        ensures same { IfOk result (λ said. said ≡ served self.now action.now body) }
        ensures content { IfOk result MayStand }
    {
        self.serve(alloc, action, &body)
    }
}
