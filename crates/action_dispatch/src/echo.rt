//! The service that echoes.

ghost use Rattle.std.specs.Prelude.{◌≡◌, IfOk};
ghost use Rattle.action_dispatch.specs.Services as spec;
ghost use Rattle.action_dispatch.specs.Services.{MayStand};

use crate::service::{BodyUse, Served, Service};
use nbfx_values::{Copied, Items};
use std::alloc::Global;
use unit_streams::Memory;

/// The service that replies with the content of the request's Body, whatever the action.
#[derive(Clone, Copy, Debug)]
pub struct EchoService;

impl Service for EchoService {
    ghost served = { λ _ action body. spec.echoed action body };

    fn body_use(&self) -> BodyUse
        ensures same { result ≡ BodyUse.Returned }
    {
        BodyUse::Returned
    }

    fn serve(&self, _alloc: Global, _action: &str, body: &Items) -> Result<Served, Memory> {
        Ok(Served::Reply(body.copy()?))
    }

    fn serve_owned(&self, _alloc: Global, _action: &str, body: Items) -> Result<Served, Memory> {
        Ok(Served::Reply(body))
    }
}
