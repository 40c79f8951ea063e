//! The service that answers requests, by a file of actions or without one.

ghost use Rattle.std.specs.Prelude.{◌≡◌, ℕ, ◌≤◌, IfOk, IfErr, IsErrOf, true};
ghost use Rattle.io_edges.specs.Faults.{CountsFaults, one_more};
ghost use Rattle.io_edges.specs.Files.{Tells};
ghost use Rattle.nbfx_values.specs.QuotasOf.{limits_of};
ghost use Rattle.action_dispatch.specs.Services.{RepliesTooMuch};
ghost use Rattle.duplex_server.specs.Responding.{GivesTexts, body_use_of, file_fault, has_text_above, reading_actions};

use action_dispatch::{
    ActionFault, ActionKind, BodyUse, EchoService, Served, Service, TableService,
};
use io_edges::{FileFault, Shelf, fetch_file};
use nbfx_values::{Items, Quotas};
use std::alloc::Global;
use unit_streams::Memory;

/// The service that answers the requests of a session.
#[derive(Drop)]
pub enum Responder {
    /// It gives the content of a request's Body back.
    Echo,
    /// It replies with the text that a file has for the request's action.
    Texts(TableService),
}

impl Service for Responder {
    ghost use Rattle.duplex_server.specs.Responding.{served_by};

    ghost served = { served_by };

    fn body_use(&self) -> BodyUse
        ensures same { result ≡ body_use_of self.now }
    {
        match self {
            Responder::Echo => EchoService.body_use(),
            Responder::Texts(table) => table.body_use(),
        }
    }

    fn is_too_large(&self, quotas: &Quotas, action: &str) -> bool
        ensures unfit { result ≡ true
            → RepliesTooMuch (limits_of quotas.now) (served_by self.now) action.now }
        ensures above { result ≡ has_text_above quotas.now.content action.now self.now }
    {
        match self {
            Responder::Echo => false,
            Responder::Texts(table) => table.is_too_large(quotas, action),
        }
    }

    fn serve(&self, alloc: Global, action: &str, body: &Items) -> Result<Served, Memory> {
        match self {
            Responder::Echo => EchoService.serve(alloc, action, body),
            Responder::Texts(table) => table.serve(alloc, action, body),
        }
    }

    fn serve_owned(&self, alloc: Global, action: &str, body: Items) -> Result<Served, Memory> {
        match self {
            Responder::Echo => EchoService.serve_owned(alloc, action, body),
            Responder::Texts(table) => table.serve_owned(alloc, action, body),
        }
    }
}

fn file_fault(fault: ActionFault) -> FileFault<ActionKind>
    ensures { result ≡ file_fault fault }
{
    match fault {
        ActionFault::Bad { row, kind } => FileFault::Bad { row, kind },
        ActionFault::Memory => FileFault::Memory,
    }
}

/// The service by the shelf's file of actions of that name. It fails where there is no such file,
/// where the fetch met an I/O error, at the first bad row, or without memory.
pub fn read_actions<F: Shelf>(
    alloc: Global,
    shelf: &mut F,
    name: &str,
) -> Result<Responder, FileFault<ActionKind>>
    ensures texts { IfOk result (GivesTexts (F.files shelf.old) name.now) }
    ensures fault { IfErr result (Tells reading_actions (F.files shelf.old) name.now) }
    ensures kept { F.files shelf.new ≡ F.files shelf.old }
    ensures fetched { F.fetches shelf.new ≡ one_more (F.fetches shelf.old) }
    ensures counted { CountsFaults (F.faults shelf.old) (F.faults shelf.new)
        (IsErrOf result FileFault.Failed) }
{
    let bytes = fetch_file(shelf, name)?;
    match TableService::read(alloc, &bytes) {
        Ok(table) => Ok(Responder::Texts(table)),
        Err(fault) => Err(file_fault(fault)),
    }
}
