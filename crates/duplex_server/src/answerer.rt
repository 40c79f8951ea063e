//! What asks the service, and makes a writer's jobs of requests.

ghost use Rattle.std.specs.Prelude.{◌≡◌, IfOk, OnOk, OnErr};
ghost use Rattle.nbfx_values.specs.QuotasOf.{limits_of};
ghost use Rattle.nbfx_values.specs.Limits.{Limits};
ghost use Rattle.action_dispatch.specs.Answers.{IsMeasured, MeasuresTexts};
ghost use Rattle.action_dispatch.specs.declared.answers.Answer.{Answer as Answered};
ghost use Rattle.duplex_server.specs.Jobs.{AsksAnswer, AsksFor};
ghost use Rattle.duplex_server.specs.ServerStream.{messages_behind};

use crate::jobs::{Job, Related};
use crate::requests::Request;
use action_dispatch::{Answer, Measured, Service, answer_owned};
use nbfx_values::Quotas;
use std::alloc::Global;
use unit_streams::Memory;

/// Answers requests by a service, and counts the documents.
#[derive(Drop)]
pub struct Answerer<'v, V> {
    alloc: Global,
    pub(crate) quotas: Quotas,
    pub(crate) service: &'v V,
    // How many documents there were.
    pub(crate) messages: u64,
}

// The job that an answer asks for, if it asks for one.
fn job_for(measured: Measured) -> Option<Job>
    requires { MeasuresTexts measured }
    ensures { (limits : Limits) (answer : Answered) → IsMeasured limits answer measured
        → AsksAnswer limits answer result }
{
    match measured {
        Measured::Made(
            Answer::Reply {
                doc,
                relates,
                version,
            },
        ) => {
            let items = relates;
            Some(Job::Answer {
                doc,
                relates: Related { items, version },
            })
        }
        Measured::Made(Answer::Nothing) => None,
        Measured::TooLarge { relates, version } => {
            let items = relates;
            Some(Job::TooLarge {
                relates: Related { items, version },
            })
        }
    }
}

impl<'v, V: Service> Answerer<'v, V> {
    /// Before the first request.
    pub fn new(alloc: Global, quotas: Quotas, service: &'v V) -> Self
        ensures quotas { result.quotas ≡ quotas }
        ensures service { result.service.now ≡ service.now }
        ensures messages { result.messages ≡ 0 }
    {
        Answerer {
            alloc,
            quotas,
            service,
            messages: 0,
        }
    }

    /// Counts a request that isn't answered, if it is a document.
    pub fn count(&mut self, request: &Request)
        ensures messages { self.new.messages ≡ messages_behind request.now self.old.messages }
        ensures quotas { self.new.quotas ≡ self.old.quotas }
        ensures service { self.new.service.now ≡ self.old.service.now }
    {
        if let Request::Received(_) = request {
            self.messages = self.messages.saturating_add(1);
        }
    }

    /// The job that a request asks for, if it asks for one: the Preamble Ack, or an answer by the
    /// service. Without memory for the answer the document isn't counted.
    pub fn ask(&mut self, request: Request) -> Result<Option<Job>, Memory>
        ensures asked { IfOk result (AsksFor (V.served self.old.service.now)
            (limits_of self.old.quotas) request) }
        ensures messages { OnOk result (self.new.messages
            ≡ messages_behind request self.old.messages) }
        ensures uncounted { OnErr result (self.new.messages ≡ self.old.messages) }
        ensures quotas { self.new.quotas ≡ self.old.quotas }
        ensures service { self.new.service.now ≡ self.old.service.now }
    {
        match request {
            Request::Opened { mode, kind } => Ok(Some(Job::Ack { mode, kind })),
            Request::Received(doc) => {
                let measured = answer_owned(self.alloc, &self.quotas, self.service, doc)?;
                self.messages = self.messages.saturating_add(1);
                Ok(job_for(measured))
            }
            Request::Ended => Ok(None),
        }
    }
}
