//! What answers the requests of a connection on the thread that reads them.

ghost use Rattle.std.specs.Prelude.{◌≡◌, ◌++◌, None};
ghost use Rattle.stream_loop.specs.PartsGiven.{IsFresh};

use crate::answerer::Answerer;
use crate::jobs::Spent;
use crate::reply_writer::ReplyWriter;
use crate::requests::Request;
use action_dispatch::Service;
use io_edges::Sink;
use nbfx_values::Two;
use static_dictionary::StaticTable;
use std::alloc::Global;
use stream_loop::EventHandler;
use unit_streams::Memory;

/// Answers requests, and writes the answers.
#[derive(Drop)]
pub struct Replier<'s, 'v, V> {
    pub(crate) answerer: Answerer<'v, V>,
    pub(crate) writer: ReplyWriter<'s>,
    // Of both directions. Answers are made and spelled within those of the way back.
    pub(crate) quotas: Two,
    ghost made: { answerer.quotas ≡ quotas.back },
    ghost spelled: { writer.quotas ≡ quotas.back },
}

/// What a job leaves for the reading end to use again. The rest is dropped.
pub(crate) fn used_again(spent: Option<Spent>) -> Option<Request> {
    let Spent { doc, .. } = spent?;
    Some(Request::Received(doc?))
}

impl<'s, 'v, V: Service> Replier<'s, 'v, V> {
    /// Before the first request.
    pub fn new(alloc: Global, statics: &'s StaticTable, quotas: &Two, service: &'v V) -> Self
        ensures statics { result.writer.statics.now ≡ statics.now }
        ensures quotas { result.quotas ≡ quotas.now }
        ensures service { result.answerer.service.now ≡ service.now }
        ensures messages { result.answerer.messages ≡ 0 }
        ensures fresh { IsFresh result.writer.parts }
        ensures unopened { result.writer.sender ≡ None }
    {
        Replier {
            answerer: Answerer::new(alloc, quotas.back, service),
            writer: ReplyWriter::new(alloc, statics, quotas.back),
            quotas: *quotas,
        }
    }
}

impl<'s, 'v, V: Service, K: Sink> EventHandler<Request, K> for Replier<'s, 'v, V> {
    ghost use Rattle.duplex_server.specs.ServerStream.{Answering};
    ghost use Rattle.duplex_server.specs.Replying.{HasHandled, answering_of};
    ghost use Rattle.stream_loop.specs.PartsGiven.{MayWait};
    ghost use Rattle.stream_loop.specs.declared.outbound.Outbound.TheVariants.{Done};

    type Halt = Memory;

    ghost Settings = { Answering };

    ghost settings = { λ replier. answering_of V.served replier };

    ghost handled = { λ first paused since replier now. HasHandled (answering_of V.served replier)
        (K.view first) (paused ++ since) replier (K.view now) };

    ghost halted = { λ first paused since at halt replier now. HasHandled
        (answering_of V.served replier) (K.view first) (paused ++ since) replier (K.view now) };

    ghost may_halt = { λ replier. replier.writer.parts.outbound ≡ Done };

    ghost may_wait = { λ replier now. MayWait replier.writer.parts.outbound
        replier.writer.parts.gathered.items (K.view now) (K.ended now) };

    ghost ended = { λ sink. K.ended sink };

    ghost has_stopped = { λ replier. replier.writer.parts.outbound ≡ Done → ⊥ };

    ghost is_unput = { λ old new. K.view new ≡ K.view old };

    // Once the writing has ended nothing would be sent of an answer: the service isn't asked then,
    // and no memory is taken.
    fn handle(&mut self, request: Request, sink: &mut K) -> Result<Option<Request>, Memory> {
        if !self.writer.parts.outbound.is_going() {
            self.answerer.count(&request);
            return Ok(Some(request));
        }
        let asked = self.answerer.ask(request)?;
        match asked {
            Some(job) => Ok(used_again(self.writer.work(job, sink))),
            None => Ok(None),
        }
    }

    fn pause(&mut self, sink: &mut K) -> Result<(), Memory> {
        self.writer.parts.pause(sink);
        Ok(())
    }
}
