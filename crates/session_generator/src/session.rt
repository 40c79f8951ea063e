//! A session between two ends, which reads each record as it is sent.

ghost use Rattle.std.specs.Prelude.{◌≡◌, ◌∷◌, ◌++◌, [], IfErr, IfOk, OnOk};
ghost use Rattle.nbfx_values.specs.QuotasOf.{limits_of};
ghost use Rattle.session_generator.specs.Faults.{IsWantOfMemory};

use crate::ends::{Ends, GenFault};
use crate::reading::read;
use initiator_machine::opening;
use nbfx_encoder::{EncodeFault, SendFault, Sender, Side};
use nbfx_values::{Doc, Encoding, Kind, Mode, Quotas};
use receiver_machine::{Endpoint, Receiver};
use static_dictionary::StaticTable;
use std::alloc::Global;

const VIA: &str = "net.tcp://h/e";

// The sending half of an initiator, and the receiver that reads what it sends.
#[derive(Drop)]
pub(crate) struct Session<'s> {
    sender: Sender<'s>,
    receiver: Receiver<'s>,
    // The bytes of the last message.
    room: Vec<u8>,
}

impl<'s> Session<'s> {
    ghost use Rattle.session_generator.specs.UnderWay.{CanSend, IsUnderWay, Stops, WhereUnderWay};
    ghost use Rattle.session_generator.specs.Ends.{HaveSession, IsWhyNone};
    ghost use Rattle.nbfx_encoder.specs.Sending.{MayNotEnd, mode_in, side_in, state_in};

    // A session whose preamble was sent and read.
    pub(crate) fn open(
        alloc: Global,
        statics: &'s StaticTable,
        quotas: Quotas,
    ) -> Result<Session<'s>, GenFault>
        ensures opened { IfOk result (IsUnderWay (limits_of quotas) statics.now []) }
        ensures stopped { IfErr result (Stops (limits_of quotas) statics.now []) }
    {
        let mut room = Vec::new(alloc);
        opening(Mode::Duplex, Encoding::Known(Kind::Session), VIA, &mut room)?;
        let sender = Sender::new(
            alloc,
            statics,
            quotas,
            Kind::Session,
            Mode::Duplex,
            Side::Initiator,
        );
        let mut receiver = Receiver::new(alloc, statics, quotas, Endpoint::Any)?;
        statics.is_map();
        read(&mut receiver, &room)?;
        Ok(Session {
            sender,
            receiver,
            room,
        })
    }

    // Sends a document, and has it read.
    pub(crate) fn send(&mut self, doc: &Doc) -> Result<(), GenFault>
        requires { CanSend self.old doc.now }
        ensures sent { OnOk result (WhereUnderWay self.old (λ limits statics done.
            IsUnderWay limits statics (done ++ doc.now ∷ []) self.new)) }
        ensures stopped { IfErr result (λ fault. WhereUnderWay self.old (λ limits statics done.
            Stops limits statics (done ++ doc.now ∷ []) fault)) }
    {
        // No more bytes were read than the session quota admits.
        let _taken = self.receiver.taken();
        self.room.clear();
        match self.sender.message(doc, &mut self.room) {
            Ok(()) => read(&mut self.receiver, &self.room),
            Err(fault) => Err(unsent(fault)),
        }
    }

    // Ends the session.
    pub(crate) fn close(self) -> Result<Ends<'s>, GenFault>
        requires { MayNotEnd (mode_in self.sender) (side_in self.sender)
            (state_in self.sender) → ⊥ }
        ensures ended { IfOk result (λ ends. WhereUnderWay self.entry (λ limits statics done.
            HaveSession limits statics done ends)) }
        ensures stopped { IfErr result (λ fault. WhereUnderWay self.entry (λ limits statics done.
            IsWhyNone limits statics done fault)) }
    {
        let Session {
            mut sender,
            mut receiver,
            ..
        } = self;
        let _taken = receiver.taken();
        let end = match sender.end() {
            Ok(end) => end,
            Err(_) => unreachable!(),
        };
        read(&mut receiver, &[end])?;
        Ok(Ends {
            documents: receiver.messages(),
            bytes: receiver.taken(),
            sender,
            receiver,
        })
    }
}

// Why a document that fits isn't sent.
fn unsent(fault: SendFault) -> GenFault
    requires { IsWantOfMemory fault }
    ensures { result ≡ GenFault.Memory }
{
    match fault {
        SendFault::Refused(refusal) => match refusal {
            EncodeFault::Memory => GenFault::Memory,
            _ => unreachable!(),
        },
        SendFault::WrongMoment { .. } => unreachable!(),
    }
}
