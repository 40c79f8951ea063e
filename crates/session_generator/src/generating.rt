//! A session of as many documents as one asks for.

ghost use Rattle.std.specs.Prelude.{◌≡◌, IfErr, IfOk};
ghost use Rattle.unit_streams.specs.Grammar.{standing};
ghost use Rattle.nbfx_values.specs.QuotasOf.{limits_of};
ghost use Rattle.nbfx_encoder.specs.Sending.{names_in};
ghost use Rattle.stream_reader.specs.Stream.{stream, strings_in};
ghost use Rattle.receiver_machine.specs.ReceiverState.{WhereItStands, settings_of};
ghost use Rattle.session_generator.specs.Documents.{documents};
ghost use Rattle.session_generator.specs.Ends.{AreLevel, HaveSession, IsWhyNone};

use crate::documents::document;
use crate::ends::{Ends, GenFault};
use crate::numbers::{drawn, stepped};
use crate::session::Session;
use nbfx_values::{Items, Quotas};
use session_dictionary::SessionTable;
use static_dictionary::StaticTable;
use std::alloc::Global;

/// Sends and reads the session of the `count` documents that follow the seed, one after the other,
/// in duplex mode (MC-NMF, MC-NBFSE), and answers both ends of it. Each document fits under all
/// valid quotas, so it fails only where the session is longer than the session quota, or without
/// memory.
pub fn generate<'s>(
    alloc: Global,
    statics: &'s StaticTable,
    quotas: Quotas,
    seed: u64,
    count: u32,
) -> Result<Ends<'s>, GenFault>
    ensures ends { IfOk result
        (HaveSession (limits_of quotas) statics.now (documents seed count)) }
    ensures counted { IfOk result (λ ends. ends.documents ≡ count) }
    ensures level { IfOk result AreLevel }
    ensures none { IfErr result
        (IsWhyNone (limits_of quotas) statics.now (documents seed count)) }
{
    statics.is_map();
    let mut session = Session::open(alloc, statics, quotas)?;
    let mut room = Items::new(alloc);
    let mut state = seed;
    for number in 0..count {
        state = stepped(state);
        let doc = document(alloc, room, number, drawn(state))?;
        session.send(&doc)?;
        room = doc.into_items();
    }
    session.close()
}

/// The session tables of both ends, which have the same strings.
pub fn tables<'a>(ends: &'a Ends<'_>) -> (&'a SessionTable, &'a SessionTable)
    requires { AreLevel ends.now }
    ensures sent { result.0.now.strings ≡ (names_in ends.now.sender).strings }
    ensures read { WhereItStands ends.now.receiver (λ p. result.1.now.strings
        ≡ strings_in (standing (stream (settings_of ends.now.receiver)) p).situation) }
    ensures same { result.1.now.strings ≡ result.0.now.strings }
{
    (ends.sender.table(), ends.receiver.table())
}
