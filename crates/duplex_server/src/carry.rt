//! What was taken from a connection behind the end of a session.

ghost use Rattle.std.specs.Prelude.{◌≡◌, [], IfOk};
ghost use Rattle.stream_loop.specs.Edges.{input_at};
ghost use Rattle.duplex_server.specs.Carrying.{FillsCarry};

use io_edges::{Failed, Source};
use std::alloc::Global;
use std::marker::Model;
use stream_loop::InputBuffer;
use unit_streams::Memory;

/// The bytes that were taken from a connection and that no session has used. Initiators that keep
/// their connections, as those of WCF do, begin the next session right behind the End of the last
/// one, so that one read may take the end of a session and the beginning of another.
#[derive(Debug, Drop)]
pub struct Carry {
    pub(crate) buffer: InputBuffer,
}

impl Model for Carry {
    ghost use Rattle.std.specs.Prelude.{ℕ, List};

    ghost Value = { List ℕ };

    ghost view = { λ carry. carry.buffer };
}

impl Carry {
    /// None yet, and room for 64 KiB. It fails without memory for that.
    pub fn new(alloc: Global) -> Result<Carry, Memory>
        ensures { IfOk result (λ carry. carry ≡ []) }
    {
        let buffer = InputBuffer::new(alloc)?;
        Ok(Carry { buffer })
    }

    /// Takes the next bytes of the connection, by one read, where none are carried. They may be
    /// long in coming. Says whether any are carried now: where none are, none will come. It fails
    /// where the read met an I/O error.
    pub fn fill<S: Source>(&mut self, source: &mut S) -> Result<bool, Failed>
        ensures { FillsCarry (input_at S.left S.taken S.faults S.empty_takes source.old)
            (input_at S.left S.taken S.faults S.empty_takes source.new) self.old self.new result }
    {
        if !self.buffer.bytes().is_empty() {
            return Ok(true);
        }
        let count = self.buffer.fill(source)?;
        Ok(count > 0)
    }
}
