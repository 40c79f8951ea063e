//! What reads one side.

ghost use Rattle.std.specs.Prelude.{◌≡◌, ◌≢◌, [], IfOk, IfErr, OnOk};
ghost use Rattle.io_edges.specs.Faults.{CountsFaults};
ghost use Rattle.nbfx_values.specs.QuotasOf.{limits_of};
ghost use Rattle.stream_reader.specs.Sides.{side_of};
ghost use Rattle.stream_reader.specs.Stream.{Settings};
ghost use Rattle.stream_loop.specs.Edges.{Input, input_at};
ghost use Rattle.relay.specs.Beginning.{Begins, Comes, EndsBefore};

use crate::beginning::{Beginning, Begun};
use crate::outcome::{PumpIn, read_by};
use io_edges::Source;
use nbfx_encoder::Side as Written;
use nbfx_values::Quotas;
use session_report::StreamEnd;
use static_dictionary::StaticTable;
use std::alloc::Global;
use stream_loop::{InputBuffer, read_on};
use stream_reader::Side;
use unit_streams::Memory;

/// Reads one side, and keeps what was taken of it and isn't read yet.
#[derive(Drop)]
pub struct Listener<'s> {
    pub(crate) buffer: InputBuffer,
    pub(crate) end: StreamEnd<'s>,
}

impl<'s> Listener<'s> {
    /// Before the first byte. It fails without memory for what it needs before the first envelope.
    pub fn new(
        alloc: Global,
        statics: &'s StaticTable,
        quotas: Quotas,
        side: Side,
    ) -> Result<Self, Memory>
        ensures comes { IfOk result (λ listener. (i : Input) → Comes (record {
          side = side_of side;
          statics = statics.now;
          limits = limits_of quotas;
        }) i i (λ handled. handled ≡ []) listener) }
    {
        let end = StreamEnd::new(alloc, statics, quotas, side)?;
        let buffer = InputBuffer::new(alloc)?;
        Ok(Listener { buffer, end })
    }

    /// Reads up to what begins the session that is written as one end. It fails with how the
    /// reading ended, where that doesn't come.
    pub fn begin<S: Source>(&mut self, side: Written, source: &mut S) -> Result<Begun, PumpIn>
        requires { (y : Settings) × (i : Input) × Comes y i
            (input_at S.left S.taken S.faults S.empty_takes source.old) (λ handled. handled ≡ [])
            self.old }
        ensures begun { (y : Settings) (i : Input) → Comes y i
            (input_at S.left S.taken S.faults S.empty_takes source.old) (λ handled. handled ≡ [])
            self.old → IfOk result (λ halt. Begins y i
            (input_at S.left S.taken S.faults S.empty_takes source.new) side halt self.new) }
        ensures ended { (y : Settings) (i : Input) → Comes y i
            (input_at S.left S.taken S.faults S.empty_takes source.old) (λ handled. handled ≡ [])
            self.old → IfErr result (λ read. EndsBefore y i
            (input_at S.left S.taken S.faults S.empty_takes source.new) side read) }
        ensures opened { IfErr result (λ read. read ≢ PumpIn.NotOpened) }
        ensures counted { IfErr result (λ read. CountsFaults (S.faults source.old)
            (S.faults source.new) (read ≡ PumpIn.ReadFault)) }
        ensures uncounted { OnOk result (S.faults source.new ≡ S.faults source.old) }
    {
        let mut beginning = Beginning {
            side,
            faulted: false,
        };
        let read = read_on(
            &mut self.buffer,
            &mut self.end,
            &mut beginning,
            source,
            &mut (),
        );
        read_by(read, beginning.faulted)
    }
}
