//! The command `gen`, which makes a session and prints a line of it.

ghost use Rattle.std.specs.Prelude.{◌≡◌, []};
ghost use Rattle.nbfx_values.specs.QuotasOf.{limits_of};
ghost use Rattle.dump_replay.specs.Generating.{Generated};
ghost use Rattle.dump_replay.specs.Noting.{Notes};

use crate::notes::note_summary;
use io_edges::Sink;
use nbfx_values::Quotas;
use session_generator::summarize;
use static_dictionary::StaticTable;
use std::alloc::Global;

/// Makes the session of the `count` documents that follow the seed, and writes its line, and the
/// note. Answers the status, with the output.
pub fn generate_session<O: Sink, N: Sink>(
    alloc: Global,
    seed: u64,
    count: u32,
    statics: &StaticTable,
    quotas: Quotas,
    output: O,
    notes: &mut N,
) -> (u8, O)
    ensures { Generated (λ text. Notes (N.view notes.old) (N.view notes.new) text
        × (text ≡ [] → notes.new ≡ notes.old)) seed count statics.now (limits_of quotas)
        (O.view output) (O.view result.1) result.0 }
{
    let (summary, output) = summarize(alloc, statics, &quotas, seed, count, output);
    note_summary(summary, notes);
    (summary.status(), output)
}
