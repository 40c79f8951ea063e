//! Documents from the lines that a source gives.

ghost use Rattle.std.specs.Prelude.{◌≡◌, ◌<◌, ◌≤◌, ◌^◌, List, IfOk};
ghost use Rattle.nbfx_values.specs.QuotasOf.{limits_of};
ghost use Rattle.nbfx_values.specs.declared.content.Item.{Item};
ghost use Rattle.stream_loop.specs.Edges.{input_at};
ghost use Rattle.document_lines.specs.Taking.{TakesDocuments, of_kept};

use crate::keeper::Keeper;
use crate::keeping::Keeping;
use crate::reading::ListFault;
use crate::step_reader::StepReader;
use io_edges::Source;
use nbfx_values::Quotas;
use std::alloc::Global;
use stream_loop::{FollowEnding, follow_stream};

/// Takes lines from the source to their end, of which so many bytes are too many, and hands each of
/// their documents to the keeper.
pub fn take_within<S: Source, D: Keeper>(
    alloc: Global,
    quota: u64,
    mut keeper: D,
    source: &mut S,
) -> Result<D, ListFault>
    requires some { 0 < quota }
    requires most { quota ≤ 2 ^ 63 }
    ensures { (documents : List (List Item))
        × TakesDocuments quota
        (input_at S.left S.taken S.faults S.empty_takes source.old)
        (input_at S.left S.taken S.faults S.empty_takes source.new) (of_kept documents result)
        × IfOk result (D.kept keeper documents) }
{
    let mut reader = StepReader::new(alloc, quota);
    match follow_stream(alloc, &mut reader, &mut Keeping, source, &mut keeper) {
        FollowEnding::Judged(None) => Ok(keeper),
        FollowEnding::Judged(Some(fault)) => Err(ListFault::Refused(fault)),
        FollowEnding::ReadFault => Err(ListFault::ReadFault),
        FollowEnding::Memory => Err(ListFault::Memory),
    }
}

/// Takes lines from the source to their end, and hands each of their documents to the keeper as
/// soon as it is read. It fails where a line is refused or the lines end within a document, at as
/// many bytes as the session quota, where a read met an I/O error, or without memory. The buffer
/// for a piece, of 64 KiB, is allocated once.
pub fn take_documents<S: Source, D: Keeper>(
    alloc: Global,
    quotas: &Quotas,
    keeper: D,
    source: &mut S,
) -> Result<D, ListFault>
    ensures { (documents : List (List Item))
        × TakesDocuments (limits_of quotas.now).session
        (input_at S.left S.taken S.faults S.empty_takes source.old)
        (input_at S.left S.taken S.faults S.empty_takes source.new) (of_kept documents result)
        × IfOk result (D.kept keeper documents) }
{
    take_within(alloc, quotas.session, keeper, source)
}
