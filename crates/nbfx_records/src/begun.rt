//! A record by its kind: which kind some bytes begin, and the parts of a record whose kind is
//! known.

ghost use Rattle.std.specs.Prelude.{◌≡◌, ◌≢◌, ◌<◌, ◌↔◌, IfNone, IfOk, IfSome, length, true};
ghost use Rattle.nbfx_records.specs.Asked as asked;
ghost use Rattle.nbfx_records.specs.Beginning.{BeginsKind, MayStand};
ghost use Rattle.nbfx_records.specs.Cursor.{Tells};
ghost use Rattle.nbfx_records.specs.Shapes as spec;
ghost use Rattle.nbfx_records.specs.Views.{IsSoundAttribute, record_seen};

use crate::attributes::{AttributePart, ValuePart, attribute_at, declaration_at};
use crate::cursor::Stop;
use crate::kinds::{NameForm, PrefixForm, RecordKind, TextKind};
use crate::nodes::NodePlace;
use crate::parts::{NamedPart, ScalarPart, element_at, scalar_at};
use crate::records::{RecordPart, misplaced};
use crate::resume::Resume;
use crate::type_bytes::record_kind;

/// The kind of the record of MC-NBFX that the bytes begin, by its type byte; None where the first
/// byte begins no record, or is missing.
#[inline(always)]
pub fn kind_at(bytes: &[u8]) -> Option<RecordKind>
    ensures begins { IfSome result (BeginsKind bytes.now) }
    ensures none { IfNone result ((kind : RecordKind) → BeginsKind bytes.now kind → ⊥) }
{
    record_kind(*bytes.first()?)
}

/// Whether a record of this kind may stand at this place.
#[inline(always)]
pub fn may_stand(place: NodePlace, kind: RecordKind) -> bool
    ensures { result ≡ true ↔ MayStand place kind }
{
    misplaced(place, kind).is_none()
}

/// The parts of the record of MC-NBFX that begins an element, which stands at the front of the
/// bytes and whose prefix and name have these forms, and how many bytes it has. Its texts aren't
/// judged. It fails where the bytes end within it, with how many are wanted at least, or where it
/// is wrong, with the fault.
#[inline(always)]
pub fn element_parts(
    prefix: PrefixForm,
    name: NameForm,
    bytes: &[u8],
) -> Result<(NamedPart<'_>, usize), Stop>
    requires { BeginsKind bytes.now (RecordKind.Element prefix name) }
    ensures { (place : NodePlace) → MayStand place (RecordKind.Element prefix name)
        → Tells (λ part. record_seen (RecordPart.Element part)) (spec.shape_at place)
        (asked.shape_at place) bytes.now 0 result }
{
    element_at(prefix, name, bytes, 1)
}

/// The parts of the record of MC-NBFX that is an attribute with its value, which stands at the
/// front of the bytes and whose prefix and name have these forms, and how many bytes it has. Its
/// texts aren't judged. It fails where the bytes end within it, with how many are wanted at least,
/// or where it is wrong, with the fault.
#[inline(always)]
pub fn attribute_parts(
    prefix: PrefixForm,
    name: NameForm,
    bytes: &[u8],
) -> Result<(AttributePart<'_>, usize), Stop>
    requires { BeginsKind bytes.now (RecordKind.Attribute prefix name) }
    ensures tells { (place : NodePlace) → MayStand place (RecordKind.Attribute prefix name)
        → Tells (λ part. record_seen (RecordPart.Attribute part)) (spec.shape_at place)
        (asked.shape_at place) bytes.now 0 result }
    ensures sound { IfOk result (λ read. IsSoundAttribute read.0) }
{
    attribute_at(prefix, name, bytes, 1, &mut Resume::new())
}

/// The parts of the record of MC-NBFX that declares a namespace, which stands at the front of the
/// bytes and whose prefix and URI have these forms, and how many bytes it has. Its texts aren't
/// judged. It fails where the bytes end within it, with how many are wanted at least, or where it
/// is wrong, with the fault.
#[inline(always)]
pub fn declaration_parts(
    prefix: PrefixForm,
    uri: NameForm,
    bytes: &[u8],
) -> Result<(AttributePart<'_>, usize), Stop>
    requires { BeginsKind bytes.now (RecordKind.Declaration prefix uri) }
    ensures tells { (place : NodePlace) → MayStand place (RecordKind.Declaration prefix uri)
        → Tells (λ part. record_seen (RecordPart.Attribute part)) (spec.shape_at place)
        (asked.shape_at place) bytes.now 0 result }
    ensures sound { IfOk result (λ read. IsSoundAttribute read.0) }
{
    declaration_at(prefix, uri, bytes, 1)
}

/// The value of the text record of MC-NBFX at the front of the bytes, which is of this kind and no
/// list, and how many bytes the record has. The value isn't judged. It fails where the bytes end
/// within it, with how many are wanted at least, or where it is wrong, with the fault.
#[inline(always)]
pub fn scalar_parts(
    kind: TextKind,
    ends: bool,
    bytes: &[u8],
) -> Result<(ScalarPart<'_>, usize), Stop>
    requires begins { BeginsKind bytes.now (RecordKind.Text kind ends) }
    requires no_list { kind ≢ TextKind.StartList }
    ensures { (place : NodePlace) → MayStand place (RecordKind.Text kind ends)
        → Tells (λ part. record_seen (RecordPart.Text (ValuePart.One part) ends))
        (spec.shape_at place) (asked.shape_at place) bytes.now 0 result }
{
    scalar_at(kind, bytes, 1)
}
