// What is read, unless the line that has it is refused for it.
ghost use Rattle.std.specs.Prelude.{◌≡◌};
ghost use Rattle.line_notation.specs.Parts as spec;

use crate::reader::LineKind;

/// What a line says, or why the line is refused for it.
pub type Judged<T> = Result<T, LineKind>;

/// Of two reasons to refuse a line, the one that is reported: a text that isn't UTF-8.
pub fn first_of(kind: LineKind, other: LineKind) -> LineKind
    ensures { result ≡ spec.first_of kind other }
{
    if other == LineKind::BadText {
        other
    } else {
        kind
    }
}

/// Both, or why the line is refused for one of them.
#[inline(always)]
pub fn both<A: Drop, B: Drop>(first: Judged<A>, second: Judged<B>) -> Judged<(A, B)>
    ensures { result ≡ spec.both first second }
{
    match (first, second) {
        (Ok(first), Ok(second)) => Ok((first, second)),
        (Err(kind), Ok(_)) | (Ok(_), Err(kind)) => Err(kind),
        (Err(kind), Err(other)) => Err(first_of(kind, other)),
    }
}
