// The declarations of one element.

// What an element declares a prefix to stand for.
#[derive(Clone, Copy)]
pub(crate) struct Declared<'d> {
    pub(crate) prefix: &'d str,
    pub(crate) uri: &'d str,
}
