//! Uses of macros' bodies.
use ale_macro::Template;

/// One use of a macro's body: the number of the path of calls that leads to it, its arguments, and the number of the frame in
/// which these are written.
#[derive(Clone, Copy)]
pub struct Frame<'a> {
    pub path: usize,
    pub args: &'a [Template],
    pub outer: usize,
}
