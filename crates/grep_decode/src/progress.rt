//! How far a decoder came.

/// How far a decoder came: how many bytes it took from its input, and how many it wrote to its
/// output.
#[derive(Clone, Copy)]
pub(crate) struct Progress {
    pub(crate) taken: usize,
    pub(crate) written: usize,
}
