//! What an engine is asked.

// What is asked: the first match, or only whether there is one or where it starts,
// which may be known sooner.
#[derive(Clone, Copy)]
pub(crate) enum Asked {
    FirstMatch,
    AnyMatch,
    Start,
}
