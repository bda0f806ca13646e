//! What came of a step.
use grep_searcher::SearchError;
use std::io;

/// What came of a step.
#[derive(Clone, Copy)]
pub(crate) enum Outcome {
    /// It succeeded.
    Done,
    /// It failed as it has to without memory.
    Refused,
    /// Anything else.
    Wrong,
}

impl Outcome {
    /// The outcome of a search that has made these calls, by those that it makes if it succeeds.
    pub(crate) fn of_search(
        ended: Result<(), SearchError>,
        calls: &str,
        expected: &str,
    ) -> Outcome {
        match ended {
            Ok(()) if calls == expected => Outcome::Done,
            Err(error) if is_refusal(&error) && expected.starts_with(calls) => Outcome::Refused,
            _ => Outcome::Wrong,
        }
    }

    /// The outcome of what isn't refused.
    pub(crate) fn of_done(is_done: bool) -> Outcome {
        if is_done {
            Outcome::Done
        } else {
            Outcome::Wrong
        }
    }

    /// What it is called.
    pub(crate) fn text(self) -> &'static str {
        match self {
            Outcome::Done => "done",
            Outcome::Refused => "refused",
            Outcome::Wrong => "wrong",
        }
    }
}

/// Whether a search failed since there was no memory.
pub(crate) fn is_refusal(error: &SearchError) -> bool {
    match error {
        SearchError::Io(error) => error.kind() == io::ErrorKind::OutOfMemory,
        _ => false,
    }
}
