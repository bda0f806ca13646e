//! What came of what a run has visited.
ghost use Rattle.std.specs.Prelude.{◌≡◌, ◌||◌, true};
ghost use Rattle.linegrep_cli.specs.OperandRuns.{no_visit, visited_then};

use std::io;

/// What came of what was visited.
#[derive(Drop)]
pub struct Visit {
    /// Whether a file or the input was searched.
    pub has_searched: bool,
    /// Whether what is looked for was found.
    pub has_match: bool,
    /// Whether something couldn't be read.
    pub has_error: bool,
    /// Why the run ends early, if it does: the writer's error, or one of being out of memory.
    pub failure: Option<io::Error>,
}

impl Visit {
    /// Nothing was visited.
    pub fn none() -> Visit
        ensures { result ≡ no_visit }
    {
        Visit {
            has_searched: false,
            has_match: false,
            has_error: false,
            failure: None,
        }
    }

    /// Nothing was searched, and the run may end.
    pub fn failed(failure: Option<io::Error>) -> Visit
        ensures { result ≡ record no_visit { failure = failure } }
    {
        Visit {
            has_searched: false,
            has_match: false,
            has_error: false,
            failure,
        }
    }

    /// Something couldn't be read, and the run may end.
    pub fn unread(failure: Option<io::Error>) -> Visit
        ensures { result ≡ record no_visit { has_error = true; failure = failure } }
    {
        Visit {
            has_searched: false,
            has_match: false,
            has_error: true,
            failure,
        }
    }

    /// Adds whether something couldn't be read before.
    pub fn add_error(&mut self, has_error: bool)
        ensures { self.new
            ≡ record self.old { has_error = self.old.has_error || has_error } }
    {
        self.has_error = self.has_error || has_error;
    }

    /// Adds what was visited next.
    pub fn add(&mut self, next: Visit)
        ensures { self.new ≡ visited_then self.old next }
    {
        let Visit {
            has_searched,
            has_match,
            has_error,
            failure,
        } = next;
        self.has_searched = self.has_searched || has_searched;
        self.has_match = self.has_match || has_match;
        self.has_error = self.has_error || has_error;
        self.failure = failure;
    }
}
