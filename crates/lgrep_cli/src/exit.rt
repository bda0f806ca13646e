//! The status that a program exits with.
ghost use Rattle.std.specs.Prelude.{◌≡◌};
ghost use Rattle.lgrep_cli.specs.ProgramRuns.{status_of};

use grep_searcher::SearchError;

/// The exit status of a run: 0 if it reported a match, 1 if it reported none, 2 if it failed.
pub fn status(outcome: &Result<bool, SearchError>) -> u8
    ensures { result ≡ status_of outcome.now }
{
    match outcome {
        Ok(true) => 0,
        Ok(false) => 1,
        Err(_) => 2,
    }
}
