//! What is written to standard error.
ghost use Rattle.lgrep_cli.specs.Messages.{WritesFailure, WritesMessage};

use grep_output::{Output, write_all};
use grep_searcher::SearchError;

/// The line on standard error after any error but one of usage.
pub const FAILED: &str = "lgrep: search failed\n";

// Writes a line. If the output fails, there is nobody to say it to.
pub(crate) fn write_message<E: Output>(messages: &mut E, line: &str)
    ensures { WritesMessage E.step line.now messages.old messages.new }
{
    let _ = write_all(messages, line.as_bytes());
}

// Writes that a run failed, if it did.
pub(crate) fn write_failure<E: Output>(messages: &mut E, outcome: &Result<bool, SearchError>)
    ensures { WritesFailure E.step outcome.now messages.old messages.new }
{
    if outcome.is_err() {
        write_message(messages, FAILED);
    }
}
