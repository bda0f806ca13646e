//! The program, by its arguments.
ghost use Rattle.std.specs.Prelude.{◌≡◌};
ghost use Rattle.std.specs.Process.{exit_status};
ghost use Rattle.lgrep_cli.specs.Messages.{WritesMessage};
ghost use Rattle.lgrep_cli.specs.ProgramRuns.{IsRunByArguments};

use crate::exit::status;
use crate::messages::{FAILED, write_failure, write_message};
use crate::options::{Options, OptionsFault, USAGE};
use crate::search::run_options;
use grep_output::Output;
use grep_searcher::{Open, Reading, Source};
use std::alloc::Global;
use std::io;
use std::process::ExitCode;

/// Does what the arguments ask for, which are without the program's name: searches the file at
/// their path or, if there is none, what `input` gives, and writes the text of what is found.
///
/// The status is 0 if a match was reported, 1 if none was, and 2 if anything failed. Then a line is
/// written to `messages`: `USAGE` after a usage error, and `FAILED` if the arguments can't be read,
/// if there is no memory, or if the search fails. What `messages` returns changes nothing, and it
/// isn't flushed.
pub fn run_arguments<T: Open, R: Source, W: Output, E: Output>(
    rt: &T,
    alloc: Global,
    arguments: &io::Result<Vec<String>>,
    input: &mut R,
    writer: &mut W,
    messages: &mut E,
) -> ExitCode
    ensures { IsRunByArguments (T.opens rt.now)
        ⟦<Reading<T::File> as Source>⟧.remaining ⟦<Reading<T::File> as Source>⟧.step
        R.remaining R.step W.step W.contents E.step arguments.now input.old writer.old
        messages.old (exit_status result) input.new writer.new messages.new }
{
    let Ok(arguments) = arguments else {
        return stop(messages, FAILED);
    };
    let options = match Options::parse(alloc, arguments) {
        Ok(options) => options,
        Err(OptionsFault::Usage) => return stop(messages, USAGE),
        Err(OptionsFault::Memory) => return stop(messages, FAILED),
    };
    let outcome = run_options(rt, alloc, &options, input, writer);
    write_failure(messages, &outcome);
    ExitCode::from(status(&outcome))
}

// Exits with 2, after a line on standard error.
fn stop<E: Output>(messages: &mut E, line: &str) -> ExitCode
    ensures status { exit_status result ≡ 2 }
    ensures message { WritesMessage E.step line.now messages.old messages.new }
{
    write_message(messages, line);
    ExitCode::from(2)
}
