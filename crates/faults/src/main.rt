//! Does once what asks for memory, and what asks for none, and then makes each part of a search
//! fail in turn, over a reader of single bytes: each read, with an error of each kind; each call of
//! the sink, with false; each call, with an error. It compares the calls that were made and how the
//! search ended with tables, and has the same searcher make the same search again after each case,
//! with nothing that fails. A sink also makes the search with a copy of the searcher at each match,
//! and each call of a writer of `lgrep` fails in turn. It writes a line for each step and for each
//! row and part, with how many cases agreed, and of a search one for each case that didn't. Then it
//! ends as `lgrep` does on arguments that are none, in 2.
//!
//! If standard input isn't empty, the program first makes as many requests for memory as there are
//! bytes, 4,096 at most, so that which request of the steps is refused can be chosen by the input
//! alone, and does no more than what asks for memory and what asks for none. It exits with 3 if a
//! step was refused and each step came to what it has to, and otherwise with 0.
#![tactic(auto)]

mod case;
mod copies;
mod hostile;
mod long;
mod readers;
mod refusals;
mod searches;
mod tally;
mod trial;
mod writers;

use grep_testing::ROWS;
use lgrep_cli::{Writing, run_arguments};
use std::alloc::Global;
use std::io;
use std::io::{BufWriter, Write};
use std::process::ExitCode;

fn main(rt: HostRuntime) -> io::Result<ExitCode> {
    let requests = refusals::make_requests(rt.alloc(), &mut rt.stdin());
    let status = refusals::try_steps(&rt);
    if requests > 0 {
        return Ok(status);
    }
    let mut output = BufWriter::new(rt.alloc(), rt.stdout())?;
    try_faults(rt.alloc(), &mut output)?;
    output.flush()?;
    end_in_usage(&rt)
}

// Makes each part fail.
fn try_faults<W: io::Write>(alloc: Global, output: &mut W) -> io::Result<()> {
    for row in ROWS {
        trial::try_all(alloc, row, output)?;
    }
    for row in ROWS {
        copies::try_copies(alloc, row, output)?;
    }
    hostile::try_hostile(alloc, output)?;
    long::try_long(alloc, output)?;
    writers::try_writers(alloc, output)
}

// Ends as `lgrep` does if its arguments are none.
fn end_in_usage(rt: &HostRuntime) -> io::Result<ExitCode> {
    let arguments = Ok(writers::arguments(rt.alloc(), &["--no-such-option", "a"])?);
    let mut input = b"".as_slice();
    let mut output = Writing::new(Vec::new(rt.alloc()));
    let mut messages = Writing::new(rt.stderr());
    Ok(run_arguments(
        rt,
        rt.alloc(),
        &arguments,
        &mut input,
        &mut output,
        &mut messages,
    ))
}
