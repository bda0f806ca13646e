//! Reads cases of searches from standard input, one a line, and writes what each search comes to:
//! its calls, one line a case, the text of a printer or of `lgrep`, or what the matchers of a
//! regular expression answer. A line that is empty or begins with `#` is skipped.
#![tactic(auto)]

mod asked;
mod case;
mod command;
mod failing;
mod printing;
mod row;
mod run;
mod texts;
mod words;

use crate::words::Words;
use std::io::{BufWriter, Read, Write};
use std::{io, str};

fn main(rt: HostRuntime) -> io::Result<()> {
    let mut input = Vec::new(rt.alloc());
    rt.stdin().read_to_end(&mut input)?;
    let mut output = BufWriter::new(rt.alloc(), rt.stdout())?;
    for line in input.as_slice().split(|byte| *byte == b'\n') {
        run_line(&rt, line, &mut output)?;
    }
    output.flush()
}

// Runs what a line says.
fn run_line<W: Write>(rt: &HostRuntime, line: &[u8], output: &mut W) -> io::Result<()> {
    match line.first() {
        None | Some(b'#') => Ok(()),
        Some(b'-' | b'?' | b'$') => run_row(rt, line, output),
        Some(_) => run::replay(rt.alloc(), line, output),
    }
}

// Writes a row and what it comes to.
fn run_row<W: Write>(rt: &HostRuntime, row: &[u8], output: &mut W) -> io::Result<()> {
    let Ok(row) = str::from_utf8(row) else {
        return writeln!(output, "err case");
    };
    writeln!(output, "== {row}")?;
    if row.starts_with('-') {
        return printing::print(rt.alloc(), row, output);
    }
    let words = Words::read(rt.alloc(), row)?;
    match words.mark.strip_prefix('?') {
        Some(letters) => asked::write_answers(rt.alloc(), letters, &words, output),
        None => command::write_command(rt, words.mark, &words, output),
    }
}
