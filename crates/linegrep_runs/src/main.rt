//! Reads command lines of linegrep from standard input, one a line, runs each over the files here,
//! and writes what each run comes to. A line that is empty or begins with `#` is skipped.
#![tactic(auto)]

mod report;
mod row;
mod streams;
mod system;

use crate::report::report;
use crate::row::Row;
use std::io;
use std::io::{BufWriter, Read, Write};

fn main(rt: HostRuntime) -> io::Result<()> {
    let mut rows = String::new(rt.alloc());
    rt.stdin().read_to_string(&mut rows)?;
    let mut writer = BufWriter::new(rt.alloc(), rt.stdout())?;
    for line in rows.as_str().lines() {
        if !line.is_empty() && !line.starts_with('#') {
            rerun(&rt, line, &mut writer)?;
        }
    }
    writer.flush()
}

// Runs the command line of a row, and writes what it comes to.
fn rerun<W: Write>(rt: &HostRuntime, line: &str, writer: &mut W) -> io::Result<()> {
    let mut row = Row::read(rt, line)?;
    let status = row.run(rt);
    report(writer, line, row.output(), row.errors(), status)
}
