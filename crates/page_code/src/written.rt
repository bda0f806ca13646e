//! Writes a text into memory.
#![tactic(auto)]

use grep_output::{Output, Writing, write_all};
use std::io;

fn main(rt: HostRuntime) -> io::Result<()> {
    let mut output = Writing::new(Vec::new(rt.alloc()));
    write_all(&mut output, b"one line\n")?;
    output.flush()?;
    let written: Vec<u8> = output.into_inner();
    rt.println(written.len())
}
