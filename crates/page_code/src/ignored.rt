//! Says which of some paths the lines of an ignore file leave out.
#![tactic(auto)]

use grep_ignore::{Decision, Rules};
use std::io;

fn main(rt: HostRuntime) -> io::Result<()> {
    let mut rules = Rules::new(rt.alloc());
    let mut misread = Vec::new(rt.alloc());
    rules.add_lines(rt.alloc(), b"*.o\n!keep.o\n", false, &mut misread)?;
    let mut row = Vec::new(rt.alloc());
    for path in ["src/a.o", "src/keep.o", "src/a.c"] {
        match rules.decision(&mut row, path.as_bytes(), false)? {
            Decision::Ignored => println!(rt; "{path} is left out")?,
            _ => println!(rt; "{path} stays")?,
        }
    }
    Ok(())
}
