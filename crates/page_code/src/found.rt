//! Writes where the first match of a literal begins and ends.
#![tactic(auto)]

use grep_matcher::{LiteralMatcher, Matcher};
use std::io;

fn main(rt: HostRuntime) -> io::Result<()> {
    let matcher = LiteralMatcher::new(rt.alloc(), b"needle")?;
    if let Some(found) = matcher.find(b"a needle in hay")? {
        println!(rt; "{} {}", found.start(), found.end())?;
    }
    Ok(())
}
