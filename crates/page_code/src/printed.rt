//! Prints the lines of a file that match a pattern, with their numbers.
#![tactic(auto)]

use grep_regex::Regex;
use grep_searcher::{SearchError, SearcherBuilder, sinks};

fn main(rt: HostRuntime) -> Result<(), SearchError> {
    let mut searcher = SearcherBuilder::new().build(rt.alloc())?;
    let regex = Regex::for_lines(rt.alloc(), "ne+dle")?;
    let matcher = regex.matcher(rt.alloc())?;
    let mut sink = sinks::UTF8(|number, text: &str| {
        println!(rt; "{number}: {}", text.trim_end())?;
        Ok(true)
    });
    searcher.search_path(&rt, &matcher, "notes.txt", &mut sink)?;
    Ok(())
}
