//! Counts the lines of a file that have a word.
#![tactic(auto)]

use grep_searcher::sinks::Count;
use grep_searcher::{LiteralMatcher, SearchError, SearcherBuilder};

fn main(rt: HostRuntime) -> Result<(), SearchError> {
    let mut searcher = SearcherBuilder::new().build(rt.alloc())?;
    let matcher = LiteralMatcher::new(rt.alloc(), b"needle")?;
    let mut matches: Count<SearchError> = Count::new();
    searcher.search_path(&rt, &matcher, "notes.txt", &mut matches)?;
    rt.println(matches.count())?;
    Ok(())
}
