//! Writes the lines of a file that have a word, with the line before and the line after each.
#![tactic(auto)]

use grep_output::Writing;
use grep_printer::{ColorSpecs, StandardBuilder};
use grep_searcher::{LiteralMatcher, Open, Reading, SearchError, SearcherBuilder};

fn main(rt: HostRuntime) -> Result<(), SearchError> {
    let mut searcher = SearcherBuilder::new()
        .before_context(1)
        .after_context(1)
        .build(rt.alloc())?;
    let matcher = LiteralMatcher::borrowed(b"needle");
    let mut builder = StandardBuilder::new();
    builder.color_specs(ColorSpecs::Plain);
    let mut printer = builder.build(rt.alloc());
    let mut writer = Writing::new(rt.stdout());
    let mut file = Reading::new(rt.open("notes.txt")?);
    let searched = printer.search(
        &mut searcher,
        &matcher,
        Some("notes.txt"),
        &mut file,
        &mut writer,
    );
    searched.result?;
    printer.flush(&mut writer)?;
    Ok(())
}
