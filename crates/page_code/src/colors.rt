//! Lines that match in memory, in colors of one's own.
use grep_output::Writing;
use grep_printer::{ColorSpecs, ColorTexts, StandardBuilder};
use grep_searcher::{LiteralMatcher, SearchError, Searcher};
use std::alloc::{AllocError, Global};

/// Paths in cyan, and what matches bold and yellow.
fn own_colors(alloc: Global) -> Result<ColorTexts, AllocError> {
    Ok(ColorTexts {
        path: String::from_str(alloc, "\x1b[36m")?,
        line: String::new(alloc),
        column: String::new(alloc),
        matched: Some(String::from_str(alloc, "\x1b[1;33m")?),
        highlight: None,
    })
}

/// The lines of some bytes that match, in these colors.
fn colored_lines(
    alloc: Global,
    searcher: &mut Searcher,
    matcher: &LiteralMatcher<'_>,
    colors: &ColorTexts,
    bytes: &[u8],
) -> Result<Vec<u8>, SearchError> {
    let mut builder = StandardBuilder::new();
    builder.color_specs(ColorSpecs::Chosen(colors));
    let mut printer = builder.build(alloc);
    let mut writer = Writing::new(Vec::new(alloc));
    let mut input = bytes;
    let searched = printer.search(
        searcher,
        matcher,
        Some("notes.txt"),
        &mut input,
        &mut writer,
    );
    searched.result?;
    printer.flush(&mut writer)?;
    Ok(writer.into_inner())
}
