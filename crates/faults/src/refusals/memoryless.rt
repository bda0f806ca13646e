//! What takes no memory.
use crate::searches::{reader_agrees, slice_agrees};
use grep_matcher::{LiteralMatcher, Matcher};
use grep_searcher::{
    BinaryDetection, ConfigError, Encoding, LineIter, LineStep, LineTerminator, MmapChoice,
    Searcher, SearcherBuilder,
};
use grep_testing::{BREAK, Row};
use std::alloc::Global;

/// What takes no memory once its searcher is built.
#[derive(Clone, Copy)]
pub(crate) enum Search {
    /// A search of a slice.
    Slice(&'static Row),
    /// The search of `BREAK` over a reader, with a heap limit.
    Reader(usize),
    /// Queries, and the setter of a searcher.
    Queries,
}

impl Search {
    /// The searcher.
    pub(crate) fn build(self, alloc: Global) -> Result<Searcher, ConfigError> {
        match self {
            Search::Slice(row) => row.settings.build(alloc),
            Search::Reader(limit) => SearcherBuilder::new()
                .after_context(1)
                .heap_limit(Some(limit))
                .build(alloc),
            Search::Queries => Searcher::new(alloc),
        }
    }

    /// Whether the searcher does as it has to.
    pub(crate) fn is_done(self, searcher: &mut Searcher) -> bool {
        match self {
            Search::Slice(row) => slice_agrees(searcher, row),
            Search::Reader(_) => reader_agrees(searcher, &BREAK),
            Search::Queries => has_settings(searcher),
        }
    }
}

// Asks for each setting, and sets the one that can be set.
fn has_settings(searcher: &mut Searcher) -> bool {
    searcher.set_binary_detection(BinaryDetection::Quit(0));
    let detects = *searcher.binary_detection() == BinaryDetection::Quit(0);
    let flags = searcher.invert_match()
        || searcher.multi_line()
        || searcher.multi_line_with_matcher(LiteralMatcher::borrowed(b"a"))
        || searcher.passthru()
        || searcher.stop_on_nonmatch();
    let lines = searcher.after_context().max(searcher.before_context());
    let limits = searcher.heap_limit().is_some() || searcher.max_matches().is_some();
    let (_, _) = (searcher.line_terminator(), searcher.memory_map());
    detects && searcher.line_number() && !flags && !limits && lines == 0
}

/// What takes no memory, and needs no searcher.
#[derive(Clone, Copy)]
pub(crate) enum Plain {
    /// A `LineStep` and a `LineIter`.
    Lines,
    /// A builder and its setters.
    Setters,
    /// An `Encoding` of a known label.
    Label,
    /// A literal that is borrowed.
    Literal,
}

impl Plain {
    /// Whether it does as it has to.
    pub(crate) fn is_done(self, alloc: Global) -> bool {
        match self {
            Plain::Lines => has_lines(b"a\nb"),
            Plain::Setters => sets(),
            Plain::Label => Encoding::new(alloc, "utf-16le").is_ok(),
            Plain::Literal => matches!(LiteralMatcher::borrowed(b"a").is_match(b"ba"), Ok(true)),
        }
    }
}

// Whether these are two lines.
fn has_lines(bytes: &[u8]) -> bool {
    let mut step = LineStep::new(b'\n', 0, bytes.len());
    let first = step.next(bytes) == Some((0, 2));
    let second = step.next(bytes) == Some((2, 3)) && step.next(bytes).is_none();
    let mut lines = 0u64;
    for _ in LineIter::new(b'\n', bytes) {
        lines = lines.saturating_add(1);
    }
    first && second && lines == 2
}

fn sets() -> bool {
    let mut builder = SearcherBuilder::new();
    builder
        .invert_match(true)
        .line_number(false)
        .multi_line(true);
    builder.after_context(1).before_context(1).passthru(true);
    builder
        .heap_limit(Some(1))
        .max_matches(Some(1))
        .stop_on_nonmatch(true);
    builder
        .encoding(None)
        .bom_sniffing(false)
        .binary_detection(BinaryDetection::Quit(0));
    builder
        .line_terminator(LineTerminator::Byte(0))
        .memory_map(MmapChoice::never());
    true
}
