//! Long inputs.
use crate::readers::Repeated;
use crate::searches::search_reader;
use crate::tally::{Tally, Totals};
use grep_matcher::LiteralMatcher;
use grep_searcher::{SearchError, Searcher, SearcherBuilder};
use std::alloc::Global;
use std::io;

// A search for `z` of a long input, and what it comes to: its totals, or none for the heap limit's
// error.
struct Long {
    name: &'static str,
    reader: (&'static [u8], u64, &'static [u8]),
    heap_limit: Option<usize>,
    totals: Option<Totals>,
}

// 16 lines.
const LINES: &[u8] =
    b"abc\nabc\nabc\nabc\nabc\nabc\nabc\nabc\nabc\nabc\nabc\nabc\nabc\nabc\nabc\nabc\n";

const BYTES: &[u8] = &[b'z'; 1000];

const LONG_ROWS: &[Long] = &[
    Long {
        name: "2^26 lines, and then one that matches",
        reader: (LINES, 4_194_304, b"z\n"),
        heap_limit: Some(64),
        totals: Some((1, 67_108_865, 268_435_456, 2, 268_435_458)),
    },
    Long {
        name: "a terminated line of a million bytes that fits",
        reader: (BYTES, 1000, b"\n"),
        heap_limit: Some(1_000_001),
        totals: Some((1, 1, 0, 1_000_001, 1_000_001)),
    },
    Long {
        name: "one that doesn't",
        reader: (BYTES, 1000, b"\n"),
        heap_limit: Some(1_000_000),
        totals: None,
    },
    Long {
        name: "an unterminated line of a million bytes that fits",
        reader: (BYTES, 1000, b""),
        heap_limit: Some(1_000_001),
        totals: Some((1, 1, 0, 1_000_000, 1_000_000)),
    },
    Long {
        name: "one that doesn't",
        reader: (BYTES, 1000, b""),
        heap_limit: Some(1_000_000),
        totals: None,
    },
    Long {
        name: "a line of over 3 MiB, without a limit",
        reader: (BYTES, 3146, b"\n"),
        heap_limit: None,
        totals: Some((1, 1, 0, 3_146_001, 3_146_001)),
    },
];

/// Searches the long inputs, and writes which searches agree.
pub(crate) fn try_long<W: io::Write>(alloc: Global, output: &mut W) -> io::Result<()> {
    for row in LONG_ROWS {
        let agrees = is_long(alloc, row);
        writeln!(output, "{}: {agrees}", row.name)?;
    }
    Ok(())
}

// Whether a search of a long input comes to what it has to.
fn is_long(alloc: Global, row: &Long) -> bool {
    let mut builder = SearcherBuilder::new();
    builder.heap_limit(row.heap_limit);
    match builder.build(alloc) {
        Ok(mut searcher) => comes_to(&mut searcher, row),
        Err(_) => false,
    }
}

fn comes_to(searcher: &mut Searcher, row: &Long) -> bool {
    let mut tally = Tally::new(u64::MAX);
    let mut reader = Repeated::new(row.reader.0, row.reader.1, row.reader.2);
    let matcher = LiteralMatcher::borrowed(b"z");
    match search_reader(searcher, matcher, &mut reader, &mut tally) {
        Ok(()) => matches!(row.totals, Some(totals) if tally.has(totals)),
        Err(SearchError::Io(error)) => {
            row.totals.is_none()
                && error.kind() == io::ErrorKind::Other
                && tally.has((0, 0, 0, 0, 0))
        }
        Err(_) => false,
    }
}
