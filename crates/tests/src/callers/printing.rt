//! A printer of lines that searches, and whose text is written at the end.
use grep_matcher::LiteralMatcher;
use grep_output::Writing;
use grep_printer::{Standard, StandardBuilder};
use grep_searcher::{SearchError, Searcher, SearcherBuilder};
use std::alloc::Global;

// The path of a search, what is searched, and whether there is an `o`.
const SEARCHES: &[(Option<&str>, &[u8], bool)] = &[
    (Some("a"), b"one\nx\ntwo", true),
    (Some("b"), b"x\n", false),
    (None, b"to\n", true),
];

// What is written of the searches.
const TEXT: &[u8] = b"a:1:one\na:3:two\n1:to\n";

// Searches some bytes for an `o` with a printer, and returns whether there is one.
fn search(
    searcher: &mut Searcher,
    printer: &mut Standard<'_>,
    path: Option<&str>,
    bytes: &[u8],
    writer: &mut Writing<Vec<u8>>,
) -> Result<bool, SearchError> {
    let mut input = bytes;
    let matcher = LiteralMatcher::borrowed(b"o");
    let searched = printer.search(searcher, &matcher, path, &mut input, writer);
    searched.result?;
    Ok(searched.has_match)
}

// Whether each search finds what it has to, and what is left of the text is written at the end.
fn search_all(
    searcher: &mut Searcher,
    printer: &mut Standard<'_>,
    writer: &mut Writing<Vec<u8>>,
) -> bool {
    for (path, bytes, found) in SEARCHES {
        match search(searcher, printer, *path, bytes, writer) {
            Ok(has_match) if has_match == *found => {}
            _ => return false,
        }
    }
    printer.write_pending(writer).is_ok()
}

// Whether they come to their text.
fn writes_text(alloc: Global) -> bool {
    let Ok(mut searcher) = SearcherBuilder::new().build(alloc) else {
        return false;
    };
    let mut printer = StandardBuilder::new().build(alloc);
    let mut writer = Writing::new(Vec::new(alloc));
    search_all(&mut searcher, &mut printer, &mut writer) && writer.into_inner().as_slice() == TEXT
}

#[test]
fn a_printer_searches_and_prints(rt: HostRuntime) {
    assert!(rt; writes_text(rt.alloc()));
}
