//! The callers of `uses` that measure what matches: the longest line, the first lines with how many
//! bytes they take, the gaps between what is reported, how many lines begin with each byte, which
//! lines match, where they are, whether all of them match, how many come before the first that
//! matches, what is reported of them after a label, and where two inputs first differ.
use grep_searcher::sinks::KeptMatch;
use grep_searcher::{LiteralMatcher, SearchError, Searcher, SearcherBuilder};
use std::alloc::Global;
use uses::{
    count_first_bytes, count_gaps, every_line_matches, first_difference, flag_lines,
    labelled_lines, lines_before_match, longest_line, matching_spans, take_lines,
};

// Line 1, line 3, line 4 and line 8 have an `a`. Lines 3 and 4 are the longest of them.
const INPUT: &[u8] = b"a\nlong\nabc\ncab\ny\ny\ny\na";

fn letter() -> LiteralMatcher<'static> {
    LiteralMatcher::borrowed(b"a")
}

fn is_line_3(found: &Option<KeptMatch>) -> bool {
    match found {
        Some(line) => line.line_number() == Some(3) && line.bytes() == b"abc\n".as_slice(),
        None => false,
    }
}

fn finds_the_longest(alloc: Global) -> Result<bool, SearchError> {
    let mut searcher = Searcher::new(alloc)?;
    let found = longest_line(alloc, &mut searcher, letter(), INPUT)?;
    Ok(is_line_3(&found))
}

#[test]
fn longest_lines_are_found(rt: HostRuntime) {
    assert!(rt; matches!(finds_the_longest(rt.alloc()), Ok(true)));
}

// Whether this many lines are taken, and bytes.
fn takes(alloc: Global, limit: u64, lines: usize, bytes: u64) -> Result<bool, SearchError> {
    let (taken, end) = take_lines(alloc, letter(), INPUT, limit)?;
    Ok(taken.len() == lines && end == bytes)
}

#[test]
fn first_lines_are_taken(rt: HostRuntime) {
    assert!(rt; matches!(takes(rt.alloc(), 2, 2, 11), Ok(true)));
}

#[test]
fn few_lines_are_taken(rt: HostRuntime) {
    assert!(rt; matches!(takes(rt.alloc(), 9, 4, 22), Ok(true)));
}

// The lines after line 4 are left out, up to the one before line 8.
fn counts_one_gap(alloc: Global) -> Result<bool, SearchError> {
    let mut searcher = SearcherBuilder::new().before_context(1).build(alloc)?;
    Ok(count_gaps(&mut searcher, letter(), INPUT)? == 1)
}

#[test]
fn gaps_are_counted(rt: HostRuntime) {
    assert!(rt; matches!(counts_one_gap(rt.alloc()), Ok(true)));
}

// Across lines: lines 1 and 2 are one report, and so are lines 5 and 6. Line 3 is left out.
fn counts_gap_across(alloc: Global) -> Result<bool, SearchError> {
    let mut searcher = SearcherBuilder::new()
        .multi_line(true)
        .before_context(1)
        .build(alloc)?;
    let matcher = LiteralMatcher::borrowed(b"a\nb");
    Ok(count_gaps(&mut searcher, matcher, b"a\nb\nx\nx\na\nb\n")? == 1)
}

#[test]
fn gaps_across_lines_are_counted(rt: HostRuntime) {
    assert!(rt; matches!(counts_gap_across(rt.alloc()), Ok(true)));
}

// Three lines that match begin with an `a`, and one with a `c`.
fn counts_bytes(alloc: Global) -> Result<bool, SearchError> {
    let mut searcher = Searcher::new(alloc)?;
    let counts = count_first_bytes(&mut searcher, letter(), INPUT)?;
    Ok(counts[97] == 3 && counts[99] == 1 && counts[121] == 0)
}

#[test]
fn first_bytes_are_counted(rt: HostRuntime) {
    assert!(rt; matches!(counts_bytes(rt.alloc()), Ok(true)));
}

// A flag for each of the eight lines.
fn flags_lines(alloc: Global) -> Result<bool, SearchError> {
    let mut searcher = SearcherBuilder::new().passthru(true).build(alloc)?;
    let flags = flag_lines(alloc, &mut searcher, letter(), INPUT)?;
    Ok(flags.as_slice() == [true, false, true, true, false, false, false, true].as_slice())
}

#[test]
fn lines_are_flagged(rt: HostRuntime) {
    assert!(rt; matches!(flags_lines(rt.alloc()), Ok(true)));
}

// The offset and the length of each line that matches. The last one has no terminator.
fn spans_lines(alloc: Global) -> Result<bool, SearchError> {
    let mut searcher = Searcher::new(alloc)?;
    let spans = matching_spans(alloc, &mut searcher, letter(), INPUT)?;
    Ok(spans.as_slice() == [(0, 2), (7, 4), (11, 4), (21, 1)].as_slice())
}

#[test]
fn lines_are_spanned(rt: HostRuntime) {
    assert!(rt; matches!(spans_lines(rt.alloc()), Ok(true)));
}

#[test]
fn every_line_is_matched(rt: HostRuntime) {
    assert!(rt;
        matches!(
            every_line_matches(rt.alloc(), letter(), b"a\nab\nba"),
            Ok(true)
        )
    );
}

#[test]
fn a_line_is_not_matched(rt: HostRuntime) {
    assert!(rt; matches!(every_line_matches(rt.alloc(), letter(), INPUT), Ok(false)));
}

// Lines 2 and 5 are in the context after a match. Lines 6 and 7 are left out.
fn labels_lines(alloc: Global) -> Result<bool, SearchError> {
    let mut searcher = SearcherBuilder::new().after_context(1).build(alloc)?;
    let text = labelled_lines(alloc, &mut searcher, letter(), b"log", INPUT)?;
    let labelled = b"log:a\nlog-long\nlog:abc\nlog:cab\nlog-y\n--\nlog:a";
    Ok(text.as_slice() == labelled.as_slice())
}

#[test]
fn lines_are_labelled(rt: HostRuntime) {
    assert!(rt; matches!(labels_lines(rt.alloc()), Ok(true)));
}

// Where the lines that match of the input and of another first differ.
fn differs_at(alloc: Global, other: &[u8], index: Option<usize>) -> Result<bool, SearchError> {
    Ok(first_difference(alloc, &letter(), INPUT, other)? == index)
}

#[test]
fn first_differences_are_found(rt: HostRuntime) {
    assert!(rt; matches!(differs_at(rt.alloc(), b"a\nx\nab\n", Some(1)), Ok(true)));
}

#[test]
fn no_difference_is_found(rt: HostRuntime) {
    assert!(rt; matches!(differs_at(rt.alloc(), b"a\nabc\ncab\nx\na", None), Ok(true)));
}

#[test]
fn missing_lines_differ(rt: HostRuntime) {
    assert!(rt; matches!(differs_at(rt.alloc(), b"a\nabc\n", Some(2)), Ok(true)));
}

// Whether this many lines come before the first with a literal.
fn counts_before(alloc: Global, literal: &[u8], before: Option<u64>) -> Result<bool, SearchError> {
    let mut searcher = Searcher::new(alloc)?;
    let mut reader: &[u8] = INPUT;
    let matcher = LiteralMatcher::borrowed(literal);
    Ok(lines_before_match(alloc, &mut searcher, matcher, &mut reader)? == before)
}

#[test]
fn lines_before_are_counted(rt: HostRuntime) {
    assert!(rt; matches!(counts_before(rt.alloc(), b"o", Some(1)), Ok(true)));
}

#[test]
fn no_line_is_found(rt: HostRuntime) {
    assert!(rt; matches!(counts_before(rt.alloc(), b"z", None), Ok(true)));
}
