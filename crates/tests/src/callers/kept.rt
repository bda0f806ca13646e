//! The callers of `uses` that keep the last matches, the first line of a pattern, the lines between
//! two marks, the blocks of lines that match, and the lines that match with their first matches.
use grep_searcher::sinks::KeptMatch;
use grep_searcher::{LiteralMatcher, Match, SearchError, Searcher, SearcherBuilder};
use std::alloc::Global;
use uses::{
    blocks_that_match, first_in_each, first_pattern_line, last_matches, lines_between,
    matches_in_lines,
};

// Line 2, line 4 and line 5 have an `a`.
const INPUT: &[u8] = b"x\nab\ny\nba\nca";

// Whether these are the last two of them.
fn are_last(kept: &[KeptMatch]) -> bool {
    match kept {
        [fourth, fifth] => fourth.absolute_byte_offset() == 7 && fifth.line_number() == Some(5),
        _ => false,
    }
}

fn keeps_the_last(alloc: Global) -> Result<bool, SearchError> {
    let mut searcher = Searcher::new(alloc)?;
    let mut reader: &[u8] = INPUT;
    let letter = LiteralMatcher::borrowed(b"a");
    let kept = last_matches(alloc, &mut searcher, letter, &mut reader, 2)?;
    Ok(are_last(&kept))
}

#[test]
fn last_matches_are_kept(rt: HostRuntime) {
    assert!(rt; matches!(keeps_the_last(rt.alloc()), Ok(true)));
}

// Line 3 is the first that begins with a `b`.
const LONG: &[u8] = b"x\nab\nba\ny\ny\ny\ny\ny\ny\ny\n";

// Whether it is found, and not all of what comes after it is read.
fn finds_the_first(alloc: Global) -> Result<bool, SearchError> {
    let mut reader: &[u8] = LONG;
    let found = first_pattern_line(alloc, "^b", &mut reader, 4)?;
    Ok(is_line_3(&found) && !reader.is_empty())
}

fn is_line_3(found: &Option<KeptMatch>) -> bool {
    match found {
        Some(line) => line.line_number() == Some(3) && line.bytes() == b"ba\n".as_slice(),
        None => false,
    }
}

#[test]
fn first_lines_are_found(rt: HostRuntime) {
    assert!(rt; matches!(finds_the_first(rt.alloc()), Ok(true)));
}

// Two whole blocks, between which a line and a mark are left out, and one without an end.
const BLOCKS: &[u8] = b"a\n[\nb\n[\nc\n]\nd\n]\n[\ne\n]\n[\nf";

fn keeps_blocks(alloc: Global) -> Result<bool, SearchError> {
    let text = lines_between(alloc, BLOCKS, b"[", b"]")?;
    Ok(text.as_slice() == b"b\nc\ne\nf".as_slice())
}

#[test]
fn blocks_are_kept(rt: HostRuntime) {
    assert!(rt; matches!(keeps_blocks(rt.alloc()), Ok(true)));
}

// Lines 1 and 2 are a block, and so are lines 4 to 6, in which two matches share a line.
const SPREAD: &[u8] = b"xb\nay\nz\nb\nab\na\n";

fn are_blocks(blocks: &[KeptMatch]) -> bool {
    match blocks {
        [first, second] => {
            first.bytes() == b"xb\nay\n".as_slice()
                && second.line_number() == Some(4)
                && second.bytes() == b"b\nab\na\n".as_slice()
        }
        _ => false,
    }
}

fn keeps_blocks_across(alloc: Global) -> Result<bool, SearchError> {
    let mut searcher = SearcherBuilder::new().multi_line(true).build(alloc)?;
    let matcher = LiteralMatcher::borrowed(b"b\na");
    let blocks = blocks_that_match(alloc, &mut searcher, matcher, SPREAD)?;
    Ok(are_blocks(&blocks))
}

#[test]
fn blocks_across_lines_are_kept(rt: HostRuntime) {
    assert!(rt; matches!(keeps_blocks_across(rt.alloc()), Ok(true)));
}

// Whether these are `ab`, with a match at its end, and `ba`, with one at its start.
fn are_found(lines: &[Vec<u8>], firsts: &[Match]) -> bool {
    match (lines, firsts) {
        ([second, fourth], [at_end, at_start]) => {
            second.as_slice() == b"ab\n".as_slice()
                && at_end.start() == 1
                && fourth.as_slice() == b"ba\n".as_slice()
                && at_start.end() == 1
        }
        _ => false,
    }
}

fn finds_in_lines(alloc: Global) -> Result<bool, SearchError> {
    let (lines, firsts) = matches_in_lines(alloc, &LiteralMatcher::borrowed(b"b"), INPUT)?;
    Ok(are_found(&lines, &firsts))
}

fn finds_in_each(alloc: Global) -> Result<bool, SearchError> {
    let mut searcher = Searcher::new(alloc)?;
    let letter = LiteralMatcher::borrowed(b"b");
    let firsts = first_in_each(alloc, &mut searcher, &letter, INPUT)?;
    Ok(are_firsts(&firsts))
}

// Whether the first is at the end of `ab`, and the second at the start of `ba`.
fn are_firsts(firsts: &[Match]) -> bool {
    match firsts {
        [at_end, at_start] => at_end.end() == 2 && at_start.end() == 1,
        _ => false,
    }
}

#[test]
fn first_matches_in_reports_are_found(rt: HostRuntime) {
    assert!(rt; matches!(finds_in_each(rt.alloc()), Ok(true)));
}

#[test]
fn first_matches_are_found(rt: HostRuntime) {
    assert!(rt; matches!(finds_in_lines(rt.alloc()), Ok(true)));
}
