//! Each caller of `uses`, run once on its happy path.
use crate::paths::temporary_path;
use grep_searcher::sinks::{KeptLines, KeptMatch, ReportKind};
use grep_searcher::{LiteralMatcher, SearchError, Searcher, SinkContextKind};
use grep_testing::Counting;
use std::alloc::Global;
use std::fs;
use std::path::Path;
use uses::{
    NonAscii, count_blocks, count_in_path, count_in_paths, count_in_reader, count_matching_lines,
    count_non_ascii_lines, count_pattern_lines, count_with_prefix, first_matches,
    first_with_context, has_match, in_context, json_lines, matching_lines, numbered_lines,
    reporter, search_outline,
};

// Line 2 and line 4 have an `a`.
const INPUT: &[u8] = b"x\nab\ny\nba";

// Whether each caller that is lent a searcher returns what it has to, by one searcher: those that
// count, and those that keep lines.
fn agree(alloc: Global) -> bool {
    match Searcher::new(alloc) {
        Ok(mut searcher) => count(alloc, &mut searcher) && keep(alloc, &mut searcher),
        Err(_) => false,
    }
}

fn count(alloc: Global, searcher: &mut Searcher) -> bool {
    counts_lines(searcher)
        && counts_by_a_pattern(alloc, searcher)
        && counts_with_a_prefix(searcher)
        && counts_non_ascii(searcher)
        && counts_in_a_reader(searcher)
}

fn keep(alloc: Global, searcher: &mut Searcher) -> bool {
    keeps_the_first(alloc, searcher)
        && joins_lines(alloc, searcher)
        && writes_json(alloc, searcher)
        && lists_lines(alloc, searcher)
}

#[test]
fn callers_agree(rt: HostRuntime) {
    assert!(rt; agree(rt.alloc()));
}

// The matcher of an `a`.
fn letter() -> LiteralMatcher<'static> {
    LiteralMatcher::borrowed(b"a")
}

fn counts_lines(searcher: &mut Searcher) -> bool {
    matches!(count_matching_lines(searcher, letter(), INPUT), Ok(2))
}

fn counts_by_a_pattern(alloc: Global, searcher: &mut Searcher) -> bool {
    matches!(count_pattern_lines(alloc, searcher, "^a|a$", INPUT), Ok(2))
}

fn counts_with_a_prefix(searcher: &mut Searcher) -> bool {
    matches!(count_with_prefix(searcher, b"a", INPUT), Ok(1))
}

// Line 2 and line 4 have bytes that aren't ASCII.
const BYTES: &[u8] = b"x\n\xC3\xA9b\ny\na\xFF\nz";

// Whether these lines are counted, and the matcher is asked about many lines at once: about all,
// and then about those after each line that matches.
fn counts_non_ascii(searcher: &mut Searcher) -> bool {
    matches!(count_non_ascii_lines(searcher, BYTES), Ok(2)) && asks_ahead(searcher)
}

fn asks_ahead(searcher: &mut Searcher) -> bool {
    let asked: [&[u8]; 3] = [BYTES, &BYTES[6..], &BYTES[11..]];
    let matcher = Counting::new(NonAscii, &asked, None);
    matches!(count_matching_lines(searcher, &matcher, BYTES), Ok(2))
        && matcher.counts().candidates == 3
        && matcher.calls() == 3
        && matcher.strays() == 0
}

fn counts_in_a_reader(searcher: &mut Searcher) -> bool {
    let mut reader: &[u8] = INPUT;
    matches!(count_in_reader(searcher, letter(), &mut reader), Ok(2))
}

// Whether the first line that has an `a` is kept, and no other.
fn keeps_the_first(alloc: Global, searcher: &mut Searcher) -> bool {
    let mut reader: &[u8] = INPUT;
    match first_matches(alloc, searcher, letter(), &mut reader, 1) {
        Ok(kept) => is_line_2(&kept),
        Err(_) => false,
    }
}

fn is_line_2(kept: &[KeptMatch]) -> bool {
    match kept {
        [found] => found.bytes() == b"ab\n".as_slice(),
        _ => false,
    }
}

fn joins_lines(alloc: Global, searcher: &mut Searcher) -> bool {
    match matching_lines(alloc, searcher, letter(), INPUT) {
        Ok(text) => text.as_slice() == b"ab\nba".as_slice(),
        Err(_) => false,
    }
}

fn writes_json(alloc: Global, searcher: &mut Searcher) -> bool {
    match json_lines(alloc, searcher, letter(), b"x\nab\xFF\n") {
        Ok(text) => {
            text.as_slice() == "{\"line\":2,\"offset\":2,\"text\":\"ab\u{FFFD}\\n\"}\n".as_bytes()
        }
        Err(_) => false,
    }
}

// Lines 1 and 5 have `Doctor Watson`. The last line has no terminator.
const SHERLOCK: &[u8] = b"For the Doctor Watsons of this world, as opposed to the Sherlock
Holmeses, success in the province of detective work must always
be, to a very large extent, the result of luck. Sherlock Holmes
can extract a clew from a wisp of straw or a flake of cigar ash;
but Doctor Watson has to have it taken out for him and dusted,
and exhibited clearly, with a label attached.";

const LINE_1: &str = "For the Doctor Watsons of this world, as opposed to the Sherlock\n";

const LINE_5: &str = "but Doctor Watson has to have it taken out for him and dusted,\n";

// The matcher of `Doctor Watson`.
fn name() -> LiteralMatcher<'static> {
    LiteralMatcher::borrowed(b"Doctor Watson")
}

// Whether lines 1 and 5 are listed, and no other.
fn lists_lines(alloc: Global, searcher: &mut Searcher) -> bool {
    match numbered_lines(alloc, searcher, name(), SHERLOCK) {
        Ok(lines) => are_listed(&lines),
        Err(_) => false,
    }
}

fn are_listed(lines: &[(u64, String)]) -> bool {
    match lines {
        [first, second] => is_line(first, 1, LINE_1) && is_line(second, 5, LINE_5),
        _ => false,
    }
}

// Whether a line has this number and this text.
fn is_line(line: &(u64, String), number: u64, text: &str) -> bool {
    line.0 == number && line.1.as_str() == text
}

// Whether the first match is kept, and the line before it and the line after it.
fn keeps_lines_around(alloc: Global) -> bool {
    match first_with_context(alloc, letter(), INPUT, 1) {
        Ok(kept) => are_around(&kept),
        Err(_) => false,
    }
}

fn are_around(kept: &[KeptLines]) -> bool {
    match kept {
        [before, found, after] => {
            before.kind() == ReportKind::Context(SinkContextKind::Before)
                && found.kind() == ReportKind::Match
                && found.line_number() == Some(2)
                && after.kind() == ReportKind::Context(SinkContextKind::After)
        }
        _ => false,
    }
}

#[test]
fn kept_with_context(rt: HostRuntime) {
    assert!(rt; keeps_lines_around(rt.alloc()));
}

#[test]
fn counted_across_lines(rt: HostRuntime) {
    let blocks = count_blocks(rt.alloc(), b"a\nb\nx\na\nb\na\nb\n", b"a\nb");
    assert!(rt; matches!(blocks, Ok(2)));
}

const LOG: &[u8] = b"start\nopen\nerror: no file\nx\ny\nclose\nerror: closed\n";

const REPORT: &[u8] = b" open\n>error: no file\n--\n close\n>error: closed\n";

// Whether the errors of the log are reported with the line before each, and so is their outline.
fn reports_errors(alloc: Global) -> bool {
    match reporter(alloc) {
        Ok(mut searcher) => {
            reports_errors_by(alloc, &mut searcher) && outlines_errors(alloc, &mut searcher)
        }
        Err(_) => false,
    }
}

fn reports_errors_by(alloc: Global, searcher: &mut Searcher) -> bool {
    match in_context(alloc, searcher, LiteralMatcher::borrowed(b"error"), LOG) {
        Ok(report) => report.as_slice() == REPORT,
        Err(_) => false,
    }
}

fn outlines_errors(alloc: Global, searcher: &mut Searcher) -> bool {
    match search_outline(alloc, searcher, LiteralMatcher::borrowed(b"error"), LOG) {
        Ok(outline) => outline.as_slice() == b" >- >".as_slice(),
        Err(_) => false,
    }
}

#[test]
fn reported(rt: HostRuntime) {
    assert!(rt; reports_errors(rt.alloc()));
}

// Whether two lines of the file at a path have `Doctor Watson`, four if it is searched twice.
fn has_names(rt: &HostRuntime, searcher: &mut Searcher, path: Path<'_>) -> bool {
    matches!(count_in_path(rt, searcher, name(), path), Ok(2))
        && matches!(count_in_paths(rt, searcher, name(), &[path, path]), Ok(4))
        && matches!(has_match(rt, searcher, name(), path), Ok(true))
}

// Whether such lines are found in a file at a path, and none once it is gone.
fn finds_names_at(rt: &HostRuntime, searcher: &mut Searcher, path: Path<'_>) -> bool {
    let is_found = fs::write(rt, path, SHERLOCK).is_ok() && has_names(rt, searcher, path);
    fs::remove_file(rt, path).is_ok() && is_found && is_unopened(rt, searcher, path)
}

fn is_unopened(rt: &HostRuntime, searcher: &mut Searcher, path: Path<'_>) -> bool {
    matches!(
        count_in_path(rt, searcher, name(), path),
        Err(SearchError::Io(_))
    )
}

// Whether such lines are found in a file at a temporary path, and none once it is gone.
fn finds_names(rt: &HostRuntime) -> bool {
    match (Searcher::new(rt.alloc()), temporary_path(rt, "counted")) {
        (Ok(mut searcher), Ok(path)) => finds_names_at(rt, &mut searcher, path.as_path()),
        _ => false,
    }
}

#[test]
fn counted_in_path(rt: HostRuntime) {
    assert!(rt; finds_names(&rt));
}
