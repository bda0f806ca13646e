//! Searches of files, and of paths.
use crate::paths::temporary_path;
use grep_matcher::{LineTerminator, LiteralMatcher, Matcher};
use grep_searcher::{ConfigError, SearchError, Searcher, SearcherBuilder};
use grep_testing::{Naming, Pieces, Recorder};
use std::alloc::Global;
use std::fs::File;
use std::io::{ErrorKind, Read};
use std::path::Path;
use std::{fs, io};

// How a search ends, after the calls of its sink that are expected.
#[derive(Clone, Copy)]
enum End {
    Done,
    // the file can't be opened or read, by an error of this kind, which has the system's number
    Unread(ErrorKind, Option<i32>),
    Refused,
    // the matcher names another terminator
    Mismatched,
    Otherwise,
}

fn how_ended(ended: Result<(), SearchError>) -> End {
    match ended {
        Ok(()) => End::Done,
        Err(SearchError::Io(error)) => End::Unread(error.kind(), error.raw_os_error()),
        Err(SearchError::Config(ConfigError::SearchUnavailable)) => End::Refused,
        Err(SearchError::Config(ConfigError::MismatchedLineTerminators { .. })) => End::Mismatched,
        _ => End::Otherwise,
    }
}

// The end of a search of a path, if its sink has these calls.
fn end_at<M: Matcher + Drop>(
    rt: &HostRuntime,
    searcher: &mut Searcher,
    matcher: M,
    path: Path<'_>,
    calls: &str,
) -> End {
    let mut recorder = Recorder::new(rt.alloc(), None, None);
    let end = how_ended(searcher.search_path(rt, matcher, path, &mut recorder));
    if recorder.text() == calls {
        end
    } else {
        End::Otherwise
    }
}

// The end of a search of a file, if its sink has these calls.
fn end_in<M: Matcher + Drop, F: Read>(
    alloc: Global,
    searcher: &mut Searcher,
    matcher: M,
    file: &mut F,
    calls: &str,
) -> End {
    let mut recorder = Recorder::new(alloc, None, None);
    let end = how_ended(searcher.search_file(matcher, file, &mut recorder));
    if recorder.text() == calls {
        end
    } else {
        End::Otherwise
    }
}

// The matcher of the literal `a`.
fn letter() -> LiteralMatcher<'static> {
    LiteralMatcher::borrowed(b"a")
}

const INPUT: &[u8] = b"a\nx\nx\nx\na\n";

const CALLS: &str = "begin;match 1 0 610a;after 2 2 780a;break;match 5 8 610a;finish 10 -;";

// Whether a search of an open file makes the calls, and one at the file's end makes none but the
// first and the last.
fn finds_by_file(rt: &HostRuntime, searcher: &mut Searcher, path: Path<'_>) -> bool {
    let Ok(mut file) = File::open(rt, path) else {
        return false;
    };
    let first = end_in(rt.alloc(), searcher, letter(), &mut file, CALLS);
    let second = end_in(
        rt.alloc(),
        searcher,
        letter(),
        &mut file,
        "begin;finish 0 -;",
    );
    matches!(first, End::Done) && matches!(second, End::Done)
}

// Whether searches that report a line after each match do, of a path and of an open file.
fn finds(rt: &HostRuntime, path: Path<'_>) -> bool {
    match SearcherBuilder::new().after_context(1).build(rt.alloc()) {
        Ok(mut searcher) => {
            matches!(end_at(rt, &mut searcher, letter(), path, CALLS), End::Done)
                && finds_by_file(rt, &mut searcher, path)
        }
        Err(_) => false,
    }
}

// Whether they do in a new file at a path.
fn finds_in_file(rt: &HostRuntime, path: Path<'_>) -> bool {
    let is_found = fs::write(rt, path, INPUT).is_ok() && finds(rt, path);
    fs::remove_file(rt, path).is_ok() && is_found
}

// Whether they do in a new file at a temporary path.
fn finds_in_files(rt: &HostRuntime) -> bool {
    match temporary_path(rt, "files") {
        Ok(path) => finds_in_file(rt, path.as_path()),
        Err(_) => false,
    }
}

#[test]
fn files(rt: HostRuntime) {
    assert!(rt; finds_in_files(&rt));
}

// The end of a search of a path whose searcher refuses each search.
fn end_of(rt: &HostRuntime, path: Path<'_>) -> End {
    match SearcherBuilder::new().heap_limit(Some(0)).build(rt.alloc()) {
        Ok(mut searcher) => end_at(rt, &mut searcher, letter(), path, ""),
        Err(_) => End::Otherwise,
    }
}

// Whether such a search of a path opens the file that is there, and none below it.
fn opens(rt: &HostRuntime, path: Path<'_>) -> bool {
    let is_refused = matches!(end_of(rt, path), End::Refused);
    match path.join(rt.alloc(), "below") {
        Ok(below) => {
            is_refused && matches!(end_of(rt, below.as_path()), End::Unread(_, Some(20)))
        }
        Err(_) => false,
    }
}

// Whether it opens no file before there is one. The system's error 2 is that of a path that doesn't
// exist, and 20 that of one below a file.
fn opens_first(rt: &HostRuntime, path: Path<'_>) -> bool {
    let is_missing = matches!(end_of(rt, path), End::Unread(_, Some(2)));
    let is_opened = fs::write(rt, path, INPUT).is_ok() && opens(rt, path);
    fs::remove_file(rt, path).is_ok() && is_missing && is_opened
}

// Whether it opens no file at a temporary path before there is one.
fn opens_files_first(rt: &HostRuntime) -> bool {
    match temporary_path(rt, "refused") {
        Ok(path) => opens_first(rt, path.as_path()),
        Err(_) => false,
    }
}

#[test]
fn opens_before_anything_else(rt: HostRuntime) {
    assert!(rt; opens_files_first(&rt));
}

// A matcher of the literal `a` that names another terminator than a searcher has by default.
fn naming() -> Naming<LiteralMatcher<'static>> {
    Naming {
        matcher: letter(),
        terminator: LineTerminator::byte(b'z'),
    }
}

// Whether a search with that matcher opens the file first, too: `/` is a folder, which can be
// opened.
fn opens_before_terminators(rt: &HostRuntime, searcher: &mut Searcher) -> bool {
    let missing = end_at(rt, searcher, naming(), Path::new("/missing"), "");
    let folder = end_at(rt, searcher, naming(), Path::new("/"), "");
    matches!(missing, End::Unread(_, Some(2))) && matches!(folder, End::Mismatched)
}

// Whether a search of a folder ends in the error of reading it, the system's 21, after `begin`.
fn reads_no_folder(rt: &HostRuntime, searcher: &mut Searcher) -> bool {
    let folder = end_at(rt, searcher, letter(), Path::new("/"), "begin;");
    matches!(folder, End::Unread(_, Some(21)))
}

// Whether both are so.
fn opens_folders(rt: &HostRuntime) -> bool {
    match Searcher::new(rt.alloc()) {
        Ok(mut searcher) => {
            opens_before_terminators(rt, &mut searcher) && reads_no_folder(rt, &mut searcher)
        }
        Err(_) => false,
    }
}

#[test]
fn opens_before_it_looks_at_terminators_and_reads(rt: HostRuntime) {
    assert!(rt; opens_folders(&rt));
}

// Whether a search of a file that can't be opened ends in the error of opening it.
fn passes_on_error(rt: &HostRuntime, path: Path<'_>) -> bool {
    match (File::open(rt, path), end_of(rt, path)) {
        (Err(error), End::Unread(_, found)) => found == error.raw_os_error(),
        (Err(_), _) => false,
        (Ok(_), _) => true,
    }
}

// The environment of the first process is for its owner alone: anyone else may not read it.
#[test]
fn what_cannot_be_read(rt: HostRuntime) {
    assert!(rt;
        matches!(end_of(&rt, Path::new("/")), End::Refused)
            && passes_on_error(&rt, Path::new("/proc/1/environ"))
    );
}

// Whether a search of a file is refused across lines too, whose matcher names another terminator,
// before any call and any read.
fn is_mismatched(alloc: Global) -> bool {
    match SearcherBuilder::new().multi_line(true).build(alloc) {
        Ok(mut searcher) => {
            let mut file = Pieces::new(b"a\n", 0, None);
            let end = end_in(alloc, &mut searcher, naming(), &mut file, "");
            matches!(end, End::Mismatched) && file.reads() == 0
        }
        Err(_) => false,
    }
}

#[test]
fn refuses_another_terminator(rt: HostRuntime) {
    assert!(rt; is_mismatched(rt.alloc()));
}

// Whether a search of 131,072 bytes, whose lines end where the line buffer does, reads them in two
// reads, and is at the end at the third.
fn has_large_reads(alloc: Global, searcher: &mut Searcher) -> bool {
    let Ok(input) = vec![in alloc; b'\n'; 1 << 17] else {
        return false;
    };
    let mut file = Pieces::new(&input, 0, None);
    let end = end_in(
        alloc,
        searcher,
        letter(),
        &mut file,
        "begin;finish 131072 -;",
    );
    matches!(end, End::Done) && file.reads() == 3
}

// Whether a search of a file whose second read fails reports the line before, and then ends in the
// file's error, without another read.
fn is_cut(alloc: Global, searcher: &mut Searcher, kind: ErrorKind) -> bool {
    let mut file = Pieces::new(b"a\n", 0, Some((2, io::Error::from(kind))));
    let end = end_in(
        alloc,
        searcher,
        letter(),
        &mut file,
        "begin;match 1 0 610a;",
    );
    matches!(end, End::Unread(found, _) if found == kind) && file.reads() == 2
}

// Whether both are so of a searcher that reads no byte ahead to look for a mark.
fn reads_files(alloc: Global) -> bool {
    match SearcherBuilder::new().bom_sniffing(false).build(alloc) {
        Ok(mut searcher) => {
            has_large_reads(alloc, &mut searcher)
                && is_cut(alloc, &mut searcher, ErrorKind::Interrupted)
                && is_cut(alloc, &mut searcher, ErrorKind::WouldBlock)
        }
        Err(_) => false,
    }
}

#[test]
fn reads(rt: HostRuntime) {
    assert!(rt; reads_files(rt.alloc()));
}
