//! A search of the files of a folder.
use grep_searcher::sinks::Count;
use grep_searcher::{BinaryDetection, LiteralMatcher, SearchError, Searcher, SearcherBuilder};
use linegrep_files::{Choices, Entry, FileOptions, Route, Sources, TypeOptions, Values, Walk};
use std::alloc::AllocError;

/// Returns the path of each file of a folder, and of the folders in it, with how many of its lines
/// have a literal. The files are those that the globs choose, which aren't hidden and which no
/// ignore file leaves out. What can't be read, and what is wrong with ignore files, is named on
/// standard error.
///
/// An error is of a glob that isn't well formed, of standard error, or of being out of memory.
pub fn count_in_folder(
    rt: &HostRuntime,
    literal: &[u8],
    globs: &[&str],
    folder: &str,
) -> Result<Vec<(String, u64)>, SearchError> {
    let matcher = LiteralMatcher::new(rt.alloc(), literal)?;
    let mut searcher = SearcherBuilder::new()
        .binary_detection(BinaryDetection::quit(b'\0'))
        .build(rt.alloc())?;
    let mut counts = Vec::new(rt.alloc());
    for path in files_in(rt, globs, folder)? {
        match count_in_file(rt, &mut searcher, &matcher, path.as_str()) {
            Ok(count) => counts.push((path, count))?,
            Err(error) => eprintln!(rt; "{path}: {error}")?,
        }
    }
    Ok(counts)
}

// How many lines of the file at a path have the literal.
fn count_in_file(
    rt: &HostRuntime,
    searcher: &mut Searcher,
    matcher: &LiteralMatcher<'_>,
    path: &str,
) -> Result<u64, SearchError> {
    let mut matches: Count<SearchError> = Count::new();
    searcher.search_path(rt, matcher, path, &mut matches)?;
    Ok(matches.count())
}

// The paths of the files that are to be searched.
fn files_in(rt: &HostRuntime, globs: &[&str], folder: &str) -> Result<Vec<String>, SearchError> {
    let mut choices = match Choices::read(rt, rt, &options(globs)) {
        Ok(choices) => choices,
        Err(failure) => {
            return Err(SearchError::Message(String::from_str(rt.alloc(), failure.text())?));
        }
    };
    choices.begin(rt, folder)?;
    let files = walk_through(rt, &mut choices, folder)?;
    for warning in choices.warnings() {
        rt.eprint(warning.text())?;
    }
    Ok(files)
}

// The files that a walk through a folder finds.
fn walk_through(
    rt: &HostRuntime,
    choices: &mut Choices<'_>,
    folder: &str,
) -> Result<Vec<String>, SearchError> {
    let mut files = Vec::new(rt.alloc());
    let route = Route {
        follows_links: false,
    };
    let mut walk = Walk::new(rt, rt, route, folder);
    for _ in 0..u64::MAX {
        let Some(entry) = walk.pop() else {
            break;
        };
        match &entry {
            Entry::Folder(path) => walk.enter(choices, path.as_str()),
            Entry::File(path) => files.push(String::from_str(rt.alloc(), path.as_str())?)?,
            Entry::Unread(path, error) => eprintln!(rt; "{path}: {error}")?,
        }
    }
    if walk.is_out_of_memory() {
        return Err(SearchError::from(AllocError));
    }
    Ok(files)
}

// What `linegrep` has by default, and these globs.
fn options<'o, 'w>(globs: &'o [&'w str]) -> FileOptions<'o, 'w> {
    let none = Values {
        texts: &[],
        places: &[],
    };
    FileOptions {
        globs,
        iglobs: &[],
        ignores_glob_case: false,
        types: TypeOptions {
            asked: none,
            left_out: none,
            added: none,
            cleared: none,
        },
        max_depth: None,
        max_filesize: None,
        is_one_system: false,
        sources: Sources {
            dot: true,
            git: true,
            exclude: true,
            global: true,
            parents: true,
            needs_repository: true,
            ignores_case: false,
        },
        ignore_files: &[],
        shows_hidden: false,
        explains: false,
    }
}
