//! How many lines of a file match, and whether one does.
ghost use Rattle.std.specs.Prelude.{◌≡◌, true, IfOk, IfErr};
ghost use Rattle.std.specs.declared.io.Error.{Error};
ghost use Rattle.grep_searcher.specs.LineCounts.{IsLineSearch};
ghost use Rattle.grep_searcher.specs.SearchFailures.{IsFaultless};
ghost use Rattle.uses.specs.PathCounts.{IsCountAt, IsFoundAt};

use grep_searcher::laws::{files_count_lines, files_find_lines};
use grep_searcher::sinks::{Count, Found, OnMatch};
use grep_searcher::{Matcher, Open, SearchError, Searcher};
use std::alloc::Global;
use std::path::AsPath;

/// Opens the file at a path, and returns how many of its decoded lines are matched.
///
/// An error is that of opening the file, or one of reading it; or it is made of the matcher's, of a
/// configuration that the searcher refuses, of the heap limit, of being out of memory, or of more
/// than 2^64 - 1 decoded bytes.
///
/// All this is promised for a matcher that is lawful for the searcher's terminator, and the count
/// of a search by line without binary detection, for the file that opening the path returned, if it
/// says which bytes remain. Which file that is, the system alone knows.
pub fn count_in_path<R: Open, M: Matcher + Drop, P: AsPath>(
    rt: &R,
    searcher: &mut Searcher,
    matcher: M,
    path: P,
) -> Result<u64, SearchError>
    ensures count { IsLineSearch (M.facts matcher) searcher.old.settings
        → IfOk result (IsCountAt (R.opens rt.now) R.File.remaining (M.facts matcher)
        searcher.old.settings (P.path_text path)) }
    ensures settings { searcher.new.settings ≡ searcher.old.settings }
    ensures buffers { searcher.old.has_buffers ≡ true → searcher.new.has_buffers ≡ true }
    ensures error { IsFaultless (M.facts matcher) searcher.old.settings
        → IfErr result (λ e. (error : Error) × (e ≡ SearchError.Io error)) }
{
    let mut matches: Count<SearchError> = Count::new();
    searcher.search_path(rt, matcher, path, &mut matches)?;
    files_count_lines::<Global, M, R::File, SearchError>();
    Ok(matches.count())
}

/// Opens the file at a path, and returns whether one of its decoded lines is selected. The search
/// ends at the first one, and if the searcher has a heap limit, no more bytes are read beyond that
/// line than the limit has, and three.
///
/// The errors, and what is promised, are as in `count_in_path`; how far is read is promised of a
/// file that is searched as it is.
pub fn has_match<R: Open, M: Matcher + Drop, P: AsPath>(
    rt: &R,
    searcher: &mut Searcher,
    matcher: M,
    path: P,
) -> Result<bool, SearchError>
    ensures found { IsLineSearch (M.facts matcher) searcher.old.settings
        → IfOk result (IsFoundAt (R.opens rt.now) R.File.remaining (M.facts matcher)
        searcher.old.settings (P.path_text path)) }
    ensures settings { searcher.new.settings ≡ searcher.old.settings }
    ensures buffers { searcher.old.has_buffers ≡ true → searcher.new.has_buffers ≡ true }
    ensures error { IsFaultless (M.facts matcher) searcher.old.settings
        → IfErr result (λ e. (error : Error) × (e ≡ SearchError.Io error)) }
{
    let found: Found<SearchError> = Found::new();
    let mut sink = OnMatch::new(found);
    searcher.search_path(rt, matcher, path, &mut sink)?;
    files_find_lines::<Global, M, R::File, SearchError>();
    Ok(sink.handler().is_found())
}
