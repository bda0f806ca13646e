//! The first matches of a slice with the lines around them, kept.
ghost use Rattle.std.specs.Prelude.{◌≡◌, ◌⊎◌, true, IfOk, IfErr};
ghost use Rattle.grep_searcher.specs.ErrorMakers.{makers_of};
ghost use Rattle.grep_searcher.specs.KeptFirst.{search_error_makers};
ghost use Rattle.grep_searcher.specs.KeptReports.{kept_reports};
ghost use Rattle.grep_searcher.specs.MatcherFailures.{IsLawfulSearch, IsSliceFailure};
ghost use Rattle.grep_searcher.specs.Plans.{IsLawful, search_plan};
ghost use Rattle.grep_searcher.specs.SearchErrors.{is_out_of_memory};
ghost use Rattle.grep_searcher.specs.SearchLaws.{calls_of};
ghost use Rattle.grep_searcher.specs.Searches.{searched_bytes};
ghost use Rattle.uses.specs.FirstAround.{first_around};

use grep_searcher::laws::{runs_keep_reports, searches_run, slices_fail_for};
use grep_searcher::sinks::{KeptLines, Reports};
use grep_searcher::{ConfigError, Matcher, SearchError, Searcher, SearcherBuilder};
use std::alloc::Global;

/// Returns the first `n` matches of `bytes`, decoded, with the line before and the line after each,
/// as they are reported: each report has its kind, its number, its offset and its bytes.
///
/// An error is made of the matcher's, of its line terminator, if it declares another one than a
/// line feed, or of being out of memory. If the bytes have to be decoded, it may also be of more
/// than 2^64 - 1 decoded bytes.
pub fn first_with_context<M: Matcher + Drop>(
    alloc: Global,
    matcher: M,
    bytes: &[u8],
    n: u64,
) -> Result<Vec<KeptLines>, SearchError>
    ensures reports { IsLawful (M.facts matcher) (first_around n) → IfOk result (λ reports.
        reports.items ≡ kept_reports (calls_of (search_plan (first_around n)
        (M.facts matcher).meaning (searched_bytes (first_around n) bytes.now)).calls)) }
    ensures error { IsLawfulSearch (M.facts matcher) (first_around n) → IfErr result (λ e.
        (is_out_of_memory e ≡ true)
        ⊎ IsSliceFailure (makers_of M.Error.output search_error_makers) (M.facts matcher)
        (record { settings = first_around n; has_buffers = true }) bytes.now e) }
{
    let mut searcher = searcher_around(alloc, n)?;
    let mut sink = Reports::new(alloc);
    slices_fail_for::<Global, M, _>(&sink);
    searcher.search_slice(matcher, bytes, &mut sink)?;
    searches_run::<Global, M, _>(&sink);
    runs_keep_reports::<Global>();
    Ok(sink.into_reports())
}

// A searcher for the first matches, with the line before and the line after each.
fn searcher_around(alloc: Global, n: u64) -> Result<Searcher, ConfigError>
    ensures settings { IfOk result (λ searcher.
        searcher ≡ record { settings = first_around n; has_buffers = true }) }
    ensures error { IfErr result (λ e. e ≡ ConfigError.Memory) }
{
    SearcherBuilder::new()
        .before_context(1)
        .after_context(1)
        .max_matches(Some(n))
        .build(alloc)
}
