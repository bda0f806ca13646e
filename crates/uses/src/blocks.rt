//! How many blocks of lines match, if a match may extend over several lines.
ghost use Rattle.std.specs.Prelude.{◌≡◌, ◌⊎◌, true, length, IfOk, IfErr};
ghost use Rattle.grep_searcher.specs.Literals.{literal_meaning};
ghost use Rattle.grep_searcher.specs.Plans.{search_plan};
ghost use Rattle.grep_searcher.specs.SearchErrors.{is_out_of_memory};
ghost use Rattle.grep_searcher.specs.SearchFailures.{IsDecodingError};
ghost use Rattle.grep_searcher.specs.SearchLaws.{match_calls};
ghost use Rattle.grep_searcher.specs.Searches.{searched_bytes};
ghost use Rattle.uses.specs.AcrossSettings.{across_lines};

use grep_searcher::laws::{runs_count_matches, searches_run};
use grep_searcher::sinks::Count;
use grep_searcher::{ConfigError, LiteralMatcher, SearchError, Searcher, SearcherBuilder};
use std::alloc::Global;

/// Returns how many matches of a literal are reported if a match may extend over several lines. If
/// the literal has a line feed, these are blocks: runs of lines that matches touch, where matches
/// that share a line, or follow each other without a line between them, are in one block.
///
/// The only error is being out of memory; or, if the bytes have to be decoded, more than 2^64 - 1
/// decoded bytes.
pub fn count_blocks(alloc: Global, bytes: &[u8], literal: &[u8]) -> Result<u64, SearchError>
    ensures count { IfOk result (λ count. count
        ≡ length (match_calls (search_plan across_lines (literal_meaning literal.now)
        (searched_bytes across_lines bytes.now)).calls)) }
    ensures error { IfErr result (λ e. (is_out_of_memory e ≡ true)
        ⊎ IsDecodingError (record { settings = across_lines; has_buffers = true })
        (literal_meaning literal.now) bytes.now e) }
{
    let mut searcher = searcher_across(alloc)?;
    let matcher = LiteralMatcher::new(alloc, literal)?;
    let mut blocks: Count<SearchError> = Count::new();
    searcher.search_slice(matcher, bytes, &mut blocks)?;
    searches_run::<Global, LiteralMatcher, _>(&blocks);
    runs_count_matches::<SearchError>();
    Ok(blocks.count())
}

// A searcher that finds matches over several lines.
fn searcher_across(alloc: Global) -> Result<Searcher, ConfigError>
    ensures settings { IfOk result (λ searcher.
        searcher ≡ record { settings = across_lines; has_buffers = true }) }
    ensures error { IfErr result (λ e. e ≡ ConfigError.Memory) }
{
    SearcherBuilder::new().multi_line(true).build(alloc)
}
