//! How many lines that match begin with each byte.
ghost use Rattle.std.specs.Prelude.{◌≡◌, true, IfOk, IfErr};
ghost use Rattle.grep_searcher.specs.HitLines.{hit_matches, IsFilter};
ghost use Rattle.grep_searcher.specs.KeyCounts.{AreKeyCounts};
ghost use Rattle.grep_searcher.specs.LineCounts.{IsLineSearch};
ghost use Rattle.grep_searcher.specs.Searches.{searched_bytes};
ghost use Rattle.grep_searcher.specs.SearchFailures.{IsDecodingError, IsFaultless};
ghost use Rattle.uses.specs.FirstBytes.{leading_byte};

use grep_searcher::laws::{runs_count_keys, searches_run};
use grep_searcher::sinks::{MatchHandler, OnMatch};
use grep_searcher::{Matcher, SearchError, Searcher, SinkMatch};
use std::alloc::Global;
use std::marker::Model;

/// Counts the lines of `bytes`, decoded, that hit by their first byte. The result has 256 counts:
/// at the index 97 it has how many of these lines begin with the byte 97, for example.
///
/// That is promised of a search by line without binary detection and without a stop, with a matcher
/// that is lawful for the searcher's terminator, and without a limit or without a context after
/// matches. Under a limit only the lines count that it lets through.
///
/// An error is made of the matcher's, of a configuration that the searcher refuses, or of why bytes
/// that have to be decoded weren't decoded to their end.
pub fn count_first_bytes<M: Matcher + Drop>(
    searcher: &mut Searcher,
    matcher: M,
    bytes: &[u8],
) -> Result<[u64; 256], SearchError>
    ensures counts { IsLineSearch (M.facts matcher) searcher.old.settings
        → IsFilter searcher.old.settings
        → IfOk result (AreKeyCounts 256 leading_byte (hit_matches searcher.old.settings
        (M.facts matcher).meaning (searched_bytes searcher.old.settings bytes.now))) }
    ensures error { IsFaultless (M.facts matcher) searcher.old.settings
        → IfErr result (IsDecodingError searcher.old (M.facts matcher).meaning bytes.now) }
    ensures settings { searcher.new.settings ≡ searcher.old.settings }
    ensures buffers { searcher.old.has_buffers ≡ true → searcher.new.has_buffers ≡ true }
{
    let mut sink = OnMatch::new(FirstBytes { counts: [0; 256] });
    searcher.search_slice(matcher, bytes, &mut sink)?;
    searches_run::<Global, M, _>(&sink);
    runs_count_keys::<FirstBytes>();
    Ok(sink.into_handler().counts)
}

// Counts the lines by their first byte, up to the largest `u64` each.
#[derive(Drop)]
struct FirstBytes {
    counts: [u64; 256],
}

impl Model for FirstBytes {
    ghost use Rattle.std.specs.Prelude.{ℕ, List};

    ghost Value = { List ℕ };

    ghost view = { λ s. s.counts };
}

impl MatchHandler for FirstBytes {
    ghost use Rattle.std.specs.Prelude.{true};
    ghost use Rattle.grep_searcher.specs.KeyCounts.{with_key};
    ghost use Rattle.uses.specs.FirstBytes.{leading_byte};

    type Error = SearchError;

    ghost goes = { λ _ _. true };

    ghost next = { λ counts found. with_key counts (leading_byte found) };

    ghost fails = { λ _ _ _ _. ⊥ };

    fn handle(&mut self, found: &SinkMatch<'_>) -> Result<bool, SearchError> {
        if let Some(first) = found.bytes().first() {
            let index = *first as usize;
            self.counts[index] = self.counts[index].saturating_add(1);
        }
        Ok(true)
    }
}
