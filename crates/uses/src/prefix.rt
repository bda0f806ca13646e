//! How many lines start with a prefix: a matcher of one's own.
ghost use Rattle.std.specs.Prelude.{◌≡◌, false, true, IfOk, IfErr};
ghost use Rattle.grep_searcher.specs.HitLines.{IsUnlimited};
ghost use Rattle.grep_searcher.specs.Searches.{searched_bytes};
ghost use Rattle.grep_searcher.specs.LineCounts.{IsLineSearch};
ghost use Rattle.grep_searcher.specs.SearchFailures.{IsDecodingError, IsFaultless};
ghost use Rattle.uses.specs.Prefixes.{prefix_facts, prefixed_count};

use crate::count::count_matching_lines;
use grep_searcher::laws::hits_are_selected;
use grep_searcher::{ByteSet, LineTerminator, Match, Matcher, SearchError, Searcher};
use std::io;
use std::marker::Model;

/// Returns how many lines of `bytes`, decoded, start with `prefix`, with a searcher that searches
/// by line and has no limit, no stop, no inversion and no binary detection, as a new one.
///
/// An error is one of `count_matching_lines`, but for that of a matcher.
pub fn count_with_prefix(
    searcher: &mut Searcher,
    prefix: &[u8],
    bytes: &[u8],
) -> Result<u64, SearchError>
    ensures count { IsLineSearch (prefix_facts prefix.now) searcher.old.settings
        → IsUnlimited searcher.old.settings → searcher.old.settings.invert_match ≡ false
        → IfOk result (λ count. count ≡ prefixed_count searcher.old.settings prefix.now
        (searched_bytes searcher.old.settings bytes.now)) }
    ensures error { IsFaultless (prefix_facts prefix.now) searcher.old.settings → IfErr result
        (IsDecodingError searcher.old (prefix_facts prefix.now).meaning bytes.now) }
    ensures settings { searcher.new.settings ≡ searcher.old.settings }
    ensures buffers { searcher.old.has_buffers ≡ true → searcher.new.has_buffers ≡ true }
{
    hits_are_selected();
    count_matching_lines(searcher, PrefixMatcher { prefix }, bytes)
}

// Matches a haystack that starts with a prefix, from 0 to the prefix's length.
#[derive(Drop)]
struct PrefixMatcher<'p> {
    prefix: &'p [u8],
}

impl<'p> Model for PrefixMatcher<'p> {
    ghost use Rattle.std.specs.Prelude.{ℕ, List};

    ghost Value = { List ℕ };

    ghost view = { λ m. m.prefix.now };
}

impl Matcher for PrefixMatcher<'_> {
    ghost use Rattle.uses.specs.Prefixes.{prefix_facts};

    type Error = io::Error;

    ghost facts = { prefix_facts };

    fn find(&self, haystack: &[u8]) -> Result<Option<Match>, io::Error> {
        if haystack.starts_with(self.prefix) {
            Ok(Some(Match::new(0, self.prefix.len())))
        } else {
            Ok(None)
        }
    }

    fn line_terminator(&self) -> Option<LineTerminator> {
        None
    }

    fn non_matching_bytes(&self) -> Option<&ByteSet> {
        None
    }
}
