//! How many lines have a byte that isn't ASCII: a matcher of one's own that a search asks about
//! many lines at once.
ghost use Rattle.std.specs.Prelude.{◌≡◌, ◌<◌, length, false, true, None, IfOk, IfErr, IfSome};
ghost use Rattle.std.specs.List.{position};
ghost use Rattle.grep_searcher.specs.HitLines.{IsUnlimited};
ghost use Rattle.grep_searcher.specs.Plans.{is_across, refusal_of};
ghost use Rattle.grep_searcher.specs.SearchFailures.{IsDecodingError};
ghost use Rattle.uses.specs.NonAsciiLines.{IsNonAsciiCount, is_high, non_ascii};

use crate::count::count_matching_lines;
use grep_searcher::laws::{first_bytes_match_by_line, hits_are_selected};
use grep_searcher::{
    BinaryDetection, ByteSet, LineMatchKind, LineTerminator, Match, Matcher, SearchError, Searcher,
};
use std::io;

/// Returns how many lines of `bytes`, decoded, have a byte that isn't ASCII, with a searcher that
/// searches by line and has no limit, no stop, no inversion and no binary detection, as a new one.
///
/// An error is one of `count_matching_lines`, but for that of a matcher: that of a searcher with
/// another terminator than a line feed, for one.
pub fn count_non_ascii_lines(searcher: &mut Searcher, bytes: &[u8]) -> Result<u64, SearchError>
    ensures count { is_across searcher.old.settings non_ascii ≡ false
        → searcher.old.settings.binary_detection ≡ BinaryDetection.None
        → IsUnlimited searcher.old.settings → searcher.old.settings.invert_match ≡ false
        → IfOk result (IsNonAsciiCount searcher.old.settings bytes.now) }
    ensures error { refusal_of searcher.old.settings non_ascii ≡ None
        → IfErr result (IsDecodingError searcher.old non_ascii bytes.now) }
    ensures settings { searcher.new.settings ≡ searcher.old.settings }
    ensures buffers { searcher.old.has_buffers ≡ true → searcher.new.has_buffers ≡ true }
{
    hits_are_selected();
    first_bytes_match_by_line();
    count_matching_lines(searcher, NonAscii, bytes)
}

/// Matches a byte that isn't ASCII. It declares a line feed as its terminator, and never fails.
/// What it finds in many lines is the end of its first match, which can be trusted.
#[derive(Drop)]
pub struct NonAscii;

impl Matcher for NonAscii {
    ghost use Rattle.uses.specs.NonAsciiLines.{non_ascii_facts};

    type Error = io::Error;

    ghost facts = { λ _. non_ascii_facts };

    fn find(&self, haystack: &[u8]) -> Result<Option<Match>, io::Error> {
        match first_high(haystack) {
            Some(start) => Ok(Some(Match::new(start, start + 1))),
            None => Ok(None),
        }
    }

    fn find_candidate_line(&self, haystack: &[u8]) -> Result<Option<LineMatchKind>, io::Error> {
        Ok(LineMatchKind::confirm(self.find(haystack)?))
    }

    fn line_terminator(&self) -> Option<LineTerminator> {
        Some(LineTerminator::byte(b'\n'))
    }

    fn non_matching_bytes(&self) -> Option<&ByteSet> {
        None
    }
}

// The position of the first byte that isn't ASCII.
fn first_high(haystack: &[u8]) -> Option<usize>
    ensures value { result ≡ position is_high haystack.now }
    ensures inside { IfSome result (λ start. start < length haystack.now) }
{
    haystack.iter().position(|byte| !byte.is_ascii())
}
