//! A pattern that is a literal, for which a search needs no engine.
ghost use Rattle.std.specs.Prelude.{◌≡◌, ◌≤◌, length, drop, IfSome};
ghost use Rattle.regex_hir.specs.Meaning.{meaning};
ghost use Rattle.grep_matcher.specs.FindResults.{match_from, IsFrom};
ghost use Rattle.grep_matcher.specs.Literals.{literal_match};
ghost use Rattle.grep_regex.specs.Spelled.{IsSpelled};
ghost use Rattle.grep_regex.specs.Views.{program_re};

use crate::regex::Regex;
use grep_matcher::LiteralMatcher;
use regex_hir::Hir;

// The bytes of the literal that a pattern is, if it is one that isn't empty.
pub(crate) fn literal_of(hir: &Hir) -> Option<&[u8]>
    ensures { IfSome result (λ bytes. IsSpelled (meaning hir.now) bytes.now) }
{
    match hir {
        Hir::Literal(bytes) if !bytes.is_empty() => Some(bytes.as_slice()),
        _ => None,
    }
}

// The matcher of the literal that an expression is, if it is one.
pub(crate) fn matcher_of(regex: &Regex) -> Option<LiteralMatcher<'_>>
    ensures { IfSome result (IsSpelled (program_re regex.now)) }
{
    match regex.literal() {
        Some(bytes) => Some(LiteralMatcher::borrowed(bytes)),
        None => None,
    }
}

// Where a literal first occurs from a position on.
#[inline(always)]
pub(crate) fn occurrence(
    literal: &LiteralMatcher<'_>,
    haystack: &[u8],
    start: usize,
) -> Option<(usize, usize)>
    requires { start ≤ length haystack.now }
    ensures value { result
        ≡ match_from start (literal_match literal.now (drop start haystack.now)) }
    ensures within { IsFrom start haystack.now result }
{
    match literal.match_at(haystack, start) {
        Some(found) => Some((found.start(), found.end())),
        None => None,
    }
}
