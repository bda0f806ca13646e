//! Patterns that match their own texts alone.
ghost use Rattle.std.specs.Prelude.{◌≡◌, chars, false, map, IsTrue};
ghost use Rattle.std.specs.List.{list_any};
ghost use Rattle.regex_hir.specs.Re.{literal};
ghost use Rattle.regex_syntax.specs.Captures.{SameCaptures};
ghost use Rattle.regex_syntax.specs.Verdict.{is_meta};
ghost use Rattle.grep_regex.specs.AbsentBytes.{are_literal, is_plain};
ghost use Rattle.grep_regex.specs.Alike.{AreAlike};
ghost use Rattle.grep_regex.specs.Patterns.{read_re};

use crate::options::Options;
use regex_syntax::is_meta_character;

// Whether each pattern matches its own text alone.
pub(crate) fn are_literal(options: &Options, patterns: &[&str]) -> bool
    ensures value { result ≡ are_literal options.now (map (λ p. p.now) patterns.now) }
    ensures read { IsTrue result →
        AreAlike (map (read_re options.now) (map (λ p. p.now) patterns.now))
        (map literal (map (λ p. p.now) patterns.now)) }
{
    if options.case_insensitive {
        return false;
    }
    for i in 0..patterns.len() {
        if !is_plain(options, patterns[i]) {
            return false;
        }
    }
    true
}

// Whether the pattern is read as its own text.
fn is_plain(options: &Options, pattern: &str) -> bool
    ensures value { result ≡ is_plain options.now pattern.now }
    ensures read { IsTrue result → options.now.case_insensitive ≡ false →
        SameCaptures (read_re options.now pattern.now) (literal pattern.now) }
{
    options.fixed_strings || (!options.ignore_whitespace && !has_meta_character(pattern))
}

// Whether a character of the pattern has a meaning of its own.
fn has_meta_character(pattern: &str) -> bool
    ensures { result ≡ list_any is_meta (chars pattern.now) }
{
    pattern.chars().any(|c| is_meta_character(c))
}
