//! What is known of the matches of an expression without an engine.
ghost use Rattle.std.specs.Prelude.{◌≡◌, ◌≤◌, length, IfOk, IfSome};
ghost use Rattle.std.specs.Arc.{arc_value};
ghost use Rattle.regex_hir.specs.Meaning.{meaning};
ghost use Rattle.grep_regex.specs.Choices.{items_of};
ghost use Rattle.grep_regex.specs.Classes.{IsPrefix};
ghost use Rattle.grep_regex.specs.Spelled.{IsSpelled};

use crate::asked::Asked;
use crate::known::{Known, known_by};
use crate::literal::{matcher_of, occurrence};
use crate::prefix::Prefix;
use crate::regex::Regex;
use grep_matcher::LiteralMatcher;
use std::alloc::{AllocError, Global};

// An expression, with what finds its matches sooner than an engine does. It isn't written to, so it
// is in no cell.
pub(crate) struct Shortcut<'r> {
    pub(crate) regex: &'r Regex,
    // For an expression that is a literal.
    literal: Option<LiteralMatcher<'r>>,
    // For an expression whose matches their first bytes decide: the sets of these.
    prefix: Option<Prefix>,
    ghost spelled: { ∥ IfSome literal
        (IsSpelled (meaning (arc_value regex.now.shared).programs.finding.hir)) ∥₁ },
    ghost is_prefix: { ∥ IfSome prefix
        (λ p. IsPrefix (meaning (arc_value regex.now.shared).programs.finding.hir)
        (items_of p.choices.items) p.has_sizes) ∥₁ },
}

// Written out, so that a caller's proof sees one call.
impl<'r> Drop for Shortcut<'r> {
    fn drop(self) {
        let Shortcut {
            regex: _regex,
            literal: _literal,
            prefix: _prefix,
        } = self;
    }
}

impl<'r> Shortcut<'r> {
    ghost use Rattle.grep_regex.specs.Known.{IsKnown};

    pub(crate) fn new(alloc: Global, regex: &'r Regex) -> Result<Shortcut<'r>, AllocError>
        ensures { IfOk result (λ s. s.regex.now ≡ regex.now) }
    {
        match regex.prefix(alloc) {
            Ok(prefix) => Ok(Shortcut {
                regex,
                literal: matcher_of(regex),
                prefix,
            }),
            Err(error) => Err(error),
        }
    }

    // What is known of the first match from a position on in a haystack of which all is seen.
    #[inline]
    pub(crate) fn look(&self, haystack: &[u8], start: usize, asked: Asked) -> Known
        requires { start ≤ length haystack.now }
        ensures { IsKnown self.now.regex.now asked haystack.now start result }
    {
        match &self.literal {
            Some(literal) => Known::Answer(occurrence(literal, haystack, start)),
            None => self.look_by_sets(haystack, start, asked),
        }
    }

    // What is known of the first match from a position on, by the sets that an expression begins
    // with. The expression is no literal.
    #[inline]
    fn look_by_sets(&self, haystack: &[u8], start: usize, asked: Asked) -> Known
        requires { start ≤ length haystack.now }
        ensures { IsKnown self.now.regex.now asked haystack.now start result }
    {
        match &self.prefix {
            Some(prefix) if prefix.answers(asked) => {
                known_by(self.regex, prefix, haystack, start, asked)
            }
            _ => Known::From(start),
        }
    }
}
