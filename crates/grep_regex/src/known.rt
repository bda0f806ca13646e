//! What is known of matches by the bytes with which they begin.
ghost use Rattle.std.specs.Prelude.{◌≤◌, length};
ghost use Rattle.grep_regex.specs.Choices.{items_of};
ghost use Rattle.grep_regex.specs.Classes.{IsPrefix};
ghost use Rattle.grep_regex.specs.Known.{IsKnown};
ghost use Rattle.grep_regex.specs.Views.{program_re};

use crate::asked::Asked;
use crate::classes::{Start, find_start, first_size};
use crate::prefix::Prefix;
use crate::regex::Regex;

// What is known of the first match from a position on.
#[derive(Clone, Copy)]
pub(crate) enum Known {
    // The answer to what is asked.
    Answer(Option<(usize, usize)>),
    // No match starts before this position.
    From(usize),
}

// What the sets decide of the first match from a position on.
#[inline]
pub(crate) fn known_by(
    regex: &Regex,
    prefix: &Prefix,
    haystack: &[u8],
    start: usize,
    asked: Asked,
) -> Known
    requires start { start ≤ length haystack.now }
    requires is_prefix { ∥ IsPrefix (program_re regex.now) (items_of prefix.now.choices.items)
        prefix.now.has_sizes ∥₁ }
    ensures { IsKnown regex.now asked haystack.now start result }
{
    match find_start(prefix, haystack, start, asked) {
        Start::Match(at) => match asked {
            Asked::FirstMatch => match first_size(&prefix.choices, haystack, at) {
                Some(size) if prefix.has_sizes => Known::Answer(Some((at, at + size))),
                _ => Known::From(at),
            },
            Asked::AnyMatch => Known::Answer(Some((at, at))),
            Asked::Start => Known::Answer(Some((at, at))),
        },
        Start::From(at) => Known::From(at),
        Start::Nowhere => Known::Answer(None),
    }
}
