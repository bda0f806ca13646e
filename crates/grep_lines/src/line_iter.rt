//! The lines of some bytes as an iterator.
ghost use Rattle.std.specs.Prelude.{◌≡◌, [], ◌∷◌, List, ℕ, length, MatchOption};
ghost use Rattle.std.specs.Iterator.{at_most};
ghost use Rattle.grep_matcher.specs.Lines.{lines};

use crate::line_step::first_line_length;
use std::marker::Model;

/// The lines of some bytes, in order, each with its terminator.
#[derive(Debug, Drop)]
pub struct LineIter<'b> {
    terminator: u8,
    bytes: &'b [u8],
}

impl<'b> Model for LineIter<'b> {
    ghost use Rattle.std.specs.Prelude.{ℕ, List};
    ghost use Rattle.grep_matcher.specs.Lines.{lines};

    ghost Value = { List (List ℕ) };

    ghost view = { λ i. lines i.terminator i.bytes.now };
}

impl<'b> LineIter<'b> {
    /// The lines of the bytes, split at the byte `terminator`.
    #[inline]
    pub fn new(terminator: u8, bytes: &'b [u8]) -> LineIter<'b>
        ensures { result ≡ lines terminator bytes.now }
    {
        LineIter { terminator, bytes }
    }
}

impl<'b> Iterator for LineIter<'b> {
    type Item = &'b [u8];

    ghost next_gives = { λ s r t. MatchOption r ((s ≡ []) × (t ≡ [])) (λ line. s ≡ line.now ∷ t) };

    ghost remaining = { λ s. at_most (length s) };

    #[inline]
    fn next(&mut self) -> Option<&'b [u8]> {
        if self.bytes.is_empty() {
            return None;
        }
        let (line, rest) = self
            .bytes
            .split_at(first_line_length(self.terminator, self.bytes));
        self.bytes = rest;
        Some(line)
    }
}
