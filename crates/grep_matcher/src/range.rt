//! A range of positions.
ghost use Rattle.std.specs.Prelude.{◌≡◌, ◌≤◌, ◌<◌, ◌+◌, ◌-◌, ◌^◌, ◌↔◌, ℕ, IsTrue};

use std::marker::Model;
use std::ops::Range;
use std::slice::SliceIndex;

/// A range of positions in a haystack, in bytes, from its start up to its end, which is at least
/// its start.
#[derive(Clone, Copy, PartialEq, Eq, Debug)]
pub struct Match {
    start: usize,
    end: usize,
}

impl Model for Match {
    ghost Value = { ℕ × ℕ };

    ghost view = { λ m. (m.start, m.end) };

    ghost invariant = { λ m. m.start ≤ m.end };

    ghost inverse = { λ v. record { start = v.0; end = v.1 } };
}

impl Match {
    /// The range from `start` up to `end`. The caller ensures that `start` is at most `end`.
    #[inline]
    pub fn new(start: usize, end: usize) -> Match
        requires { start ≤ end }
        ensures { result ≡ (start, end) }
    {
        Match { start, end }
    }

    /// The empty range at a position.
    #[inline]
    pub fn zero(offset: usize) -> Match
        ensures { result ≡ (offset, offset) }
    {
        Match {
            start: offset,
            end: offset,
        }
    }

    /// The position of the first byte of the range.
    #[inline]
    pub fn start(&self) -> usize
        ensures value { result ≡ self.now.0 }
        ensures ordered { self.now.0 ≤ self.now.1 }
    {
        self.start
    }

    /// The position after the last byte of the range. It is at least `start`.
    #[inline]
    pub fn end(&self) -> usize
        ensures value { result ≡ self.now.1 }
        ensures ordered { self.now.0 ≤ self.now.1 }
    {
        self.end
    }

    /// The positions of the range, for an index: `&haystack[found.range()]` is what matched.
    #[inline]
    pub fn range(&self) -> Range<usize>
        ensures start { result.start ≡ self.now.0 }
        ensures end { result.end ≡ self.now.1 }
        ensures ordered { result.start ≤ result.end }
    {
        self.start..self.end
    }

    /// The length of the range, in bytes.
    #[inline]
    pub fn len(&self) -> usize
        ensures { result ≡ self.now.1 - self.now.0 }
    {
        self.end - self.start
    }

    /// Whether the range is empty.
    #[inline]
    pub fn is_empty(&self) -> bool
        ensures { IsTrue result ↔ (self.now.0 ≡ self.now.1) }
    {
        self.start == self.end
    }

    /// The range with both ends moved up by `amount`. The caller ensures that the new end fits in a
    /// `usize`.
    #[inline]
    pub fn offset(&self, amount: usize) -> Match
        requires { self.now.1 + amount < 2 ^ 64 }
        ensures { result ≡ (self.now.0 + amount, self.now.1 + amount) }
    {
        Match {
            start: self.start + amount,
            end: self.end + amount,
        }
    }

    /// The range from the same start up to `end`. The caller ensures that the start is at most
    /// `end`.
    #[inline]
    pub fn with_end(&self, end: usize) -> Match
        requires { self.now.0 ≤ end }
        ensures { result ≡ (self.now.0, end) }
    {
        Match {
            start: self.start,
            end,
        }
    }
}

/// What `get` of a haystack gives for the range: the bytes in it, or `None` if it ends past the end
/// of the haystack.
impl<'h> SliceIndex<&'h [u8]> for Match {
    ghost use Rattle.std.specs.Slice.{IsGetRangeResult};

    type Output = &'h [u8];

    ghost get_gives = { λ m haystack bytes. IsGetRangeResult haystack.now m.0 m.1 bytes };

    fn pick(self, haystack: &'h [u8]) -> Option<&'h [u8]> {
        haystack.get(self.start..self.end)
    }
}
