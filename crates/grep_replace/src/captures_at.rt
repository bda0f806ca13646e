//! The trait of a pattern whose matches have groups.
ghost use Rattle.std.specs.Prelude.{◌≡◌, ◌<◌, ◌≤◌, ℕ, List, [], length, Option, Some};
ghost use Rattle.std.specs.Prelude.{IfOk, OnOk};
ghost use Rattle.grep_replace.specs.Groups.{IsOfMatch, LieWithin};

use grep_matcher::{FindAt, Match};
use std::alloc::AllocError;

/// A matcher that also finds the groups of a match: the parts of it that a part of the pattern
/// matches, by their numbers. The first is the match itself.
pub trait CapturesAt: FindAt {
    /// The groups of the first match of a haystack that starts at a position or after it, each if
    /// it takes part in the match; none without a match.
    ghost groups_at: { Self → List ℕ → ℕ → List (Option (ℕ × ℕ)) };

    /// There are none from a position past the haystack.
    ghost none_past: { (m : Self) (haystack : List ℕ) (start : ℕ) → length haystack < start
        → groups_at m haystack start ≡ [] };

    /// The first match of a haystack that starts at `start` or after it, as `find_at` gives it,
    /// with its groups in `groups`, in place of what was there: the first is the match, and each
    /// lies in the haystack. Without a match there are none. The only error is being out of memory.
    /// The caller ensures that `start` is at most the haystack's length.
    fn captures_at(
        &self,
        haystack: &[u8],
        start: usize,
        groups: &mut Vec<Option<Match>>,
    ) -> Result<Option<Match>, AllocError>
        requires { start ≤ length haystack.now }
        ensures value { IfOk result (λ m. m ≡ Self.first_at self.now haystack.now start) }
        ensures groups { OnOk result (groups.new.items ≡ groups_at self.now haystack.now start) }
        ensures whole { IfOk result (IsOfMatch groups.new.items) }
        ensures within { OnOk result (LieWithin (length haystack.now) groups.new.items) };

    /// The groups of the first match from a position on are also those from the start of that match
    /// on.
    ghost same_from_start: { (m : Self) (haystack : List ℕ) (position start end : ℕ)
        → Self.first_at m haystack position ≡ Some (start, end)
        → groups_at m haystack start ≡ groups_at m haystack position };
}

/// A reference is the matcher that it refers to.
impl<M: CapturesAt> CapturesAt for &M {
    ghost groups_at = { λ m. M.groups_at m.now };

    ghost none_past = { λ m. M.none_past m.now };

    ghost same_from_start = { λ m. M.same_from_start m.now };

    fn captures_at(
        &self,
        haystack: &[u8],
        start: usize,
        groups: &mut Vec<Option<Match>>,
    ) -> Result<Option<Match>, AllocError> {
        (**self).captures_at(haystack, start, groups)
    }
}
