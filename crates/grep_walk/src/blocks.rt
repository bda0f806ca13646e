//! The matches of a search across lines, and the units of lines that they touch, one after another.
ghost use Rattle.std.specs.Prelude.{◌≡◌, ◌≤◌, ◌<◌, ◌+◌, ◌-◌, ◌^◌, ℕ, true, false, List, length};
ghost use Rattle.std.specs.Prelude.{IfOk, IfErr, IfSome, IfNone};
ghost use Rattle.std.specs.Option.{option_map};
ghost use Rattle.grep_lines.specs.Positions.{IsLineStart};
ghost use Rattle.grep_matcher.specs.Lines.{byte_of};
ghost use Rattle.grep_definitions.specs.Plans.{IsAskedAfter, IsAskedAt, is_below};
ghost use Rattle.grep_definitions.specs.Plans.{position_after};
ghost use Rattle.grep_walk.specs.TouchedUnits.{AreFound, AreLeft, IsFound, HasNoMore};
ghost use Rattle.grep_walk.specs.TouchedUnits.{IsPart, IsUnit};

use crate::config::Config;
use grep_lines::locate;
use grep_matcher::{Match, Matcher};

/// How far a search across lines has looked for matches. The block of a match is the whole lines
/// that it extends over, and a unit is a longest run of lines that matches touch.
#[derive(Clone, Copy)]
pub struct Blocks {
    /// Where the next match is looked for.
    pub position: usize,
    /// How many more matches count, if there is a limit.
    pub left: Option<u64>,
    /// Where the last unit ends, and 0 before the first.
    pub end: usize,
    /// The block of the last match, if it is after the last unit.
    pub next: Option<Match>,
}

impl Config {
    /// Finds the first match. The error is the matcher's.
    pub fn first_block<M: Matcher>(&self, matcher: &M, bytes: &[u8]) -> Result<Blocks, M::Error>
        ensures left { IfOk result (AreLeft self.now (M.facts matcher.now).meaning bytes.now) }
        ensures end { IfOk result (λ blocks. blocks.end ≡ 0) }
        ensures fault { IfErr result (λ error. (haystack : List ℕ)
            × IsAskedAt self.now (M.facts matcher.now).meaning bytes.now 0 haystack
            × (M.facts matcher.now).fails haystack error) }
    {
        let mut blocks = Blocks {
            position: 0,
            left: self.match_limit(),
            end: 0,
            next: None,
        };
        let Some(found) = self.next_match(matcher, bytes, &mut blocks)? else {
            return Ok(blocks);
        };
        blocks.next = Some(self.block_from(bytes, 0, found));
        Ok(blocks)
    }

    // Returns the next unit, and moves past it. At the end of the bytes, if there is no other, it
    // is empty. The error is the matcher's. The caller ensures that the blocks are those that the
    // step before left.
    pub(crate) fn next_unit<M: Matcher>(
        &self,
        matcher: &M,
        bytes: &[u8],
        blocks: &mut Blocks,
    ) -> Result<Match, M::Error>
        requires { AreLeft self.now (M.facts matcher.now).meaning bytes.now blocks.old }
        ensures unit { IfOk result
            (IsUnit self.now (M.facts matcher.now).meaning bytes.now blocks.old.end) }
        ensures end { IfOk result (λ unit. blocks.new.end ≡ unit.1) }
        ensures left { IfOk result (λ unit.
            AreLeft self.now (M.facts matcher.now).meaning bytes.now blocks.new) }
        ensures fault { IfErr result (λ error. (i : ℕ)
            → IsLineStart (byte_of self.now.line_terminator) bytes.now blocks.old.end i
            → (haystack : List ℕ)
            × IsAskedAt self.now (M.facts matcher.now).meaning bytes.now i haystack
            × (M.facts matcher.now).fails haystack error) }
    {
        let Some(mut unit) = blocks.next.take() else {
            blocks.end = bytes.len();
            return Ok(Match::zero(bytes.len()));
        };
        'matches: while let Some(found) = self.next_match(matcher, bytes, blocks)? {
            if is_passed(found, unit.end()) {
                continue;
            }
            let block = self.block_from(bytes, unit.end(), found);
            if unit.end() < block.start() {
                blocks.end = unit.end();
                blocks.next = Some(block);
                return Ok(unit);
            }
            unit = unit.with_end(block.end());
        }
        blocks.end = unit.end();
        Ok(unit)
    }

    // Finds the next match that counts.
    fn next_match<M: Matcher>(
        &self,
        matcher: &M,
        bytes: &[u8],
        blocks: &mut Blocks,
    ) -> Result<Option<Match>, M::Error>
        ensures some { IfOk result (λ found. IfSome found
            (IsFound self.now (M.facts matcher.now).meaning bytes.now blocks.old blocks.new)) }
        ensures none { IfOk result (λ found. IfNone found
            (HasNoMore self.now (M.facts matcher.now).meaning bytes.now blocks.old blocks.new)) }
        ensures end { blocks.new.end ≡ blocks.old.end }
        ensures next { blocks.new.next ≡ blocks.old.next }
        ensures inside { IfErr result (λ e. blocks.old.position < length bytes.now) }
        ensures fault { IfErr result (λ error. (found : List (ℕ × ℕ))
            → AreFound self.now (M.facts matcher.now).meaning bytes.now
            blocks.old.position blocks.old.left found
            → (haystack : List ℕ)
            × IsAskedAfter self.now (M.facts matcher.now).meaning bytes.now found haystack
            × (M.facts matcher.now).fails haystack error) }
    {
        if blocks.position >= bytes.len() || blocks.left == Some(0) {
            return Ok(None);
        }
        let Some(found) = matcher.find(&bytes[blocks.position..])? else {
            blocks.position = bytes.len();
            return Ok(None);
        };
        let found = found.offset(blocks.position);
        blocks.position = position_after(found);
        blocks.left = one_less(blocks.left);
        Ok(Some(found))
    }

    // The whole lines that a match extends over, of the bytes from a line on.
    fn block_from(&self, bytes: &[u8], low: usize, found: Match) -> Match
        requires low { low ≤ found.1 }
        requires within { found.1 ≤ length bytes.now }
        ensures { IsPart (byte_of self.now.line_terminator) bytes.now low found result }
    {
        let part = Match::new(found.start().saturating_sub(low), found.end() - low);
        locate(&bytes[low..], self.line_terminator.as_byte(), part).offset(low)
    }
}

// Whether a match begins before a position and ends no later.
fn is_passed(found: Match, position: usize) -> bool
    ensures yes { result ≡ true → (found.0 < position) × (found.1 ≤ position) }
    ensures not_yet { result ≡ false → found.0 < position → position < found.1 }
{
    found.start() < position && found.end() <= position
}

// Where the match after a match is looked for: from its end, and after an empty match from one byte
// later.
fn position_after(found: Match) -> usize
    requires { found.1 + 1 < 2 ^ 64 }
    ensures { result ≡ position_after found }
{
    if found.is_empty() {
        found.end() + 1
    } else {
        found.end()
    }
}

// One less of a limit that isn't 0, if there is one.
fn one_less(left: Option<u64>) -> Option<u64>
    requires { is_below 0 left ≡ true }
    ensures { result ≡ option_map (λ n. n - 1) left }
{
    match left {
        Some(left) => Some(left - 1),
        None => None,
    }
}
