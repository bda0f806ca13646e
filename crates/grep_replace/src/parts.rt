//! The parts of some bytes that match.
ghost use Rattle.std.specs.Prelude.{◌≡◌, ◌<◌, ◌^◌, ◌++◌, ◌∷◌, [], IfErr, IfOk, OnOk, length};
ghost use Rattle.std.specs.Prelude.{if◌then◌else◌, ◌-◌, ◌≤◌, OnErr, Some, vec_capacity};
ghost use Rattle.std.specs.Prelude.{vec_len};
ghost use Rattle.grep_replace.specs.MatchedParts.{AreInOrder, LiesFrom, below, first_from};
ghost use Rattle.grep_replace.specs.MatchedParts.{found_from, is_passed, parts_in};
ghost use Rattle.grep_replace.specs.MatchedParts.{position_after};
ghost use Rattle.grep_replace.specs.PartsErrors.{IsPartsError};

use grep_matcher::{FindAt, Match};
use std::alloc::AllocError;

/// Why the parts of some bytes aren't found. It takes no more room than the matcher's error.
#[derive(Debug, Drop)]
pub enum PartsError<E> {
    /// Memory is out.
    Memory,
    /// The matcher's error.
    Matcher(E),
}

/// Finds the parts of `bytes` that match, in order: the successive matches of `matcher` from
/// `start` on. They come in place of what was in `parts`.
///
/// A part has its positions in bytes, counted from `start`, and so has `limit`. Only a match that
/// starts before the limit and ends by it is a part, and the first one that doesn't ends the
/// search. With a limit of the number of bytes from `start` on, an empty match at their very end
/// isn't a part, and with one more it is.
///
/// The next match is looked for from where the one before ended, or from one byte later if that one
/// is empty. An empty match right where the one before ended isn't a part. The matcher sees the
/// bytes before `start`, as in `find_at`.
///
/// The error is `Memory` if memory is out, and else `Matcher` with the matcher's error for `bytes`.
/// What `parts` has after an error isn't promised. The caller ensures that `start` is at most the
/// length of `bytes`.
pub fn find_parts<M: FindAt>(
    parts: &mut Vec<Match>,
    matcher: &M,
    bytes: &[u8],
    start: usize,
    limit: usize,
) -> Result<(), PartsError<M::Error>>
    requires { start ≤ length bytes.now }
    ensures parts { OnOk result (parts.new.items
        ≡ parts_in (first_from (M.first_at matcher.now bytes.now) start)
        (length bytes.now - start) limit) }
    ensures ordered { OnOk result (AreInOrder 0 limit parts.new.items) }
    ensures error { IfErr result (IsPartsError (M.facts matcher.now).fails bytes.now) }
{
    parts.clear();
    let mut position = 0;
    let mut end = None;
    loop {
        match find_from(matcher, bytes, start, limit, position) {
            Ok(Some(found)) => {
                if let Err(_) = push_part(parts, end, found) {
                    return Err(PartsError::Memory);
                }
                end = Some(found.end());
                position = position_after(&found);
            }
            Ok(None) => return Ok(()),
            Err(error) => return Err(PartsError::Matcher(error)),
        }
    }
}

// Pushes a match, unless it is empty and the one before it ended there. It fails only if the vector
// had no room for it, so that it asked for memory.
fn push_part(parts: &mut Vec<Match>, end: Option<usize>, found: Match) -> Result<(), AllocError>
    ensures parts { OnOk result (parts.new.items
        ≡ (if is_passed end found then parts.old.items else parts.old.items ++ found ∷ [])) }
    ensures fails { OnErr result (vec_capacity parts.old ≤ vec_len parts.old) }
{
    if is_passed(end, &found) {
        return Ok(());
    }
    match parts.push(found) {
        Ok(()) => Ok(()),
        Err(error) => Err(AllocError::from(error)),
    }
}

// The first match from a position on that starts before a limit and ends by it, all counted from a
// start in the bytes.
fn find_from<M: FindAt>(
    matcher: &M,
    bytes: &[u8],
    start: usize,
    limit: usize,
    position: usize,
) -> Result<Option<Match>, M::Error>
    requires { start ≤ length bytes.now }
    ensures value { IfOk result (λ m. m
        ≡ found_from (first_from (M.first_at matcher.now bytes.now) start)
        (length bytes.now - start) limit position) }
    ensures lies { IfOk result (LiesFrom position (length bytes.now - start) limit) }
    ensures error { IfErr result ((M.facts matcher.now).fails bytes.now) }
{
    if position > bytes.len() - start {
        return Ok(None);
    }
    match matcher.find_at(bytes, start + position) {
        Ok(Some(found)) => Ok(part_below(&found, start, limit)),
        Ok(None) => Ok(None),
        Err(error) => Err(error),
    }
}

// A match, counted from a start, if it starts before a limit and ends by it when it is counted so.
fn part_below(found: &Match, start: usize, limit: usize) -> Option<Match>
    requires from { start ≤ found.now.0 }
    requires ordered { found.now.0 ≤ found.now.1 }
    ensures { result ≡ below limit (Some (found.now.0 - start, found.now.1 - start)) }
{
    let part = Match::new(found.start() - start, found.end() - start);
    if part.start() < limit && part.end() <= limit {
        Some(part)
    } else {
        None
    }
}

// Whether a match is empty, and the one before it ended there.
pub(crate) fn is_passed(end: Option<usize>, found: &Match) -> bool
    ensures { result ≡ is_passed end found.now }
{
    match end {
        Some(end) => found.start() == found.end() && found.end() == end,
        None => false,
    }
}

// Where the search for the next match begins: at the end of a match, or one byte later if the match
// is empty.
pub(crate) fn position_after(found: &Match) -> usize
    requires { found.now.1 < 2 ^ 63 }
    ensures { result ≡ position_after found.now }
{
    if found.start() == found.end() {
        found.end() + 1
    } else {
        found.end()
    }
}
