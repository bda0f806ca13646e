//! Sets that have the members of the first sets of several sequences.
ghost use Rattle.std.specs.Prelude.{All, IfOk, IsTrue};
ghost use Rattle.grep_regex.specs.Covers.{AreCovered, IsSubset};

use crate::unions::add_members;
use grep_matcher::ByteSet;
use std::alloc::{AllocError, Global};

// How many sets there are at most.
const MOST: usize = 8;

// Sets that have the ASCII members of the first sets of each sequence. That they have them is
// checked, and isn't proved of how they are made.
pub(crate) fn cover_of(alloc: Global, choices: &[Vec<ByteSet>]) -> Result<Vec<ByteSet>, AllocError>
    ensures { IfOk result (λ cover. All (λ sets. AreCovered cover.items sets.items) choices.now) }
{
    let cover = made_of(alloc, choices)?;
    if cover_all(&cover, choices) {
        return Ok(cover);
    }
    Ok(Vec::new(alloc))
}

fn made_of(alloc: Global, choices: &[Vec<ByteSet>]) -> Result<Vec<ByteSet>, AllocError> {
    let mut size = MOST;
    for i in 0..choices.len() {
        size = size.min(choices[i].len());
    }
    let mut cover = Vec::new(alloc);
    for k in 0..size {
        cover.push(members_at(choices, k))?;
    }
    Ok(cover)
}

// The members of the sets at a position.
fn members_at(choices: &[Vec<ByteSet>], position: usize) -> ByteSet {
    let mut members = ByteSet::empty();
    for i in 0..choices.len() {
        if position < choices[i].len() {
            add_members(&mut members, &choices[i][position]);
        }
    }
    members
}

// Whether the sets have the members of the first sets of each sequence.
fn cover_all(cover: &[ByteSet], choices: &[Vec<ByteSet>]) -> bool
    ensures { IsTrue result → All (λ sets. AreCovered cover.now sets.items) choices.now }
{
    for i in 0..choices.len() {
        if !are_covered(cover, &choices[i]) {
            return false;
        }
    }
    true
}

fn are_covered(cover: &[ByteSet], sets: &[ByteSet]) -> bool
    ensures { IsTrue result → AreCovered cover.now sets.now }
{
    if cover.len() > sets.len() {
        return false;
    }
    for k in 0..cover.len() {
        if !is_subset(&sets[k], &cover[k]) {
            return false;
        }
    }
    true
}

// Whether the ASCII members of a set are members of another.
fn is_subset(set: &ByteSet, other: &ByteSet) -> bool
    ensures { IsTrue result → IsSubset set.now other.now }
{
    for byte in 0..128u8 {
        if set.contains(byte) && !other.contains(byte) {
            return false;
        }
    }
    true
}
