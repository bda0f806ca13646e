//! Whether the words of two sequences of sets of bytes are those of one.
ghost use Rattle.std.specs.Prelude.{◌≡◌, ◌<◌, ℕ, ◌||◌, length, set, IsTrue, IfSome};
ghost use Rattle.grep_matcher.specs.ByteSets.{holds};
ghost use Rattle.grep_regex.specs.Unions.{AreSame, DifferAt, IsUnion};

use grep_matcher::ByteSet;

// Adds the ASCII words of other sets, if the two differ at one position at most, and otherwise
// changes nothing. Returns whether they were added.
pub(crate) fn unite(sets: &mut Vec<ByteSet>, more: &[ByteSet]) -> bool
    ensures { IsTrue result → IsUnion sets.old.items more.now sets.new.items }
{
    match difference(sets, more) {
        Some(index) => {
            add_members(&mut sets[index], &more[index]);
            true
        }
        None => false,
    }
}

// A position such that the sets are the same at all others, if there is one.
fn difference(sets: &[ByteSet], more: &[ByteSet]) -> Option<usize>
    ensures { IfSome result (DifferAt sets.now more.now) }
{
    if sets.is_empty() || sets.len() != more.len() {
        return None;
    }
    let mut index = 0;
    for i in 0..sets.len() {
        if !are_same(&sets[i], &more[i]) {
            index = i;
        }
    }
    if are_same_but(sets, more, index) {
        Some(index)
    } else {
        None
    }
}

// Whether the sets are the same at all positions but one.
fn are_same_but(sets: &[ByteSet], more: &[ByteSet], index: usize) -> bool
    requires long { length more.now ≡ length sets.now }
    requires inside { index < length sets.now }
    ensures { IsTrue result → DifferAt sets.now more.now index }
{
    for i in 0..sets.len() {
        if i != index && !are_same(&sets[i], &more[i]) {
            return false;
        }
    }
    true
}

// Whether two sets have the same ASCII members.
fn are_same(set: &ByteSet, other: &ByteSet) -> bool
    ensures { IsTrue result → AreSame set.now other.now }
{
    for byte in 0..128u8 {
        if set.contains(byte) != other.contains(byte) {
            return false;
        }
    }
    true
}

// Adds the ASCII members of another set.
pub(crate) fn add_members(set: &mut ByteSet, more: &ByteSet)
    ensures { (byte : ℕ) → byte < 128
        → holds set.new byte ≡ (holds set.old byte || holds more.now byte) }
{
    for byte in 0..128u8 {
        if more.contains(byte) {
            set.add(byte);
        }
    }
}
