//! A set of bytes.
ghost use Rattle.std.specs.Prelude.{◌≡◌, ℕ, ◌||◌, ◌&&◌, ◌==◌, not, nat_lt, Bool, true, false, List};
ghost use Rattle.grep_matcher.specs.ByteSets.{holds};

use std::alloc::AllocError;
use std::marker::Model;

/// A set of bytes.
#[derive(Debug, Drop)]
pub struct ByteSet {
    members: [bool; 256],
}

impl Model for ByteSet {
    ghost Value = { List Bool };

    ghost view = { λ set. set.members };
}

/// An equal set. It takes no memory, so it never fails.
impl Clone for ByteSet {
    ghost is_clone = { λ set copy. copy ≡ set };

    ghost is_infallible = { λ _. Unit {0} };

    fn clone(&self) -> Result<ByteSet, AllocError> {
        Ok(ByteSet {
            members: self.members,
        })
    }
}

impl ByteSet {
    /// The set of no bytes.
    pub fn empty() -> ByteSet
        ensures { (byte : ℕ) → holds result byte ≡ false }
    {
        ByteSet {
            members: [false; 256],
        }
    }

    /// The set of all bytes.
    pub fn full() -> ByteSet
        ensures { (byte : ℕ) → holds result byte ≡ nat_lt byte 256 }
    {
        ByteSet {
            members: [true; 256],
        }
    }

    /// Adds a byte to the set, and changes nothing else. It has no effect if the byte is in the
    /// set.
    pub fn add(&mut self, byte: u8)
        ensures { (other : ℕ) → holds self.new other ≡ (other == byte || holds self.old other) }
    {
        self.members[byte as usize] = true;
    }

    /// Removes a byte from the set, and changes nothing else. It has no effect if the byte isn't in
    /// the set.
    pub fn remove(&mut self, byte: u8)
        ensures { (other : ℕ) →
            holds self.new other ≡ (not (other == byte) && holds self.old other) }
    {
        self.members[byte as usize] = false;
    }

    /// Whether a byte is in the set.
    pub fn contains(&self, byte: u8) -> bool
        ensures { result ≡ holds self.now byte }
    {
        self.members[byte as usize]
    }
}
