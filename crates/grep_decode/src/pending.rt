//! Decoded bytes that weren't given yet.
ghost use Rattle.std.specs.Prelude.{◌≡◌, ◌≤◌, ◌-◌, ◌++◌, ℕ, List, [], length, take, drop, min};
ghost use Rattle.std.specs.Prelude.{true, ◌↔◌};

use std::marker::Model;

// How many bytes there are at most: those of the longest scalar value.
const MOST: usize = 4;

// At most four decoded bytes.
#[derive(Drop)]
pub(crate) struct Pending {
    bytes: [u8; 4],
    start: usize,
    end: usize,
}

impl Model for Pending {
    ghost Value = { List ℕ };

    ghost view = { λ p. take (p.end - p.start) (drop p.start p.bytes) };

    ghost invariant = { λ p. (p.start ≤ p.end) × (p.end ≤ 4) };
}

impl Pending {
    // No bytes.
    pub(crate) fn new() -> Pending
        ensures { result ≡ [] }
    {
        Pending {
            bytes: [0; 4],
            start: 0,
            end: 0,
        }
    }

    // These bytes.
    pub(crate) fn of(bytes: &[u8]) -> Pending
        requires { length bytes.now ≤ 4 }
        ensures { result ≡ bytes.now }
    {
        let mut copy = [0; 4];
        copy[..bytes.len()].copy_from_slice(bytes);
        Pending {
            bytes: copy,
            start: 0,
            end: bytes.len(),
        }
    }

    // Whether there are none.
    pub(crate) fn is_empty(&self) -> bool
        ensures { result ≡ true ↔ self.now ≡ [] }
    {
        self.start == self.end
    }

    // How many there are.
    pub(crate) fn len(&self) -> usize
        ensures { result ≡ length self.now }
    {
        self.end - self.start
    }

    // Gives bytes from the front, as far as there is room, and returns how many.
    pub(crate) fn give(&mut self, buffer: &mut [u8]) -> usize
        ensures count { result ≡ min (length self.old) (length buffer.new) }
        ensures bytes { self.old ≡ take result buffer.new ++ self.new }
    {
        let count = (self.end - self.start).min(buffer.len());
        let from = self.start;
        buffer[..count].copy_from_slice(&self.bytes[from..from + count]);
        self.start += count;
        count
    }
}
