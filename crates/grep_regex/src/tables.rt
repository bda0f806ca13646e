//! Sets of ASCII bytes as tables, in which vectors look bytes up.
ghost use Rattle.std.specs.Prelude.{◌≡◌, ◌<◌, ℕ, true, IsTrue};
ghost use Rattle.regex_literal.specs.Nibbles.{buckets_of};
ghost use Rattle.grep_matcher.specs.ByteSets.{holds};
ghost use Rattle.grep_regex.specs.Tables.{HasMembers};

use grep_matcher::ByteSet;

// For each low half of a byte a bit for each high half with which it makes a member, and for each
// high half its bit: a byte is a member if its halves have a bit in common.
#[derive(Clone, Copy)]
pub(crate) struct Table {
    pub(crate) low: [u8; 16],
    pub(crate) high: [u8; 16],
}

impl Table {
    // A table that has the ASCII members of the set with this index, if there is one.
    pub(crate) fn new(sets: &[ByteSet], index: usize) -> Table
        ensures { HasMembers sets.now index result.low result.high }
    {
        if index < sets.len() {
            return Table::of(&sets[index]);
        }
        Table::full()
    }

    // A table that has the ASCII members of a set. That it has them is checked, and isn't proved of
    // how it is made.
    fn of(set: &ByteSet) -> Table
        ensures { (byte : ℕ) → byte < 128 → holds set.now byte ≡ true
            → 0 < buckets_of result.low result.high byte }
    {
        let table = Table::made_of(set);
        if table.has_all(set) {
            return table;
        }
        Table::full()
    }

    fn made_of(set: &ByteSet) -> Table {
        let mut table = Table {
            low: [0; 16],
            high: [0; 16],
        };
        for byte in 0..128u8 {
            if set.contains(byte) {
                let bit = 1u8 << (byte / 16);
                table.low[(byte % 16) as usize] |= bit;
                table.high[(byte / 16) as usize] = bit;
            }
        }
        table
    }

    // The table that has all bytes.
    fn full() -> Table
        ensures { (byte : ℕ) → byte < 128 → 0 < buckets_of result.low result.high byte }
    {
        Table {
            low: [255; 16],
            high: [255; 16],
        }
    }

    // Whether it has the ASCII members of a set.
    fn has_all(&self, set: &ByteSet) -> bool
        ensures { IsTrue result → (byte : ℕ) → byte < 128 → holds set.now byte ≡ true
            → 0 < buckets_of self.now.low self.now.high byte }
    {
        for byte in 0..128u8 {
            if set.contains(byte) && !self.has(byte) {
                return false;
            }
        }
        true
    }

    fn has(&self, byte: u8) -> bool
        ensures { IsTrue result → 0 < buckets_of self.now.low self.now.high byte }
    {
        self.low[(byte % 16) as usize] & self.high[(byte / 16) as usize] != 0
    }
}
