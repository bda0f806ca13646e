//! Which of some sets of bytes are rare in text.
ghost use Rattle.std.specs.Prelude.{◌≤◌, length};

use grep_matcher::ByteSet;
use memchr::arch::all::packedpair::{DefaultFrequencyRank, HeuristicFrequencyRank};

// How many sets are looked up at once.
const TOGETHER: usize = 3;

// How many times rarer later sets have to be than the first ones, since the bytes before them are
// looked at where a search begins.
const GAIN: u64 = 4;

// How often the members of a set come together where about every third byte of text is one of them.
const FREQUENT: u64 = 1 << 18;

// How many sets come before those that are rarest together in text.
pub(crate) fn lead_of(sets: &[ByteSet]) -> usize
    ensures { result ≤ length sets.now }
{
    let mut lead = 0;
    let mut least = frequency_from(sets, 0) / GAIN;
    for at in 1..sets.len() {
        let frequency = frequency_from(sets, at);
        if frequency < least && sets.len() - at >= TOGETHER {
            lead = at;
            least = frequency;
        }
    }
    lead.min(sets.len())
}

// Whether bytes of each of the sets come nearly anywhere in text.
pub(crate) fn are_frequent(sets: &[ByteSet]) -> bool {
    for k in 0..sets.len() {
        if frequency_of(&sets[k]) < FREQUENT {
            return false;
        }
    }
    true
}

// How often the sets from one on come one after another in text: a number to compare with others.
fn frequency_from(sets: &[ByteSet], at: usize) -> u64 {
    let mut frequency = 1u64;
    for k in at..sets.len() {
        if k - at < TOGETHER {
            frequency = frequency.saturating_mul(frequency_of(&sets[k]));
        }
    }
    frequency
}

// How often the ASCII members of a set come in text.
fn frequency_of(set: &ByteSet) -> u64 {
    let mut frequency = 0u64;
    for byte in 0..128u8 {
        if set.contains(byte) {
            frequency = frequency.saturating_add(1u64 << (DefaultFrequencyRank.rank(byte) / 16));
        }
    }
    frequency
}
