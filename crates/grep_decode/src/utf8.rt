//! UTF-8 with its ill-formed parts replaced.
ghost use Rattle.std.specs.Prelude.{◌≡◌, ◌⊎◌, ◌<◌, ◌≤◌, ◌+◌, ◌++◌, ℕ, List, [], length, take, drop};
ghost use Rattle.std.specs.Prelude.{IsTrue, IsUtf8};
ghost use Rattle.std.specs.Str.Lossy.{utf8_lossy};
ghost use Rattle.grep_decode.specs.Utf8.{IsUnfinishedUtf8};
ghost use Rattle.grep_decode.specs.Utf8.{IsReplaced};

use crate::progress::Progress;
use std::str;

// The bytes of U+FFFD.
const REPLACEMENT: [u8; 3] = [0xEF, 0xBF, 0xBD];

// The front of some bytes: how many are well-formed, and how many after them are the ill-formed
// part that one U+FFFD replaces. That part has no bytes at the end, and where more bytes are needed
// to decide.
#[derive(Clone, Copy)]
struct Front {
    well_formed: usize,
    ill_formed: usize,
}

// Returns the front of some bytes. If `is_last`, no more bytes follow them.
fn scan(is_last: bool, bytes: &[u8]) -> Front
    ensures within { result.well_formed + result.ill_formed ≤ length bytes.now }
    ensures well_formed { IsUtf8 (take result.well_formed bytes.now) }
    ensures ill_formed { 0 < result.ill_formed
        → IsReplaced is_last bytes.now result.well_formed (result.well_formed + result.ill_formed) }
    ensures undecided { result.ill_formed ≡ 0 → (length (drop result.well_formed bytes.now) < 4)
        × (IsTrue is_last → drop result.well_formed bytes.now ≡ []) }
    ensures unfinished { result.ill_formed ≡ 0
        → IsUnfinishedUtf8 (drop result.well_formed bytes.now) }
{
    let error = match str::from_utf8(bytes) {
        Ok(_) => {
            return Front {
                well_formed: bytes.len(),
                ill_formed: 0,
            };
        }
        Err(error) => error,
    };
    let well_formed = error.valid_up_to();
    match error.error_len() {
        Some(ill_formed) => Front {
            well_formed,
            ill_formed,
        },
        None => {
            if is_last {
                return Front {
                    well_formed,
                    ill_formed: bytes.len() - well_formed,
                };
            }
            Front {
                well_formed,
                ill_formed: 0,
            }
        }
    }
}

// Returns the front of `input` with at most `room` well-formed bytes. It reads no more than `room`
// bytes.
fn scan_within(is_last: bool, input: &[u8], room: usize) -> Front
    ensures within { result.well_formed + result.ill_formed ≤ length input.now }
    ensures fits { result.well_formed ≤ room }
    ensures well_formed { IsUtf8 (take result.well_formed input.now) }
    ensures ill_formed { 0 < result.ill_formed
        → IsReplaced is_last input.now result.well_formed (result.well_formed + result.ill_formed) }
    ensures undecided { result.ill_formed ≡ 0 → (room < result.well_formed + 4)
        ⊎ ((length (drop result.well_formed input.now) < 4)
        × (IsTrue is_last → drop result.well_formed input.now ≡ [])) }
    ensures unfinished { result.ill_formed ≡ 0 → (room < result.well_formed + 4)
        ⊎ IsUnfinishedUtf8 (drop result.well_formed input.now) }
{
    if input.len() <= room {
        return scan(is_last, input);
    }
    scan(false, &input[..room])
}

// Returns the length of `bytes`, or a few bytes less, if so many at the front are well-formed, and
// otherwise 0.
fn well_formed_front(bytes: &[u8]) -> usize
    ensures within { result ≤ length bytes.now }
    ensures well_formed { IsUtf8 (take result bytes.now) }
{
    let end = last_start(bytes);
    if simdutf8::is_utf8(&bytes[..end]) {
        return end;
    }
    0
}

// Returns the offset of the last byte that begins a sequence of two bytes or more, if it is one of
// the last three, and otherwise the length. A sequence that is cut at the end begins there.
fn last_start(bytes: &[u8]) -> usize
    ensures within { result ≤ length bytes.now }
{
    let len = bytes.len();
    for back in 1..4 {
        if back <= len && bytes[len - back] >= 0xC0 {
            return len - back;
        }
    }
    len
}

// Writes bytes to `output` from `at` on.
fn put(bytes: &[u8], output: &mut [u8], at: usize)
    requires room { at + length bytes.now ≤ length output.old }
    ensures len { length output.new ≡ length output.old }
    ensures bytes { take (at + length bytes.now) output.new ≡ take at output.old ++ bytes.now }
{
    output[at..at + bytes.len()].copy_from_slice(bytes);
}

// Copies well-formed bytes from the front of `input` to the front of `output`, and returns how
// many. It copies none if there is an ill-formed part in what `output` has room for.
fn copy_front(input: &[u8], output: &mut [u8]) -> usize
    ensures len { length output.new ≡ length output.old }
    ensures within { (result ≤ length input.now) × (result ≤ length output.new) }
    ensures text { (more : List ℕ)
        → utf8_lossy (input.now ++ more) ≡ take result output.new
        ++ utf8_lossy (drop result input.now ++ more) }
{
    let count = well_formed_front(&input[..input.len().min(output.len())]);
    put(&input[..count], output, 0);
    count
}

/// Decodes UTF-8 from the front of `input` into `output`.
///
/// Well-formed parts are copied, and each maximal ill-formed part becomes one U+FFFD, as in Table
/// 3-7 of the Unicode Standard. If `is_last`, no more input follows. Otherwise a sequence of at
/// most three bytes at the end of `input` that more bytes could complete isn't taken. It stops if
/// fewer than four bytes of `output` are left, or if all input that can be decided is taken. It
/// allocates nothing.
pub(crate) fn decode_utf8(is_last: bool, input: &[u8], output: &mut [u8]) -> Progress
    ensures taken { result.taken ≤ length input.now }
    ensures written { result.written ≤ length output.new }
    ensures text { (more : List ℕ) → (IsTrue is_last → more ≡ []) → utf8_lossy (input.now ++ more)
        ≡ take result.written output.new ++ utf8_lossy (drop result.taken input.now ++ more) }
    ensures stops { (length output.new < result.written + 4)
        ⊎ ((length (drop result.taken input.now) < 4)
        × (IsTrue is_last → drop result.taken input.now ≡ [])) }
    ensures unfinished { (length output.new < result.written + 4)
        ⊎ IsUnfinishedUtf8 (drop result.taken input.now) }
    ensures progress { result.written ≡ 0 → result.taken ≡ 0 }
{
    let mut taken = copy_front(input, output);
    let mut written = taken;
    while written + 4 <= output.len() {
        let front = scan_within(is_last, &input[taken..], output.len() - written);
        put(&input[taken..taken + front.well_formed], output, written);
        taken += front.well_formed;
        written += front.well_formed;
        if front.ill_formed == 0 || output.len() - written < REPLACEMENT.len() {
            break;
        }
        put(&REPLACEMENT, output, written);
        taken += front.ill_formed;
        written += REPLACEMENT.len();
    }
    Progress { taken, written }
}
