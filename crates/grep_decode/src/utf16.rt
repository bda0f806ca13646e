//! UTF-16 as UTF-8.
ghost use Rattle.std.specs.Prelude.{◌≡◌, ◌⊎◌, ◌<◌, ◌≤◌, ◌+◌, ◌++◌, ◌^◌, ℕ, List, [], length, take};
ghost use Rattle.std.specs.Prelude.{drop, IsTrue, IfSome, IfNone, encode_utf8};
ghost use Rattle.grep_decode.specs.Decoded.{IsUnfinishedUtf16, utf16_text, unit_of};
ghost use Rattle.grep_decode.specs.DecodedFronts.{IsDecodedFront};

use crate::block::{BLOCK, ROOM, put_block};
use crate::byte_order::ByteOrder;
use crate::progress::Progress;

// The unit of two bytes.
fn unit_at(order: ByteOrder, first: u8, second: u8) -> u32
    ensures value { result ≡ unit_of order first second }
    ensures bound { result < 2 ^ 16 }
{
    match order {
        ByteOrder::Little => second as u32 * 256 + first as u32,
        ByteOrder::Big => first as u32 * 256 + second as u32,
    }
}

// The first scalar value of bytes of UTF-16, and how many bytes it takes; none if it depends on
// bytes that are missing.
fn next_scalar(order: ByteOrder, is_last: bool, input: &[u8]) -> Option<(u32, usize)>
    ensures scalar { IfSome result (λ r. r.0 < 0x11_0000) }
    ensures size { IfSome result (λ r. (0 < r.1) × (r.1 ≤ length input.now)) }
    ensures first { IfSome result (λ r. (more : List ℕ) → (IsTrue is_last → more ≡ [])
        → utf16_text order (input.now ++ more) ≡ encode_utf8 r.0
        ++ utf16_text order (drop r.1 input.now ++ more)) }
    ensures short { IfNone result ((length input.now < 4) × (IsTrue is_last → input.now ≡ [])) }
    ensures unfinished { IfNone result (IsUnfinishedUtf16 order input.now) }
{
    match input {
        [] => None,
        [_] => if is_last { Some((0xFFFD, 1)) } else { None },
        [first, second, ..] => {
            let unit = unit_at(order, *first, *second);
            if unit < 0xD800 || unit >= 0xE000 {
                return Some((unit, 2));
            }
            if unit >= 0xDC00 {
                return Some((0xFFFD, 2));
            }
            if input.len() < 4 {
                return if is_last {
                    Some((0xFFFD, input.len()))
                } else {
                    None
                };
            }
            let next = unit_at(order, input[2], input[3]);
            if next >= 0xDC00 && next < 0xE000 {
                Some((0x1_0000 + (unit - 0xD800) * 0x400 + (next - 0xDC00), 4))
            } else {
                Some((0xFFFD, 2))
            }
        }
    }
}

// Writes a scalar value in UTF-8 from an index on, and returns how many bytes it has.
fn put_scalar(code: u32, output: &mut [u8], at: usize) -> usize
    requires code { code < 0x11_0000 }
    requires room { at + 4 ≤ length output.old }
    ensures size { (0 < result) × (result ≤ 4) }
    ensures bytes { take (at + result) output.new ≡ take at output.old ++ encode_utf8 code }
{
    if code < 0x80 {
        output[at] = code as u8;
        return 1;
    }
    if code < 0x800 {
        output[at] = (0xC0 + code / 64) as u8;
        output[at + 1] = (0x80 + code % 64) as u8;
        return 2;
    }
    if code < 0x1_0000 {
        output[at] = (0xE0 + code / 4096) as u8;
        output[at + 1] = (0x80 + code / 64 % 64) as u8;
        output[at + 2] = (0x80 + code % 64) as u8;
        return 3;
    }
    output[at] = (0xF0 + code / 262144) as u8;
    output[at + 1] = (0x80 + code / 4096 % 64) as u8;
    output[at + 2] = (0x80 + code / 64 % 64) as u8;
    output[at + 3] = (0x80 + code % 64) as u8;
    4
}

// Writes some of the first scalar values of bytes of UTF-16 as UTF-8, as far as they are whole and
// there is room for one of four bytes: one after another, up to the second of two that are spelled
// by one unit.
#[inline(never)]
fn decode_few(order: ByteOrder, is_last: bool, input: &[u8], output: &mut [u8]) -> Progress
    ensures { IsDecodedFront order is_last input.now output.new result.taken result.written }
{
    let mut taken = 0;
    let mut written = 0;
    let mut was_one = false;
    while written + 4 <= output.len() {
        match next_scalar(order, is_last, &input[taken..]) {
            None => break,
            Some((code, _)) if was_one && code < 0x1_0000 => break,
            Some((code, size)) => {
                was_one = code < 0x1_0000;
                written += put_scalar(code, output, written);
                taken += size;
            }
        }
    }
    Progress { taken, written }
}

// Writes some of the first scalar values of bytes of UTF-16 as UTF-8: those of the units of a block
// up to the first surrogate, or else as `decode_few` does.
fn decode_some(order: ByteOrder, is_last: bool, input: &[u8], output: &mut [u8]) -> Progress
    ensures { IsDecodedFront order is_last input.now output.new result.taken result.written }
{
    if input.len() >= BLOCK && output.len() >= ROOM {
        let step = put_block(order, &input[..BLOCK], &mut output[..ROOM]);
        if step.written > 0 {
            return step;
        }
    }
    decode_few(order, is_last, input, output)
}

// Writes bytes of UTF-16 as UTF-8, as far as they are whole and there is room for a scalar value of
// four bytes.
pub(crate) fn decode_utf16(
    order: ByteOrder,
    is_last: bool,
    input: &[u8],
    output: &mut [u8],
) -> Progress
    ensures taken { result.taken ≤ length input.now }
    ensures written { result.written ≤ length output.new }
    ensures text { (more : List ℕ) → (IsTrue is_last → more ≡ []) →
        utf16_text order (input.now ++ more) ≡ take result.written output.new ++ utf16_text order
        (drop result.taken input.now ++ more) }
    ensures stops { (length output.new < result.written + 4)
        ⊎ ((length (drop result.taken input.now) < 4)
        × (IsTrue is_last → drop result.taken input.now ≡ [])) }
    ensures unfinished { (length output.new < result.written + 4)
        ⊎ IsUnfinishedUtf16 order (drop result.taken input.now) }
    ensures progress { result.written ≡ 0 → result.taken ≡ 0 }
{
    let mut taken = 0;
    let mut written = 0;
    while written + 4 <= output.len() {
        let step = decode_some(order, is_last, &input[taken..], &mut output[written..]);
        if step.written == 0 {
            break;
        }
        taken += step.taken;
        written += step.written;
    }
    Progress { taken, written }
}
