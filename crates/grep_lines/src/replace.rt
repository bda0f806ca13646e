//! Replacing a byte.
ghost use Rattle.std.specs.Prelude.{◌≡◌, ◌==◌, map, if◌then◌else◌, Option, None};
ghost use Rattle.std.specs.List.{position};

use memchr::memchr;

/// Replaces every `src` in some bytes by `new`, and returns the index of the first. If both are the
/// same byte, nothing changes and the result is `None`. Bytes without `src` are only looked at.
pub fn replace_bytes(bytes: &mut [u8], src: u8, new: u8) -> Option<usize>
    ensures bytes { bytes.new ≡ map (λ b. if b == src then new else b) bytes.old }
    ensures first { result ≡ (if src == new then None else position (λ b. b == src) bytes.old) }
{
    if src == new {
        return None;
    }
    let first = memchr(src, bytes)?;
    replace_each(&mut bytes[first..], src, new);
    Some(first)
}

// Replaces every `src` in bytes that are looked at one by one.
fn replace_each(bytes: &mut [u8], src: u8, new: u8)
    ensures { bytes.new ≡ map (λ b. if b == src then new else b) bytes.old }
{
    for byte in bytes.iter_mut() {
        *byte = if *byte == src { new } else { *byte };
    }
}
