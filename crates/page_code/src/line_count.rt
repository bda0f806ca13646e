//! How many lines some bytes have, by a loop.
ghost use Rattle.std.specs.Prelude.{◌≡◌, length};
ghost use Rattle.grep_matcher.specs.Lines.{lines};

use grep_lines::{LineIter, laws};

/// How many lines the bytes have.
pub fn count_lines(bytes: &[u8]) -> usize
    ensures { result ≡ length (lines 10 bytes.now) }
{
    laws::lines_are_few();
    let mut total = 0;
    for _line in LineIter::new(b'\n', bytes) {
        total += 1;
    }
    total
}
