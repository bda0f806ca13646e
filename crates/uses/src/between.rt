//! The lines between two marks.
ghost use Rattle.std.specs.Prelude.{◌≡◌, true, reverse, IfOk, IfErr};
ghost use Rattle.grep_searcher.specs.Lines.{lines};
ghost use Rattle.grep_searcher.specs.SearchErrors.{is_out_of_memory};
ghost use Rattle.uses.specs.MarkedBlocks.{text_between};

use crate::filter::lines_that_match;
use grep_searcher::{EveryLine, LineTerminator, SearchError, without_terminator};
use std::alloc::Global;

/// Returns the lines of `bytes` in blocks that lie between two marks, joined, each with its
/// terminator: those after a line that is `begins`, up to the next line that is `ends`, or to the
/// end of `bytes`. The marks are left out. All lines are held at once.
///
/// The only error is being out of memory.
pub fn lines_between(
    alloc: Global,
    bytes: &[u8],
    begins: &[u8],
    ends: &[u8],
) -> Result<Vec<u8>, SearchError>
    ensures text { IfOk result (λ text. text.items
        ≡ text_between begins.now ends.now (reverse (lines 10 bytes.now))) }
    ensures error { IfErr result (λ e. is_out_of_memory e ≡ true) }
{
    let mut inside = false;
    let mut text = Vec::new(alloc);
    let lines = lines_that_match(alloc, EveryLine, bytes)?;
    for line in &lines {
        let mark = without_terminator(line, LineTerminator::Byte(b'\n'));
        if mark == begins {
            inside = true;
        } else if mark == ends {
            inside = false;
        } else if inside {
            text.extend_from_slice(line)?;
        }
    }
    Ok(text)
}
