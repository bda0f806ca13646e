//! The numbers and the texts of all matches, by a closure.
ghost use Rattle.std.specs.Prelude.{◌≡◌, ◌⊎◌, ◌++◌, ◌∷◌, [], true, IfOk, IfErr, MatchResult};
ghost use Rattle.grep_searcher.specs.ErrorMakers.{makers_of};
ghost use Rattle.grep_searcher.specs.LineCounts.{IsLineSearch};
ghost use Rattle.grep_searcher.specs.MatcherFailures.{io_error_makers, IsLawfulSearch};
ghost use Rattle.grep_searcher.specs.MatcherFailures.{IsSliceFailure};
ghost use Rattle.grep_searcher.specs.SearchErrors.{HasText};
ghost use Rattle.grep_searcher.specs.Searches.{searched_bytes};
ghost use Rattle.uses.specs.IoFailures.{IsMemoryError};
ghost use Rattle.uses.specs.NumberedTexts.{texts_of};
ghost use Rattle.uses.specs.MatchedLines.{numbered_lines_of};

use grep_searcher::laws::{closures_fail, closures_keep_calls, searches_run, slices_fail_for};
use grep_searcher::sinks::UTF8;
use grep_searcher::{Matcher, Searcher};
use std::alloc::Global;
use std::io;

/// Returns the number and the text of each matched line of `bytes`, in order. The number is
/// counted from 1, and the text ends in the line's terminator, if it has one. If the bytes have to
/// be decoded, they are the decoded lines.
///
/// An error of the kind `OutOfMemory` is of being out of memory. One of the kind `Other` is made of
/// the matcher's, of a configuration that the searcher refuses, of a matched line that isn't
/// UTF-8, or of one without a number, if the searcher doesn't number lines. If the bytes have to be
/// decoded, it may also be of the heap limit, or, of the kind `InvalidData`, of more than 2^64 - 1
/// decoded bytes.
///
/// The lines are promised of a search by line without binary detection, for a matcher that is
/// lawful for the searcher's terminator.
pub fn numbered_lines<M: Matcher + Drop>(
    alloc: Global,
    searcher: &mut Searcher,
    matcher: M,
    bytes: &[u8],
) -> io::Result<Vec<(u64, String)>>
    ensures lines { IsLineSearch (M.facts matcher) searcher.old.settings
        → IfOk result (λ lines. texts_of lines.items
        ≡ numbered_lines_of searcher.old.settings (M.facts matcher).meaning
        (searched_bytes searcher.old.settings bytes.now)) }
    ensures error { IsLawfulSearch (M.facts matcher) searcher.old.settings → IfErr result (λ e.
        HasText e ⊎ IsSliceFailure (makers_of M.Error.output io_error_makers)
        (M.facts matcher) searcher.old bytes.now e) }
    ensures settings { searcher.new.settings ≡ searcher.old.settings }
    ensures buffers { searcher.old.has_buffers ≡ true → searcher.new.has_buffers ≡ true }
{
    let mut lines = Vec::new(alloc);
    let mut sink = UTF8(
        |number, text: &str|
            ensures { MatchResult result (λ goes. (goes ≡ true) × (texts_of lines.exit.items
                ≡ texts_of lines.entry.items ++ (number, text.now) ∷ [])) IsMemoryError }
        {
            lines.push((number, String::from_str(alloc, text)?))?;
            Ok(true)
        },
    );
    closures_keep_calls(&sink);
    closures_fail(&sink);
    searches_run::<Global, M, _>(&sink);
    slices_fail_for::<Global, M, _>(&sink);
    searcher.search_slice(matcher, bytes, &mut sink)?;
    Ok(lines)
}
