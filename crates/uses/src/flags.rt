//! Which lines match.
ghost use Rattle.std.specs.Prelude.{◌≡◌, ◌++◌, true, IfOk, IfErr, MatchResult, OnOk};
ghost use Rattle.grep_searcher.specs.HitLines.{IsUnlimited};
ghost use Rattle.grep_searcher.specs.LineCounts.{IsLineSearch};
ghost use Rattle.grep_searcher.specs.MatcherFailures.{IsLawfulSearch};
ghost use Rattle.grep_searcher.specs.PassedCalls.{passed_call};
ghost use Rattle.grep_searcher.specs.Searches.{searched_bytes};
ghost use Rattle.uses.specs.IoFailures.{IsIoFailure, IsMemoryError};
ghost use Rattle.uses.specs.LineFlags.{flag_of, line_flags};

use grep_searcher::laws::{
    calls_are_passed, lines_are_passed, parts_are_items, searches_run, slices_fail_for,
};
use grep_searcher::sinks::{Calls, SinkCall};
use grep_searcher::{Matcher, SearchError, Searcher};
use std::alloc::{AllocError, Global};

/// Returns a flag for each line of `bytes`, decoded, in order: whether the line hits. For example,
/// the flags of `a`, `b` and `ab` for the literal `a` are true, false and true.
///
/// That is promised of a search by line without binary detection, under `passthru`, and without a
/// limit and a stop, with a matcher that is lawful for the searcher's terminator.
///
/// An error is made of the matcher's, of a configuration that the searcher refuses, or of being out
/// of memory. If the bytes have to be decoded, it may also be of the heap limit, or of more than
/// 2^64 - 1 decoded bytes.
pub fn flag_lines<M: Matcher + Drop>(
    alloc: Global,
    searcher: &mut Searcher,
    matcher: M,
    bytes: &[u8],
) -> Result<Vec<bool>, SearchError>
    ensures flags { IsLineSearch (M.facts matcher) searcher.old.settings
        → searcher.old.settings.passthru ≡ true → IsUnlimited searcher.old.settings
        → IfOk result (λ flags. flags.items ≡ line_flags searcher.old.settings
        (M.facts matcher).meaning (searched_bytes searcher.old.settings bytes.now)) }
    ensures error { IsLawfulSearch (M.facts matcher) searcher.old.settings → IfErr result
        (IsIoFailure M.Error.output (M.facts matcher) searcher.old bytes.now) }
    ensures settings { searcher.new.settings ≡ searcher.old.settings }
    ensures buffers { searcher.old.has_buffers ≡ true → searcher.new.has_buffers ≡ true }
{
    let mut flags = Vec::new(alloc);
    let mut sink = Calls(
        |call: SinkCall<'_>|
            ensures { MatchResult result (λ goes. (goes ≡ true)
                × (flags.exit.items ≡ flags.entry.items ++ flag_of (passed_call call.entry)))
                IsMemoryError }
        {
            push_flag(&mut flags, call)?;
            Ok(true)
        },
    );
    calls_are_passed::<_, bool>(&sink);
    parts_are_items::<bool>();
    searches_run::<Global, M, _>(&sink);
    slices_fail_for::<Global, M, _>(&sink);
    lines_are_passed();
    searcher.search_slice(matcher, bytes, &mut sink)?;
    Ok(flags)
}

// Adds the flag of a report. The only error is being out of memory.
fn push_flag(flags: &mut Vec<bool>, call: SinkCall<'_>) -> Result<(), AllocError>
    ensures { OnOk result (flags.new.items ≡ flags.old.items ++ flag_of (passed_call call.entry)) }
{
    match call {
        SinkCall::Match(_) => Ok(flags.push(true)?),
        SinkCall::Context(_) => Ok(flags.push(false)?),
        SinkCall::Begin | SinkCall::Break | SinkCall::BinaryData(_) | SinkCall::Finish(_) => Ok(()),
    }
}
