//! A report of the matches with the lines near them, by a closure that gets each call.
ghost use Rattle.std.specs.Prelude.{◌≡◌, ◌++◌, ◌∷◌, true, IfOk, IfErr, MatchResult, OnOk};
ghost use Rattle.grep_searcher.specs.MatcherFailures.{IsLawfulSearch};
ghost use Rattle.grep_searcher.specs.PassedCalls.{passed_call};
ghost use Rattle.grep_searcher.specs.Plans.{IsLawful, search_plan};
ghost use Rattle.grep_searcher.specs.Searches.{searched_bytes};
ghost use Rattle.uses.specs.IoFailures.{IsIoFailure, IsMemoryError};
ghost use Rattle.uses.specs.MarkedCalls.{marked_text, one_before, report_of};

use grep_searcher::laws::{calls_are_passed, searches_run, slices_fail_for};
use grep_searcher::sinks::{Calls, SinkCall};
use grep_searcher::{
    BinaryDetection, ConfigError, Matcher, SearchError, Searcher, SearcherBuilder,
};
use std::alloc::{AllocError, Global};

/// Returns a report of `bytes`, decoded: each match after a `>`, and each line near one after a
/// space. Two dashes are between two reported lines if lines were left out there. How many lines
/// near a match are reported is in the searcher's settings.
///
/// An error is made of the matcher's, of a configuration that the searcher refuses, or of being out
/// of memory. If the bytes have to be decoded, it may also be of the heap limit, or of more than
/// 2^64 - 1 decoded bytes.
pub fn in_context<M: Matcher + Drop>(
    alloc: Global,
    searcher: &mut Searcher,
    matcher: M,
    bytes: &[u8],
) -> Result<Vec<u8>, SearchError>
    ensures report { IsLawful (M.facts matcher) searcher.old.settings
        → searcher.old.settings.binary_detection ≡ BinaryDetection.None → IfOk result (λ text.
        text.items ≡ report_of (search_plan searcher.old.settings (M.facts matcher).meaning
        (searched_bytes searcher.old.settings bytes.now))) }
    ensures error { IsLawfulSearch (M.facts matcher) searcher.old.settings → IfErr result
        (IsIoFailure M.Error.output (M.facts matcher) searcher.old bytes.now) }
    ensures settings { searcher.new.settings ≡ searcher.old.settings }
    ensures buffers { searcher.old.has_buffers ≡ true → searcher.new.has_buffers ≡ true }
{
    let mut text = Vec::new(alloc);
    let mut sink = Calls(
        |call: SinkCall<'_>|
            ensures { MatchResult result (λ goes. (goes ≡ true)
                × (text.exit.items ≡ text.entry.items ++ marked_text (passed_call call.entry)))
                IsMemoryError }
        {
            write_call(&mut text, call)?;
            Ok(true)
        },
    );
    calls_are_passed::<_, u8>(&sink);
    searches_run::<Global, M, _>(&sink);
    slices_fail_for::<Global, M, _>(&sink);
    searcher.search_slice(matcher, bytes, &mut sink)?;
    Ok(text)
}

/// Returns a searcher that reports the line before each match too.
///
/// The only error is `Memory`, if there is none for its buffers.
pub fn reporter(alloc: Global) -> Result<Searcher, ConfigError>
    ensures { IfOk result (λ searcher.
        searcher ≡ record { settings = one_before; has_buffers = true }) }
{
    SearcherBuilder::new().before_context(1).build(alloc)
}

// Adds what a report has of a call. The only error is being out of memory.
fn write_call(text: &mut Vec<u8>, call: SinkCall<'_>) -> Result<(), AllocError>
    ensures { OnOk result (text.new.items
        ≡ text.old.items ++ marked_text (passed_call call.entry)) }
{
    match call {
        SinkCall::Match(found) => write_line(text, b'>', found.bytes()),
        SinkCall::Context(line) => write_line(text, b' ', line.bytes()),
        SinkCall::Break => text.extend_from_slice(b"--\n"),
        SinkCall::Begin | SinkCall::BinaryData(_) | SinkCall::Finish(_) => Ok(()),
    }
}

// Adds a line after a mark.
fn write_line(text: &mut Vec<u8>, mark: u8, line: &[u8]) -> Result<(), AllocError>
    ensures { OnOk result (text.new.items ≡ text.old.items ++ mark ∷ line.now) }
{
    text.push(mark)?;
    text.extend_from_slice(line)
}
