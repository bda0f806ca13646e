//! The matches of a slice as lines of JSON, by a closure.
ghost use Rattle.std.specs.Prelude.{◌≡◌, ◌++◌, true, IfOk, IfErr, MatchResult, OnOk};
ghost use Rattle.std.specs.List.{flat_map};
ghost use Rattle.std.specs.String.{string_bytes};
ghost use Rattle.grep_searcher.specs.MatcherFailures.{IsLawfulSearch};
ghost use Rattle.grep_searcher.specs.Plans.{IsLawful, search_plan};
ghost use Rattle.grep_searcher.specs.Searches.{searched_bytes};
ghost use Rattle.grep_searcher.specs.SearchLaws.{match_calls};
ghost use Rattle.grep_searcher.specs.SinkArguments.{match_call};
ghost use Rattle.serde_json.specs.View.{view};
ghost use Rattle.uses.specs.IoFailures.{IsIoFailure, IsMemoryError};
ghost use Rattle.uses.specs.JsonLines.{json_data, json_of, json_text};

use grep_searcher::laws::{matches_are_lent, searches_run, slices_fail_for};
use grep_searcher::sinks::Matches;
use grep_searcher::{BinaryDetection, Matcher, SearchError, Searcher, SinkMatch};
use serde_json::{Value, json};
use std::alloc::{AllocError, Global};

/// Returns a line of JSON for each match of `bytes`, decoded: the number of its first line, or 0 if
/// the searcher doesn't number lines, its offset, and its text, in which what isn't UTF-8 is
/// replaced.
///
/// An error is made of the matcher's, of a configuration that the searcher refuses, or of being out
/// of memory. If the bytes have to be decoded, it may also be of the heap limit, or of more than
/// 2^64 - 1 decoded bytes.
pub fn json_lines<M: Matcher + Drop>(
    alloc: Global,
    searcher: &mut Searcher,
    matcher: M,
    bytes: &[u8],
) -> Result<Vec<u8>, SearchError>
    ensures lines { IsLawful (M.facts matcher) searcher.old.settings
        → searcher.old.settings.binary_detection ≡ BinaryDetection.None → IfOk result (λ text.
        text.items ≡ flat_map json_of (match_calls (search_plan searcher.old.settings
        (M.facts matcher).meaning (searched_bytes searcher.old.settings bytes.now)).calls)) }
    ensures error { IsLawfulSearch (M.facts matcher) searcher.old.settings → IfErr result
        (IsIoFailure M.Error.output (M.facts matcher) searcher.old bytes.now) }
    ensures settings { searcher.new.settings ≡ searcher.old.settings }
    ensures buffers { searcher.old.has_buffers ≡ true → searcher.new.has_buffers ≡ true }
{
    let mut text = Vec::new(alloc);
    let mut sink = Matches(
        |found: &SinkMatch<'_>|
            ensures { MatchResult result (λ goes. (goes ≡ true)
                × (text.exit.items ≡ text.entry.items ++ json_of (match_call found.now)))
                IsMemoryError }
        {
            write_json(alloc, &mut text, found)?;
            Ok(true)
        },
    );
    matches_are_lent::<_, u8>(&sink);
    searches_run::<Global, M, _>(&sink);
    slices_fail_for::<Global, M, _>(&sink);
    searcher.search_slice(matcher, bytes, &mut sink)?;
    Ok(text)
}

// Adds the line of a match. The only error is being out of memory.
fn write_json(alloc: Global, text: &mut Vec<u8>, found: &SinkMatch<'_>) -> Result<(), AllocError>
    ensures { OnOk result (text.new.items ≡ text.old.items ++ json_of (match_call found.now)) }
{
    let number = found.line_number().unwrap_or(0);
    let line = json_line(alloc, number, found.absolute_byte_offset(), found.bytes())?;
    text.extend_from_slice(line.as_bytes())?;
    text.extend_from_slice(b"\n")
}

// A match in JSON.
fn json_line(alloc: Global, number: u64, offset: u64, line: &[u8]) -> Result<String, AllocError>
    ensures { IfOk result (λ text. string_bytes text ≡ json_text number offset line.now) }
{
    let text = String::from_utf8_lossy(alloc, line)?;
    let value = json_value(alloc, number, offset, text.as_str())?;
    value.to_string(alloc)
}

// Its value.
fn json_value(alloc: Global, number: u64, offset: u64, text: &str) -> Result<Value, AllocError>
    ensures { IfOk result (λ value. view value ≡ json_data number offset text.now) }
{
    json!(in alloc; {"line": number, "offset": offset, "text": text})
}
