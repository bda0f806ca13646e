//! Laws of the calls that a search makes, each the contract of a function that does nothing. The
//! first ones are over the definition of those calls alone, the others say what a sink makes of
//! them.
ghost use Rattle.std.specs.Str.Lossy.{utf8_lossy};
ghost use Rattle.grep_searcher.specs.ClosureSinks.{ClosuresAreCalled, ClosuresFail, ClosuresKeep};
ghost use Rattle.grep_searcher.specs.ClosureSinks.{IsLossyText, IsUtf8Text, IsWholeText};
ghost use Rattle.grep_searcher.specs.AppendedItems.{PartsAreItems, RunsAppendHits};
ghost use Rattle.grep_searcher.specs.AppendedItems.{RunsAppendItems, RunsEnd};
ghost use Rattle.grep_searcher.specs.AppendedParts.{CallsAppend, RunsAppend, RunsAppendByState};
ghost use Rattle.grep_searcher.specs.AppendedParts.{RunsAppendLines, RunsAppendMatches};
ghost use Rattle.grep_searcher.specs.AppendedParts.{RunsAppendPartsByState};
ghost use Rattle.grep_searcher.specs.BoundedReads.{EndedKnownReadersStop, EndedReadersStop};
ghost use Rattle.grep_searcher.specs.BoundedReads.{FirstEnds, ReadersFindLines};
ghost use Rattle.grep_searcher.specs.ByteCounts.{CountsToLimit};
ghost use Rattle.grep_searcher.specs.CountSinks.{RunsCount, RunsCountAll};
ghost use Rattle.grep_searcher.specs.CountedCalls.{RunsCountCalls, RunsCountExactly};
ghost use Rattle.grep_searcher.specs.DetectedRuns.{DecodedSlicesFailWith, DecodedSlicesRunWith};
ghost use Rattle.grep_searcher.specs.DetectedRuns.{KnownReadersFailWith, KnownReadersRunWith};
ghost use Rattle.grep_searcher.specs.DetectedRuns.{ReadersFailWith, ReadersRunWith};
ghost use Rattle.grep_searcher.specs.DetectedRuns.{SlicesFailWith, SlicesRunWith};
ghost use Rattle.grep_searcher.specs.EveryLines.{AllLinesHit, EveryLineHits};
ghost use Rattle.grep_searcher.specs.FirstByteMatches.{FirstBytesAreFound, FirstBytesMatchByLine};
ghost use Rattle.grep_searcher.specs.Gaps.{BreaksAreCounted, BreaksAreFew, BreaksAreGaps};
ghost use Rattle.grep_searcher.specs.HandledLines.{KnownReadersHandleLines, ReadersHandleLines};
ghost use Rattle.grep_searcher.specs.HandledLines.{LinesReach, SlicesHandleLines};
ghost use Rattle.grep_searcher.specs.HitLines.{HitsAreSelected, HitsAreMatched, HitsAreCounted};
ghost use Rattle.grep_searcher.specs.HitLines.{HitsAreFound, NoneIsSelected};
ghost use Rattle.grep_searcher.specs.HitLines.{HitsAreLines, LinesAreFiltered, LinesAreListed};
ghost use Rattle.grep_searcher.specs.HitLines.{MatchedLinesHit, MatchedLinesMatch};
ghost use Rattle.grep_searcher.specs.HitLines.{PredicatesAreCounted};
ghost use Rattle.grep_searcher.specs.HitLines.{PredicatesAreFiltered, PredicatesAreLines};
ghost use Rattle.grep_searcher.specs.KeptFirst.{ReadersKeepFirst, search_error_makers};
ghost use Rattle.grep_searcher.specs.KeptMost.{HitsKeepMost};
ghost use Rattle.grep_searcher.specs.KeptReports.{RunsKeep, RunsKeepUntil};
ghost use Rattle.grep_searcher.specs.KeyCounts.{RunsCountHitKeys, RunsCountKeys};
ghost use Rattle.grep_searcher.specs.LentMatches.{ClosuresAppendByState, ClosuresAppendMatches};
ghost use Rattle.grep_searcher.specs.LentMatches.{ClosuresAreLent};
ghost use Rattle.grep_searcher.specs.LentMatches.{ClosuresFailLent, ClosuresKeepMatches};
ghost use Rattle.grep_searcher.specs.LineCounts.{RunsCountLines, SlicesCountLines};
ghost use Rattle.grep_searcher.specs.LineCounts.{ReadersCountLines};
ghost use Rattle.grep_searcher.specs.MatchHandlers.{RunsHandle, RunsFailAt, RunsFit};
ghost use Rattle.grep_searcher.specs.MatchHandlers.{RunsFindSelected, RunsFindAcross, RunsCollect};
ghost use Rattle.grep_searcher.specs.MatchHandlers.{RunsCollectLines, RunsCollectUntil};
ghost use Rattle.grep_searcher.specs.MatchHandlers.{RunsKeepBytes, RunsKeepFirst};
ghost use Rattle.grep_searcher.specs.MatchHandlers.{RunsKeepFirstLines, RunsKeepLast};
ghost use Rattle.grep_searcher.specs.MatcherFailures.{ReadersFailFor, SlicesFailFor};
ghost use Rattle.grep_searcher.specs.PassedCalls.{ClosuresAppend, ClosuresAppendPassedByState};
ghost use Rattle.grep_searcher.specs.PassedCalls.{ClosuresArePassed};
ghost use Rattle.grep_searcher.specs.PassedCalls.{ClosuresFailPassed, ClosuresKeepCalls};
ghost use Rattle.grep_searcher.specs.PassedLines.{LinesArePassed, PassedLinesHit};
ghost use Rattle.grep_searcher.specs.SearchFailures.{ReadersFail, SlicesFail};
ghost use Rattle.grep_searcher.specs.SearchedInputs.{InputIsSearched};
ghost use Rattle.grep_searcher.specs.Units.{FirstMatchIsFirstUnit, MatchesAreUnits};
ghost use Rattle.grep_searcher.specs.Units.{MatchesAreWithinCount, UnitsAreCounted};
ghost use Rattle.grep_searcher.specs.FileSearches.{IsFileRead};
ghost use Rattle.grep_searcher.specs.SinkFolds.{CallsReach, RunsFold, RunsFoldAll};
ghost use Rattle.grep_searcher.specs.SinkFolds.{RunsFoldMatches};
ghost use Rattle.grep_searcher.specs.SinkFolds.{SearchesRun, InputsAreSearched};
ghost use Rattle.grep_searcher.specs.SinkFolds.{ReaderSearchesRun, SearchesFail};
ghost use Rattle.grep_searcher.specs.SinkFolds.{ReaderSearchesFail, KnownReadersRun};
ghost use Rattle.grep_report.specs.ErrorMakers.{makers_of};

use crate::sink::Sink;
use crate::sinks::{Bytes, Calls, Lossy, MatchHandler, Matches, SinkCall, UTF8};
use grep_decode::Source;
pub use grep_definitions::laws::{
    after_wins, after_wins_across, at_most_limit, at_most_limit_across, counted_reports_are_clear,
    first_lines_begin, first_match_is_first, inversion_complements, inversion_complements_across,
    lines_are_numbered, matches_are_all, matches_are_counted, matches_are_few,
    matches_are_matched_lines, matches_decide, matches_touch_their_lines, numbers_change_no_count,
    quit_reports_are_clear, reports_are_apart_across, reports_are_as_by_line, reports_ascend,
    reports_ascend_across, searches_across_lines, searches_by_line, seen_lines_begin,
    selected_are_reported_across, stop_is_ignored_across, unchanged_is_searched, whole_count,
    whole_count_across,
};
pub use grep_lines::laws::{lines_append, lines_are_determined, lines_are_few, lines_join};
use grep_matcher::Matcher;
use grep_report::{SinkError, SinkMatch};
use std::alloc::Allocator;
use std::io;
use std::io::Read;

/// Without a label, and if no byte order mark is looked for, or the input begins with none, what is
/// searched is the input itself. `unchanged_is_searched` says more of such an input.
pub fn input_is_searched()
    ensures { InputIsSearched }
{
    unchanged_is_searched();
}

/// Without limit and stop, in a search by line, a line is selected exactly if it hits, and so are
/// the matched lines: a line hits if whether it matches without its terminator differs from
/// inversion. Some line is selected exactly if some line hits, and as many lines are matched as
/// hit. Under inversion no line is selected exactly if each line matches without its terminator.
/// Without inversion, of a matcher that has a match exactly where a predicate holds, the lines that
/// hit are those of which it holds without their terminators.
pub fn hits_are_selected()
    ensures selected { HitsAreSelected }
    ensures matched { HitsAreMatched }
    ensures found { HitsAreFound }
    ensures unselected { NoneIsSelected }
    ensures counted { HitsAreCounted }
    ensures predicates { PredicatesAreCounted }
{}

/// In a search by line, without a stop and without a limit, or without a context after matches, the
/// matches that are reported are the lines that hit, in order, each with its number, its offset and
/// its bytes; under a limit the first of these, as many as the limit has. Their bytes are the lines
/// that hit. Without inversion, of a matcher that has a match exactly where a predicate holds,
/// these are the lines of which it holds without their terminators; of `EveryLine` these are all
/// lines.
pub fn lines_are_filtered()
    ensures matches { LinesAreFiltered }
    ensures lines { HitsAreLines }
    ensures predicates { PredicatesAreFiltered }
    ensures predicate_lines { PredicatesAreLines }
    ensures every_line { EveryLineHits }
    ensures all_lines { LinesAreListed }
    ensures all_hit { AllLinesHit }
{}

/// In a search by line under `passthru`, without a limit and a stop, the reports are all lines, in
/// order, and a report is a match exactly if its line hits.
pub fn lines_are_passed()
    ensures lines { LinesArePassed }
    ensures hits { PassedLinesHit }
{}

/// A matcher whose first match is the first byte that passes a test has a match if any byte passes.
/// If a line feed doesn't pass, it matches by line (`MatchesByLine`), as a matcher that answers
/// about many lines by `LineMatchKind::confirm` has to.
pub fn first_bytes_match_by_line()
    ensures found { FirstBytesAreFound }
    ensures by_line { FirstBytesMatchByLine }
{}

/// In a search by line each line that is reported as a match hits, whatever is set. So without
/// inversion it has a match without its terminator.
pub fn matched_lines_hit()
    ensures hit { MatchedLinesHit }
    ensures matching { MatchedLinesMatch }
{}

/// Across lines the matches that are reported are the units, in order: each with the number of its
/// first line, its offset and the bytes of all its lines. As many matches are reported as there are
/// units, and the first of them begins at the first selected line.
pub fn matches_are_units()
    ensures all { MatchesAreUnits }
    ensures counted { UnitsAreCounted }
    ensures first { FirstMatchIsFirstUnit }
{}

/// By line and across lines at most as many matches are reported as the byte count of the whole
/// plan, and that is at most as many as there are bytes.
pub fn matches_are_within_count()
    ensures { MatchesAreWithinCount }
{}

/// With a context before or after matches, by line and across lines, the calls of a plan are
/// `begin` and the reports, with a break in each gap between two: if the second begins after the
/// end of the first. So there are as many breaks as gaps. With any settings there are at most as
/// many as the byte count of the whole plan, which is at most as many as there are bytes.
///
/// For example, `a\nb` is looked for across lines in `a\nb\nx\nx\na\nb\n`, with one line before
/// matches. The reports are lines 1 and 2 together, line 4, and lines 5 and 6 together. The first
/// ends at 4 and the second begins at 6, so a break is between them. The second ends at 8, where
/// the third begins, so none is between these.
pub fn breaks_are_gaps()
    ensures calls { BreaksAreGaps }
    ensures counted { BreaksAreCounted }
    ensures few { BreaksAreFew }
{}

/// By line, under a limit, without a stop, a context after matches and `passthru`, the byte count
/// of the whole plan is where the line ends that fills the limit; if fewer lines hit, it is the
/// length of the bytes, and at the limit 0 it is 0.
pub fn counts_to_limit()
    ensures { CountsToLimit }
{}

/// A run that ended in `Ok`, of a sink whose steps are functions of the state and the call, is a
/// fold over the planned calls: up to the first after which the sink doesn't go on, and then
/// `finish`.
pub fn runs_fold<S: Sink>()
    ensures { RunsFold S.step }
{}

/// If such a sink always goes on, that is std's `fold` over all calls of the run.
pub fn runs_fold_all<S: Sink>()
    ensures { RunsFoldAll S.step }
{}

/// If only matches change the state of a sink, and only a match ends the search, a run that ended
/// in `Ok` is a fold over the matches that are reported, up to the first after which the sink
/// doesn't go on.
pub fn runs_fold_matches<S: Sink>()
    ensures { RunsFoldMatches S.step }
{}

/// If each call of a sink that succeeds goes on and appends a part for it to what the sink keeps, a
/// run that ended in `Ok` appends the parts of all calls, in order. `X` is what is appended.
pub fn runs_append_parts<S: Sink, X>()
    ensures { RunsAppend S.step X }
{}

/// The part of a call may also depend on what of the sink no call changes, as on a matcher that it
/// has: then a run that ended in `Ok` appends the parts of all calls, in order, as of the state
/// before the run. `X` is what is appended.
pub fn runs_append_by_state<S: Sink, X>()
    ensures { RunsAppendPartsByState S.step X }
{}

/// If each call of a sink that succeeds goes on, and each match appends one item to what the sink
/// keeps, and no other call appends any, a run that ended in `Ok` appends the items of the matches
/// that are reported, in order. `X` is what is appended.
pub fn runs_append_items<S: Sink, X>()
    ensures { RunsAppendItems S.step X }
{}

/// By line, without a stop and without a limit, or without a context after matches, these are the
/// items of the lines that hit. `X` is what is appended.
pub fn runs_append_hits<S: Sink, X>()
    ensures { RunsAppendHits S.step X }
{}

/// If the part of a call that passes a test is one item, and that of any other call is none, as of
/// `finish`, the parts of all calls of a run are the items of the planned calls that pass. With
/// `is_report` as the test these are the items of the reports. `X` is what is appended.
pub fn parts_are_items<X>()
    ensures { PartsAreItems X }
{}

/// If each call of a sink that succeeds goes on, the last call of a run that ended in `Ok` is
/// `finish`, with the byte count of the whole plan.
pub fn runs_end<S: Sink>()
    ensures { RunsEnd S.step }
{}

/// A run of a new `Count` along the plan of some bytes, that ended in `Ok`, counted the matches
/// that are reported. Any run that ended in `Ok` added them to what was counted before, up to the
/// largest `u64`.
pub fn runs_count_matches<E>()
    ensures all { RunsCountAll E }
    ensures added { RunsCount E }
{}

/// If each call of a sink that succeeds goes on, and one that passes a test adds 1 to what the sink
/// counts, up to the largest `u64`, and no other does, as `finish`, then a run that ended in `Ok`
/// adds how many of the planned calls pass.
pub fn runs_count_calls<S: Sink>()
    ensures { RunsCountCalls S.step }
{}

/// If the byte count of such a sink's `finish` also fits in 64 bits, and the planned calls that
/// pass are at most as many as the byte count of the whole plan, as matches and breaks are, then a
/// run that ended in `Ok` counted from 0 exactly these.
pub fn runs_count_exactly<S: Sink>()
    ensures { RunsCountExactly S.step }
{}

/// By line, a run of a new `Count` that ended in `Ok` counted the matched lines.
pub fn runs_count_lines<E>()
    ensures { RunsCountLines E }
{}

/// A run of `OnMatch` that ended in `Ok` made its handler handle the matches that are reported, in
/// order, up to the first after which the search doesn't go on. One that ended in an error made it
/// handle the matches before one, and that one failed. If the handler always goes on, the byte
/// count of a run that ended in `Ok` is below 2^64, and by `matches_are_within_count` so are the
/// matches; and if its state is a function of the matches so far, of none and after each match, it
/// is that function of all that are handled, or of the bytes of the lines that hit.
pub fn runs_handle_matches<H: MatchHandler>()
    ensures handled { RunsHandle H.goes H.next H.fails }
    ensures failed { RunsFailAt H.goes H.next H.fails }
    ensures fits { RunsFit H.goes H.next H.fails }
    ensures reached { CallsReach H.goes H.next }
    ensures lines { LinesReach H.goes H.next }
{}

/// If a handler always goes on, and keeps a match if it has more by some measure than the one that
/// was kept, it has kept in the end the first of the lines that hit that have most; or none, if no
/// line hits. These are the lines of `hit_matches`, which `slices_handle_lines`, for one, says that
/// a search handled.
pub fn hits_keep_most<H: MatchHandler>()
    ensures { HitsKeepMost H.goes H.next }
{}

/// If a handler always goes on, and adds 1 for a match at the index that is its key, up to the
/// largest `u64`, a run that ended in `Ok` made of zeros how many of the matches that are reported
/// have each index as their key. By line, without a stop and without a limit, or without a context
/// after matches, these matches are the lines that hit.
pub fn runs_count_keys<H: MatchHandler>()
    ensures all { RunsCountKeys H.goes H.next H.fails }
    ensures hits { RunsCountHitKeys H.goes H.next H.fails }
{}

/// If a handler always goes on and appends a part for each match to what it keeps, a run that ended
/// in `Ok` appends the parts of the matches that are reported, in order; by line these are the
/// matched lines. The part may depend on what of the handler no match changes, as on a constant
/// that it has; then so do some calls that are handled. `X` is what is appended.
pub fn runs_append_matches<H: MatchHandler, X>()
    ensures all { RunsAppendMatches H.goes H.next H.fails X }
    ensures lines { RunsAppendLines H.goes H.next H.fails X }
    ensures by_state { RunsAppendByState H.goes H.next H.fails X }
    ensures calls { CallsAppend H.goes H.next H.fails X }
{}

/// A run of a new `Found` that ended in `Ok` found a match exactly if a line is selected, by line
/// and across lines.
pub fn runs_find_selected<E>()
    ensures lines { RunsFindSelected E }
    ensures across { RunsFindAcross E }
{}

/// A run of a new `First` that ended in `Ok` kept the first matches that are reported, up to its
/// limit; by line these are the first matched lines. At the last of them it ends the search, as
/// `ended_readers_stop` wants it.
pub fn runs_keep_first<A: Allocator + Copy>()
    ensures all { RunsKeepFirst A }
    ensures lines { RunsKeepFirstLines A }
    ensures ends { FirstEnds }
{}

/// A run of `Collect` that ended in `Ok` kept the matches that are reported, after those that it
/// had kept; by line these are the matched lines, each with its number, its offset and its bytes.
/// One that ended in an error, which is out of memory, kept those before the match at which it
/// failed.
pub fn runs_collect_lines<A: Allocator + Copy>()
    ensures all { RunsCollect A }
    ensures lines { RunsCollectLines A }
    ensures failed { RunsCollectUntil A }
{}

/// A run of a new `Last` that ended in `Ok` kept the last matches that are reported, up to its
/// limit.
pub fn runs_keep_last<A: Allocator + Copy>()
    ensures { RunsKeepLast A }
{}

/// A run of `EachLine` that ended in `Ok` kept the bytes of the matches that are reported, after
/// those that it had kept.
pub fn runs_keep_bytes<A: Allocator + Copy>()
    ensures { RunsKeepBytes A }
{}

/// A run of `Reports` that ended in `Ok` kept the reports of the plan, after those that it had
/// kept. One that ended in an error, which is out of memory, kept those before the report at which
/// it failed.
pub fn runs_keep_reports<A: Allocator + Copy>()
    ensures all { RunsKeep A }
    ensures failed { RunsKeepUntil A }
{}

/// A run that ended in `Ok`, of a sink that calls a closure, called it at each match that is
/// reported, in order, with its number and its text, up to the first at which it returned false.
/// Pass the sink, since a closure's type has no name.
pub fn closures_are_called<F: FnMut(u64, &str) -> Result<bool, io::Error>>(_: &UTF8<F>)
    ensures { ClosuresAreCalled F.step IsUtf8Text (λ (s : UTF8 F). s.0) }
{}

/// A run of `Lossy` that ended in `Ok` called its closure so, with each ill-formed part of the text
/// replaced.
pub fn lossy_closures_are_called<F: FnMut(u64, &str) -> Result<bool, io::Error>>(_: &Lossy<F>)
    ensures { ClosuresAreCalled F.step IsLossyText (λ (s : Lossy F). s.0) }
{}

/// A run of `Bytes` that ended in `Ok` called its closure so, with the bytes as they are.
pub fn bytes_closures_are_called<F: FnMut(u64, &[u8]) -> Result<bool, io::Error>>(_: &Bytes<F>)
    ensures { ClosuresAreCalled F.step IsWholeText (λ (s : Bytes F). s.0) }
{}

/// An error of a call of such a sink is that the match isn't UTF-8, or that it has no number, or the
/// closure was called and returned it.
pub fn closures_fail<F: FnMut(u64, &str) -> Result<bool, io::Error>>(_: &UTF8<F>)
    ensures { ClosuresFail F.step IsUtf8Text (λ (s : UTF8 F). s.0) }
{}

/// An error of a call of `Lossy` is that there was no memory for the text with what is replaced, or
/// that the match has no number, or the closure was called and returned it.
pub fn lossy_closures_fail<F: FnMut(u64, &str) -> Result<bool, io::Error>>(_: &Lossy<F>)
    ensures { ClosuresFail F.step IsLossyText (λ (s : Lossy F). s.0) }
{}

/// An error of a call of `Bytes` is that the match has no number, or the closure was called and
/// returned it.
pub fn bytes_closures_fail<F: FnMut(u64, &[u8]) -> Result<bool, io::Error>>(_: &Bytes<F>)
    ensures { ClosuresFail F.step IsWholeText (λ (s : Bytes F). s.0) }
{}

/// If each call of such a closure that returns adds its number and its text to what is kept,
/// through one reference, then a run along the plan of some bytes that ended in `Ok` adds those of
/// the matched lines, and the reference is the same. So does any run along a plan with the same
/// matches.
pub fn closures_keep_calls<F: FnMut(u64, &str) -> Result<bool, io::Error>>(_: &UTF8<F>)
    ensures { ClosuresKeep F.step IsUtf8Text (λ (s : UTF8 F). s.0) (λ bytes. bytes) }
{}

/// If the closure of `Lossy` keeps its calls so, a run adds the numbers and texts of the matched
/// lines, with each ill-formed part replaced.
pub fn lossy_closures_keep_calls<F: FnMut(u64, &str) -> Result<bool, io::Error>>(_: &Lossy<F>)
    ensures { ClosuresKeep F.step IsLossyText (λ (s : Lossy F). s.0) utf8_lossy }
{}

/// If the closure of `Bytes` keeps its calls so, a run adds the numbers and bytes of the matched
/// lines.
pub fn bytes_closures_keep_calls<F: FnMut(u64, &[u8]) -> Result<bool, io::Error>>(_: &Bytes<F>)
    ensures { ClosuresKeep F.step IsWholeText (λ (s : Bytes F). s.0) (λ bytes. bytes) }
{}

/// A run of `Matches` that ended in `Ok` lent its closure the matches that are reported, in order,
/// up to the first at which it returned false. If each call that returns goes on and appends a part
/// for the match to what is kept, through one reference, the run appends the parts of all these
/// matches; or the number, the offset and the bytes of each. The part may depend on what no call
/// changes of what the closure has captured. An error of a call is the closure's. Pass the sink,
/// since a closure's type has no name. `X` is what is appended.
pub fn matches_are_lent<F: FnMut(&SinkMatch<'_>) -> Result<bool, io::Error>, X>(_: &Matches<F>)
    ensures lent { ClosuresAreLent F.step (λ (s : Matches F). s.0) }
    ensures appended { ClosuresAppendMatches F.step X (λ (s : Matches F). s.0) }
    ensures by_state { ClosuresAppendByState F.step X (λ (s : Matches F). s.0) }
    ensures kept { ClosuresKeepMatches F.step (λ (s : Matches F). s.0) }
    ensures failed { ClosuresFailLent F.step (λ (s : Matches F). s.0) }
{}

/// A run of `Calls` that ended in `Ok` passed its closure the calls of the plan, in order, up to
/// the first at which it returned false, and then the end. If each call of the closure that returns
/// goes on, but for the end, and appends a part for what it is passed to what is kept, through one
/// reference, the run appends the parts of all calls of the plan, and of the end; or these calls
/// themselves. The part may depend on what no call changes of what the closure has captured. An
/// error of a call is the closure's. Pass the sink, since a closure's type has no
/// name. `X` is what is appended.
pub fn calls_are_passed<F: FnMut(SinkCall<'_>) -> Result<bool, io::Error>, X>(_: &Calls<F>)
    ensures passed { ClosuresArePassed F.step (λ (s : Calls F). s.0) }
    ensures appended { ClosuresAppend F.step X (λ (s : Calls F). s.0) }
    ensures by_state { ClosuresAppendPassedByState F.step X (λ (s : Calls F). s.0) }
    ensures kept { ClosuresKeepCalls F.step (λ (s : Calls F). s.0) }
    ensures failed { ClosuresFailPassed F.step (λ (s : Calls F). s.0) }
{}

/// Without binary detection, a search of a slice with a lawful matcher, if it ended in `Ok`, is a
/// run along the plan of its decoded bytes. Pass the sink, since a closure's type has no name.
pub fn searches_run<A: Allocator + Copy, M: Matcher, S: Sink>(_: &S)
where
    S::Error: SinkError<A>,
    ensures { (matcher : M) → SearchesRun S.step
        (makers_of M.Error.output S.Error.makers) (M.facts matcher) }
{}

/// Without binary detection, a search of a reader with a lawful matcher that ended in `Ok` is a run
/// over what was taken, whatever follows. Pass the sink, since a closure's type has no name.
pub fn reader_searches_run<A: Allocator + Copy, M: Matcher, R: Source, S: Sink>(_: &S)
where
    S::Error: SinkError<A>,
    ensures { (matcher : M) → ReaderSearchesRun S.step
        (makers_of M.Error.output S.Error.makers) (M.facts matcher)
        R.remaining R.step }
{}

/// What `reader_searches_run` says of a reader, of a file. After `search_path` such a file is one
/// that was opened.
pub fn file_searches_run<A: Allocator + Copy, M: Matcher, F: Read, S: Sink>(_: &S)
where
    S::Error: SinkError<A>,
    ensures { (matcher : M) → ReaderSearchesRun S.step
        (makers_of M.Error.output S.Error.makers) (M.facts matcher)
        F.remaining (IsFileRead F.remaining) }
{}

/// The search of the lines that were seen of a reader is one of each input that begins with what
/// was taken: it made the calls of that input's plan, under binary detection too, and also if it
/// ended in an error of the sink's or of the matcher's. Pass the sink, since a closure's type has
/// no name.
pub fn inputs_are_searched<A: Allocator + Copy, M: Matcher, R: Source, S: Sink>(_: &S)
where
    S::Error: SinkError<A>,
    ensures { (matcher : M) → InputsAreSearched S.step
        (makers_of M.Error.output S.Error.makers) (M.facts matcher)
        R.remaining R.step }
{}

/// Without binary detection, if the matcher never fails and is lawful, and the search isn't
/// refused, an error that a search of a slice ended in is that of a step of the sink, or the slice
/// has to be decoded, and not all of it was.
pub fn searches_fail<A: Allocator + Copy, M: Matcher, S: Sink>()
where
    S::Error: SinkError<A>,
    ensures { (matcher : M) → SearchesFail S.step
        (makers_of M.Error.output S.Error.makers) (M.facts matcher) }
{}

/// Without binary detection, if the matcher never fails and is lawful, and the search isn't
/// refused, an error that a search of a reader ended in is that of a step of the sink, or one of
/// reading.
pub fn reader_searches_fail<A: Allocator + Copy, M: Matcher, R: Source, S: Sink>()
where
    S::Error: SinkError<A>,
    ensures { (matcher : M) → ReaderSearchesFail S.step
        (makers_of M.Error.output S.Error.makers) (M.facts matcher)
        R.remaining R.step }
{}

/// If the matcher never fails and is lawful, and the search isn't refused, an error of a search of
/// a slice is that of a step of the sink, or it is made of the reason why the slice, which has to
/// be decoded, wasn't decoded to its end. Pass the sink, since a closure's type has no name.
pub fn slices_fail<A: Allocator + Copy, M: Matcher, S: Sink>(_: &S)
where
    S::Error: SinkError<A>,
    ensures { (matcher : M) → SlicesFail S.step
        (makers_of M.Error.output S.Error.makers) (M.facts matcher) }
{}

/// If the matcher never fails and is lawful, and the search isn't refused, an error of a search of
/// a reader is that of a step of the sink, or it is made of the reason why the reader wasn't read
/// to its end. Pass the sink, since a closure's type has no name.
pub fn readers_fail<A: Allocator + Copy, M: Matcher, R: Source, S: Sink>(_: &S)
where
    S::Error: SinkError<A>,
    ensures { (matcher : M) → ReadersFail S.step
        (makers_of M.Error.output S.Error.makers) (M.facts matcher)
        R.remaining R.step }
{}

/// With a lawful matcher that may fail, as each one of a regular expression may, and if the search
/// isn't refused, an error of a search of a slice is that of a step of the sink, or it is made of
/// the matcher's error, as a message, or of the reason why the slice, which has to be decoded,
/// wasn't decoded to its end. Pass the sink, since a closure's type has no name.
pub fn slices_fail_for<A: Allocator + Copy, M: Matcher, S: Sink>(_: &S)
where
    S::Error: SinkError<A>,
    ensures { (matcher : M) → SlicesFailFor S.step
        (makers_of M.Error.output S.Error.makers) (M.facts matcher) }
{}

/// What `slices_fail_for` says of a slice, of a reader: in place of decoding, not all of it was
/// read. Pass the sink, since a closure's type has no name.
pub fn readers_fail_for<A: Allocator + Copy, M: Matcher, R: Source, S: Sink>(_: &S)
where
    S::Error: SinkError<A>,
    ensures { (matcher : M) → ReadersFailFor S.step
        (makers_of M.Error.output S.Error.makers) (M.facts matcher)
        R.remaining R.step }
{}

/// What `readers_fail` says of a reader, of a file. After `search_path` such a file is one that was
/// opened.
pub fn files_fail<A: Allocator + Copy, M: Matcher, F: Read, S: Sink>(_: &S)
where
    S::Error: SinkError<A>,
    ensures { (matcher : M) → ReadersFail S.step
        (makers_of M.Error.output S.Error.makers) (M.facts matcher)
        F.remaining (IsFileRead F.remaining) }
{}

/// Without binary detection, a search of a reader that says which bytes remain, with a lawful
/// matcher, if it ended in `Ok`, is a run along the plan of the decoded bytes of them all, as a
/// search of a slice is. Pass the sink, since a closure's type has no name.
pub fn known_readers_run<A: Allocator + Copy, M: Matcher, R: Source, S: Sink>(_: &S)
where
    S::Error: SinkError<A>,
    ensures { (matcher : M) → KnownReadersRun S.step
        (makers_of M.Error.output S.Error.makers) (M.facts matcher)
        R.remaining R.step }
{}

/// What `known_readers_run` says of a reader, of a file that says which bytes remain. After
/// `search_path` such a file is one that was opened.
pub fn known_files_run<A: Allocator + Copy, M: Matcher, F: Read, S: Sink>(_: &S)
where
    S::Error: SinkError<A>,
    ensures { (matcher : M) → KnownReadersRun S.step
        (makers_of M.Error.output S.Error.makers) (M.facts matcher)
        F.remaining (IsFileRead F.remaining) }
{}

/// Under any binary detection, a search of a slice with a lawful matcher that ended in `Ok` is a
/// run along the plan of what is searched, with `binary_data` where it comes: of a slice that is
/// searched as it is, of its bytes; of one that is decoded, of its decoded bytes, as a search of a
/// reader. Pass the sink, since a closure's type has no name.
pub fn detected_searches_run<A: Allocator + Copy, M: Matcher, S: Sink>(_: &S)
where
    S::Error: SinkError<A>,
    ensures unchanged { (matcher : M) → SlicesRunWith S.step
        (makers_of M.Error.output S.Error.makers) (M.facts matcher) }
    ensures decoded { (matcher : M) → DecodedSlicesRunWith S.step
        (makers_of M.Error.output S.Error.makers) (M.facts matcher) }
{}

/// Under any binary detection, a search of a reader with a lawful matcher that ended in `Ok` is a
/// run along the plan of what is searched, with `binary_data` where it comes, for each input that
/// begins with what was taken; and for the decoded bytes of all that remained, if the reader says
/// which bytes these are. How many first bytes were seen when `binary_data` came depends on how the
/// reader cuts its input. Pass the sink, since a closure's type has no name.
pub fn detected_readers_run<A: Allocator + Copy, M: Matcher, R: Source, S: Sink>(_: &S)
where
    S::Error: SinkError<A>,
    ensures taken { (matcher : M) → ReadersRunWith S.step
        (makers_of M.Error.output S.Error.makers) (M.facts matcher) R.remaining R.step }
    ensures known { (matcher : M) → KnownReadersRunWith S.step
        (makers_of M.Error.output S.Error.makers) (M.facts matcher) R.remaining R.step }
{}

/// Under any binary detection, a search of a file that says which bytes remain, with a lawful
/// matcher, that ended in `Ok` is a run along the plan of what is searched of the decoded bytes of
/// all that remained, with `binary_data` where it comes. After `search_path` such a file is one
/// that was opened. Pass the sink, since a closure's type has no name.
pub fn detected_files_run<A: Allocator + Copy, M: Matcher, F: Read, S: Sink>(_: &S)
where
    S::Error: SinkError<A>,
    ensures { (matcher : M) → KnownReadersRunWith S.step
        (makers_of M.Error.output S.Error.makers) (M.facts matcher)
        F.remaining (IsFileRead F.remaining) }
{}

/// Under any binary detection, if the matcher never fails and is lawful, and the search isn't
/// refused, a search of a slice that ended in an error is a run along the plan of what is searched,
/// in which a step of the sink failed; or the slice has to be decoded, and not all of it was: after
/// the calls for the lines that were seen, with `binary_data` where it comes. Pass the sink, since
/// a closure's type has no name.
pub fn detected_searches_fail<A: Allocator + Copy, M: Matcher, S: Sink>(_: &S)
where
    S::Error: SinkError<A>,
    ensures unchanged { (matcher : M) → SlicesFailWith S.step
        (makers_of M.Error.output S.Error.makers) (M.facts matcher) }
    ensures decoded { (matcher : M) → DecodedSlicesFailWith S.step
        (makers_of M.Error.output S.Error.makers) (M.facts matcher) }
{}

/// Under any binary detection, if the matcher never fails and is lawful, and the search isn't
/// refused, a search of a reader that ended in an error is a run along the plan of what is
/// searched, in which a step of the sink failed, for each input that begins with what was taken,
/// and for the decoded bytes of all that remained, if the reader says which bytes these are; or
/// reading ended before the search did, after the calls for the lines that were seen or before
/// `begin`. Pass the sink, since a closure's type has no name.
pub fn detected_readers_fail<A: Allocator + Copy, M: Matcher, R: Source, S: Sink>(_: &S)
where
    S::Error: SinkError<A>,
    ensures taken { (matcher : M) → ReadersFailWith S.step
        (makers_of M.Error.output S.Error.makers) (M.facts matcher) R.remaining R.step }
    ensures known { (matcher : M) → KnownReadersFailWith S.step
        (makers_of M.Error.output S.Error.makers) (M.facts matcher) R.remaining R.step }
{}

/// Under any binary detection, if the matcher never fails and is lawful, and the search isn't
/// refused, a search of a file that says which bytes remain, and that ended in an error, is a run
/// along the plan of what is searched of the decoded bytes of all that remained, in which a step of
/// the sink failed; or reading ended before the search did, after the calls for the lines that were
/// seen or before `begin`. Pass the sink, since a closure's type has no name.
pub fn detected_files_fail<A: Allocator + Copy, M: Matcher, F: Read, S: Sink>(_: &S)
where
    S::Error: SinkError<A>,
    ensures { (matcher : M) → KnownReadersFailWith S.step
        (makers_of M.Error.output S.Error.makers) (M.facts matcher)
        F.remaining (IsFileRead F.remaining) }
{}

/// A search of a slice, by line and without binary detection, with a lawful matcher and a new
/// `Count`, if it ended in `Ok`, counted the matched lines of its decoded bytes.
pub fn slices_count_lines<A: Allocator + Copy, M: Matcher, E: SinkError<A>>()
    ensures { (matcher : M) → SlicesCountLines
        (makers_of M.Error.output E.makers) (M.facts matcher) }
{}

/// A search of a reader that says which bytes remain, by line and without binary detection, with a
/// lawful matcher and a new `Count`, if it ended in `Ok`, counted the matched lines of its decoded
/// bytes.
pub fn readers_count_lines<A: Allocator + Copy, M: Matcher, R: Source, E: SinkError<A>>()
    ensures { (matcher : M) → ReadersCountLines
        (makers_of M.Error.output E.makers) (M.facts matcher)
        R.remaining R.step }
{}

/// What `readers_count_lines` says of a reader, of a file that says which bytes remain. After
/// `search_path` such a file is one that was opened.
pub fn files_count_lines<A: Allocator + Copy, M: Matcher, F: Read, E: SinkError<A>>()
    ensures { (matcher : M) → ReadersCountLines
        (makers_of M.Error.output E.makers) (M.facts matcher)
        F.remaining (IsFileRead F.remaining) }
{}

/// A search of a reader that says which bytes remain, by line and without binary detection, with a
/// lawful matcher and a new `Found`, if it ended in `Ok`, found a match exactly if a line is
/// selected. Under a heap limit it read at most that many bytes, and three, beyond the first
/// selected line, if the input is searched as it is.
pub fn readers_find_lines<A: Allocator + Copy, M: Matcher, R: Source, E: SinkError<A>>()
    ensures { (matcher : M) → ReadersFindLines
        (makers_of M.Error.output E.makers) (M.facts matcher)
        R.remaining R.step }
{}

/// What `readers_find_lines` says of a reader, of a file that says which bytes remain. After
/// `search_path` such a file is one that was opened.
pub fn files_find_lines<A: Allocator + Copy, M: Matcher, F: Read, E: SinkError<A>>()
    ensures { (matcher : M) → ReadersFindLines
        (makers_of M.Error.output E.makers) (M.facts matcher)
        F.remaining (IsFileRead F.remaining) }
{}

/// A search of a slice, by line and without binary detection, with a lawful matcher and a sink
/// `OnMatch`, if it ended in `Ok`, made the handler handle the lines of the decoded bytes that hit,
/// up to the first after which the search doesn't go on. That is said without a stop and without a
/// limit, or without a context after matches, as `lines_are_filtered` is.
pub fn slices_handle_lines<A: Allocator + Copy, M: Matcher, H: MatchHandler>()
where
    H::Error: SinkError<A>,
    ensures { (matcher : M) → SlicesHandleLines H.goes H.next H.fails
        (makers_of M.Error.output H.Error.makers) (M.facts matcher) }
{}

/// What `slices_handle_lines` says of a slice, of a reader that says which bytes remain; and of any
/// reader, for each input that begins with what was taken.
pub fn readers_handle_lines<A: Allocator + Copy, M: Matcher, R: Source, H: MatchHandler>()
where
    H::Error: SinkError<A>,
    ensures known { (matcher : M) → KnownReadersHandleLines H.goes H.next H.fails
        (makers_of M.Error.output H.Error.makers) (M.facts matcher) R.remaining R.step }
    ensures taken { (matcher : M) → ReadersHandleLines H.goes H.next H.fails
        (makers_of M.Error.output H.Error.makers) (M.facts matcher) R.remaining R.step }
{}

/// What `readers_handle_lines` says of a reader, of a file. After `search_path` such a file is one
/// that was opened.
pub fn files_handle_lines<A: Allocator + Copy, M: Matcher, F: Read, H: MatchHandler>()
where
    H::Error: SinkError<A>,
    ensures known { (matcher : M) → KnownReadersHandleLines H.goes H.next H.fails
        (makers_of M.Error.output H.Error.makers) (M.facts matcher)
        F.remaining (IsFileRead F.remaining) }
    ensures taken { (matcher : M) → ReadersHandleLines H.goes H.next H.fails
        (makers_of M.Error.output H.Error.makers) (M.facts matcher)
        F.remaining (IsFileRead F.remaining) }
{}

/// How far a search of a reader reads that a handler ended, by line and without binary detection,
/// with a lawful matcher: under a heap limit at most that many bytes, and three, beyond the end of
/// the match after which the search didn't go on (`ending_call`), if they pass unchanged. That is
/// said of what was taken of any reader, and of one that says which bytes remain of these.
pub fn ended_readers_stop<A: Allocator + Copy, M: Matcher, R: Source, H: MatchHandler>()
where
    H::Error: SinkError<A>,
    ensures taken { (matcher : M) → EndedReadersStop H.goes H.next H.fails
        (makers_of M.Error.output H.Error.makers) (M.facts matcher) R.remaining R.step }
    ensures known { (matcher : M) → EndedKnownReadersStop H.goes H.next H.fails
        (makers_of M.Error.output H.Error.makers) (M.facts matcher) R.remaining R.step }
{}

/// What `ended_readers_stop` says of a reader, of a file. After `search_path` such a file is one
/// that was opened.
pub fn ended_files_stop<A: Allocator + Copy, M: Matcher, F: Read, H: MatchHandler>()
where
    H::Error: SinkError<A>,
    ensures taken { (matcher : M) → EndedReadersStop H.goes H.next H.fails
        (makers_of M.Error.output H.Error.makers) (M.facts matcher)
        F.remaining (IsFileRead F.remaining) }
    ensures known { (matcher : M) → EndedKnownReadersStop H.goes H.next H.fails
        (makers_of M.Error.output H.Error.makers) (M.facts matcher)
        F.remaining (IsFileRead F.remaining) }
{}

/// A search of a reader that says which bytes remain, by line and without binary detection, with a
/// lawful matcher and a new `First`, without a stop and without a limit or without a context after
/// matches, if it ended in `Ok`, kept the first lines that hit; at a limit of its own above 0 the
/// first of these is the first line that hits. Under a heap limit it read at most that many bytes,
/// and three, beyond the last that it may keep, if the input is searched as it is.
pub fn readers_keep_first<A: Allocator + Copy, M: Matcher, R: Source>()
    ensures { (matcher : M) → ReadersKeepFirst {A = A}
        (makers_of M.Error.output search_error_makers) (M.facts matcher)
        R.remaining R.step }
{}

/// What `readers_keep_first` says of a reader, of a file that says which bytes remain. After
/// `search_path` such a file is one that was opened.
pub fn files_keep_first<A: Allocator + Copy, M: Matcher, F: Read>()
    ensures { (matcher : M) → ReadersKeepFirst {A = A}
        (makers_of M.Error.output search_error_makers) (M.facts matcher)
        F.remaining (IsFileRead F.remaining) }
{}
