//! Laws of the calls that a search makes, over their definition alone: each is the contract of a
//! function that does nothing.
ghost use Rattle.grep_definitions.specs.SearchLaws.{UnchangedIsInput, UnsniffedIsUnchanged};
ghost use Rattle.grep_definitions.specs.SearchLaws.{UnmarkedIsUnchanged};
ghost use Rattle.grep_definitions.specs.SearchLaws.{UnchangedPasses, MarkedPasses};
ghost use Rattle.grep_definitions.specs.SearchLaws.{ReportsAscend, AfterWins, InversionComplements};
ghost use Rattle.grep_definitions.specs.SearchLaws.{FirstLinesBegin, AtMostLimit, WholeCount};
ghost use Rattle.grep_definitions.specs.SearchLaws.{LinesAreNumbered, MatchesAreMatchedLines};
ghost use Rattle.grep_definitions.specs.SearchLaws.{MatchesDecide};
ghost use Rattle.grep_definitions.specs.SearchLaws.{MatchesAreCounted, FirstMatchIsFirst};
ghost use Rattle.grep_definitions.specs.SearchLaws.{MatchesAreFew};
ghost use Rattle.grep_definitions.specs.AcrossLaws;
ghost use Rattle.grep_definitions.specs.AcrossLaws.{SearchesByLine, SearchesAcrossLines};
ghost use Rattle.grep_definitions.specs.AcrossLaws.{MatchTouchesItsLines, EmptyMatchTouchesItsLine};
ghost use Rattle.grep_definitions.specs.AcrossLaws.{MatchesAreAll, SelectedAreReported};
ghost use Rattle.grep_definitions.specs.AcrossLaws.{ReportsAreApart, ReportsAreAsByLine};
ghost use Rattle.grep_definitions.specs.BinaryLaws.{QuitReportsAreClear, CountedReportsAreClear};
ghost use Rattle.grep_definitions.specs.BinaryLaws.{SeenLinesAreClear, SeenLinesBegin};
ghost use Rattle.grep_definitions.specs.CountLaws.{NumbersChangeNoCount, NumbersChangeNoBytes};

/// An input without a label, and without a mark that is looked for and found, is searched as it is.
/// After a mark of UTF-8 that is looked for, what comes after it is searched as it is.
pub fn unchanged_is_searched()
    ensures input { UnchangedIsInput }
    ensures unsniffed { UnsniffedIsUnchanged }
    ensures unmarked { UnmarkedIsUnchanged }
    ensures passes { UnchangedPasses }
    ensures marked { MarkedPasses }
{}

/// By line, the reports ascend, and no byte is reported twice: each report has a byte, and ends at
/// or before the offset of each later one.
pub fn reports_ascend()
    ensures { ReportsAscend }
{}

/// By line, a line that may be reported, isn't selected and is in reach of an earlier selected line
/// is reported as the line after it, even if it is also before a later one; as a match if it hits
/// past the limit.
pub fn after_wins()
    ensures { AfterWins }
{}

/// By line, without limit and stop, a search and its inversion select complementary lines.
pub fn inversion_complements()
    ensures { InversionComplements }
{}

/// By line, the calls over some first lines, except `finish`, begin those over all lines, under
/// settings as they are built.
pub fn first_lines_begin()
    ensures { FirstLinesBegin }
{}

/// By line, at most `max_matches + after_context` matches are reported, and none at limit 0.
pub fn at_most_limit()
    ensures { AtMostLimit }
{}

/// By line, if every line may be reported, the byte count of a search in which every call returns
/// true is the length.
pub fn whole_count()
    ensures { WholeCount }
{}

/// By line, the plan depends on a matcher's matches alone, not on the terminator or the bytes that
/// it excludes: a search by line with `Plain` of a matcher, which asks about one line at a time,
/// makes the same calls as one with the matcher, with the same byte counts.
pub fn matches_decide()
    ensures { MatchesDecide }
{}

/// Line `i`, counted from 0, has the number `i + 1` if lines are numbered, and none if not.
pub fn lines_are_numbered()
    ensures { LinesAreNumbered }
{
    grep_lines::laws::lines_are_numbered();
}

/// By line, the matches that are reported are the selected lines and those that hit past the limit
/// in the context after them, in order: each with its number, its offset and its bytes.
pub fn matches_are_matched_lines()
    ensures { MatchesAreMatchedLines }
{}

/// By line, as many matches are reported as there are such lines.
pub fn matches_are_counted()
    ensures { MatchesAreCounted }
{}

/// By line, the first match that is reported is the first selected line; if no line is selected,
/// there is none.
pub fn first_match_is_first()
    ensures { FirstMatchIsFirst }
{}

/// By line, at most as many matches are reported as there are bytes.
pub fn matches_are_few()
    ensures { MatchesAreFew }
{}

/// Whether lines are numbered changes no count: a search that doesn't number lines reports as many
/// matches as one that does, and the same bytes are searched.
pub fn numbers_change_no_count()
    ensures count { NumbersChangeNoCount }
    ensures bytes { NumbersChangeNoBytes }
{}

/// Without `multi_line`, or with a matcher that excludes the line terminator, a search is by line.
pub fn searches_by_line()
    ensures { SearchesByLine }
{}

/// With `multi_line`, and a matcher that doesn't exclude the line terminator, a search is across
/// lines.
pub fn searches_across_lines()
    ensures { SearchesAcrossLines }
{}

/// No match is left out of the successive ones.
pub fn matches_are_all()
    ensures { MatchesAreAll }
{}

/// A match touches the lines that it has a byte of, and an empty match the line that holds its
/// position.
pub fn matches_touch_their_lines()
    ensures some { MatchTouchesItsLines }
    ensures empty { EmptyMatchTouchesItsLine }
{}

/// Across lines too, without limit a search and its inversion select complementary lines.
pub fn inversion_complements_across()
    ensures { AcrossLaws.InversionComplements }
{}

/// Across lines too, the reports ascend, and no byte is reported twice.
pub fn reports_ascend_across()
    ensures { AcrossLaws.ReportsAscend }
{}

/// Across lines too, a line that isn't selected and is in reach of an earlier selected line is
/// reported as the line after it, even if it is also before a later one.
pub fn after_wins_across()
    ensures { AcrossLaws.AfterWins }
{}

/// Across lines too, no more matches are reported than the limit has.
pub fn at_most_limit_across()
    ensures { AcrossLaws.AtMostLimit }
{}

/// Across lines the match reports, joined, are the selected lines, joined: each selected line is in
/// one report, and no other line is.
pub fn selected_are_reported_across()
    ensures { SelectedAreReported }
{}

/// Across lines and without inversion, each match report ends before the next one begins: a line
/// that isn't selected is between them.
pub fn reports_are_apart_across()
    ensures { ReportsAreApart }
{}

/// Across lines, contexts, breaks and counts are as by line: if a search under inversion selects
/// the lines that a search by line does, and in that search by line each line may be reported and
/// none is trailing, both make the same calls.
pub fn reports_are_as_by_line()
    ensures { ReportsAreAsByLine }
{}

/// Across lines every byte counts, whatever the limit is.
pub fn whole_count_across()
    ensures { AcrossLaws.WholeCount }
{}

/// Across lines it makes no difference whether a search would stop at a line that doesn't match.
pub fn stop_is_ignored_across()
    ensures { AcrossLaws.StopIsIgnored }
{}

/// A search of contents that ends at a binary byte reports no bytes that hold it, and one that
/// doesn't end there reports none either.
pub fn quit_reports_are_clear()
    ensures { QuitReportsAreClear }
{}

/// By line, if a byte isn't among the first `count` bytes, no report whose own count is at most
/// `count` holds it. Nor does a report over lines at the front of an input, if the byte that ends
/// the search isn't among these.
pub fn counted_reports_are_clear()
    ensures first { CountedReportsAreClear }
    ensures seen { SeenLinesAreClear }
{}

/// The calls for the lines before a binary byte at which a search by line ends begin those for all
/// lines of the input, under settings as they are built.
pub fn seen_lines_begin()
    ensures { SeenLinesBegin }
{}
