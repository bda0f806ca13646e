//! What the printers make of a search: each law is the contract of a function that does nothing.
ghost use Rattle.grep_printer.specs.CountedTexts.{StatsCount};
ghost use Rattle.grep_printer.specs.JsonLaws.{BeginsTell, MessagesAreReadBack, MessagesTell};
ghost use Rattle.grep_printer.specs.LinePlaces.{LinesArePlaced, PlainLinesAreNumbered};
ghost use Rattle.grep_printer.specs.LinkedFields.{LinksAreAround};
ghost use Rattle.grep_printer.specs.PlanCounts.{JsonCounts, SummariesCount};
ghost use Rattle.grep_printer.specs.PrinterSteps.{CallsPrint, RunsFailToPrint, RunsPrint};
ghost use Rattle.grep_printer.specs.SearchMessages.{PartsHaveWords, PlansHaveWords};
ghost use Rattle.grep_printer.specs.SearchMessages.{SearchesAreReadBack, SearchesTell};

use crate::format::Format;
use crate::replacers::Replacer;
use grep_output::Output;
use grep_searcher::{FindAt, Matcher};

// The parts that a printer writes or counts are successive matches of the matcher, from the start
// of the report on.
pub use grep_replace::laws::parts_are_successive;

/// A run of a printer's sink that ended in `Ok` has printed the calls of its plan, in order, up to
/// the first after which the search doesn't go on, and `finish`. Their texts come after what wasn't
/// written before.
///
/// A run that ended in an error failed at a call, and has printed the calls before it. If the
/// writer failed, some first bytes of their texts and of the text of the call are written.
///
/// Calls that all returned true are printed, as are those before reading fails.
pub fn runs_print<F: Format, M: FindAt, W: Output>()
    ensures made { CallsPrint F.rules M.Error.output M.facts M.first_at W.step }
    ensures ok { RunsPrint F.rules M.Error.output M.facts M.first_at W.step }
    ensures error { RunsFailToPrint F.rules M.Error.output M.facts M.first_at W.step }
{}

/// The line of a message is a text and a line feed. The text has no line feed itself, and any
/// reader of JSON reads it as this message.
///
/// The message of a report tells the report's type, path, bytes, number and offset, its matches,
/// and what would replace them, if that is bytes: no other report has this message.
///
/// The message that begins a search tells the path, and is the message of no report.
pub fn messages_are_read_back()
    ensures read { MessagesAreReadBack }
    ensures tell { MessagesTell }
    ensures begin { BeginsTell }
{}

/// The text of a whole search, split after each line feed, has a line for each message of the
/// search's calls, in order, and each line is read as its message. There is a message for `begin`,
/// if it is due and wasn't written before, and one for each match and each context line.
///
/// So the text tells all reports of the search, and what would replace their matches, if that is
/// bytes: no search that reports anything else has this text.
///
/// The premise is that the calls report bytes, and numbers of 64 bits. So it is, under any binary
/// detection, for the plan of a search of fewer bytes than the greatest such number; then the
/// positions of the matches are such numbers too.
pub fn searches_are_read_back<R: Replacer>()
    ensures read { SearchesAreReadBack R.text_at }
    ensures tell { SearchesTell R.text_at }
    ensures words { PlansHaveWords }
    ensures parts { PartsHaveWords }
{}

/// The text of some lines is the text of each, in order. The line after `i` others has the number
/// of the first line and `i` more, up to the greatest number of 64 bits, and begins where the lines
/// before it end.
pub fn lines_are_placed()
    ensures placed { LinesArePlaced }
    ensures plain { PlainLinesAreNumbered }
{}

/// What a `Json`, and a `Summary` of any kind, count in a search, by all its calls and their parts.
/// The counts are sums over the matches, up to the greatest number of 64 bits.
pub fn matches_are_counted<R: Replacer>()
    ensures json { JsonCounts R.text_at }
    ensures summary { SummariesCount }
{}

/// What a format counts in a search, if it counts: sums over the matches, the size of the text that
/// it wrote, and how many bytes the search has been through, each up to the greatest number of 64
/// bits.
pub fn searches_are_counted<F: Format>()
    ensures { StatsCount F.rules }
{}

/// The link before a line is around the line's fields as they are without a link, and the last mark
/// comes after it.
pub fn links_are_around_fields()
    ensures { LinksAreAround }
{}
