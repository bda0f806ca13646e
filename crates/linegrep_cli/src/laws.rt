//! What the theorem of a run comes to if one input is searched, in the words of a user. Each law is
//! the contract of a function that does nothing.
//!
//! The premise of each law is that the run's options use no option that changes what is written of
//! a file, but for those that the law names. Any others may be used: those that say what the
//! pattern means, those that choose files, and those about what standard error says.
ghost use Rattle.linegrep_cli.specs.Corollaries.{FirstLinesAreWritten, MatchingLinesAreCounted};
ghost use Rattle.linegrep_cli.specs.Corollaries.{MatchesAreWritten, MatchingLinesAreWritten};
ghost use Rattle.linegrep_cli.specs.Corollaries.{NumberedLinesAreWritten, OtherLinesAreWritten};
ghost use Rattle.linegrep_cli.specs.Corollaries.{PathsAreWritten, QuietRunsWriteNothing};
ghost use Rattle.linegrep_cli.specs.Corollaries.{StatusesTellMatching};
ghost use Rattle.linegrep_cli.specs.Worlds.{world_of};

use crate::system::System;
use grep_output::Output;
use grep_searcher::Source;

/// `linegrep P FILE` writes exactly the lines of the file that match, in order. A line feed comes
/// after the last one, if the file ends without one.
pub fn matching_lines_are_written<S: System, R: Source, W: Output, E: Output>()
    ensures { MatchingLinesAreWritten
        (world_of S.System.own S.Open S.Folders S.File.Read R.Source W.Output E.Output) }
{}

/// `linegrep -v P FILE` writes exactly the other lines.
pub fn other_lines_are_written<S: System, R: Source, W: Output, E: Output>()
    ensures { OtherLinesAreWritten
        (world_of S.System.own S.Open S.Folders S.File.Read R.Source W.Output E.Output) }
{}

/// `linegrep -n P FILE` writes each line that matches after its number and a colon. Lines are
/// counted from 1.
pub fn numbered_lines_are_written<S: System, R: Source, W: Output, E: Output>()
    ensures { NumberedLinesAreWritten
        (world_of S.System.own S.Open S.Folders S.File.Read R.Source W.Output E.Output) }
{}

/// `linegrep -m N P FILE` writes the first N of the lines that match.
pub fn first_lines_are_written<S: System, R: Source, W: Output, E: Output>()
    ensures { FirstLinesAreWritten
        (world_of S.System.own S.Open S.Folders S.File.Read R.Source W.Output E.Output) }
{}

/// The status of `linegrep P FILE`, with `-n` or without, is 0 if a line matches, and 1 if none
/// does.
pub fn statuses_tell_matching<S: System, R: Source, W: Output, E: Output>()
    ensures { StatusesTellMatching
        (world_of S.System.own S.Open S.Folders S.File.Read R.Source W.Output E.Output) }
{}

/// `linegrep -c P FILE` writes how many lines match, and a line feed. If none does, it writes
/// nothing. The status is 0 if a line matches, and 1 if none does.
pub fn matching_lines_are_counted<S: System, R: Source, W: Output, E: Output>()
    ensures { MatchingLinesAreCounted
        (world_of S.System.own S.Open S.Folders S.File.Read R.Source W.Output E.Output) }
{}

/// `linegrep -o P FILE` writes each match in the lines that match, in order, in a line of its own. A
/// line without a line feed at its end is written whole if all that matches is its end.
pub fn matches_are_written<S: System, R: Source, W: Output, E: Output>()
    ensures { MatchesAreWritten
        (world_of S.System.own S.Open S.Folders S.File.Read R.Source W.Output E.Output) }
{}

/// `linegrep -l P FILE` writes the path and a line feed, if a line matches. If none does, it writes
/// nothing. The status is 0 if a line matches, and 1 if none does.
pub fn paths_with_match_are_written<S: System, R: Source, W: Output, E: Output>()
    ensures { PathsAreWritten
        (world_of S.System.own S.Open S.Folders S.File.Read R.Source W.Output E.Output) }
{}

/// If `linegrep -q P FILE` has searched the whole file, it has written nothing, and its status is 0
/// if a line matches, and 1 if none does. Each run whose status is 1 has done so.
pub fn quiet_runs_write_nothing<S: System, R: Source, W: Output, E: Output>()
    ensures { QuietRunsWriteNothing
        (world_of S.System.own S.Open S.Folders S.File.Read R.Source W.Output E.Output) }
{}
