//! Laws of first matches, each the contract of a function that does nothing.
ghost use Rattle.grep_regex.specs.Laws.{MatchesAsWritten, MatchesAreClear, MatchesEndWithLines};
ghost use Rattle.grep_regex.specs.Laws.{GroupsAreOfFirstMatch, LineEndsAreUnseen};

/// Where no byte of the line terminator follows a position, as in a line alone, the first match
/// from it on is that of the pattern itself. Under CRLF this is so of what is seen: a line may end
/// in its terminator, or in a line feed alone.
pub fn matches_are_as_written()
    ensures { MatchesAsWritten }
{}

/// A match holds no byte of the line terminator.
pub fn matches_are_clear()
    ensures { MatchesAreClear }
{}

/// Under CRLF a match ends before the line feed that ends what is asked about, and before a
/// carriage return that is right before that.
pub fn matches_end_with_lines()
    ensures { MatchesEndWithLines }
{}

/// Under CRLF a line has the same matches with its terminator, with a line feed alone, and without:
/// if it doesn't end in a line feed itself, nor for a line feed alone in a carriage return.
pub fn line_ends_are_unseen()
    ensures { LineEndsAreUnseen }
{}

/// The groups of the first match from a position on are those of the first match from its own start
/// on. So who has found a match may ask for its groups at its start.
pub fn groups_are_of_first_match()
    ensures { GroupsAreOfFirstMatch }
{}
