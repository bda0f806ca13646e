//! Laws of the lines of some bytes, each the contract of a function that does nothing.
ghost use Rattle.grep_lines.specs.LineLaws.{LinesJoin, LinesAreDetermined, LinesAppend};
ghost use Rattle.grep_lines.specs.LineLaws.{LinesAreNumbered, LinesAreFew};

/// The lines joined are the bytes, no line is empty, the terminator occurs only at the end of a
/// line, and each line but the last ends with it.
pub fn lines_join()
    ensures { LinesJoin }
{}

/// No other pieces have these four properties.
pub fn lines_are_determined()
    ensures { LinesAreDetermined }
{}

/// After bytes that are empty or end in a terminator the lines begin anew: the lines of both parts
/// are the lines of the first part followed by those of the second.
pub fn lines_append()
    ensures { LinesAppend }
{}

/// As many terminators come before a line as lines do, so the line's 1-based number is one more
/// than the number of terminators before it.
pub fn lines_are_numbered()
    ensures { LinesAreNumbered }
{}

/// There are at most as many lines as bytes.
pub fn lines_are_few()
    ensures { LinesAreFew }
{}
