//! How patterns are read, and what their matchers declare.
ghost use Rattle.std.specs.Prelude.{◌≡◌, IsTrue};

use grep_matcher::LineTerminator;

/// How patterns are read, and what their matchers declare.
#[derive(Clone, Copy, Debug)]
pub struct Options {
    /// Letters match in either case.
    pub case_insensitive: bool,
    /// The texts are literals.
    pub fixed_strings: bool,
    /// A match begins and ends where no word goes on.
    pub word: bool,
    /// A match begins at the start of a line and ends at the end of one; then `word` has no effect.
    pub whole_line: bool,
    /// `^` and `$` match at the start and the end of each line.
    pub multi_line: bool,
    /// `.` matches a line feed.
    pub dot_matches_new_line: bool,
    /// Classes, case folding and words are Unicode's.
    pub unicode: bool,
    /// `^` and `$` match around a carriage return and a line feed, and `.` matches neither.
    pub crlf: bool,
    /// `a*` prefers fewer repetitions and `a*?` more.
    pub swap_greed: bool,
    /// White space and comments in patterns are ignored.
    pub ignore_whitespace: bool,
    /// `\141` is a character by its octal number.
    pub octal: bool,
    /// How deep patterns may nest, in levels.
    pub nest_limit: u32,
    /// What matchers declare as their line terminator, but for the byte 0; no match holds a byte
    /// of it.
    pub line_terminator: Option<LineTerminator>,
    /// About how large the compiled patterns may be, in bytes.
    pub size_limit: usize,
}

// Whether both are the same line terminator, or none.
fn are_same(ours: Option<LineTerminator>, others: Option<LineTerminator>) -> bool
    ensures { IsTrue result → ours ≡ others }
{
    match (ours, others) {
        (None, None) => true,
        (Some(LineTerminator::Crlf), Some(LineTerminator::Crlf)) => true,
        (Some(LineTerminator::Byte(byte)), Some(LineTerminator::Byte(other))) => byte == other,
        _ => false,
    }
}

impl Options {
    // Whether the options are equal.
    pub(crate) fn is_equal(&self, other: &Options) -> bool
        ensures { IsTrue result → self.now ≡ other.now }
    {
        if !self.is_same_syntax(other) {
            return false;
        }
        if self.case_insensitive != other.case_insensitive {
            return false;
        }
        if self.fixed_strings != other.fixed_strings {
            return false;
        }
        if self.word != other.word {
            return false;
        }
        if self.whole_line != other.whole_line {
            return false;
        }
        if self.multi_line != other.multi_line {
            return false;
        }
        if self.dot_matches_new_line != other.dot_matches_new_line {
            return false;
        }
        if self.size_limit != other.size_limit {
            return false;
        }
        are_same(self.line_terminator, other.line_terminator)
    }

    // Whether those options are equal that are about the syntax of patterns.
    fn is_same_syntax(&self, other: &Options) -> bool
        ensures { IsTrue result → self.now ≡ record self.now {
          unicode = other.now.unicode;
          crlf = other.now.crlf;
          swap_greed = other.now.swap_greed;
          ignore_whitespace = other.now.ignore_whitespace;
          octal = other.now.octal;
          nest_limit = other.now.nest_limit;
        } }
    {
        if self.unicode != other.unicode {
            return false;
        }
        if self.crlf != other.crlf {
            return false;
        }
        if self.swap_greed != other.swap_greed {
            return false;
        }
        if self.ignore_whitespace != other.ignore_whitespace {
            return false;
        }
        if self.octal != other.octal {
            return false;
        }
        if self.nest_limit != other.nest_limit {
            return false;
        }
        true
    }
}
