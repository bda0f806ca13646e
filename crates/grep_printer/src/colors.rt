//! Colors.
ghost use Rattle.std.specs.Prelude.{◌≡◌, ◌+◌, ◌-◌, ◌<◌, ◌≤◌, ◌^◌, ◌++◌, false, length};
ghost use Rattle.grep_printer.specs.ColorRuns.{after_run, run_text};
ghost use Rattle.grep_printer.specs.ColoredTexts.{color_of, colored, column_color};
ghost use Rattle.grep_printer.specs.ColoredTexts.{highlight_color, is_matched, painted_in};
ghost use Rattle.grep_printer.specs.ColoredTexts.{line_color, matched_color, painted_from};
ghost use Rattle.grep_printer.specs.ColoredTexts.{path_color, switch_text};
ghost use Rattle.grep_replace.specs.MatchedParts.{AreInOrder};
ghost use Rattle.grep_output.specs.PendingTexts.{Adds};

use grep_output::Pending;
use grep_searcher::Match;

// The escape after which a terminal shows a text without colors.
const RESET: &str = "\x1b[0m";

/// The escapes before what a printer writes, in place of ripgrep's.
#[derive(Debug)]
pub struct ColorTexts {
    /// Before a path.
    pub path: String,
    /// Before a line number.
    pub line: String,
    /// Before a column, and before an offset.
    pub column: String,
    /// Before what matches, if that has a color.
    pub matched: Option<String>,
    /// Before a line that matches, and again after what matches in it, if it has a color.
    pub highlight: Option<String>,
}

// Written out, so that a caller's proof sees one call.
impl Drop for ColorTexts {
    fn drop(self) {
        let ColorTexts {
            path: _path,
            line: _line,
            column: _column,
            matched: _matched,
            highlight: _highlight,
        } = self;
    }
}

/// The colors of what a printer writes: the escape before it, if it has one. After it comes the
/// escape that ends all of them. Lines have a color only if what matches has one.
#[derive(Clone, Copy, Debug)]
pub enum ColorSpecs<'c> {
    /// No colors.
    Plain,
    /// The colors of ripgrep: a path is magenta, a line number green, and what matches bold and
    /// red; a column and an offset have escapes that change nothing.
    Default,
    /// Your own.
    Chosen(&'c ColorTexts),
}

impl<'c> ColorSpecs<'c> {
    /// The escape before a path.
    pub fn path(&self) -> Option<&'c str>
        ensures { color_of result ≡ path_color self.now }
    {
        match self {
            ColorSpecs::Plain => None,
            ColorSpecs::Default => Some("\x1b[0m\x1b[35m"),
            ColorSpecs::Chosen(texts) => Some(texts.path.as_str()),
        }
    }

    /// The escape before a line number.
    pub fn line(&self) -> Option<&'c str>
        ensures { color_of result ≡ line_color self.now }
    {
        match self {
            ColorSpecs::Plain => None,
            ColorSpecs::Default => Some("\x1b[0m\x1b[32m"),
            ColorSpecs::Chosen(texts) => Some(texts.line.as_str()),
        }
    }

    /// The escape before a column, and before an offset.
    pub fn column(&self) -> Option<&'c str>
        ensures { color_of result ≡ column_color self.now }
    {
        match self {
            ColorSpecs::Plain => None,
            ColorSpecs::Default => Some("\x1b[0m"),
            ColorSpecs::Chosen(texts) => Some(texts.column.as_str()),
        }
    }

    /// The escape before the bytes of a line that match.
    pub fn matched(&self) -> Option<&'c str>
        ensures { color_of result ≡ matched_color self.now }
    {
        match self {
            ColorSpecs::Plain => None,
            ColorSpecs::Default => Some("\x1b[0m\x1b[1m\x1b[31m"),
            ColorSpecs::Chosen(texts) => match &texts.matched {
                Some(text) => Some(text.as_str()),
                None => None,
            },
        }
    }

    /// The escape before a line that matches.
    pub fn highlight(&self) -> Option<&'c str>
        ensures { color_of result ≡ highlight_color self.now }
    {
        match self {
            ColorSpecs::Plain | ColorSpecs::Default => None,
            ColorSpecs::Chosen(texts) => match &texts.highlight {
                Some(text) => Some(text.as_str()),
                None => None,
            },
        }
    }
}

// Pushes a text, in a color if there is one.
pub(crate) fn push_colored(text: &mut Pending, color: Option<&str>, bytes: &[u8])
    ensures { Adds text.old text.new (colored (color_of color.entry) bytes.now) }
{
    match color {
        Some(color) => {
            text.push(color.as_bytes());
            text.push(bytes);
            text.push(RESET.as_bytes())
        }
        None => text.push(bytes),
    }
}

// Pushes a line, the first byte of which is at a position of its report. The bytes before an end
// that are in a part are colored. If there is a highlight, all bytes before that end have it.
pub(crate) fn push_in_colors(
    text: &mut Pending,
    highlight: Option<&str>,
    color: &str,
    parts: &[Match],
    range: &Match,
    line: &[u8],
)
    requires fits { range.now.0 + length line.now < 2 ^ 64 }
    requires within { range.now.1 ≤ range.now.0 + length line.now }
    requires ordered { AreInOrder 0 (2 ^ 64) parts.now }
    ensures { Adds text.old text.new (painted_in (color_of highlight.entry) color.now
        (is_matched parts.now range.now.1) range.now.0 (range.now.1 - range.now.0) line.now) }
{
    let Some(highlight) = highlight else {
        push_painted(text, color, RESET, parts, range, line);
        return;
    };
    let (shown, rest) = line.split_at(range.end() - range.start());
    text.push(highlight.as_bytes());
    push_painted(text, color, highlight, parts, range, shown);
    text.push(RESET.as_bytes());
    text.push(rest)
}

// Pushes a line, the first byte of which is at a position of its report. The bytes before an end
// that are in a part are colored, and `back`, the escape of all other bytes, comes after each of
// them.
fn push_painted(
    text: &mut Pending,
    color: &str,
    back: &str,
    parts: &[Match],
    range: &Match,
    line: &[u8],
)
    requires fits { range.now.0 + length line.now < 2 ^ 64 }
    requires within { range.now.1 ≤ range.now.0 + length line.now }
    requires ordered { AreInOrder 0 (2 ^ 64) parts.now }
    ensures { Adds text.old text.new (painted_from color.now back.now
        (is_matched parts.now range.now.1) false range.now.0 line.now) }
{
    let end = range.end();
    let mut position = range.start();
    let mut left = line;
    let mut is_colored = false;
    let mut rest = parts;
    while let Some((part, later)) = rest.split_first() {
        if part.start() >= end {
            break;
        }
        let start = part.start().max(position);
        let (gap, after) = left.split_at(start - position);
        position = part.end().min(end).max(start);
        let (found, after) = after.split_at(position - start);
        is_colored = push_run(text, color, back, is_colored, false, gap);
        is_colored = push_run(text, color, back, is_colored, true, found);
        left = after;
        rest = later;
    }
    push_rest(text, color, back, is_colored, left)
}

// Pushes the bytes after the last part of a line, by whether the byte before them is colored.
fn push_rest(text: &mut Pending, color: &str, back: &str, before: bool, bytes: &[u8])
    ensures { Adds text.old text.new (switch_text color.now back.now before false ++ bytes.now) }
{
    push_switch(text, color, back, before, false);
    text.push(bytes)
}

// Pushes a run of bytes, of which all are colored, or none is. Returns whether the last byte that
// was pushed is colored.
fn push_run(
    text: &mut Pending,
    color: &str,
    back: &str,
    before: bool,
    is_colored: bool,
    bytes: &[u8],
) -> bool
    ensures after { result ≡ after_run before is_colored bytes.now }
    ensures text { Adds text.old text.new
        (run_text color.now back.now before is_colored bytes.now) }
{
    if bytes.is_empty() {
        return before;
    }
    push_switch(text, color, back, before, is_colored);
    text.push(bytes);
    is_colored
}

// Pushes what comes between two bytes, by whether the first one is colored and whether the second
// one is.
fn push_switch(text: &mut Pending, color: &str, back: &str, before: bool, after: bool)
    ensures { Adds text.old text.new (switch_text color.now back.now before after) }
{
    match (before, after) {
        (false, true) => text.push(color.as_bytes()),
        (true, false) => text.push(back.as_bytes()),
        _ => {},
    }
}
