//! Lines, and the fields before them.
ghost use Rattle.std.specs.Prelude.{◌≡◌, ◌+◌, ◌<◌, ◌≤◌, ◌^◌, ◌∷◌, ◌++◌, [], decimal, length};
ghost use Rattle.std.specs.Prelude.{IfSome, take};
ghost use Rattle.std.specs.List.{count_by, list_any, prefix_len};
ghost use Rattle.std.specs.Option.{unwrap_or};
ghost use Rattle.grep_matcher.specs.Lines.{byte_of};
ghost use Rattle.grep_searcher.specs.Lines.{lines};
ghost use Rattle.grep_printer.specs.ColoredTexts.{color_of, colored, path_color, reaches};
ghost use Rattle.grep_printer.specs.LineTexts.{begins_after, break_text, context_line};
ghost use Rattle.grep_printer.specs.LineTexts.{counted_notice, long_text, more_notice};
ghost use Rattle.grep_printer.specs.LineTexts.{preview_len, preview_text, previewed};
ghost use Rattle.grep_printer.specs.LineTexts.{counted_parts, fields, highlight_of};
ghost use Rattle.grep_printer.specs.LineTexts.{indentation, is_long, is_space, is_touching};
ghost use Rattle.grep_printer.specs.LineTexts.{line_text};
ghost use Rattle.grep_printer.specs.LineTexts.{lines_text, mark_after, mark_of, missing_end};
ghost use Rattle.grep_printer.specs.LineTexts.{notice, next_number, number_field, opening_text};
ghost use Rattle.grep_printer.specs.LineTexts.{linked_fields, marked_fields, next_mark};
ghost use Rattle.grep_printer.specs.LineTexts.{next_number_field, path_mark, shown_column};
ghost use Rattle.grep_printer.specs.Hyperlinks.{shown_path};
ghost use Rattle.grep_printer.specs.LineTexts.{shown_offset, text_field};
ghost use Rattle.grep_printer.specs.LineTexts.{painted_line, path_field, place_after};
ghost use Rattle.grep_printer.specs.LineTexts.{separator_text};
ghost use Rattle.grep_replace.specs.MatchedParts.{AreInOrder};
ghost use Rattle.grep_output.specs.PendingTexts.{Adds};

use crate::colors::{push_colored, push_in_colors};
use crate::config::{Config, SearchSeparator};
use crate::hyperlinks::{
    Hyperlink, PrinterPath, prefix_link, push_link_end, push_linked_path, push_path_within,
    shown_path,
};
use crate::parts::parts_after;
use crate::separators::Separators;
use bstr::ByteSlice;
use grep_lines::without_terminator;
use grep_output::Pending;
use grep_searcher::{LineIter, LineTerminator, Match};
use itoa::write_digits;

// Where a line is: its number, the column of the first match, its offset, and the position of its
// first byte in the report.
#[derive(Clone, Copy)]
pub(crate) struct Place {
    pub(crate) number: Option<u64>,
    pub(crate) column: Option<u64>,
    pub(crate) offset: u64,
    pub(crate) start: usize,
}

// What a line belongs to.
#[derive(Clone, Copy)]
pub(crate) enum LineKind {
    // A match.
    Match,
    // No match: the line is near a match, or every line is reported.
    Context,
}

// How the lines of a search are laid out: the settings, the path, and what ends a line.
#[derive(Clone, Copy)]
pub(crate) struct Layout<'c, 'p> {
    pub(crate) config: Config<'c>,
    pub(crate) path: Option<PrinterPath<'p>>,
    pub(crate) terminator: LineTerminator,
}

impl<'c, 'p> Layout<'c, 'p> {
    // Pushes what is written before the first report of a search.
    pub(crate) fn push_opening(&self, text: &mut Pending, has_written: bool)
        ensures { Adds text.old text.new (opening_text self.now has_written) }
    {
        if has_written {
            self.push_separator(text);
        }
        if !self.config.heading {
            return;
        }
        let mark = self
            .config
            .path_terminator
            .unwrap_or(self.terminator.as_byte());
        push_path(text, self.config.color_specs.path(), &self.path, &[mark])
    }

    // Pushes what is written between two searches.
    fn push_separator(&self, text: &mut Pending)
        ensures { Adds text.old text.new
            (separator_text self.now.config.separator self.now.config.separators
            (byte_of self.now.terminator)) }
    {
        let end = self.terminator.as_byte();
        match self.config.separator {
            SearchSeparator::Nothing => {}
            SearchSeparator::Blank => text.push(&[end]),
            SearchSeparator::Groups => push_break(text, self.config.separators, end),
        }
    }

    // Pushes the lines of a match, the first of which is at a place, with its parts in color.
    pub(crate) fn push_lines(
        &self,
        text: &mut Pending,
        kind: LineKind,
        place: Place,
        parts: &[Match],
        bytes: &[u8],
    )
        requires fits { place.offset + length bytes.now < 2 ^ 64 }
        requires starts { place.start ≤ place.offset }
        requires ordered { AreInOrder 0 (2 ^ 64) parts.now }
        ensures { Adds text.old text.new (lines_text self.now kind place parts.now
            (lines (byte_of self.now.terminator) bytes.now)) }
    {
        let mut place = place;
        let mut rest = parts;
        for line in LineIter::new(self.terminator.as_byte(), bytes) {
            rest = parts_after(rest, place.start);
            self.push_line(text, kind, &place, rest, line);
            place = place_after(&place, line);
        }
    }

    // Pushes a line after its fields, or a notice if it is too long.
    #[tactic(auto, unfolding(crate::specs::LineTexts::shown_line))]
    pub(crate) fn push_line(
        &self,
        text: &mut Pending,
        kind: LineKind,
        place: &Place,
        parts: &[Match],
        line: &[u8],
    )
        requires fits { place.now.start + length line.now < 2 ^ 64 }
        requires ordered { AreInOrder 0 (2 ^ 64) parts.now }
        ensures { Adds text.old text.new (line_text self.now kind place.now parts.now line.now) }
    {
        self.push_fields(text, kind, place);
        let indentation = self.indentation(line);
        let shown = &line[indentation..];
        if is_long(self.config.max_columns, shown) {
            self.push_long(text, kind, place, parts, line);
            text.push(&[self.terminator.as_byte()]);
            return;
        }
        let highlight = self.highlight(kind, place, parts);
        self.push_bytes(text, highlight, place.start + indentation, parts, shown);
        push_missing_end(text, self.terminator.as_byte(), shown)
    }

    // Pushes what is written of a line that is too long.
    #[tactic(auto, unfolding(crate::specs::LineTexts::long_text))]
    fn push_long(
        &self,
        text: &mut Pending,
        kind: LineKind,
        place: &Place,
        parts: &[Match],
        line: &[u8],
    )
        requires fits { place.now.start + length line.now < 2 ^ 64 }
        requires ordered { AreInOrder 0 (2 ^ 64) parts.now }
        ensures { Adds text.old text.new (long_text self.now kind place.now parts.now line.now) }
    {
        if !self.config.max_columns_preview {
            push_notice(text, kind, self.count_parts(parts, place.start, line));
            return;
        }
        let indentation = self.indentation(line);
        let highlight = self.highlight(kind, place, parts);
        let start = place.start + indentation;
        self.push_preview(text, highlight, start, parts, &line[indentation..])
    }

    // Pushes the first bytes of a line that begins at a position of its report, and a notice.
    #[tactic(auto, unfolding(crate::specs::LineTexts::preview_text))]
    fn push_preview(
        &self,
        text: &mut Pending,
        highlight: Option<&str>,
        start: usize,
        parts: &[Match],
        line: &[u8],
    )
        requires fits { start + length line.now < 2 ^ 64 }
        requires ordered { AreInOrder 0 (2 ^ 64) parts.now }
        ensures { Adds text.old text.new
            (preview_text self.now (color_of highlight.entry) parts.now start line.now) }
    {
        let shown = self.previewed(line);
        self.push_bytes(text, highlight, start, parts, shown);
        let end = start + line.len();
        let all = count_touching(parts, start, end);
        let later = count_beginning(parts, start + shown.len(), end);
        push_more(text, all, later)
    }

    // The first bytes of a line that is too long.
    fn previewed<'l>(&self, line: &'l [u8]) -> &'l [u8]
        ensures value { result.now ≡ previewed self.now line.now }
        ensures within { length result.now ≤ length line.now }
    {
        let most = self.config.max_columns.unwrap_or(0);
        let end = preview_len(without_terminator(line, self.terminator), most);
        &line[..end]
    }

    // How many bytes at the start of a line are left out.
    fn indentation(&self, line: &[u8]) -> usize
        ensures value { result ≡ indentation self.now line.now }
        ensures within { result ≤ length line.now }
    {
        if !self.config.trim_ascii {
            return 0;
        }
        space_len(without_terminator(line, self.terminator))
    }

    // How many parts are in a line that begins at a position of its report. If parts are written in
    // place of lines, they aren't counted.
    fn count_parts(&self, parts: &[Match], start: usize, line: &[u8]) -> usize
        requires { start + length line.now < 2 ^ 64 }
        ensures { result ≡ counted_parts self.now parts.now start line.now }
    {
        if self.config.only_matching {
            return 0;
        }
        count_touching(parts, start, start + line.len())
    }

    // The highlight of a line. A line of a match has it if a part reaches into it, or begins after
    // its start.
    fn highlight(&self, kind: LineKind, place: &Place, parts: &[Match]) -> Option<&'c str>
        ensures { color_of result ≡ highlight_of self.now kind place.now parts.now }
    {
        match (self.config.color_specs.highlight(), kind) {
            (Some(highlight), LineKind::Match) => {
                if any_reaches(parts, place.start) {
                    Some(highlight)
                } else {
                    None
                }
            }
            _ => None,
        }
    }

    // Pushes the bytes of a line, the first of which is at a position of the report, with a
    // highlight, if there is one.
    fn push_bytes(
        &self,
        text: &mut Pending,
        highlight: Option<&str>,
        start: usize,
        parts: &[Match],
        line: &[u8],
    )
        requires fits { start + length line.now < 2 ^ 64 }
        requires ordered { AreInOrder 0 (2 ^ 64) parts.now }
        ensures { Adds text.old text.new
            (painted_line self.now (color_of highlight.entry) parts.now start line.now) }
    {
        match self.config.color_specs.matched() {
            Some(color) => {
                let end = start + without_terminator(line, self.terminator).len();
                push_in_colors(text, highlight, color, parts, &Match::new(start, end), line)
            }
            None => text.push(line),
        }
    }

    // Pushes the fields before a line, as a link if they have one.
    #[inline(always)]
    fn push_fields(&self, text: &mut Pending, kind: LineKind, place: &Place)
        ensures { Adds text.old text.new (fields self.now kind place.now) }
    {
        match prefix_link(self.config.heading, &self.path) {
            None => self.push_marked_fields(text, kind, place),
            Some(link) => self.push_linked_fields(text, &link, kind, place),
        }
    }

    // Pushes the fields before a line, each with a mark after it.
    #[inline(always)]
    fn push_marked_fields(&self, text: &mut Pending, kind: LineKind, place: &Place)
        ensures { Adds text.old text.new (marked_fields self.now kind place.now) }
    {
        let colors = &self.config.color_specs;
        let mark = self.mark(kind);
        if !self.config.heading {
            self.push_path(text, mark);
        }
        push_number(text, colors.line(), place.number, mark);
        push_number(text, colors.column(), self.shown_column(place), mark);
        push_number(text, colors.column(), self.shown_offset(place), mark);
    }

    // Pushes the fields before a line as a link. The last mark comes after the link.
    #[inline(never)]
    fn push_linked_fields(
        &self,
        text: &mut Pending,
        link: &Hyperlink<'_>,
        kind: LineKind,
        place: &Place,
    )
        ensures { Adds text.old text.new (linked_fields self.now link.now kind place.now) }
    {
        let colors = &self.config.color_specs;
        let (column, offset) = (self.shown_column(place), self.shown_offset(place));
        link.push_start(text, place.number, place.column);
        if !self.config.heading {
            push_path_within(text, colors.path(), &self.path);
        }
        let end = [self.config.path_terminator.unwrap_or(0)];
        let mark = self.mark(kind);
        let first = self.path_mark(mark, &end);
        push_next_number(text, colors.line(), first, place.number);
        let second = next_mark(first, mark, place.number);
        push_next_number(text, colors.column(), second, column);
        let third = next_mark(second, mark, column);
        push_next_number(text, colors.column(), third, offset);
        push_link_end(text);
        text.push(next_mark(third, mark, offset))
    }

    // What comes after the path before a line: a mark, or the end that stands in its place. After a
    // heading nothing does.
    fn path_mark<'m>(&self, mark: &'m [u8], end: &'m [u8]) -> &'m [u8]
        requires { IfSome self.now.config.path_terminator (λ byte. end.now ≡ byte ∷ []) }
        ensures { result.now ≡ path_mark self.now mark.now }
    {
        if self.config.heading {
            return b"";
        }
        match self.config.path_terminator {
            Some(_) => end,
            None => mark,
        }
    }

    // The column that is written before a line.
    #[inline(always)]
    fn shown_column(&self, place: &Place) -> Option<u64>
        ensures { result ≡ shown_column self.now place.now }
    {
        if self.config.column {
            place.column
        } else {
            None
        }
    }

    // The offset that is written before a line.
    #[inline(always)]
    fn shown_offset(&self, place: &Place) -> Option<u64>
        ensures { result ≡ shown_offset self.now place.now }
    {
        if self.config.byte_offset {
            Some(place.offset)
        } else {
            None
        }
    }

    // The text after each field of a line.
    fn mark(&self, kind: LineKind) -> &[u8]
        ensures { result.now ≡ mark_of self.now.config.separators kind }
    {
        match (self.config.separators, kind) {
            (None, LineKind::Match) => b":",
            (None, LineKind::Context) => b"-",
            (Some(separators), LineKind::Match) => &separators.field_match,
            (Some(separators), LineKind::Context) => &separators.field_context,
        }
    }

    // Pushes the path before a line, which is no link, with a text after it unless a byte comes in
    // its place.
    fn push_path(&self, text: &mut Pending, mark: &[u8])
        ensures { Adds text.old text.new (text_field (path_color self.now.config.color_specs)
            (mark_after self.now.config.path_terminator mark.now) (shown_path self.now.path)) }
    {
        let color = self.config.color_specs.path();
        let path = shown_path(&self.path);
        match self.config.path_terminator {
            Some(end) => push_text(text, color, path, &[end]),
            None => push_text(text, color, path, mark),
        }
    }
}

// Pushes a number, in a color if there is one, and a mark, if there is a number.
#[inline(always)]
pub(crate) fn push_number(text: &mut Pending, color: Option<&str>, number: Option<u64>, mark: &[u8])
    ensures { Adds text.old text.new (number_field (color_of color.entry) mark.now number) }
{
    let Some(number) = number else {
        return;
    };
    match (color, mark) {
        (None, [mark]) => text.push_number(number, *mark),
        _ => push_digits(text, color, number, mark),
    }
}

// Pushes a number, in a color if there is one, and a mark.
fn push_digits(text: &mut Pending, color: Option<&str>, number: u64, mark: &[u8])
    ensures { Adds text.old text.new (colored (color_of color.entry) (decimal number) ++ mark.now) }
{
    // A number of 64 bits has 20 digits at most.
    let mut digits = [0; 20];
    let start = write_digits(number, &mut digits, 20);
    push_colored(text, color, &digits[start..]);
    text.push(mark)
}

// Pushes a number after a mark, in a color if there is one, if there is a number.
fn push_next_number(text: &mut Pending, color: Option<&str>, before: &[u8], number: Option<u64>)
    ensures { Adds text.old text.new
        (next_number_field (color_of color.entry) before.now number) }
{
    if let Some(number) = number {
        text.push(before);
        push_digits(text, color, number, b"")
    }
}

// The mark that comes after a number, or the one that has come before it if there is no number.
fn next_mark<'m>(before: &'m [u8], mark: &'m [u8], number: Option<u64>) -> &'m [u8]
    ensures { result.now ≡ next_mark before.now mark.now number }
{
    match number {
        Some(_) => mark,
        None => before,
    }
}

// Pushes a text, in a color if there is one, and a mark, if there is a text.
fn push_text(text: &mut Pending, color: Option<&str>, field: Option<&str>, mark: &[u8])
    ensures { Adds text.old text.new (text_field (color_of color.entry) mark.now field.entry) }
{
    match field {
        Some(field) => {
            push_colored(text, color, field.as_bytes());
            text.push(mark)
        }
        None => {}
    }
}

// Pushes a path, in a color if there is one and as a link if it has one, and a mark, if there is a
// path.
pub(crate) fn push_path(
    text: &mut Pending,
    color: Option<&str>,
    path: &Option<PrinterPath<'_>>,
    mark: &[u8],
)
    ensures { Adds text.old text.new (path_field (color_of color.entry) mark.now path.now) }
{
    match path {
        Some(path) => {
            push_linked_path(text, color, path);
            text.push(mark)
        }
        None => {}
    }
}

// Pushes the terminator of a line, if it isn't at its end.
#[inline(always)]
pub(crate) fn push_missing_end(text: &mut Pending, terminator: u8, line: &[u8])
    ensures { Adds text.old text.new (missing_end terminator line.now) }
{
    if line.ends_with(&[terminator]) {
        return;
    }
    text.push_byte(terminator)
}

// How many bytes of white space come first.
fn space_len(bytes: &[u8]) -> usize
    ensures value { result ≡ prefix_len is_space bytes.now }
    ensures within { result ≤ length bytes.now }
{
    bytes.iter().take_while(|byte| is_space(**byte)).count()
}

// Whether a byte is white space of ASCII.
fn is_space(byte: u8) -> bool
    ensures { result ≡ is_space byte }
{
    byte == b' ' || b'\t' <= byte && byte <= b'\r'
}

// Whether a line has more bytes than are written.
fn is_long(most: Option<u64>, line: &[u8]) -> bool
    ensures { result ≡ is_long most line.now }
{
    match most {
        Some(most) => line.len() as u64 > most,
        None => false,
    }
}

// Pushes what is written in place of a line that is too long, by how many parts are in it.
fn push_notice(text: &mut Pending, kind: LineKind, count: usize)
    ensures { Adds text.old text.new (notice kind count) }
{
    match (kind, count) {
        (LineKind::Match, 0) => text.push(b"[Omitted long matching line]"),
        (LineKind::Context, 0) => text.push(b"[Omitted long context line]"),
        (_, count) => push_count(text, count),
    }
}

// Whether a part has bytes of a line from a position to another, or is empty and begins in it.
fn is_touching(part: &Match, start: usize, end: usize) -> bool
    ensures { result ≡ is_touching start end part.now }
{
    part.start() < end && (start < part.end() || start <= part.start())
}

// Whether one of some parts has bytes from a position on, or begins there or later.
fn any_reaches(parts: &[Match], start: usize) -> bool
    ensures { result ≡ list_any (reaches start) parts.now }
{
    parts.iter().any(|part| reaches(part, start))
}

// Whether a part has bytes from a position on, or begins there or later.
fn reaches(part: &Match, start: usize) -> bool
    ensures { result ≡ reaches start part.now }
{
    start <= part.start() || start < part.end()
}

// How many parts are in a line from a position to another.
fn count_touching(parts: &[Match], start: usize, end: usize) -> usize
    ensures { result ≡ count_by (is_touching start end) parts.now }
{
    parts
        .iter()
        .filter(|part| is_touching(part, start, end))
        .count()
}

// How many parts begin at a position or after it, and before another.
fn count_beginning(parts: &[Match], start: usize, end: usize) -> usize
    ensures { result ≡ count_by (begins_after start end) parts.now }
{
    parts
        .iter()
        .filter(|part| begins_after(part, start, end))
        .count()
}

// Whether a part begins at a position or after it, and before another.
fn begins_after(part: &Match, start: usize, end: usize) -> bool
    ensures { result ≡ begins_after start end part.now }
{
    start <= part.start() && part.start() < end
}

// How many bytes the first so many characters have, as a reader sees characters.
fn preview_len(bytes: &[u8], most: u64) -> usize
    ensures value { result ≡ preview_len most bytes.now }
    ensures within { result ≤ length bytes.now }
{
    let mut clusters = bytes.grapheme_indices();
    let mut left = most;
    let mut end = 0;
    while left > 0 {
        let Some((_, next, _)) = clusters.next() else {
            return end;
        };
        end = next;
        left -= 1;
    }
    end
}

// Pushes what is written after the first bytes of a line that is too long, by how many parts are in
// it, and how many begin after those bytes.
fn push_more(text: &mut Pending, all: usize, later: usize)
    ensures { Adds text.old text.new (more_notice all later) }
{
    match (all, later) {
        (0, _) => text.push(b" [... omitted end of long line]"),
        (_, 1) => push_counted(text, b" [... ", later, b"more match]"),
        _ => push_counted(text, b" [... ", later, b"more matches]"),
    }
}

// Pushes how many parts are in a line that is too long.
fn push_count(text: &mut Pending, count: usize)
    ensures { Adds text.old text.new (counted_notice count) }
{
    push_counted(text, b"[Omitted long line with ", count, b"matches]")
}

// Pushes a text, a number, a space and another text.
fn push_counted(text: &mut Pending, before: &[u8], count: usize, after: &[u8])
    ensures { Adds text.old text.new (before.now ++ (decimal count ++ 32 ∷ after.now)) }
{
    text.push(before);
    text.push_number(count as u64, b' ');
    text.push(after)
}

// Pushes what is written between two groups of lines.
pub(crate) fn push_break(text: &mut Pending, separators: Option<&Separators>, terminator: u8)
    ensures { Adds text.old text.new (break_text separators.entry terminator) }
{
    match separators {
        None => text.push(&[b'-', b'-', terminator]),
        Some(separators) => push_context(text, &separators.context, terminator),
    }
}

// Pushes a text in a line of its own, if there is one.
fn push_context(text: &mut Pending, context: &Option<Vec<u8>>, terminator: u8)
    ensures { Adds text.old text.new (context_line context.now terminator) }
{
    match context {
        Some(context) => {
            text.push(context);
            text.push(&[terminator])
        }
        None => {}
    }
}

// The place after a line.
fn place_after(place: &Place, line: &[u8]) -> Place
    requires fits { place.now.offset + length line.now < 2 ^ 64 }
    requires starts { place.now.start ≤ place.now.offset }
    ensures { result ≡ place_after place.now line.now }
{
    Place {
        number: next_number(place.number),
        column: place.column,
        offset: place.offset + line.len() as u64,
        start: place.start + line.len(),
    }
}

// The number of the next line.
#[inline]
pub(crate) fn next_number(number: Option<u64>) -> Option<u64>
    ensures { result ≡ next_number number }
{
    number.map(|number| number.saturating_add(1))
}
