//! Links to what is written, and paths that are written as links.
ghost use Rattle.std.specs.Prelude.{◌≡◌, ◌<◌, ◌++◌, None, Some, decimal};
ghost use Rattle.std.specs.List.{flat_map};
ghost use Rattle.grep_output.specs.PendingTexts.{Adds};
ghost use Rattle.grep_printer.specs.ColoredTexts.{color_of, colored};
ghost use Rattle.grep_printer.specs.Hyperlinks.{link_below, link_end, link_start, linked_path};
ghost use Rattle.grep_printer.specs.Hyperlinks.{part_target, path_within, prefix_link, shown_path};
ghost use Rattle.grep_printer.specs.Hyperlinks.{hex_digit, is_uri_byte, unlinked, uri_byte};

use crate::colors::push_colored;
use crate::hyperlink_format::{HyperlinkFormat, HyperlinkPart, has_line};
use grep_output::Pending;
use itoa::write_digits;

/// What `{host}` and `{wslprefix}` stand for in a format of links.
pub struct HyperlinkEnvironment {
    /// The name of the machine.
    pub host: String,
    /// What comes before a path in the Windows Subsystem for Linux, or nothing outside of it.
    pub wsl_prefix: String,
}

// Written out, so that a caller's proof sees one call.
impl Drop for HyperlinkEnvironment {
    fn drop(self) {
        let HyperlinkEnvironment {
            host: _host,
            wsl_prefix: _wsl_prefix,
        } = self;
    }
}

/// How links are written.
pub struct HyperlinkConfig {
    /// Their format.
    pub format: HyperlinkFormat,
    /// What it names of the environment.
    pub environment: HyperlinkEnvironment,
}

// Written out, so that a caller's proof sees one call.
impl Drop for HyperlinkConfig {
    fn drop(self) {
        let HyperlinkConfig {
            format: _format,
            environment: _environment,
        } = self;
    }
}

/// A link to a file.
#[derive(Clone, Copy)]
pub struct Hyperlink<'p> {
    /// How it is written.
    pub config: &'p HyperlinkConfig,
    /// The path of the file from the root of the system on. In a link a percent sign and two digits
    /// stand for each byte of it that a URL may not have.
    pub path: &'p str,
}

/// A path to write.
#[derive(Clone, Copy)]
pub struct PrinterPath<'p> {
    /// What is written.
    pub text: &'p str,
    /// The link to the file, if there is one.
    pub link: Option<Hyperlink<'p>>,
}

impl<'p> PrinterPath<'p> {
    /// A path without a link.
    pub fn new(text: &'p str) -> PrinterPath<'p>
        ensures { result ≡ record { text = text.entry; link = None } }
    {
        PrinterPath { text, link: None }
    }
}

// A path without a link, if there is a path.
pub(crate) fn unlinked(path: Option<&str>) -> Option<PrinterPath<'_>>
    ensures { result ≡ unlinked path.entry }
{
    match path {
        Some(text) => Some(PrinterPath::new(text)),
        None => None,
    }
}

// The text of a path, if there is one.
#[inline(always)]
pub(crate) fn shown_path<'p>(path: &Option<PrinterPath<'p>>) -> Option<&'p str>
    ensures { result ≡ shown_path path.now }
{
    match path {
        Some(path) => Some(path.text),
        None => None,
    }
}

// The link of what comes before a line, by whether the path is written as a heading. If it is, each
// line has a link only if it leads to the line.
#[inline(always)]
pub(crate) fn prefix_link<'p>(
    heading: bool,
    path: &Option<PrinterPath<'p>>,
) -> Option<Hyperlink<'p>>
    ensures { result ≡ prefix_link heading path.now }
{
    match path {
        Some(path) => match path.link {
            Some(link) => link.below(heading),
            None => None,
        },
        None => None,
    }
}

impl<'p> Hyperlink<'p> {
    // The link, unless a heading has one that leads to the same place.
    fn below(self, heading: bool) -> Option<Hyperlink<'p>>
        ensures { result ≡ link_below heading (Some self.entry) }
    {
        if heading && !has_line(self.config.format.parts()) {
            None
        } else {
            Some(self)
        }
    }

    // Pushes what comes before a text that is a link to a line and a column.
    pub(crate) fn push_start(&self, text: &mut Pending, line: Option<u64>, column: Option<u64>)
        ensures { Adds text.old text.new (link_start self.now line column) }
    {
        text.push(b"\x1b]8;;");
        self.push_parts(text, line, column, self.config.format.parts());
        text.push(b"\x1b\\")
    }

    // Pushes what parts of the format stand for.
    fn push_parts(
        &self,
        text: &mut Pending,
        line: Option<u64>,
        column: Option<u64>,
        parts: &[HyperlinkPart],
    )
        ensures { Adds text.old text.new
            (flat_map (part_target self.now line column) parts.now) }
    {
        let mut rest = parts;
        while let Some((part, later)) = rest.split_first() {
            self.push_part(text, line, column, part);
            rest = later;
        }
    }

    // Pushes what a part of the format stands for.
    fn push_part(
        &self,
        text: &mut Pending,
        line: Option<u64>,
        column: Option<u64>,
        part: &HyperlinkPart,
    )
        ensures { Adds text.old text.new (part_target self.now line column part.now) }
    {
        let environment = &self.config.environment;
        match part {
            HyperlinkPart::Byte(byte) => text.push_byte(*byte),
            HyperlinkPart::Path => push_encoded(text, self.path.as_bytes()),
            HyperlinkPart::Host => text.push(environment.host.as_bytes()),
            HyperlinkPart::Line => push_decimal(text, line.unwrap_or(1)),
            HyperlinkPart::Column => push_decimal(text, column.unwrap_or(1)),
            HyperlinkPart::WslPrefix => text.push(environment.wsl_prefix.as_bytes()),
        }
    }
}

// Pushes bytes as a URL has them.
fn push_encoded(text: &mut Pending, bytes: &[u8])
    ensures { Adds text.old text.new (flat_map uri_byte bytes.now) }
{
    let mut rest = bytes;
    while let Some((byte, later)) = rest.split_first() {
        push_uri_byte(text, *byte);
        rest = later;
    }
}

// Pushes a byte as a URL has it.
fn push_uri_byte(text: &mut Pending, byte: u8)
    ensures { Adds text.old text.new (uri_byte byte) }
{
    if is_uri_byte(byte) {
        text.push_byte(byte)
    } else {
        text.push(&[b'%', hex_digit(byte / 16), hex_digit(byte % 16)])
    }
}

// Whether a URL has a byte of a path as it is.
fn is_uri_byte(byte: u8) -> bool
    ensures { result ≡ is_uri_byte byte }
{
    byte >= b'-' && byte <= b':'
        || byte >= b'A' && byte <= b'Z'
        || byte >= b'a' && byte <= b'z'
        || byte == b'_'
        || byte == b'~'
        || byte >= 128
}

// A hexadecimal digit.
fn hex_digit(digit: u8) -> u8
    requires { digit < 16 }
    ensures { result ≡ hex_digit digit }
{
    if digit < 10 {
        b'0' + digit
    } else {
        b'A' - 10 + digit
    }
}

// Pushes what comes after a text that is a link.
pub(crate) fn push_link_end(text: &mut Pending)
    ensures { Adds text.old text.new link_end }
{
    text.push(b"\x1b]8;;\x1b\\")
}

// Pushes a path as it is written alone: in a color if there is one, and as a link if it has one.
#[inline(always)]
pub(crate) fn push_linked_path(text: &mut Pending, color: Option<&str>, path: &PrinterPath<'_>)
    ensures { Adds text.old text.new (linked_path (color_of color.entry) path.now) }
{
    match path.link {
        Some(link) => push_link(text, color, &link, path.text),
        None => push_colored(text, color, path.text.as_bytes()),
    }
}

// Pushes a text that is a link, in a color if there is one.
fn push_link(text: &mut Pending, color: Option<&str>, link: &Hyperlink<'_>, shown: &str)
    ensures { Adds text.old text.new (link_start link.now None None
        ++ (colored (color_of color.entry) shown.now ++ link_end)) }
{
    link.push_start(text, None, None);
    push_colored(text, color, shown.as_bytes());
    push_link_end(text)
}

// Pushes a path as it is written within a link.
pub(crate) fn push_path_within(
    text: &mut Pending,
    color: Option<&str>,
    path: &Option<PrinterPath<'_>>,
)
    ensures { Adds text.old text.new (path_within (color_of color.entry) path.now) }
{
    if let Some(path) = path {
        push_colored(text, color, path.text.as_bytes())
    }
}

// Pushes a number in decimal.
fn push_decimal(text: &mut Pending, number: u64)
    ensures { Adds text.old text.new (decimal number) }
{
    // A number of 64 bits has 20 digits at most.
    let mut digits = [0; 20];
    let start = write_digits(number, &mut digits, 20);
    text.push(&digits[start..])
}
