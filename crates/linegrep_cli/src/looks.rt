//! How what is written looks on a terminal.
ghost use Rattle.std.specs.Prelude.{◌≡◌, ◌<◌, ◌≤◌, false, true, option_map, IfOk, MatchOption};
ghost use Rattle.std.specs.List.{after_first, before_first};
ghost use Rattle.std.specs.String.{string_bytes};
ghost use Rattle.linegrep_cli.specs.ColorLooks.{AreTextsOf, after_mark, byte_in, byte_value};
ghost use Rattle.linegrep_cli.specs.ColorLooks.{IsTextIfAny, first_looks};
ghost use Rattle.linegrep_cli.specs.ColorLooks.{has_mark, is_mark, is_plain, look_text};
ghost use Rattle.linegrep_cli.specs.ColorLooks.{look_by, look_with, looks_by, looks_with};
ghost use Rattle.linegrep_cli.specs.ColorLooks.{plain_look, style_with, tint_of, tint_of_numbers};
ghost use Rattle.linegrep_cli.specs.ColorLooks.{tint_text};
ghost use Rattle.linegrep_cli.specs.ColorLooks.{mixed_tint};
ghost use Rattle.linegrep_cli.specs.ColorLooks.{escape_if};

use grep_printer::ColorTexts;
use std::alloc::{AllocError, Global};

/// A color of a terminal.
#[derive(Clone, Copy)]
pub enum Tint {
    /// One of eight, by its number.
    Named(u8),
    /// One of 256.
    Indexed(u8),
    /// A mixture of red, green and blue.
    Mixed(u8, u8, u8),
}

/// How a text looks.
#[derive(Clone, Copy)]
pub struct Look {
    letters: Option<Tint>,
    behind: Option<Tint>,
    is_bold: bool,
    is_intense: bool,
    is_underlined: bool,
    is_italic: bool,
}

/// How paths, line numbers, columns, matches and the lines of matches look.
#[derive(Clone, Copy)]
pub struct Looks {
    path: Look,
    line: Look,
    column: Look,
    matched: Look,
    highlight: Look,
}

impl Looks {
    /// How they look, if nothing is changed.
    pub fn first() -> Looks
        ensures { result ≡ first_looks }
    {
        let plain = Look::plain();
        Looks {
            path: Look {
                letters: Some(Tint::Named(5)),
                ..plain
            },
            line: Look {
                letters: Some(Tint::Named(2)),
                ..plain
            },
            column: plain,
            matched: Look {
                letters: Some(Tint::Named(1)),
                is_bold: true,
                ..plain
            },
            highlight: plain,
        }
    }

    /// All looks after what a text changes in one of them, if the text is well formed: `path:none`
    /// or `path:fg:red`, for instance.
    pub fn with(&self, text: &str) -> Option<Looks>
        ensures { result ≡ looks_with text.now self.now }
    {
        match at(text, ':') {
            Some((part, change)) => self.with_part(part, change),
            None => None,
        }
    }

    // All looks after a change in one of them, by its name, if both are well formed.
    fn with_part(&self, part: &str, change: &str) -> Option<Looks>
        ensures { result ≡ looks_by part.now change.now self.now }
    {
        match part {
            "path" => match self.path.with(change) {
                Some(path) => Some(Looks { path, ..*self }),
                None => None,
            },
            "line" => match self.line.with(change) {
                Some(line) => Some(Looks { line, ..*self }),
                None => None,
            },
            "column" => match self.column.with(change) {
                Some(column) => Some(Looks { column, ..*self }),
                None => None,
            },
            "match" => match self.matched.with(change) {
                Some(matched) => Some(Looks { matched, ..*self }),
                None => None,
            },
            "highlight" => match self.highlight.with(change) {
                Some(highlight) => Some(Looks { highlight, ..*self }),
                None => None,
            },
            _ => None,
        }
    }

    /// The escapes before texts with these looks. Matches and their lines have none, if they look
    /// as other text.
    pub fn texts(&self, alloc: Global) -> Result<ColorTexts, AllocError>
        ensures { IfOk result (AreTextsOf self.now) }
    {
        Ok(ColorTexts {
            path: self.path.text(alloc)?,
            line: self.line.text(alloc)?,
            column: self.column.text(alloc)?,
            matched: self.matched.text_if_any(alloc)?,
            highlight: self.highlight.text_if_any(alloc)?,
        })
    }
}

impl Look {
    // The look of a text about which nothing is asked for.
    fn plain() -> Look
        ensures { result ≡ plain_look }
    {
        Look {
            letters: None,
            behind: None,
            is_bold: false,
            is_intense: false,
            is_underlined: false,
            is_italic: false,
        }
    }

    fn is_plain(&self) -> bool
        ensures { result ≡ is_plain self.now }
    {
        self.letters.is_none()
            && self.behind.is_none()
            && !self.is_bold
            && !self.is_intense
            && !self.is_underlined
            && !self.is_italic
    }

    // The look after a change, if that is well formed: `none`, `fg:red`, `bg:255`, `style:bold`.
    fn with(&self, change: &str) -> Option<Look>
        ensures { result ≡ look_with change.now self.now }
    {
        if change == "none" {
            return Some(Look::plain());
        }
        match at(change, ':') {
            Some((attribute, value)) => self.with_value(attribute, value),
            None => None,
        }
    }

    // The look with another value of an attribute, if that is well formed.
    fn with_value(&self, attribute: &str, value: &str) -> Option<Look>
        ensures { result ≡ look_by attribute.now value.now self.now }
    {
        if attribute == "fg" {
            match tint_of(value) {
                Some(tint) => Some(Look {
                    letters: Some(tint),
                    ..*self
                }),
                None => None,
            }
        } else if attribute == "bg" {
            match tint_of(value) {
                Some(tint) => Some(Look {
                    behind: Some(tint),
                    ..*self
                }),
                None => None,
            }
        } else if attribute == "style" {
            self.with_style(value)
        } else {
            None
        }
    }

    // The look with one more style, by the style's name, if there is such a style.
    fn with_style(&self, name: &str) -> Option<Look>
        ensures { result ≡ style_with name.now self.now }
    {
        let mut look = *self;
        match name {
            "bold" => look.is_bold = true,
            "nobold" => look.is_bold = false,
            "intense" => look.is_intense = true,
            "nointense" => look.is_intense = false,
            "underline" => look.is_underlined = true,
            "nounderline" => look.is_underlined = false,
            "italic" => look.is_italic = true,
            "noitalic" => look.is_italic = false,
            _ => return None,
        }
        Some(look)
    }

    // The escape before a text with this look, unless it looks as other text.
    fn text_if_any(&self, alloc: Global) -> Result<Option<String>, AllocError>
        ensures { IfOk result (IsTextIfAny self.now) }
    {
        if self.is_plain() {
            return Ok(None);
        }
        Ok(Some(self.text(alloc)?))
    }

    // The escape before a text with this look.
    fn text(&self, alloc: Global) -> Result<String, AllocError>
        ensures { IfOk result (λ text. string_bytes text ≡ look_text self.now) }
    {
        let bold = escape_if(self.is_bold, "\x1b[1m");
        let italic = escape_if(self.is_italic, "\x1b[3m");
        let underline = escape_if(self.is_underlined, "\x1b[4m");
        let letters = tint_text(alloc, "3", self.is_intense, self.letters)?;
        let behind = tint_text(alloc, "4", self.is_intense, self.behind)?;
        format!(in alloc; "\x1b[0m{bold}{italic}{underline}{letters}{behind}")
    }
}

// An escape, if it is asked for, or else an empty text.
fn escape_if<'t>(is_asked: bool, escape: &'t str) -> &'t str
    ensures { result.now ≡ escape_if is_asked escape.now }
{
    if is_asked { escape } else { "" }
}

// The escape of a color, for the letters or for what is behind them.
fn tint_text(
    alloc: Global,
    layer: &str,
    is_intense: bool,
    tint: Option<Tint>,
) -> Result<String, AllocError>
    ensures { IfOk result (λ text. string_bytes text ≡ tint_text layer.now is_intense tint) }
{
    match tint {
        None => Ok(String::new(alloc)),
        Some(Tint::Named(number)) if is_intense => {
            let number = number.saturating_add(8);
            format!(in alloc; "\x1b[{layer}8;5;{number}m")
        }
        Some(Tint::Named(number)) => format!(in alloc; "\x1b[{layer}{number}m"),
        Some(Tint::Indexed(number)) => format!(in alloc; "\x1b[{layer}8;5;{number}m"),
        Some(Tint::Mixed(red, green, blue)) => {
            format!(in alloc; "\x1b[{layer}8;2;{red};{green};{blue}m")
        }
    }
}

// The color of a name or of numbers.
fn tint_of(value: &str) -> Option<Tint>
    ensures { result ≡ tint_of value.now }
{
    match value {
        "black" => Some(Tint::Named(0)),
        "red" => Some(Tint::Named(1)),
        "green" => Some(Tint::Named(2)),
        "yellow" => Some(Tint::Named(3)),
        "blue" => Some(Tint::Named(4)),
        "magenta" => Some(Tint::Named(5)),
        "cyan" => Some(Tint::Named(6)),
        "white" => Some(Tint::Named(7)),
        _ => tint_of_numbers(value),
    }
}

// The color of one number, or of three with commas between them.
fn tint_of_numbers(text: &str) -> Option<Tint>
    ensures { result ≡ tint_of_numbers text.now }
{
    match at(text, ',') {
        Some((red, rest)) => mixed_tint(red, rest),
        None => match byte_value(text) {
            Some(number) => Some(Tint::Indexed(number)),
            None => None,
        },
    }
}

// The color of three numbers, of which the last two have a comma between them.
fn mixed_tint(red: &str, rest: &str) -> Option<Tint>
    ensures { result ≡ mixed_tint red.now rest.now }
{
    let Some((green, blue)) = at(rest, ',') else {
        return None;
    };
    match (byte_value(red), byte_value(green), byte_value(blue)) {
        (Some(red), Some(green), Some(blue)) => Some(Tint::Mixed(red, green, blue)),
        _ => None,
    }
}

// The number that a text says in decimal digits, or in hexadecimal ones after `0x`, if it has 8
// bits.
fn byte_value(text: &str) -> Option<u8>
    ensures { result ≡ byte_value text.now }
{
    match after_mark(text) {
        Some(digits) => byte_in(digits, 16),
        None => byte_in(text, 10),
    }
}

// What is after the mark of hexadecimal digits, if that is there.
fn after_mark(text: &str) -> Option<&str>
    ensures { option_map (λ digits. digits.now) result ≡ after_mark text.now }
{
    match text.strip_prefix('0') {
        Some(rest) => rest.strip_prefix('x'),
        None => None,
    }
}

// The number that digits of a radix say, maybe after a plus, if it has 8 bits.
fn byte_in(text: &str, radix: u32) -> Option<u8>
    requires least { 2 ≤ radix }
    requires most { radix ≤ 36 }
    ensures { result ≡ byte_in radix text.now }
{
    u8::from_str_radix(text, radix).ok()
}

// What is before a mark in a text, and after it.
fn at(text: &str, mark: char) -> Option<(&str, &str)>
    requires { mark < 128 }
    ensures { MatchOption result (has_mark mark text.now ≡ false)
        (λ parts. (has_mark mark text.now ≡ true)
        × (parts.0.now ≡ before_first (is_mark mark) text.now)
        × (parts.1.now ≡ after_first (is_mark mark) text.now)) }
{
    text.split_once(mark)
}
