//! The formats of links: how they are read, and what is wrong with a text that isn't one.
ghost use Rattle.std.specs.Prelude.{◌≡◌, ◌∷◌, ◌++◌, ◌≤◌, ◌==◌, false, length, IfErr, IfOk, IfSome};
ghost use Rattle.std.specs.Prelude.{MatchOption};
ghost use Rattle.std.specs.List.{list_any, prefix_len};
ghost use Rattle.grep_printer.specs.HyperlinkFormats.{IsFormatOf, IsMalformed, IsMalformedAt};
ghost use Rattle.grep_printer.specs.HyperlinkFormats.{IsRefusedFormat, IsVariable, begins_with};
ghost use Rattle.grep_printer.specs.HyperlinkFormats.{ends_scheme, fault_of, format_text};
ghost use Rattle.grep_printer.specs.HyperlinkFormats.{has_line, has_scheme, is_colon, is_column};
ghost use Rattle.grep_printer.specs.HyperlinkFormats.{is_line, is_path, is_scheme_byte, name_len};
ghost use Rattle.grep_printer.specs.HyperlinkFormats.{is_scheme_part, is_variable, spelled};
ghost use Rattle.grep_printer.specs.HyperlinkFormats.{spelled_part, variable_of};

use std::alloc::{AllocError, Global};

/// A part of a format of links: a byte that is written as it is, or a variable.
#[derive(Clone, Copy)]
pub enum HyperlinkPart {
    /// This byte.
    Byte(u8),
    /// The path that a link leads to.
    Path,
    /// The name of the machine.
    Host,
    /// The number of a line.
    Line,
    /// A column.
    Column,
    /// What comes before a path in the Windows Subsystem for Linux.
    WslPrefix,
}

/// A format of links: a text in which variables in braces stand for what a link leads to. The
/// variables are `{path}`, `{host}`, `{line}`, `{column}` and `{wslprefix}`, and `{{` and `}}`
/// stand for single braces. The empty format is that of no link. It follows ripgrep's.
#[derive(Drop)]
pub struct HyperlinkFormat {
    parts: Vec<HyperlinkPart>,
}

/// Why a text isn't a format of links.
#[derive(Clone, Copy)]
pub enum HyperlinkFormatError<'t> {
    /// There is no memory for it.
    Memory,
    /// It has no variable, and isn't the name of a format.
    NoVariable,
    /// It has other variables, and not `{path}`.
    NoPath,
    /// It has `{column}`, and not `{line}`.
    NoLine,
    /// It doesn't begin with a scheme of URLs, which are letters of ASCII, digits, `+`, `-` and `.`
    /// before a colon.
    NoScheme,
    /// A name in braces isn't that of a variable.
    UnknownVariable(&'t [u8]),
    /// After a `{` that isn't doubled there is no `}`.
    Unclosed,
    /// There is a `}` that isn't doubled, and ends no variable.
    Unopened,
}

impl HyperlinkFormat {
    /// Reads a format, or the name of one: `default`, `none`, `file`, `grep+`, `kitty`, `macvim`,
    /// `textmate`, `vscode`, `vscode-insiders`, `vscodium` and `cursor` are ripgrep's names. An
    /// error is what is wrong with the text, or one of being out of memory.
    pub fn parse(alloc: Global, text: &str) -> Result<HyperlinkFormat, HyperlinkFormatError<'_>>
        ensures read { IfOk result (λ format. IsFormatOf text.now format.parts.items) }
        ensures refused { IfErr result (IsRefusedFormat text.now) }
    {
        let parts = match read_parts(alloc, format_text(text).as_bytes()) {
            Ok(parts) => parts,
            Err(error) => return Err(error),
        };
        match fault_of(&parts) {
            Some(error) => Err(error),
            None => Ok(HyperlinkFormat { parts }),
        }
    }

    /// Whether it is the format of no link.
    pub fn is_empty(&self) -> bool
        ensures { result ≡ (length self.now.parts.items == 0) }
    {
        self.parts.is_empty()
    }

    /// Its parts, in order.
    pub fn parts(&self) -> &[HyperlinkPart]
        ensures { result.now ≡ self.now.parts.items }
    {
        self.parts.as_slice()
    }
}

impl HyperlinkPart {
    fn is_variable(&self) -> bool
        ensures { result ≡ is_variable self.now }
    {
        match self {
            HyperlinkPart::Byte(_) => false,
            _ => true,
        }
    }

    fn is_path(&self) -> bool
        ensures { result ≡ is_path self.now }
    {
        match self {
            HyperlinkPart::Path => true,
            _ => false,
        }
    }

    // Whether it stands for the number of a line.
    fn is_line(&self) -> bool
        ensures { result ≡ is_line self.now }
    {
        match self {
            HyperlinkPart::Line => true,
            _ => false,
        }
    }

    fn is_column(&self) -> bool
        ensures { result ≡ is_column self.now }
    {
        match self {
            HyperlinkPart::Column => true,
            _ => false,
        }
    }

    // Whether it is a byte that a scheme may have.
    fn is_scheme(&self) -> bool
        ensures { result ≡ is_scheme_part self.now }
    {
        match self {
            HyperlinkPart::Byte(byte) => is_scheme_byte(*byte),
            _ => false,
        }
    }

    fn is_colon(&self) -> bool
        ensures { result ≡ is_colon self.now }
    {
        match self {
            HyperlinkPart::Byte(byte) => *byte == b':',
            _ => false,
        }
    }
}

// Whether a part of some stands for the number of a line.
pub(crate) fn has_line(parts: &[HyperlinkPart]) -> bool
    ensures { result ≡ has_line parts.now }
{
    parts.iter().any(|part| part.is_line())
}

fn has_variable(parts: &[HyperlinkPart]) -> bool
    ensures { result ≡ list_any is_variable parts.now }
{
    parts.iter().any(|part| part.is_variable())
}

fn has_path(parts: &[HyperlinkPart]) -> bool
    ensures { result ≡ list_any is_path parts.now }
{
    parts.iter().any(|part| part.is_path())
}

fn has_column(parts: &[HyperlinkPart]) -> bool
    ensures { result ≡ list_any is_column parts.now }
{
    parts.iter().any(|part| part.is_column())
}

// Whether a scheme may have a byte.
fn is_scheme_byte(byte: u8) -> bool
    ensures { result ≡ is_scheme_byte byte }
{
    byte >= b'0' && byte <= b'9'
        || byte >= b'A' && byte <= b'Z'
        || byte >= b'a' && byte <= b'z'
        || byte == b'+'
        || byte == b'-'
        || byte == b'.'
}

// How many parts come first that a scheme may have.
fn scheme_len(parts: &[HyperlinkPart]) -> usize
    ensures value { result ≡ prefix_len is_scheme_part parts.now }
    ensures within { result ≤ length parts.now }
{
    parts.iter().take_while(|part| part.is_scheme()).count()
}

// Whether parts begin with a scheme.
fn has_scheme(parts: &[HyperlinkPart]) -> bool
    ensures { result ≡ has_scheme parts.now }
{
    let len = scheme_len(parts);
    len > 0 && ends_scheme(&parts[len..])
}

// Whether parts begin with a colon.
fn ends_scheme(parts: &[HyperlinkPart]) -> bool
    ensures { result ≡ ends_scheme parts.now }
{
    match parts.split_first() {
        Some((part, _)) => part.is_colon(),
        None => false,
    }
}

// What is wrong with the parts of a format, if something is.
fn fault_of(parts: &[HyperlinkPart]) -> Option<HyperlinkFormatError<'static>>
    ensures { result ≡ fault_of parts.now }
{
    if parts.is_empty() {
        None
    } else if !has_variable(parts) {
        Some(HyperlinkFormatError::NoVariable)
    } else if !has_path(parts) {
        Some(HyperlinkFormatError::NoPath)
    } else if has_column(parts) && !has_line(parts) {
        Some(HyperlinkFormatError::NoLine)
    } else if !has_scheme(parts) {
        Some(HyperlinkFormatError::NoScheme)
    } else {
        None
    }
}

// The format with a name, or the text if it isn't such a name.
fn format_text(text: &str) -> &str
    ensures { result.now ≡ format_text text.now }
{
    match text {
        "none" => "",
        "default" | "file" => "file://{host}{path}",
        "grep+" => "grep+://{path}:{line}",
        "kitty" => "file://{host}{path}#{line}",
        "macvim" => "mvim://open?url=file://{path}&line={line}&column={column}",
        "textmate" => "txmt://open?url=file://{path}&line={line}&column={column}",
        "vscode" => "vscode://file{path}:{line}:{column}",
        "vscode-insiders" => "vscode-insiders://file{path}:{line}:{column}",
        "vscodium" => "vscodium://file{path}:{line}:{column}",
        "cursor" => "cursor://file{path}:{line}:{column}",
        _ => text,
    }
}

// The parts of a format.
fn read_parts(alloc: Global, text: &[u8]) -> Result<Vec<HyperlinkPart>, HyperlinkFormatError<'_>>
    ensures read { IfOk result (λ parts. spelled parts.items ≡ text.now) }
    ensures malformed { IfErr result (IsMalformed text.now) }
{
    let mut parts = Vec::new(alloc);
    let mut rest = text;
    while let Some((byte, after)) = rest.split_first() {
        match first_part(*byte, after) {
            Ok((part, later)) => {
                if parts.push(part).is_err() {
                    return Err(HyperlinkFormatError::Memory);
                }
                rest = later;
            }
            Err(error) => return Err(error),
        }
    }
    Ok(parts)
}

// The part that begins with a byte, by what is after the byte; and what is after the part.
fn first_part<'t>(
    byte: u8,
    after: &'t [u8],
) -> Result<(HyperlinkPart, &'t [u8]), HyperlinkFormatError<'t>>
    ensures part { IfOk result (λ (part, rest).
        byte ∷ after.now ≡ spelled_part part ++ rest.now) }
    ensures shorter { IfOk result (λ (part, rest). length rest.now ≤ length after.now) }
    ensures malformed { IfErr result (IsMalformedAt (byte ∷ after.now)) }
{
    if byte == b'{' {
        match after_same(after, b'{') {
            Some(rest) => Ok((HyperlinkPart::Byte(b'{'), rest)),
            None => variable_in(after),
        }
    } else if byte == b'}' {
        match after_same(after, b'}') {
            Some(rest) => Ok((HyperlinkPart::Byte(b'}'), rest)),
            None => Err(HyperlinkFormatError::Unopened),
        }
    } else {
        Ok((HyperlinkPart::Byte(byte), after))
    }
}

// What is after a byte, if it comes first.
fn after_same(bytes: &[u8], byte: u8) -> Option<&[u8]>
    ensures { MatchOption result (begins_with byte bytes.now ≡ false)
        (λ rest. bytes.now ≡ byte ∷ rest.now) }
{
    match bytes.split_first() {
        Some((first, rest)) if *first == byte => Some(rest),
        _ => None,
    }
}

// The variable whose name comes first, and what is after the brace that ends it.
fn variable_in(after: &[u8]) -> Result<(HyperlinkPart, &[u8]), HyperlinkFormatError<'_>>
    requires { begins_with 123 after.now ≡ false }
    ensures part { IfOk result (λ (part, rest).
        123 ∷ after.now ≡ spelled_part part ++ rest.now) }
    ensures shorter { IfOk result (λ (part, rest). length rest.now ≤ length after.now) }
    ensures malformed { IfErr result (IsMalformedAt (123 ∷ after.now)) }
{
    let (name, closing) = after.split_at(name_len(after));
    let Some(rest) = after_same(closing, b'}') else {
        return Err(HyperlinkFormatError::Unclosed);
    };
    match variable_of(name) {
        Some(part) => Ok((part, rest)),
        None => Err(HyperlinkFormatError::UnknownVariable(name)),
    }
}

// How many bytes come before the first closing brace, or how many there are without one.
fn name_len(bytes: &[u8]) -> usize
    ensures value { result ≡ name_len bytes.now }
    ensures within { result ≤ length bytes.now }
{
    bytes.iter().take_while(|byte| **byte != b'}').count()
}

// The variable with a name.
fn variable_of(name: &[u8]) -> Option<HyperlinkPart>
    ensures value { result ≡ variable_of name.now }
    ensures named { IfSome result (IsVariable name.now) }
{
    if name == b"path".as_slice() {
        Some(HyperlinkPart::Path)
    } else if name == b"host".as_slice() {
        Some(HyperlinkPart::Host)
    } else if name == b"line".as_slice() {
        Some(HyperlinkPart::Line)
    } else if name == b"column".as_slice() {
        Some(HyperlinkPart::Column)
    } else if name == b"wslprefix".as_slice() {
        Some(HyperlinkPart::WslPrefix)
    } else {
        None
    }
}
