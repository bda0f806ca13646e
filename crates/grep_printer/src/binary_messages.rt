//! What is written about a binary byte at the end of a search.
ghost use Rattle.std.specs.Prelude.{◌++◌, codes, decimal};
ghost use Rattle.grep_printer.specs.ColoredTexts.{color_of, path_color};
ghost use Rattle.grep_output.specs.PendingTexts.{Adds};
ghost use Rattle.grep_printer.specs.StandardTexts.{binary_message, message_text, path_prefix};

use crate::colors::ColorSpecs;
use crate::hyperlinks::{PrinterPath, push_linked_path};
use grep_output::Pending;
use grep_searcher::BinaryDetection;

// What is said of a binary byte, before its offset and what ends both messages.
const STOPPED: &str =
    "WARNING: stopped searching binary file after match (found \"\\0\" byte around offset ";

const MATCHES: &str = "binary file matches (found \"\\0\" byte around offset ";

// Pushes the message about a binary byte, if one was found.
pub(crate) fn push_binary_message(
    text: &mut Pending,
    colors: &ColorSpecs<'_>,
    detection: &BinaryDetection,
    path: &Option<PrinterPath<'_>>,
    offset: Option<u64>,
)
    ensures { Adds text.old text.new
        (message_text (path_color colors.now) detection.now path.now offset) }
{
    if let Some(offset) = offset {
        push_binary(text, colors.path(), detection, path, offset);
    }
}

// Pushes the message about a binary byte at an offset.
fn push_binary(
    text: &mut Pending,
    color: Option<&str>,
    detection: &BinaryDetection,
    path: &Option<PrinterPath<'_>>,
    offset: u64,
)
    ensures { Adds text.old text.new (binary_message (color_of color.entry) detection.now
        path.now offset) }
{
    match detection {
        BinaryDetection::None => {}
        BinaryDetection::Quit(_) => push_message(text, color, path, STOPPED, offset),
        BinaryDetection::Convert(_) => push_message(text, color, path, MATCHES, offset),
    }
}

// Pushes a message about a binary byte at an offset, after the path if there is one.
fn push_message(
    text: &mut Pending,
    color: Option<&str>,
    path: &Option<PrinterPath<'_>>,
    message: &str,
    offset: u64,
)
    ensures { Adds text.old text.new (path_prefix (color_of color.entry) path.now
        ++ (message.now ++ (decimal offset ++ codes ")\n"))) }
{
    push_prefix(text, color, path);
    text.push(message.as_bytes());
    text.push_number(offset, b')');
    text.push(b"\n")
}

// Pushes a path before a message, in a color if there is one and as a link if it has one, if there
// is a path.
fn push_prefix(text: &mut Pending, color: Option<&str>, path: &Option<PrinterPath<'_>>)
    ensures { Adds text.old text.new (path_prefix (color_of color.entry) path.now) }
{
    match path {
        Some(path) => {
            push_linked_path(text, color, path);
            text.push(b": ")
        }
        None => {}
    }
}
