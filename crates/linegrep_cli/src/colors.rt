//! Whether what is written has colors.
ghost use Rattle.std.specs.Prelude.{◌≡◌, ◌&&◌, option_map};
ghost use Rattle.linegrep_cli.specs.TerminalColors.{AllowsColors, allows_default, colors_for};
ghost use Rattle.linegrep_cli.specs.TerminalColors.{is_colored, names_terminal};

use crate::program::Streams;
use crate::system::System;
use grep_printer::{ColorSpecs, ColorTexts};
use std::alloc::Global;
use std::io;

/// The colors, by what options say of when there are colors, and by which colors they choose. If
/// they don't say when, a terminal gets colors, unless the environment asks for none.
pub fn color_specs<'c>(
    choice: Option<&str>,
    chosen: Option<&'c ColorTexts>,
    streams: Streams,
) -> ColorSpecs<'c>
    ensures { result ≡ colors_for chosen.entry (option_map (λ text. text.now) choice.entry)
        streams }
{
    if !is_colored(choice, streams) {
        return ColorSpecs::Plain;
    }
    match chosen {
        Some(texts) => ColorSpecs::Chosen(texts),
        None => ColorSpecs::Default,
    }
}

/// Whether there are colors, by what options say of when there are.
pub fn is_colored(choice: Option<&str>, streams: Streams) -> bool
    ensures { result ≡ is_colored (option_map (λ text. text.now) choice.entry) streams }
{
    match choice {
        Some("always" | "ansi") => true,
        Some("never") => false,
        _ => streams.is_terminal && streams.allows_colors,
    }
}

/// Whether the environment of a system allows colors on a terminal: `TERM` names a terminal other
/// than `dumb`, and `NO_COLOR` isn't set.
pub fn allows_colors<S: System>(alloc: Global, system: &S) -> bool
    ensures { AllowsColors (S.facts system.now).variables result }
{
    let has_terminal = names_terminal(&system.variable(alloc, "TERM"));
    let allows_default = allows_default(&system.variable(alloc, "NO_COLOR"));
    has_terminal && allows_default
}

// Whether the value of `TERM` names a terminal that has colors: any terminal but the dumb one.
fn names_terminal(term: &io::Result<Option<String>>) -> bool
    ensures { result ≡ names_terminal term.now }
{
    match term {
        Ok(Some(term)) => term.as_str() != "dumb",
        Ok(None) => false,
        Err(error) => error.kind() == io::ErrorKind::InvalidData,
    }
}

// Whether `NO_COLOR` has no value.
fn allows_default(no_color: &io::Result<Option<String>>) -> bool
    ensures { result ≡ allows_default no_color.now }
{
    matches!(no_color, Ok(None))
}
