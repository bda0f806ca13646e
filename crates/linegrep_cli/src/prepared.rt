//! What a run is prepared with, whether it searches files or lists them.
ghost use Rattle.std.specs.Prelude.{◌≡◌, ◌⊎◌, false, true, IfErr, IfOk};
ghost use Rattle.linegrep_cli.specs.AcceptedOptions.{AreAcceptedForFiles};
ghost use Rattle.linegrep_cli.specs.ColorOptions.{refuses_colors};
ghost use Rattle.linegrep_cli.specs.FileChoices.{AreChoicesOf};
ghost use Rattle.linegrep_cli.specs.HyperlinkOptions.{IsFormatAccepted, IsFormatRefused};
ghost use Rattle.linegrep_cli.specs.PathSeparators.{refuses_path_separator};
ghost use Rattle.linegrep_cli.specs.PreparedRuns.{IsLayout};
ghost use Rattle.linegrep_cli.specs.Refusals.{IsCauseForFiles};
ghost use Rattle.linegrep_files.specs.Failures.{has_cause};

use crate::color_options::color_texts;
use crate::failures::Failure;
use crate::file_options::file_options;
use crate::hyperlinks::hyperlinks;
use crate::options::Options;
use crate::patterns::check_size_limits;
use crate::separators::{path_separator, separators};
use crate::system::System;
use grep_printer::{ColorTexts, HyperlinkConfig, Separators};
use linegrep_files::Choices;
use std::alloc::Global;

/// What is written besides what is found.
pub struct Layout {
    /// What is written between fields and groups of lines, if options set it.
    pub separators: Option<Separators>,
    /// The escapes for colors, if options choose colors.
    pub colors: Option<ColorTexts>,
    /// What is written in place of each slash of a path, if something is.
    pub path_separator: Option<u8>,
    /// How links to files are written, if they are.
    pub hyperlinks: Option<HyperlinkConfig>,
}

// Written out, so that a caller's proof sees one call.
impl Drop for Layout {
    fn drop(self) {
        let Layout {
            separators: _separators,
            colors: _colors,
            path_separator: _path_separator,
            hyperlinks: _hyperlinks,
        } = self;
    }
}

/// What is written besides what is found, and the choices of files. An error is that a setting is
/// wrong, that a glob isn't well formed, or that there is no memory.
pub fn prepare_files<'r, S: System>(
    rt: &'r HostRuntime,
    system: &S,
    options: &Options<'_, '_>,
) -> Result<(Layout, Choices<'r>), Failure>
    ensures accepted { IfOk result (λ _. AreAcceptedForFiles (S.facts system.now) options.now) }
    ensures layout { IfOk result (λ (layout, choices).
        IsLayout (S.facts system.now) options.now layout) }
    ensures choices { IfOk result (λ (layout, choices).
        AreChoicesOf (S.facts system.now) options.now choices) }
    ensures refused { IfErr result (λ failure. has_cause failure ≡ true
        → IsCauseForFiles (S.facts system.now) options.now) }
{
    options.order().check(rt.alloc(), system)?;
    check_size_limits(rt.alloc(), options)?;
    let layout = match layout_of(rt.alloc(), system, options) {
        Ok(layout) => layout,
        Err(failure) => return Err(failure),
    };
    match Choices::read(rt, system, &file_options(options)) {
        Ok(choices) => Ok((layout, choices)),
        Err(failure) => Err(failure),
    }
}

// What is written besides what is found. An error is that a setting is wrong, or that there is no
// memory.
fn layout_of<S: System>(
    alloc: Global,
    system: &S,
    options: &Options<'_, '_>,
) -> Result<Layout, Failure>
    ensures layout { IfOk result (IsLayout (S.facts system.now) options.now) }
    ensures known { IfOk result (λ _. refuses_path_separator options.now ≡ false) }
    ensures formatted { IfOk result (λ _. IsFormatAccepted options.now) }
    ensures refused { IfErr result (λ failure. has_cause failure ≡ true
        → (refuses_path_separator options.now ≡ true) ⊎ (refuses_colors options.now ≡ true)
        ⊎ IsFormatRefused options.now) }
{
    let path_separator = path_separator(alloc, options)?;
    let colors = color_texts(alloc, options)?;
    let hyperlinks = hyperlinks(alloc, system, options)?;
    match separators(alloc, options) {
        Ok(separators) => Ok(Layout {
            separators,
            colors,
            path_separator,
            hyperlinks,
        }),
        Err(_) => Err(Failure::out_of_memory()),
    }
}
