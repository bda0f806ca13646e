//! A run that lists files: it writes the paths of those that it would search.
ghost use Rattle.std.specs.Prelude.{◌≡◌, ◌⊎◌, Option};
ghost use Rattle.std.specs.Borrow.{Bor};
ghost use Rattle.std.specs.Option.{option_copied};
ghost use Rattle.grep_printer.specs.declared.colors.ColorTexts.{ColorTexts};
ghost use Rattle.linegrep_cli.specs.Listings.{IsListingRun, IsPathPrinterOf, IsPathWritten};
ghost use Rattle.linegrep_cli.specs.OptionUses.{has};
ghost use Rattle.linegrep_cli.specs.Refusals.{IsCauseForFiles, IsRefusedFor};
ghost use Rattle.linegrep_cli.specs.Worlds.{world_of};

use crate::colors::color_specs;
use crate::engine::{Engine, nothing_found, printer_path, unsearched};
use crate::failures::say;
use crate::file_run::Run;
use crate::hyperlinks::link_target;
use crate::options::Options;
use crate::prepared::{Layout, prepare_files};
use crate::scope::Scope;
use crate::search::Ended;
use crate::separators::with_separator;
use crate::system::System;
use grep_output::Output;
use grep_printer::{
    ColorTexts, HyperlinkConfig, PathPrinter, PathPrinterBuilder, PrinterPath, Searched,
};
use grep_searcher::Source;
use linegrep_files::Folders;
use linegrep_options::OptionId;
use std::io;

/// An engine that searches nothing. It writes the path of each file that is listed, or no path if
/// the options ask for a status alone.
pub struct Lister<'e, S, W, E> {
    rt: &'e HostRuntime,
    system: &'e S,
    printer: PathPrinter<'e>,
    // Whether no path is written.
    is_quiet: bool,
    writer: W,
    errors: &'e mut E,
    // What is written in place of each slash of a path, if something is.
    path_separator: Option<u8>,
    // How links to files are written, if they are.
    hyperlinks: Option<&'e HyperlinkConfig>,
}

// Written out, so that a caller's proof sees one call.
impl<'e, S, W: Drop, E> Drop for Lister<'e, S, W, E> {
    fn drop(self) {
        let Lister {
            rt: _rt,
            system: _system,
            printer: _printer,
            is_quiet: _is_quiet,
            writer: _writer,
            errors: _errors,
            path_separator: _path_separator,
            hyperlinks: _hyperlinks,
        } = self;
    }
}

impl<'e, S, W, E> Lister<'e, S, W, E> {
    /// The engine that the options ask for. It asks `system` where links lead.
    pub fn new(
        rt: &'e HostRuntime,
        system: &'e S,
        options: &Options<'_, '_>,
        layout: &'e Layout,
        writer: W,
        errors: &'e mut E,
    ) -> Lister<'e, S, W, E>
        ensures printer { (chosen : Option (Bor ColorTexts))
            × (option_copied chosen ≡ layout.now.colors)
            × IsPathPrinterOf options.now chosen result.printer }
        ensures is_quiet { result.is_quiet ≡ has options.now OptionId.Quiet }
        ensures writer { result.writer ≡ writer }
        ensures errors { result.errors.now ≡ errors.old }
        ensures path_separator { result.path_separator ≡ layout.now.path_separator }
        ensures hyperlinks { option_copied result.hyperlinks ≡ layout.now.hyperlinks }
        ensures system { result.system ≡ system.entry }
    {
        Lister {
            rt,
            system,
            printer: path_printer(rt, options, layout.colors.as_ref()),
            is_quiet: options.has(OptionId::Quiet),
            writer,
            errors,
            path_separator: layout.path_separator,
            hyperlinks: layout.hyperlinks.as_ref(),
        }
    }

    /// The writer back.
    pub fn into_writer(self) -> W
        ensures { result ≡ self.entry.writer }
    {
        let Lister {
            rt: _,
            system: _,
            printer: _,
            is_quiet: _,
            writer,
            errors: _,
            path_separator: _,
            hyperlinks: _,
        } = self;
        writer
    }
}

// The printer of paths that the options ask for.
fn path_printer<'c>(
    rt: &HostRuntime,
    options: &Options<'_, '_>,
    chosen: Option<&'c ColorTexts>,
) -> PathPrinter<'c>
    ensures { IsPathPrinterOf options.now chosen.entry result }
{
    let terminator = if options.has(OptionId::Null) {
        0
    } else {
        b'\n'
    };
    let mut printer = PathPrinterBuilder::new()
        .color_specs(color_specs(options.color(), chosen, options.streams))
        .terminator(terminator)
        .build(rt.alloc());
    if options.is_line_buffered() {
        printer.set_buffer_size(0);
    }
    printer
}

impl<'e, S, W: Output, E> Lister<'e, S, W, E> {
    // Writes a path, as it is given, unless no path is written.
    fn write(&mut self, path: PrinterPath<'_>) -> Searched
        ensures { IsPathWritten W.step self.old path.entry result self.new }
    {
        if self.is_quiet {
            return Searched {
                has_match: true,
                result: Ok(()),
            };
        }
        let result = self.printer.write_path(&mut self.writer, path);
        Searched {
            has_match: result.is_ok(),
            result,
        }
    }
}

impl<'e, F: Drop, S: Folders, W: Output, E: Output> Engine<F> for Lister<'e, S, W, E> {
    ghost use Rattle.linegrep_cli.specs.Listings.{IsListerStep};

    ghost step = { IsListerStep W.step S.facts };

    ghost has_failed = { λ lister. lister.printer.has_failed };

    fn search_file(&mut self, _file: F, _path: Option<&str>) -> Searched {
        nothing_found()
    }

    fn search_input(&mut self, _path: Option<&str>) -> Searched {
        nothing_found()
    }

    fn list(&mut self, path: &str) -> Searched {
        let target = match self.hyperlinks {
            Some(_) => link_target(self.rt.alloc(), self.system, path),
            None => None,
        };
        match self.path_separator {
            Some(separator) => match with_separator(self.rt.alloc(), path, separator) {
                Ok(shown) => {
                    let path = printer_path(shown.as_str(), self.hyperlinks, &target);
                    self.write(path)
                }
                Err(_) => unsearched(),
            },
            None => {
                let path = printer_path(path, self.hyperlinks, &target);
                self.write(path)
            }
        }
    }

    fn say(&mut self, text: &str) -> io::Result<()> {
        let flushed = self.printer.flush(&mut self.writer);
        say(self.errors, text);
        flushed
    }

    fn set_quits(&mut self, _quits: bool) {}

    fn has_failed(&self) -> bool {
        self.printer.has_failed()
    }

    fn finish(&mut self) -> io::Result<()> {
        self.printer.flush(&mut self.writer)
    }
}

/// Writes the paths of the files that a search would search: those at the paths of the options and
/// in their folders, or, if there is no path, those in the current folder. Standard input is
/// written as `<stdin>`.
///
/// The status is 0 if there is a file, 1 if there is none, and 2 if something can't be read; then
/// standard error says so, unless `--no-messages` is given. If a setting or a glob isn't well
/// formed, or there is no memory to read them, the status is 2, and nothing is written to `output`.
#[inline(never)]
pub fn list_all<S: System, R: Source, W: Output + Drop, E: Output>(
    rt: &HostRuntime,
    system: &S,
    options: &Options<'_, '_>,
    input: R,
    output: W,
    errors: &mut E,
) -> Ended<R, W>
    ensures { IsRefusedFor E.step (IsCauseForFiles (S.facts system.now) options.now) input output
        errors.old result errors.new
        ⊎ IsListingRun
        (world_of S.System.own S.Open S.Folders S.File.Read R.Source W.Output E.Output)
        system.now options.now input output errors.old result }
{
    let (layout, mut choices) = match prepare_files(rt, system, options) {
        Ok(prepared) => prepared,
        Err(failure) => return Ended::refused(errors, &failure, input, output),
    };
    let scope = Scope::new(system, options);
    let mut lister = Lister::new(rt, system, options, &layout, output, errors);
    let status = Run::new(rt, system, scope).complete(&mut lister, &mut choices, options.paths());
    Ended {
        status,
        input,
        output: lister.into_writer(),
    }
}
