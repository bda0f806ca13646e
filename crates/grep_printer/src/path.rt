//! The printer of paths, which searches nothing.
ghost use Rattle.std.specs.Prelude.{◌≡◌, [], false};
ghost use Rattle.grep_output.specs.PendingTexts.{pending_bytes};
ghost use Rattle.grep_printer.specs.JsonEnds.{HasPutText};
ghost use Rattle.grep_printer.specs.PathTexts.{default_path_format, path_text};

use crate::colors::ColorSpecs;
use crate::hyperlinks::{PrinterPath, push_linked_path};
use crate::printer::Printer;
use grep_output::Output;
use grep_searcher::SearchError;
use std::alloc::{AllocError, Global};
use std::marker::Model;

/// A printer of paths: it writes paths, as those of the files that a search would search.
pub type PathPrinter<'c> = Printer<PathFormat<'c>>;

/// How paths are written.
#[derive(Clone, Copy, Debug)]
pub struct PathFormat<'c> {
    color_specs: ColorSpecs<'c>,
    terminator: u8,
}

/// How a printer of paths writes them. Each setter changes its own setting alone, and returns the
/// builder.
#[derive(Debug, Drop)]
pub struct PathPrinterBuilder<'c> {
    format: PathFormat<'c>,
}

impl<'c> Model for PathPrinterBuilder<'c> {
    ghost use Rattle.grep_printer.specs.declared.path.PathFormat.{PathFormat};

    ghost Value = { PathFormat };

    ghost view = { λ b. b.format };
}

impl<'c> PathPrinterBuilder<'c> {
    /// The default settings: a line feed comes after each path, and nothing is colored.
    pub fn new() -> PathPrinterBuilder<'c>
        ensures { result ≡ default_path_format }
    {
        PathPrinterBuilder {
            format: PathFormat {
                color_specs: ColorSpecs::Plain,
                terminator: b'\n',
            },
        }
    }

    /// A printer with these settings, which has written nothing yet. It takes memory from `alloc`
    /// when it writes.
    pub fn build(&self, alloc: Global) -> PathPrinter<'c>
        ensures pending { pending_bytes result.pending ≡ [] }
        ensures buffer_size { result.buffer_size ≡ 65536 }
        ensures format { result.format ≡ self.now }
        ensures has_written { result.has_written ≡ false }
        ensures has_failed { result.has_failed ≡ false }
    {
        Printer::new(alloc, self.format)
    }

    /// The colors; none by default. A path has only its own color.
    pub fn color_specs(&mut self, specs: ColorSpecs<'c>) -> &mut PathPrinterBuilder<'c>
        ensures reference { result.ghost_name ≡ self.entry.ghost_name }
        ensures set { result.now ≡ record self.old { color_specs = specs.entry } }
    {
        self.format.color_specs = specs;
        self
    }

    /// The byte after each path, as NUL; by default a line feed.
    pub fn terminator(&mut self, terminator: u8) -> &mut PathPrinterBuilder<'c>
        ensures reference { result.ghost_name ≡ self.entry.ghost_name }
        ensures set { result.now ≡ record self.old { terminator = terminator } }
    {
        self.format.terminator = terminator;
        self
    }
}

impl<'c> Printer<PathFormat<'c>> {
    /// Writes a path, as a link if it has one, and the terminator after it. An error is the
    /// writer's, and then some first bytes of what is pending and of the path may be written; or it
    /// is one of being out of memory, and then nothing is written.
    pub fn write_path<W: Output>(
        &mut self,
        writer: &mut W,
        path: PrinterPath<'_>,
    ) -> Result<(), SearchError>
        ensures { HasPutText W.step writer.old self.old (path_text self.old.format path.entry)
            result writer.new self.new }
    {
        let PathFormat {
            color_specs,
            terminator,
        } = self.format;
        self.pending.begin();
        push_linked_path(&mut self.pending, color_specs.path(), &path);
        self.pending.push_byte(terminator);
        if self.pending.has_failed() {
            self.pending.cancel();
            return Err(SearchError::from(AllocError));
        }
        match self.end_text(writer) {
            Ok(()) => Ok(()),
            Err(error) => Err(SearchError::Io(error)),
        }
    }
}
