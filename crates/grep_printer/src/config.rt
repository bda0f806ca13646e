//! How a standard printer writes reports.
ghost use Rattle.std.specs.Prelude.{◌≡◌, [], false, None};
ghost use Rattle.grep_output.specs.PendingTexts.{pending_bytes};
ghost use Rattle.grep_printer.specs.StandardTexts.{asks_for_parts, default_config};

use crate::colors::ColorSpecs;
use crate::printer::Printer;
use crate::separators::Separators;
use crate::standard::{Progress, Standard, StandardFormat};
use std::alloc::Global;
use std::marker::Model;

/// What is written between two searches of a printer, if both have written something.
#[derive(Clone, Copy, Debug, PartialEq, Eq)]
pub enum SearchSeparator {
    /// Nothing.
    Nothing,
    /// An empty line, as between the matches of two files below their headings.
    Blank,
    /// What comes between two groups of lines of one file, as a line with two dashes.
    Groups,
}

/// How reports are written.
#[derive(Clone, Copy, Debug)]
pub struct Config<'c> {
    pub(crate) heading: bool,
    pub(crate) column: bool,
    pub(crate) byte_offset: bool,
    pub(crate) only_matching: bool,
    pub(crate) max_columns: Option<u64>,
    pub(crate) max_columns_preview: bool,
    pub(crate) path_terminator: Option<u8>,
    pub(crate) separator: SearchSeparator,
    pub(crate) color_specs: ColorSpecs<'c>,
    pub(crate) trim_ascii: bool,
    pub(crate) separators: Option<&'c Separators>,
}

impl<'c> Config<'c> {
    // Whether the parts of reports that match are asked for: to write them, their columns, or their
    // colors.
    pub(crate) fn asks_for_parts(&self) -> bool
        ensures { result ≡ asks_for_parts self.now }
    {
        self.only_matching || self.column || self.color_specs.matched().is_some()
    }
}

/// How a standard printer writes reports. Each setter changes its own setting alone, and returns
/// the builder.
#[derive(Debug, Drop)]
pub struct StandardBuilder<'c> {
    pub(crate) config: Config<'c>,
}

impl<'c> Model for StandardBuilder<'c> {
    ghost use Rattle.grep_printer.specs.declared.config.Config.{Config};

    ghost Value = { Config };

    ghost view = { λ b. b.config };
}

impl<'c> StandardBuilder<'c> {
    /// The default settings: whole lines are written, a path before each, and neither columns nor
    /// byte offsets; nothing is written between two searches, and nothing is colored.
    pub fn new() -> StandardBuilder<'c>
        ensures { result ≡ default_config }
    {
        StandardBuilder {
            config: Config {
                heading: false,
                column: false,
                byte_offset: false,
                only_matching: false,
                max_columns: None,
                max_columns_preview: false,
                path_terminator: None,
                separator: SearchSeparator::Nothing,
                color_specs: ColorSpecs::Plain,
                trim_ascii: false,
                separators: None,
            },
        }
    }

    /// A printer with these settings, which has written nothing yet. It takes memory from `alloc`
    /// when it writes.
    pub fn build(&self, alloc: Global) -> Standard<'c>
        ensures pending { pending_bytes result.pending ≡ [] }
        ensures buffer_size { result.buffer_size ≡ 65536 }
        ensures config { result.format.config ≡ self.now }
        ensures has_written { result.has_written ≡ false }
        ensures has_failed { result.has_failed ≡ false }
    {
        let format = StandardFormat {
            config: self.config,
            progress: Progress::new(false),
        };
        Printer::new(alloc, format)
    }

    /// Whether the path is written once, in a line above the reports of a search, and not before
    /// each line; not by default.
    pub fn heading(&mut self, yes: bool) -> &mut StandardBuilder<'c>
        ensures reference { result.ghost_name ≡ self.entry.ghost_name }
        ensures set { result.now ≡ record self.old { heading = yes } }
    {
        self.config.heading = yes;
        self
    }

    /// Whether the column of the first part is written before each line of a match; not by default.
    /// It is the position of the part's first byte in the report, counted from 1. A report without
    /// a part has none.
    pub fn column(&mut self, yes: bool) -> &mut StandardBuilder<'c>
        ensures reference { result.ghost_name ≡ self.entry.ghost_name }
        ensures set { result.now ≡ record self.old { column = yes } }
    {
        self.config.column = yes;
        self
    }

    /// Whether the offset of a line in the decoded input is written before it, in bytes, counted
    /// from 0; not by default.
    pub fn byte_offset(&mut self, yes: bool) -> &mut StandardBuilder<'c>
        ensures reference { result.ghost_name ≡ self.entry.ghost_name }
        ensures set { result.now ≡ record self.old { byte_offset = yes } }
    {
        self.config.byte_offset = yes;
        self
    }

    /// Whether the parts of a match are written in place of its lines, each in a line of its own,
    /// with its own column and offset; not by default. A report without a part is written whole.
    pub fn only_matching(&mut self, yes: bool) -> &mut StandardBuilder<'c>
        ensures reference { result.ghost_name ≡ self.entry.ghost_name }
        ensures set { result.now ≡ record self.old { only_matching = yes } }
    {
        self.config.only_matching = yes;
        self
    }

    /// The limit of bytes of a line, with its terminator if it has one; by default there is none. A
    /// notice is written in place of a longer line, or of a longer part. It says how many parts the
    /// line has, if they are found and aren't written themselves.
    pub fn max_columns(&mut self, most: Option<u64>) -> &mut StandardBuilder<'c>
        ensures reference { result.ghost_name ≡ self.entry.ghost_name }
        ensures set { result.now ≡ record self.old { max_columns = most } }
    {
        self.config.max_columns = most;
        self
    }

    /// Whether the first characters of a line with more than `max_columns` bytes are written, and a
    /// notice after them; not by default. As many characters are written as `max_columns` says. A
    /// character is what a reader takes for one (a grapheme cluster).
    pub fn max_columns_preview(&mut self, yes: bool) -> &mut StandardBuilder<'c>
        ensures reference { result.ghost_name ≡ self.entry.ghost_name }
        ensures set { result.now ≡ record self.old { max_columns_preview = yes } }
    {
        self.config.max_columns_preview = yes;
        self
    }

    /// The byte after a path, as NUL, in place of the mark after it, or of the line feed after a
    /// heading. By default there is none.
    pub fn path_terminator(&mut self, terminator: Option<u8>) -> &mut StandardBuilder<'c>
        ensures reference { result.ghost_name ≡ self.entry.ghost_name }
        ensures set { result.now ≡ record self.old { path_terminator = terminator } }
    {
        self.config.path_terminator = terminator;
        self
    }

    /// What is written between two searches that have both written something; nothing by default.
    pub fn separator_search(&mut self, separator: SearchSeparator) -> &mut StandardBuilder<'c>
        ensures reference { result.ghost_name ≡ self.entry.ghost_name }
        ensures set { result.now ≡ record self.old { separator = separator } }
    {
        self.config.separator = separator;
        self
    }

    /// The colors of paths, numbers and matches; none by default. If matches have one, the parts of
    /// a match are found, as they are for its column.
    pub fn color_specs(&mut self, specs: ColorSpecs<'c>) -> &mut StandardBuilder<'c>
        ensures reference { result.ghost_name ≡ self.entry.ghost_name }
        ensures set { result.now ≡ record self.old { color_specs = specs.entry } }
    {
        self.config.color_specs = specs;
        self
    }

    /// Whether white space of ASCII is left out at the start of a line, or of a part that is
    /// written in its place; not by default. A terminator is never left out. Numbers, columns and
    /// offsets stay those of the whole line.
    pub fn trim_ascii(&mut self, yes: bool) -> &mut StandardBuilder<'c>
        ensures reference { result.ghost_name ≡ self.entry.ghost_name }
        ensures set { result.now ≡ record self.old { trim_ascii = yes } }
    {
        self.config.trim_ascii = yes;
        self
    }

    /// What is written after fields, and between groups of lines. By default it is a colon after
    /// each field of a line that matches, a dash after each field of any other line, and two dashes
    /// between two groups.
    pub fn separators(&mut self, separators: Option<&'c Separators>) -> &mut StandardBuilder<'c>
        ensures reference { result.ghost_name ≡ self.entry.ghost_name }
        ensures set { result.now ≡ record self.old { separators = separators.entry } }
    {
        self.config.separators = separators;
        self
    }
}
