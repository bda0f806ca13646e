//! How a printer of summaries writes them.
ghost use Rattle.std.specs.Prelude.{◌≡◌, [], false};
ghost use Rattle.grep_output.specs.PendingTexts.{pending_bytes};
ghost use Rattle.grep_printer.specs.SummaryTexts.{counts_on, counts_parts, default_summary_config};
ghost use Rattle.grep_printer.specs.SummaryTexts.{has_found, is_written};

use crate::colors::ColorSpecs;
use crate::printer::Printer;
use crate::summary::{Counts, Summary, SummaryFormat};
use std::alloc::Global;
use std::marker::Model;

/// What is written of a search.
#[derive(Clone, Copy, Debug, PartialEq, Eq)]
pub enum SummaryKind {
    /// How many matches were reported, after the path. Zero is written only if counts of zero are.
    Count,
    /// How many parts the reported matches have, after the path: those that
    /// `StandardBuilder::only_matching` writes, but one for each match at least. Zero is written
    /// only if counts of zero are.
    CountMatches,
    /// The path, if a match was reported.
    PathWithMatch,
    /// The path, if no match was reported.
    PathWithoutMatch,
    /// Nothing.
    Quiet,
}

impl SummaryKind {
    // Whether a search found what it is for, by how many matches were reported.
    pub(crate) fn has_found(&self, count: u64) -> bool
        ensures { result ≡ has_found self.now count }
    {
        match self {
            SummaryKind::PathWithoutMatch => count == 0,
            _ => count > 0,
        }
    }

    // Whether something is written of a search, by how many matches it has.
    pub(crate) fn is_written(&self, count: u64, exclude_zero: bool) -> bool
        ensures { result ≡ is_written self.now count exclude_zero }
    {
        self.has_found(count) || self.counts_on() && !exclude_zero
    }

    // Whether the parts of reported matches are counted.
    pub(crate) fn counts_parts(&self) -> bool
        ensures { result ≡ counts_parts self.now }
    {
        matches!(self, SummaryKind::CountMatches)
    }

    // Whether the search goes on after a match: only to count the others.
    pub(crate) fn counts_on(&self) -> bool
        ensures { result ≡ counts_on self.now }
    {
        matches!(self, SummaryKind::Count | SummaryKind::CountMatches)
    }
}

/// How summaries are written.
#[derive(Clone, Copy, Debug)]
pub struct SummaryConfig<'c> {
    pub(crate) kind: SummaryKind,
    pub(crate) exclude_zero: bool,
    pub(crate) counts_all: bool,
    pub(crate) path_terminator: Option<u8>,
    pub(crate) color_specs: ColorSpecs<'c>,
}

/// How a printer of summaries writes them. Each setter changes its own setting alone, and returns
/// the builder.
#[derive(Debug, Drop)]
pub struct SummaryBuilder<'c> {
    config: SummaryConfig<'c>,
}

impl<'c> Model for SummaryBuilder<'c> {
    ghost use Rattle.grep_printer.specs.declared.summary_builder.SummaryConfig.{SummaryConfig};

    ghost Value = { SummaryConfig };

    ghost view = { λ b. b.config };
}

impl<'c> SummaryBuilder<'c> {
    /// The default settings: the matches that are reported are counted, a count of zero isn't
    /// written, and nothing is colored.
    pub fn new() -> SummaryBuilder<'c>
        ensures { result ≡ default_summary_config }
    {
        SummaryBuilder {
            config: SummaryConfig {
                kind: SummaryKind::Count,
                exclude_zero: true,
                counts_all: false,
                path_terminator: None,
                color_specs: ColorSpecs::Plain,
            },
        }
    }

    /// A printer with these settings, which has written nothing yet. It takes memory from `alloc`
    /// when it writes, and when it counts the parts of a match.
    pub fn build(&self, alloc: Global) -> Summary<'c>
        ensures pending { pending_bytes result.pending ≡ [] }
        ensures buffer_size { result.buffer_size ≡ 65536 }
        ensures config { result.format.config ≡ self.now }
        ensures has_written { result.has_written ≡ false }
        ensures has_failed { result.has_failed ≡ false }
    {
        let format = SummaryFormat {
            config: self.config,
            counts: Counts::new(),
        };
        Printer::new(alloc, format)
    }

    /// What is written of a search; by default how many matches were reported.
    pub fn kind(&mut self, kind: SummaryKind) -> &mut SummaryBuilder<'c>
        ensures reference { result.ghost_name ≡ self.entry.ghost_name }
        ensures set { result.now ≡ record self.old { kind = kind } }
    {
        self.config.kind = kind;
        self
    }

    /// Whether a count of zero isn't written; by default it isn't.
    pub fn exclude_zero(&mut self, yes: bool) -> &mut SummaryBuilder<'c>
        ensures reference { result.ghost_name ≡ self.entry.ghost_name }
        ensures set { result.now ≡ record self.old { exclude_zero = yes } }
    {
        self.config.exclude_zero = yes;
        self
    }

    /// Whether a search goes on after its first match even if no more matches are asked for, so
    /// that all of them can be counted; not by default.
    pub fn counts_all(&mut self, yes: bool) -> &mut SummaryBuilder<'c>
        ensures reference { result.ghost_name ≡ self.entry.ghost_name }
        ensures set { result.now ≡ record self.old { counts_all = yes } }
    {
        self.config.counts_all = yes;
        self
    }

    /// The byte after a path, as NUL, in place of the colon after it, or of the line feed after a
    /// path alone. By default there is none.
    pub fn path_terminator(&mut self, terminator: Option<u8>) -> &mut SummaryBuilder<'c>
        ensures reference { result.ghost_name ≡ self.entry.ghost_name }
        ensures set { result.now ≡ record self.old { path_terminator = terminator } }
    {
        self.config.path_terminator = terminator;
        self
    }

    /// The colors; none by default. A summary has only the color of the path.
    pub fn color_specs(&mut self, specs: ColorSpecs<'c>) -> &mut SummaryBuilder<'c>
        ensures reference { result.ghost_name ≡ self.entry.ghost_name }
        ensures set { result.now ≡ record self.old { color_specs = specs.entry } }
    {
        self.config.color_specs = specs;
        self
    }
}
