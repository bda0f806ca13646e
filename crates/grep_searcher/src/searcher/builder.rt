//! The builder of a searcher.
ghost use Rattle.std.specs.Prelude.{◌≡◌, true, IfOk, IfErr};
ghost use Rattle.grep_definitions.specs.BuiltSettings.{default_settings, built};

use crate::searcher::Searcher;
use grep_matcher::LineTerminator;
use grep_report::{BinaryDetection, ConfigError, Encoding, MmapChoice};
use grep_walk::Config;
use std::alloc::{AllocError, Allocator};
use std::marker::Model;

/// The settings of a searcher that is to be built. Each setter changes its own setting alone, and
/// returns the builder.
#[derive(Debug, Drop)]
pub struct SearcherBuilder {
    config: Config,
}

impl Model for SearcherBuilder {
    ghost use Rattle.grep_definitions.specs.Plans.{Settings};

    ghost Value = { Settings };

    ghost view = { λ b. b.config };
}

impl Default for SearcherBuilder {
    ghost use Rattle.std.specs.Prelude.{◌≡◌};
    ghost use Rattle.grep_definitions.specs.BuiltSettings.{default_settings};

    ghost is_default = { λ b. b ≡ default_settings };

    fn default() -> SearcherBuilder {
        SearcherBuilder::new()
    }
}

/// An equal builder. It takes no memory, so that it never fails.
impl Clone for SearcherBuilder {
    ghost is_clone = { λ b copy. copy ≡ b };

    ghost is_infallible = { λ _. Unit {0} };

    fn clone(&self) -> Result<SearcherBuilder, AllocError> {
        Ok(SearcherBuilder {
            config: self.config,
        })
    }
}

impl SearcherBuilder {
    /// The default settings: lines end at a line feed and are numbered; nothing is inverted,
    /// limited or stopped early, and only matching lines are reported.
    pub fn new() -> SearcherBuilder
        ensures { result ≡ default_settings }
    {
        SearcherBuilder {
            config: Config {
                line_terminator: LineTerminator::Byte(b'\n'),
                invert_match: false,
                line_number: true,
                multi_line: false,
                after_context: 0,
                before_context: 0,
                passthru: false,
                heap_limit: None,
                memory_map: MmapChoice::Never,
                binary_detection: BinaryDetection::None,
                encoding: None,
                bom_sniffing: true,
                stop_on_nonmatch: false,
                max_matches: None,
            },
        }
    }

    /// A searcher with these settings, except that both contexts are 0 under `passthru`. It keeps
    /// `alloc` for what it needs memory for. The only error is `Memory`, if there is none for its
    /// buffers.
    pub fn build<A: Allocator + Copy>(&self, alloc: A) -> Result<Searcher<A>, ConfigError>
        ensures settings { IfOk result (λ searcher.
            searcher ≡ record { settings = built self.now; has_buffers = true }) }
        ensures error { IfErr result (λ e. e ≡ ConfigError.Memory) }
    {
        let mut config = self.config;
        if config.passthru {
            config.after_context = 0;
            config.before_context = 0;
        }
        Searcher::of(alloc, config)
    }

    /// What ends a line; a line feed by default. A search with a matcher that names another one is
    /// refused, with `ConfigError::MismatchedLineTerminators`.
    pub fn line_terminator(&mut self, terminator: LineTerminator) -> &mut SearcherBuilder
        ensures reference { result.ghost_name ≡ self.entry.ghost_name }
        ensures set { result.now ≡ record self.old { line_terminator = terminator } }
    {
        self.config.line_terminator = terminator;
        self
    }

    /// Whether the lines that don't match are selected, instead of those that do; not by default.
    pub fn invert_match(&mut self, yes: bool) -> &mut SearcherBuilder
        ensures reference { result.ghost_name ≡ self.entry.ghost_name }
        ensures set { result.now ≡ record self.old { invert_match = yes } }
    {
        self.config.invert_match = yes;
        self
    }

    /// Whether lines are numbered, from 1; they are by default.
    pub fn line_number(&mut self, yes: bool) -> &mut SearcherBuilder
        ensures reference { result.ghost_name ≡ self.entry.ghost_name }
        ensures set { result.now ≡ record self.old { line_number = yes } }
    {
        self.config.line_number = yes;
        self
    }

    /// Whether a match may extend over several lines; not by default.
    ///
    /// Then a search runs across lines, unless the matcher says that none of its matches contains
    /// the line terminator (`Searcher::multi_line_with_matcher`). It looks for matches in all bytes
    /// at once, and reports each longest run of lines that matches touch as one match; under
    /// inversion each line that no match touches is a report of its own. The limit counts matches,
    /// and under inversion lines. `stop_on_nonmatch` is ignored. All of a reader is read into
    /// memory before the search begins.
    pub fn multi_line(&mut self, yes: bool) -> &mut SearcherBuilder
        ensures reference { result.ghost_name ≡ self.entry.ghost_name }
        ensures set { result.now ≡ record self.old { multi_line = yes } }
    {
        self.config.multi_line = yes;
        self
    }

    /// How many lines are reported after a match; 0 by default.
    pub fn after_context(&mut self, lines: usize) -> &mut SearcherBuilder
        ensures reference { result.ghost_name ≡ self.entry.ghost_name }
        ensures set { result.now ≡ record self.old { after_context = lines } }
    {
        self.config.after_context = lines;
        self
    }

    /// How many lines are reported before a match; 0 by default.
    pub fn before_context(&mut self, lines: usize) -> &mut SearcherBuilder
        ensures reference { result.ghost_name ≡ self.entry.ghost_name }
        ensures set { result.now ≡ record self.old { before_context = lines } }
    {
        self.config.before_context = lines;
        self
    }

    /// Whether every line is reported, selected or not, up to the one at which `stop_on_nonmatch`
    /// ends the search; not by default. Both contexts then count as 0.
    pub fn passthru(&mut self, yes: bool) -> &mut SearcherBuilder
        ensures reference { result.ghost_name ≡ self.entry.ghost_name }
        ensures set { result.now ≡ record self.old { passthru = yes } }
    {
        self.config.passthru = yes;
        self
    }

    /// How many decoded bytes of a reader, or of a slice that needs decoding, a search holds at
    /// most; no limit by default. A line that doesn't fit ends the search in an error, as
    /// `Searcher::search_reader` says; across lines all decoded bytes have to be fewer. A limit of
    /// 0 refuses each search. The bytes of any other slice don't count, nor do the decoder's 8,192
    /// and, across lines, those of the line buffer, which isn't used then.
    pub fn heap_limit(&mut self, bytes: Option<usize>) -> &mut SearcherBuilder
        ensures reference { result.ghost_name ≡ self.entry.ghost_name }
        ensures set { result.now ≡ record self.old { heap_limit = bytes } }
    {
        self.config.heap_limit = bytes;
        self
    }

    /// Whether files are mapped into memory. `Never` is the one choice: files are read.
    pub fn memory_map(&mut self, choice: MmapChoice) -> &mut SearcherBuilder
        ensures reference { result.ghost_name ≡ self.entry.ghost_name }
        ensures set { result.now ≡ record self.old { memory_map = choice } }
    {
        self.config.memory_map = choice;
        self
    }

    /// Which bytes mark the input as binary, and what a search does about them; none by default.
    ///
    /// A slice that is searched as it is, and any search across lines, heed `Quit` alone. An input
    /// that is read line by line heeds `Convert` too. What is looked at are the decoded bytes.
    pub fn binary_detection(&mut self, detection: BinaryDetection) -> &mut SearcherBuilder
        ensures reference { result.ghost_name ≡ self.entry.ghost_name }
        ensures set { result.now ≡ record self.old { binary_detection = detection } }
    {
        self.config.binary_detection = detection;
        self
    }

    /// The encoding that the input is said to have; none by default. If one is set, a mark at the
    /// start of the input is looked for, whatever `bom_sniffing` says, and overrides it.
    pub fn encoding(&mut self, encoding: Option<Encoding>) -> &mut SearcherBuilder
        ensures reference { result.ghost_name ≡ self.entry.ghost_name }
        ensures set { result.now ≡ record self.old { encoding = encoding } }
    {
        self.config.encoding = encoding;
        self
    }

    /// Whether a mark at the start of the input is looked for where no encoding is set; it is by
    /// default. A mark that is found says the encoding, and isn't searched. With an encoding one is
    /// always looked for.
    pub fn bom_sniffing(&mut self, yes: bool) -> &mut SearcherBuilder
        ensures reference { result.ghost_name ≡ self.entry.ghost_name }
        ensures set { result.now ≡ record self.old { bom_sniffing = yes } }
    {
        self.config.bom_sniffing = yes;
        self
    }

    /// Whether the first line that isn't selected, after one that is, ends the search; not by
    /// default. Across lines it is ignored.
    pub fn stop_on_nonmatch(&mut self, yes: bool) -> &mut SearcherBuilder
        ensures reference { result.ghost_name ≡ self.entry.ghost_name }
        ensures set { result.now ≡ record self.old { stop_on_nonmatch = yes } }
    {
        self.config.stop_on_nonmatch = yes;
        self
    }

    /// How many lines are selected at most; no limit by default. The lines after the last of them
    /// that `after_context` has are reported too, as matches if they hit. At 0 no line is selected,
    /// and without `passthru` nothing is reported. Across lines it is how many matches count,
    /// unless `invert_match` is set, and lines that hit after these are context lines.
    pub fn max_matches(&mut self, limit: Option<u64>) -> &mut SearcherBuilder
        ensures reference { result.ghost_name ≡ self.entry.ghost_name }
        ensures set { result.now ≡ record self.old { max_matches = limit } }
    {
        self.config.max_matches = limit;
        self
    }
}
