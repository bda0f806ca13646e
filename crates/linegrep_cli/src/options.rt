//! The options of the command line.
ghost use Rattle.std.specs.Prelude.{◌≡◌, ◌&&◌, None, if◌then◌else◌, option_map};
ghost use Rattle.std.specs.Prelude.{slice_get, slice_index};
ghost use Rattle.linegrep_cli.specs.FileChoices.{ignore_files_of, last_of_both, reads};
ghost use Rattle.linegrep_cli.specs.FileChoices.{shows_hidden};
ghost use Rattle.linegrep_cli.specs.OptionMeanings.{after_lines, before_lines, context_lines};
ghost use Rattle.linegrep_cli.specs.OptionMeanings.{paths_of, searches_input, shows_columns};
ghost use Rattle.linegrep_cli.specs.OptionMeanings.{shows_numbers};
ghost use Rattle.linegrep_cli.specs.OptionMeanings.{operands_of, value_of};
ghost use Rattle.linegrep_cli.specs.PrinterOptions.{color_choice, counts, counts_matches};
ghost use Rattle.linegrep_cli.specs.PrinterOptions.{counts_all, is_line_buffered, is_summary};
ghost use Rattle.linegrep_cli.specs.PrinterOptions.{is_vimgrep};
ghost use Rattle.linegrep_cli.specs.PrinterOptions.{is_summary_of_paths, shows_headings};
ghost use Rattle.linegrep_cli.specs.PrinterOptions.{shows_paths, summary_kind};
ghost use Rattle.linegrep_cli.specs.SearcherOptions.{detection_of, is_all_searched, label_of};
ghost use Rattle.linegrep_cli.specs.SearcherOptions.{terminator_of};
ghost use Rattle.linegrep_cli.specs.RunScopes.{order_for, searches_binary};
ghost use Rattle.linegrep_cli.specs.OptionUses.{has};
ghost use Rattle.linegrep_cli.specs.OptionValues.{AreListed, AreOptions, names_patterns};
ghost use Rattle.linegrep_cli.specs.OptionValues.{number_for, unrestricted_at};

use crate::lists::Lists;
use crate::program::Streams;
use crate::words::{is_input, names_input};
use grep_printer::SummaryKind;
use grep_searcher::{BinaryDetection, LineTerminator};
use linegrep_files::{FileId, Order, TypeOptions};
use linegrep_options::{OptionId, Use, applies, last_place, last_value, number};

// Where `-u` is among the uses of options: the place of each use, from 1, or 0 if there is none.
#[derive(Clone, Copy)]
struct Unrestricted {
    // The first use, which asks for ignored files.
    ignored: usize,
    // The second use, which asks for hidden files.
    hidden: usize,
    // The third use, which asks for binary files.
    binary: usize,
}

impl Unrestricted {
    // The first three of the places of all uses.
    fn new(places: &[usize]) -> Unrestricted
        ensures { result ≡ unrestricted_at places.now }
    {
        Unrestricted {
            ignored: place_at(places, 0),
            hidden: place_at(places, 1),
            binary: place_at(places, 2),
        }
    }
}

// The place with an index, or 0 if there is none.
fn place_at(places: &[usize], index: usize) -> usize
    ensures { result ≡ slice_index places.now index }
{
    places.get(index).copied().unwrap_or(0)
}

/// What the options ask for, but for the patterns, in a run with some standard streams.
#[derive(Clone, Copy)]
pub struct Options<'m, 'w> {
    /// What the run knows of its standard streams.
    pub streams: Streams,
    /// The uses of options, in their order.
    pub uses: &'m [Use<'w>],
    /// After how many matched lines of a file its search stops.
    pub max_count: Option<u64>,
    /// The limit of bytes of a line that is written; 0 is no limit.
    pub max_columns: Option<u64>,
    after_context: Option<u64>,
    before_context: Option<u64>,
    context: Option<u64>,
    /// What is written between groups of lines, with escapes.
    pub context_separator: Option<&'w str>,
    /// What is written after each field of a line near a match, with escapes.
    pub field_context_separator: Option<&'w str>,
    /// What is written after each field of a line of a match, with escapes.
    pub field_match_separator: Option<&'w str>,
    /// What is written in place of each slash of a path, with escapes.
    pub path_separator: Option<&'w str>,
    /// The format of links.
    pub hyperlink_format: Option<&'w str>,
    /// How many bytes the tables of the patterns have at most, as a text.
    pub regex_size_limit: Option<&'w str>,
    /// A size that makes no difference, as a text.
    pub dfa_size_limit: Option<&'w str>,
    /// The template of what is written in place of each match.
    pub replace: Option<&'w str>,
    color: Option<&'w str>,
    /// What is changed in the colors.
    pub colors: Option<&'m [&'w str]>,
    encoding: Option<&'w str>,
    /// The globs, which choose among the files of folders.
    pub globs: Option<&'m [&'w str]>,
    /// The globs whose letters match in either case.
    pub iglobs: Option<&'m [&'w str]>,
    ignore_files: Option<&'m [&'w str]>,
    /// What they say of types of files.
    pub types: TypeOptions<'m, 'w>,
    /// How many folders below one that is named are searched.
    pub max_depth: Option<u64>,
    /// How large a file of a folder is at most, as a text.
    pub max_filesize: Option<&'w str>,
    sort: Option<&'w str>,
    sortr: Option<&'w str>,
    unrestricted: Unrestricted,
    operands: Option<&'m [&'w str]>,
    /// Whether patterns are read from standard input.
    pub reads_patterns: bool,
    // Whether the first operand is a path like the others, and not the pattern.
    names_patterns: bool,
}

impl<'m, 'w> Options<'m, 'w> {
    /// The options that are used, with their values and the operands, and the standard streams.
    #[inline(never)]
    pub fn new(uses: &'m [Use<'w>], lists: &'m Lists<'w>, streams: Streams) -> Options<'m, 'w>
        ensures { AreOptions uses.entry lists.entry.now streams result }
    {
        Options {
            streams,
            uses,
            max_count: number_for(uses, OptionId::MaxCount),
            max_columns: number_for(uses, OptionId::MaxColumns),
            after_context: number_for(uses, OptionId::AfterContext),
            before_context: number_for(uses, OptionId::BeforeContext),
            context: number_for(uses, OptionId::Context),
            context_separator: last_value(uses, OptionId::ContextSeparator),
            field_context_separator: last_value(uses, OptionId::FieldContextSeparator),
            field_match_separator: last_value(uses, OptionId::FieldMatchSeparator),
            path_separator: last_value(uses, OptionId::PathSeparator),
            hyperlink_format: last_value(uses, OptionId::HyperlinkFormat),
            regex_size_limit: last_value(uses, OptionId::RegexSizeLimit),
            dfa_size_limit: last_value(uses, OptionId::DfaSizeLimit),
            replace: last_value(uses, OptionId::Replace),
            color: last_value(uses, OptionId::Color),
            colors: listed(&lists.colors),
            encoding: last_value(uses, OptionId::Encoding),
            globs: listed(&lists.globs),
            iglobs: listed(&lists.iglobs),
            ignore_files: listed(&lists.ignore_files),
            types: lists.type_options(),
            max_depth: number_for(uses, OptionId::MaxDepth),
            max_filesize: last_value(uses, OptionId::MaxFilesize),
            sort: last_value(uses, OptionId::Sort),
            sortr: last_value(uses, OptionId::Sortr),
            unrestricted: Unrestricted::new(&lists.unrestricted),
            operands: listed(&lists.operands),
            reads_patterns: names_input(&lists.pattern_files),
            names_patterns: names_patterns(uses),
        }
    }

    /// Whether an option is used, and none after it that takes it back.
    pub fn has(&self, option: OptionId) -> bool
        ensures { result ≡ has self.now option }
    {
        applies(self.uses, option)
    }

    /// Whether ignore files of a kind are read. One option asks for them, and its opposite refuses
    /// them. The last of these, and of the options about all kinds, decides.
    pub fn reads(&self, option: OptionId, opposite: OptionId) -> bool
        ensures { result ≡ reads self.now option opposite }
    {
        let asked = self.last_of_both(option, OptionId::Ignore);
        let refused = self.last_of_both(opposite, OptionId::NoIgnore);
        asked >= refused && asked >= self.unrestricted.ignored
    }

    // The place of the last use of either of two options, or 0.
    fn last_of_both(&self, one: OptionId, other: OptionId) -> usize
        ensures { result ≡ last_of_both self.now one other }
    {
        let one = last_place(self.uses, one);
        let other = last_place(self.uses, other);
        if one < other { other } else { one }
    }

    /// The paths of ignore files that are named.
    pub fn ignore_files(&self) -> &'m [&'w str]
        ensures { result.now ≡ ignore_files_of self.now }
    {
        match self.ignore_files {
            Some(files) if !self.has(OptionId::NoIgnoreFiles) => files,
            _ => &[],
        }
    }

    /// In which order the files of folders are searched.
    pub fn order(&self) -> Order
        ensures { result ≡ order_for self.now }
    {
        if self.has(OptionId::Sort) {
            Order::read(self.sort, false)
        } else if self.has(OptionId::Sortr) {
            Order::read(self.sortr, true)
        } else {
            Order::by_path()
        }
    }

    /// Whether hidden files of folders are searched.
    pub fn shows_hidden(&self) -> bool
        ensures { result ≡ shows_hidden self.now }
    {
        self.has(OptionId::Hidden)
            || last_place(self.uses, OptionId::NoHidden) < self.unrestricted.hidden
    }

    /// Whether the search of a file of a folder goes on after a NUL, though it isn't searched as
    /// text.
    pub fn searches_binary(&self) -> bool
        ensures { result ≡ searches_binary self.now }
    {
        self.has(OptionId::Binary) || self.is_all_searched()
    }

    // Whether `-u` is given a third time, and nothing after that about binary files.
    fn is_all_searched(&self) -> bool
        ensures { result ≡ is_all_searched self.now }
    {
        let third = self.unrestricted.binary;
        last_place(self.uses, OptionId::Text) < third
            && last_place(self.uses, OptionId::NoText) < third
            && last_place(self.uses, OptionId::NoBinary) < third
    }

    /// When there are colors.
    pub fn color(&self) -> Option<&'w str>
        ensures { option_map (λ text. text.now) result ≡ color_choice self.now }
    {
        if self.has(OptionId::Color) {
            self.color
        } else if self.has(OptionId::Pretty) {
            Some("always")
        } else {
            None
        }
    }

    /// The label of the files' encoding.
    pub fn encoding(&self) -> Option<&'w str>
        ensures { result ≡ label_of self.now }
    {
        if self.has(OptionId::Encoding) {
            self.encoding
        } else {
            None
        }
    }

    /// The paths of what is searched.
    pub fn paths(&self) -> &'m [&'w str]
        ensures { result.now ≡ paths_of self.now }
    {
        match self.operands {
            Some(operands) if self.names_patterns => operands,
            Some([_, paths @ ..]) => paths,
            _ => &[],
        }
    }

    /// The first operand, if there is one.
    pub fn first_operand(&self) -> Option<&'w str>
        ensures { result ≡ slice_get (operands_of self.now.operands) 0 }
    {
        match self.operands {
            Some(operands) => operands.first().copied(),
            None => None,
        }
    }

    /// The kind of the summary that is asked for, if one is, of a search by line or across lines.
    pub fn summary_kind(&self, is_across: bool) -> Option<SummaryKind>
        ensures { result ≡ summary_kind self.now is_across }
    {
        if self.has(OptionId::Quiet) {
            Some(SummaryKind::Quiet)
        } else if self.counts_matches(is_across) {
            Some(SummaryKind::CountMatches)
        } else if self.counts() {
            Some(SummaryKind::Count)
        } else if self.has(OptionId::FilesWithMatches) {
            Some(SummaryKind::PathWithMatch)
        } else if self.has(OptionId::FilesWithoutMatch) {
            Some(SummaryKind::PathWithoutMatch)
        } else {
            None
        }
    }

    // Whether lines or matches are counted.
    fn counts(&self) -> bool
        ensures { result ≡ counts self.now }
    {
        self.has(OptionId::Count) || self.has(OptionId::CountMatches)
    }

    // Whether single matches are counted, and not lines. Across lines `-c` counts them too. With
    // `-v` lines are counted in any case.
    fn counts_matches(&self, is_across: bool) -> bool
        ensures { result ≡ counts_matches self.now is_across }
    {
        let counts_parts = self.has(OptionId::OnlyMatching) || is_across;
        !self.has(OptionId::InvertMatch)
            && (self.has(OptionId::CountMatches) || self.has(OptionId::Count) && counts_parts)
    }

    // Whether something is written in place of lines, or nothing.
    fn is_summary(&self) -> bool
        ensures { result ≡ is_summary self.now }
    {
        self.has(OptionId::Quiet) || self.counts() || self.is_summary_of_paths()
    }

    /// Whether standard input is searched, and nothing else.
    pub fn searches_input(&self) -> bool
        ensures { result ≡ searches_input self.now }
    {
        match self.paths() {
            [] => self.streams.has_input && !self.reads_patterns && !self.has(OptionId::Files),
            [path] => is_input(path),
            _ => false,
        }
    }

    /// Whether paths are written. In JSON, and if paths are all that is written, they always are.
    /// Otherwise they are written if an option asks for them or several files may be searched,
    /// unless an option refuses them.
    pub fn shows_paths(&self, searches_several: bool) -> bool
        ensures { result ≡ shows_paths self.now searches_several }
    {
        if self.has(OptionId::Json) || self.is_summary_of_paths() {
            return true;
        }
        !self.has(OptionId::NoFilename)
            && (self.has(OptionId::WithFilename) || self.has(OptionId::Vimgrep) || searches_several)
    }

    /// The file that isn't searched, if there is one: the file that lines are written to. If no
    /// lines are written, it doesn't grow while it is searched.
    pub fn left_out(&self) -> Option<FileId>
        ensures { result
            ≡ (if is_summary self.now then None else self.now.streams.output) }
    {
        if self.is_summary() {
            None
        } else {
            self.streams.output
        }
    }

    /// Whether all that is found is counted, to say at the end how much it was.
    pub fn counts_all(&self) -> bool
        ensures { result ≡ counts_all self.now }
    {
        self.has(OptionId::Stats) && !self.has(OptionId::Json)
    }

    fn is_summary_of_paths(&self) -> bool
        ensures { result ≡ is_summary_of_paths self.now }
    {
        self.has(OptionId::FilesWithMatches) || self.has(OptionId::FilesWithoutMatch)
    }

    /// Whether columns are written, or a line for each part with its column.
    pub fn shows_columns(&self) -> bool
        ensures { result ≡ shows_columns self.now }
    {
        self.has(OptionId::Column) || self.has(OptionId::Vimgrep) && !self.has(OptionId::NoColumn)
    }

    /// Whether each part that matches is written with its line.
    pub fn is_vimgrep(&self) -> bool
        ensures { result ≡ is_vimgrep self.now }
    {
        self.has(OptionId::Vimgrep) && !self.has(OptionId::OnlyMatching)
    }

    /// Whether lines are numbered. For a terminal they are, unless an option says otherwise, or
    /// only standard input is searched.
    pub fn shows_numbers(&self) -> bool
        ensures { result ≡ shows_numbers self.now }
    {
        !self.has(OptionId::NoLineNumber)
            && (self.has(OptionId::LineNumber)
                || self.has(OptionId::Pretty)
                || self.shows_columns()
                || self.has(OptionId::Json)
                || self.has(OptionId::Vimgrep)
                || self.streams.is_terminal && !self.searches_input())
    }

    /// Whether a path is written once, above the lines of its file. For a terminal it is, unless an
    /// option says otherwise.
    pub fn shows_headings(&self) -> bool
        ensures { result ≡ shows_headings self.now }
    {
        !self.has(OptionId::NoHeading)
            && !self.has(OptionId::Vimgrep)
            && (self.has(OptionId::Heading)
                || self.has(OptionId::Pretty)
                || self.streams.is_terminal)
    }

    /// Whether each line is written at once, and not many together. For a terminal it is, unless an
    /// option says otherwise.
    pub fn is_line_buffered(&self) -> bool
        ensures { result ≡ is_line_buffered self.now }
    {
        self.has(OptionId::LineBuffered)
            || self.streams.is_terminal && !self.has(OptionId::BlockBuffered)
    }

    /// What ends a line.
    pub fn line_terminator(&self) -> LineTerminator
        ensures { result ≡ terminator_of self.now }
    {
        if self.has(OptionId::NullData) {
            LineTerminator::byte(0)
        } else if self.has(OptionId::Crlf) {
            LineTerminator::crlf()
        } else {
            LineTerminator::byte(b'\n')
        }
    }

    /// How many lines of context are after a match.
    pub fn after_context(&self) -> usize
        ensures { result ≡ after_lines self.now }
    {
        self.context_of(self.value(OptionId::AfterContext, self.after_context))
    }

    /// How many lines of context are before a match.
    pub fn before_context(&self) -> usize
        ensures { result ≡ before_lines self.now }
    {
        self.context_of(self.value(OptionId::BeforeContext, self.before_context))
    }

    // How many lines of context are on a side: as its own option says, or else the option for both
    // sides. If all lines are written, there is no context.
    fn context_of(&self, own: Option<u64>) -> usize
        ensures { result ≡ context_lines self.now own }
    {
        if self.has(OptionId::Passthru) {
            return 0;
        }
        let both = self.value(OptionId::Context, self.context);
        own.or(both).unwrap_or(0) as usize
    }

    // The value of an option, unless one after it takes it back.
    fn value(&self, option: OptionId, value: Option<u64>) -> Option<u64>
        ensures { result ≡ value_of self.now option value }
    {
        if self.has(option) { value } else { None }
    }

    /// What is done about a file with a NUL. Such a file is binary, unless it is to be searched as
    /// text.
    pub fn binary_detection(&self) -> BinaryDetection
        ensures { result ≡ detection_of self.now }
    {
        let is_text = self.has(OptionId::Text) && !self.is_all_searched();
        if is_text || self.has(OptionId::NullData) {
            BinaryDetection::none()
        } else {
            BinaryDetection::convert(0)
        }
    }
}

// The number that the last use of an option gives, if it is used.
fn number_for(uses: &[Use<'_>], option: OptionId) -> Option<u64>
    ensures { result ≡ number_for uses.now option }
{
    match last_value(uses, option) {
        Some(text) => number(text),
        None => None,
    }
}

// A list of texts, if it isn't empty.
fn listed<'m, 'w>(texts: &'m Vec<&'w str>) -> Option<&'m [&'w str]>
    ensures { AreListed texts.entry.now.items result }
{
    if texts.is_empty() {
        None
    } else {
        Some(texts.as_slice())
    }
}

// Whether uses of options name the patterns, or ask that files are listed.
fn names_patterns(uses: &[Use<'_>]) -> bool
    ensures { result ≡ names_patterns uses.now }
{
    last_place(uses, OptionId::Regexp) > 0
        || last_place(uses, OptionId::File) > 0
        || last_place(uses, OptionId::Files) > 0
}
