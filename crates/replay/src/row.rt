//! A row: a search of texts that are held here, and what writes its reports.
use crate::texts::{LONG_PATH, Searched};
use grep_printer::{
    ColorSpecs, JsonBuilder, SearchSeparator, StandardBuilder, SummaryBuilder, SummaryKind,
};
use grep_searcher::SearcherBuilder;

/// What writes the reports of a search.
#[derive(Clone, Copy)]
pub enum Kind {
    /// The printer of lines.
    Lines,
    /// The printer of a line for each part.
    Vimgrep,
    /// The printer of summaries.
    Summary,
    /// The printer of JSON.
    Json,
}

/// A search, and how it is written.
pub struct Row<'r> {
    /// What writes it.
    pub kind: Kind,
    /// What is searched for.
    pub pattern: &'r str,
    /// What is searched.
    pub searched: Searched,
    /// Whether the matcher matches nothing, and fails where a printer asks it.
    pub fails: bool,
    /// Whether a match may run over several lines.
    pub is_across: bool,
    /// The settings of the search.
    pub search: SearcherBuilder,
    /// The settings of the printers of lines.
    pub lines: StandardBuilder<'r>,
    /// The settings of the printer of summaries.
    pub summary: SummaryBuilder<'r>,
    /// The settings of the printer of JSON.
    pub json: JsonBuilder,
}

// Written out, so that a caller's proof sees one call.
impl<'r> Drop for Row<'r> {
    fn drop(self) {
        let Row {
            kind: _kind,
            pattern: _pattern,
            searched: _searched,
            fails: _fails,
            is_across: _is_across,
            search: _search,
            lines: _lines,
            summary: _summary,
            json: _json,
        } = self;
    }
}

impl<'r> Row<'r> {
    /// The row of a line, if each of its words is known: options, then the pattern, and after it
    /// the path of another text, if that is to be searched.
    pub fn read(line: &'r str) -> Option<Row<'r>> {
        let mut row = Row::new();
        for word in line.split(' ') {
            if !row.set(word) {
                return None;
            }
        }
        Some(row)
    }

    fn new() -> Row<'r> {
        Row {
            kind: Kind::Lines,
            pattern: "",
            searched: Searched::Short,
            fails: false,
            is_across: false,
            search: SearcherBuilder::new(),
            lines: StandardBuilder::new(),
            summary: SummaryBuilder::new(),
            json: JsonBuilder::new(),
        }
    }

    // Sets what a word stands for, which may be a setting of several. It returns whether there is
    // such a word.
    fn set(&mut self, word: &'r str) -> bool {
        let is_kind = self.set_kind(word);
        let is_search = self.set_search(word);
        let is_of_lines = set_lines(&mut self.lines, word);
        let is_summary = set_summary(&mut self.summary, word);
        let is_number = self.set_number(word);
        is_kind || is_search || is_of_lines || is_summary || is_number || self.set_operand(word)
    }

    fn set_kind(&mut self, word: &str) -> bool {
        match word {
            "--json" => self.kind = Kind::Json,
            "--vimgrep" => {
                self.kind = Kind::Vimgrep;
                self.lines.column(true);
            }
            "always_begin_end" => {
                self.json.always_begin_end(true);
            }
            "fails" => self.fails = true,
            "-c" | "--count-matches" | "-l" | "--files-without-match" | "-q" => {
                self.kind = Kind::Summary;
            }
            _ => return false,
        }
        true
    }

    fn set_search(&mut self, word: &str) -> bool {
        let search = &mut self.search;
        match word {
            "-n" => search.line_number(true),
            "-N" => search.line_number(false),
            "-v" => search.invert_match(true),
            "-U" => {
                self.is_across = true;
                search.multi_line(true)
            }
            _ => return false,
        };
        true
    }

    // Sets a setting that has a number, which stands right after the option.
    fn set_number(&mut self, word: &str) -> bool {
        let Some((option, number)) = word.split_at_checked(2) else {
            return false;
        };
        let Ok(number) = number.parse::<usize>() else {
            return false;
        };
        match option {
            "-A" => self.search.after_context(number),
            "-B" => self.search.before_context(number),
            "-C" => self.search.before_context(number).after_context(number),
            "-M" => {
                self.lines.max_columns(Some(number as u64));
                return true;
            }
            _ => return false,
        };
        self.lines.separator_search(SearchSeparator::Groups);
        true
    }

    // Sets the pattern, or what is searched by the path after it.
    fn set_operand(&mut self, word: &'r str) -> bool {
        if self.pattern.is_empty() {
            self.pattern = word;
            return !word.starts_with('-');
        }
        match word {
            "bytes.txt" => self.searched = Searched::Bytes,
            LONG_PATH => self.searched = Searched::Long,
            _ => return false,
        }
        true
    }
}

fn set_lines(lines: &mut StandardBuilder<'_>, word: &str) -> bool {
    match word {
        "-b" => lines.byte_offset(true),
        "-o" => lines.only_matching(true),
        "-0" => lines.path_terminator(Some(0)),
        "--column" => lines.column(true),
        "--color" | "always" => lines.color_specs(ColorSpecs::Default),
        "--heading" => lines.heading(true).separator_search(SearchSeparator::Blank),
        _ => return false,
    };
    true
}

// With `-o` after `-c` single matches are counted.
fn set_summary(summary: &mut SummaryBuilder<'_>, word: &str) -> bool {
    match word {
        "-c" => summary.kind(SummaryKind::Count),
        "-o" | "--count-matches" => summary.kind(SummaryKind::CountMatches),
        "-l" => summary.kind(SummaryKind::PathWithMatch),
        "--files-without-match" => summary.kind(SummaryKind::PathWithoutMatch),
        "-q" => summary.kind(SummaryKind::Quiet),
        "-0" => summary.path_terminator(Some(0)),
        "always" => summary.color_specs(ColorSpecs::Default),
        _ => return false,
    };
    true
}
