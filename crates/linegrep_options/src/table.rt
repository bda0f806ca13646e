//! The table of the options: what each is called, what comes after it, and what takes it back.
ghost use Rattle.std.specs.Prelude.{◌≡◌, map, position, slice_get, true};
ghost use Rattle.std.specs.List.{list_all};
ghost use Rattle.std.specs.Str.{bytes_eq};
ghost use Rattle.linegrep_options.specs.Rows.{all_contraries, all_headings, all_letters, all_names};
ghost use Rattle.linegrep_options.specs.Rows.{all_rows, all_summaries, is_plain, lettered, named};
ghost use Rattle.linegrep_options.specs.Rows.{row_lettered, row_named, takes_value, value_name};
ghost use Rattle.linegrep_options.specs.Rows.{words_of};

use crate::option_id::OptionId;

/// An option, and how it is written. An option with several names has a row for each.
#[derive(Clone, Copy)]
pub struct Row {
    /// The option.
    pub id: OptionId,
    /// The letter, which is written after one hyphen, if it has one.
    pub letter: Option<u8>,
    /// What comes after it.
    pub value: Value,
}

/// What comes after an option.
#[derive(Clone, Copy)]
pub enum Value {
    /// Nothing: the option is a flag.
    Nothing,
    /// A number below 2 ^ 64: decimal digits, maybe after a plus.
    Number,
    /// `auto`, `always`, `never` or `ansi`.
    When,
    /// `none`, `path`, `modified`, `accessed` or `created`.
    Order,
    /// `default` or `auto`.
    Engine,
    /// `man`, `complete-bash`, `complete-zsh`, `complete-fish` or `complete-powershell`.
    Kind,
    /// Any text, as all that follow are. They differ in what messages call them.
    Pattern,
    File,
    Glob,
    Type,
    Definition,
    Separator,
    Template,
    Change,
    Format,
    Label,
    Size,
}

/// That an option is taken back if another is used after it.
#[derive(Clone, Copy)]
pub struct Contrary {
    /// The option that no longer applies.
    pub option: OptionId,
    /// The option that takes it back.
    pub by: OptionId,
}

// The table. A row has the option, its name after two hyphens, which is empty if there is a letter
// alone, its letter, what comes after it, the options that take it back, and what it does, in a
// line, which is empty if help leaves the row out. A heading may come before a row.
// `options!(names)` is the column of the names.
macro_rules! options {
    ($column:ident) => { $column! {
        ["Patterns"]
        Regexp, "regexp", Some('e'), Value::Pattern, [],
            "A pattern; may be given several times";
        File, "file", Some('f'), Value::File, [],
            "The lines of a file are patterns; - is standard input";
        FixedStrings, "fixed-strings", Some('F'), Value::Nothing, [NoFixedStrings],
            "Patterns are literals";
        NoFixedStrings, "no-fixed-strings", None, Value::Nothing, [], "";
        CaseSensitive, "case-sensitive", Some('s'), Value::Nothing, [],
            "Letters match in their own case";
        IgnoreCase, "ignore-case", Some('i'), Value::Nothing, [CaseSensitive, SmartCase],
            "Letters match in either case";
        SmartCase, "smart-case", Some('S'), Value::Nothing, [CaseSensitive, IgnoreCase],
            "Letters match in either case if no pattern has a capital";
        WordRegexp, "word-regexp", Some('w'), Value::Nothing, [LineRegexp],
            "Matches are whole words";
        LineRegexp, "line-regexp", Some('x'), Value::Nothing, [WordRegexp],
            "Matches are whole lines";
        Multiline, "multiline", Some('U'), Value::Nothing, [NoMultiline, StopOnNonmatch],
            "A match may run over several lines";
        NoMultiline, "no-multiline", None, Value::Nothing, [], "";
        MultilineDotall, "multiline-dotall", None, Value::Nothing, [NoMultilineDotall],
            "With -U, the dot matches a line feed too";
        NoMultilineDotall, "no-multiline-dotall", None, Value::Nothing, [], "";
        NoUnicode, "no-unicode", None, Value::Nothing, [Unicode, Pcre2Unicode],
            "Classes, words and cases are those of ASCII";
        Unicode, "unicode", None, Value::Nothing, [], "";
        NoPcre2Unicode, "no-pcre2-unicode", None, Value::Nothing, [Unicode, Pcre2Unicode], "";
        Pcre2Unicode, "pcre2-unicode", None, Value::Nothing, [], "";
        RegexSizeLimit, "regex-size-limit", None, Value::Size, [],
            "Refuse patterns that are compiled to more bytes; K, M or G may follow";
        DfaSizeLimit, "dfa-size-limit", None, Value::Size, [],
            "Taken as a size, and without effect";
        Engine, "engine", None, Value::Engine, [], "";
        ["Lines"]
        InvertMatch, "invert-match", Some('v'), Value::Nothing, [NoInvertMatch],
            "Select the lines that don't match";
        NoInvertMatch, "no-invert-match", None, Value::Nothing, [], "";
        MaxCount, "max-count", Some('m'), Value::Number, [],
            "Stop in a file after NUM matched lines";
        AfterContext, "after-context", Some('A'), Value::Number, [Passthru],
            "Write NUM lines after each match";
        BeforeContext, "before-context", Some('B'), Value::Number, [Passthru],
            "Write NUM lines before each match";
        Context, "context", Some('C'), Value::Number, [Passthru],
            "Write NUM lines before and after each match";
        Passthru, "passthru", None, Value::Nothing, [AfterContext, BeforeContext, Context],
            "Write all lines";
        Passthru, "passthrough", None, Value::Nothing, [AfterContext, BeforeContext, Context], "";
        StopOnNonmatch, "stop-on-nonmatch", None, Value::Nothing, [Multiline],
            "Stop in a file at the first line after a match that doesn't";
        Crlf, "crlf", None, Value::Nothing, [NoCrlf, NullData],
            "Lines may end at a carriage return and a line feed";
        NoCrlf, "no-crlf", None, Value::Nothing, [], "";
        NullData, "null-data", None, Value::Nothing, [Crlf], "Lines end at a NUL";
        ["Files"]
        Glob, "glob", Some('g'), Value::Glob, [],
            "Search the files of folders that match GLOB";
        Iglob, "iglob", None, Value::Glob, [], "As -g, with letters in either case";
        GlobCaseInsensitive, "glob-case-insensitive", None, Value::Nothing, [NoGlobCaseInsensitive],
            "As if each -g were --iglob";
        NoGlobCaseInsensitive, "no-glob-case-insensitive", None, Value::Nothing, [], "";
        Type, "type", Some('t'), Value::Type, [], "Search the files of folders that are of a type";
        TypeNot, "type-not", Some('T'), Value::Type, [],
            "Search the files of folders that aren't of a type";
        TypeAdd, "type-add", None, Value::Definition, [],
            "Add to a type: NAME:GLOB or NAME:include:NAME,..";
        TypeClear, "type-clear", None, Value::Type, [], "Forget the globs of a type";
        Hidden, "hidden", Some('.'), Value::Nothing, [NoHidden],
            "Search hidden files and folders too";
        NoHidden, "no-hidden", None, Value::Nothing, [], "";
        NoIgnore, "no-ignore", None, Value::Nothing, [], "Search files that ignore files leave out";
        Ignore, "ignore", None, Value::Nothing, [], "";
        Unrestricted, "unrestricted", Some('u'), Value::Nothing, [],
            "As --no-ignore, -uu as with --hidden too, -uuu with --binary";
        IgnoreFile, "ignore-file", None, Value::File, [],
            "Leave out what the lines of FILE say, for all folders";
        NoIgnoreDot, "no-ignore-dot", None, Value::Nothing, [], "Don't read .ignore and .rgignore";
        IgnoreDot, "ignore-dot", None, Value::Nothing, [], "";
        NoIgnoreVcs, "no-ignore-vcs", None, Value::Nothing, [],
            "Don't read .gitignore, nor git's other ignore files";
        IgnoreVcs, "ignore-vcs", None, Value::Nothing, [], "";
        NoIgnoreExclude, "no-ignore-exclude", None, Value::Nothing, [],
            "Don't read .git/info/exclude";
        IgnoreExclude, "ignore-exclude", None, Value::Nothing, [], "";
        NoIgnoreGlobal, "no-ignore-global", None, Value::Nothing, [],
            "Don't read the user's git/ignore";
        IgnoreGlobal, "ignore-global", None, Value::Nothing, [], "";
        NoIgnoreParent, "no-ignore-parent", None, Value::Nothing, [],
            "Don't read the ignore files of the folders above";
        IgnoreParent, "ignore-parent", None, Value::Nothing, [], "";
        NoIgnoreFiles, "no-ignore-files", None, Value::Nothing, [IgnoreFiles],
            "Don't read the files of --ignore-file";
        IgnoreFiles, "ignore-files", None, Value::Nothing, [], "";
        NoRequireGit, "no-require-git", None, Value::Nothing, [RequireGit],
            "Read git's files where there is no repository too";
        RequireGit, "require-git", None, Value::Nothing, [], "";
        IgnoreFileCaseInsensitive, "ignore-file-case-insensitive", None, Value::Nothing,
            [NoIgnoreFileCaseInsensitive], "Letters in ignore files match in either case";
        NoIgnoreFileCaseInsensitive, "no-ignore-file-case-insensitive", None, Value::Nothing, [],
            "";
        NoIgnoreMessages, "no-ignore-messages", None, Value::Nothing, [IgnoreMessages],
            "Don't say what is wrong with ignore files";
        IgnoreMessages, "ignore-messages", None, Value::Nothing, [], "";
        MaxDepth, "max-depth", Some('d'), Value::Number, [],
            "Search so many folders below those that are named";
        MaxDepth, "maxdepth", None, Value::Number, [], "";
        MaxFilesize, "max-filesize", None, Value::Size, [],
            "Leave out larger files of folders; K, M or G may follow";
        OneFileSystem, "one-file-system", None, Value::Nothing, [NoOneFileSystem],
            "Leave out folders of other file systems";
        NoOneFileSystem, "no-one-file-system", None, Value::Nothing, [], "";
        Follow, "follow", Some('L'), Value::Nothing, [NoFollow], "Follow links in folders";
        NoFollow, "no-follow", None, Value::Nothing, [], "";
        Sort, "sort", None, Value::Order, [Sortr, SortFiles, NoSortFiles],
            "Sort the files by path, as none does too, or by a time";
        Sortr, "sortr", None, Value::Order, [Sort, SortFiles, NoSortFiles],
            "The same as --sort, the other way round";
        SortFiles, "sort-files", None, Value::Nothing, [], "";
        NoSortFiles, "no-sort-files", None, Value::Nothing, [], "";
        Binary, "binary", None, Value::Nothing, [Text, NoText, NoBinary],
            "Search all of a binary file of a folder";
        NoBinary, "no-binary", None, Value::Nothing, [], "";
        Text, "text", Some('a'), Value::Nothing, [NoText, Binary, NoBinary],
            "Search binary files as text";
        NoText, "no-text", None, Value::Nothing, [], "";
        Encoding, "encoding", Some('E'), Value::Label, [NoEncoding], "The encoding of the files";
        NoEncoding, "no-encoding", None, Value::Nothing, [], "";
        NoMessages, "no-messages", None, Value::Nothing, [Messages],
            "Don't say which files can't be read";
        Messages, "messages", None, Value::Nothing, [], "";
        Debug, "debug", None, Value::Nothing, [],
            "Say which files and folders are left out, and why";
        Debug, "trace", None, Value::Nothing, [], "";
        Threads, "threads", Some('j'), Value::Number, [], "";
        ["Output"]
        LineNumber, "line-number", Some('n'), Value::Nothing, [NoLineNumber],
            "Write line numbers";
        NoLineNumber, "no-line-number", Some('N'), Value::Nothing, [LineNumber, Pretty],
            "Write no line numbers";
        WithFilename, "with-filename", Some('H'), Value::Nothing, [NoFilename],
            "Write the path before each line";
        NoFilename, "no-filename", Some('I'), Value::Nothing, [WithFilename], "Write no paths";
        Heading, "heading", None, Value::Nothing, [NoHeading],
            "Write the path once, above the lines of a file";
        NoHeading, "no-heading", None, Value::Nothing, [Heading, Pretty],
            "Write the path before each line";
        ByteOffset, "byte-offset", Some('b'), Value::Nothing, [NoByteOffset],
            "Write the offset of each line";
        NoByteOffset, "no-byte-offset", None, Value::Nothing, [], "";
        Column, "column", None, Value::Nothing, [NoColumn], "Write the column of the first match";
        NoColumn, "no-column", None, Value::Nothing, [Column], "";
        Vimgrep, "vimgrep", None, Value::Nothing, [],
            "Write each match with its line, for lists of places";
        OnlyMatching, "only-matching", Some('o'), Value::Nothing, [],
            "Write only the parts of lines that match";
        Replace, "replace", Some('r'), Value::Template, [],
            "Write TEMPLATE in place of each match; it may name groups";
        MaxColumns, "max-columns", Some('M'), Value::Number, [],
            "Write a notice in place of lines of more than NUM bytes; 0 is no limit";
        MaxColumnsPreview, "max-columns-preview", None, Value::Nothing, [NoMaxColumnsPreview],
            "Write the first characters of such lines before the notice";
        NoMaxColumnsPreview, "no-max-columns-preview", None, Value::Nothing, [], "";
        Trim, "trim", None, Value::Nothing, [NoTrim], "Leave out white space at the start of lines";
        NoTrim, "no-trim", None, Value::Nothing, [], "";
        FieldMatchSeparator, "field-match-separator", None, Value::Separator, [],
            "Write SEPARATOR after each field of a line that matches";
        FieldContextSeparator, "field-context-separator", None, Value::Separator, [],
            "Write SEPARATOR after each field of another line";
        ContextSeparator, "context-separator", None, Value::Separator, [],
            "Write a line SEPARATOR between groups of lines";
        NoContextSeparator, "no-context-separator", None, Value::Nothing, [ContextSeparator],
            "Write nothing between groups of lines";
        PathSeparator, "path-separator", None, Value::Separator, [],
            "Write SEPARATOR, a byte, in place of each slash of a path";
        Null, "null", Some('0'), Value::Nothing, [], "Write a NUL after each path";
        Color, "color", None, Value::When, [Pretty],
            "Write colors: always, never, or auto, for a terminal";
        Colors, "colors", None, Value::Change, [],
            "Change colors, as path:none, match:style:nobold or line:bg:0,128,255";
        HyperlinkFormat, "hyperlink-format", None, Value::Format, [],
            "Write links to files, as the name of a program or a format says; none by default";
        Pretty, "pretty", Some('p'), Value::Nothing, [], "As --color always --heading -n";
        LineBuffered, "line-buffered", None, Value::Nothing,
            [NoLineBuffered, BlockBuffered, NoBlockBuffered],
            "Write each line at once, as for a terminal";
        NoLineBuffered, "no-line-buffered", None, Value::Nothing, [], "";
        BlockBuffered, "block-buffered", None, Value::Nothing,
            [LineBuffered, NoLineBuffered, NoBlockBuffered], "Write many lines together";
        NoBlockBuffered, "no-block-buffered", None, Value::Nothing, [], "";
        Json, "json", None, Value::Nothing,
            [Count, CountMatches, FilesWithMatches, FilesWithoutMatch, NoJson],
            "Write messages in JSON";
        NoJson, "no-json", None, Value::Nothing, [], "";
        Stats, "stats", None, Value::Nothing, [NoStats],
            "Write counts of what was found and searched at the end";
        NoStats, "no-stats", None, Value::Nothing, [], "";
        ["In place of lines"]
        Files, "files", None, Value::Nothing, [TypeList, Generate],
            "Write the paths of the files that would be searched";
        TypeList, "type-list", None, Value::Nothing, [Files, Generate], "Write all types of files";
        Count, "count", Some('c'), Value::Nothing,
            [CountMatches, FilesWithMatches, FilesWithoutMatch, Json],
            "Write how many lines match, for each file";
        CountMatches, "count-matches", None, Value::Nothing,
            [Count, FilesWithMatches, FilesWithoutMatch, Json],
            "Write how many single matches there are, for each file";
        IncludeZero, "include-zero", None, Value::Nothing, [NoIncludeZero],
            "Write counts of zero too";
        NoIncludeZero, "no-include-zero", None, Value::Nothing, [], "";
        FilesWithMatches, "files-with-matches", Some('l'), Value::Nothing,
            [Count, CountMatches, FilesWithoutMatch, Json],
            "Write the paths of the files with a match";
        FilesWithoutMatch, "files-without-match", None, Value::Nothing,
            [Count, CountMatches, FilesWithMatches, Json],
            "Write the paths of the files without one";
        Quiet, "quiet", Some('q'), Value::Nothing, [], "Write nothing, and stop at the first match";
        Generate, "generate", None, Value::Kind, [Files, TypeList],
            "Write a man page, or completions of options for a shell";
        ShortHelp, "", Some('h'), Value::Nothing, [Help, Version], "Write a short help";
        Help, "help", None, Value::Nothing, [ShortHelp, Version], "Write a long help";
        Version, "version", Some('V'), Value::Nothing, [Help, ShortHelp], "Write the version";
        ["Options from a file"]
        NoConfig, "no-config", None, Value::Nothing, [],
            "Don't read the file that RIPGREP_CONFIG_PATH names";
        // What makes no difference here.
        Ineffective, "mmap", None, Value::Nothing, [], "";
        Ineffective, "no-mmap", None, Value::Nothing, [], "";
        Ineffective, "no-search-zip", None, Value::Nothing, [], "";
        Ineffective, "no-pre", None, Value::Nothing, [], "";
        Ineffective, "no-pcre2", None, Value::Nothing, [], "";
        Ineffective, "no-auto-hybrid-regex", None, Value::Nothing, [], "";
    } };
}

macro_rules! rows {
    ($($([$heading:tt])? $id:ident, $name:literal, $has:ident$(($letter:tt))?, $value:expr,
        [$($by:ident),*], $summary:literal;)*) => {
        &[$(Row { id: OptionId::$id, letter: $has$(($letter as u8))?, value: $value }),*]
    };
}

macro_rules! names {
    ($($([$heading:tt])? $id:ident, $name:literal, $has:ident$(($letter:tt))?, $value:expr,
        [$($by:ident),*], $summary:literal;)*) => {
        &[$($name),*]
    };
}

macro_rules! contraries {
    ($($([$heading:tt])? $id:ident, $name:literal, $has:ident$(($letter:tt))?, $value:expr,
        [$($by:ident),*], $summary:literal;)*) => {
        &[$($(Contrary { option: OptionId::$id, by: OptionId::$by },)*)*]
    };
}

macro_rules! headings {
    ($($([$heading:tt])? $id:ident, $name:literal, $has:ident$(($letter:tt))?, $value:expr,
        [$($by:ident),*], $summary:literal;)*) => {
        &[$(concat!("" $(, $heading)?)),*]
    };
}

macro_rules! letters {
    ($($([$heading:tt])? $id:ident, $name:literal, $has:ident$(($letter:tt))?, $value:expr,
        [$($by:ident),*], $summary:literal;)*) => {
        &[$(concat!("" $(, $letter)?)),*]
    };
}

macro_rules! summaries {
    ($($([$heading:tt])? $id:ident, $name:literal, $has:ident$(($letter:tt))?, $value:expr,
        [$($by:ident),*], $summary:literal;)*) => {
        &[$($summary),*]
    };
}

/// The rows of the table, without the names.
pub const ROWS: &[Row] = options!(rows);

/// The names of the rows, in their order.
pub const NAMES: &[&str] = options!(names);

/// Which options take which back.
pub const CONTRARIES: &[Contrary] = options!(contraries);

/// The headings above the rows, each of which is empty if the one before stays.
pub const HEADINGS: &[&str] = options!(headings);

/// The letters of the rows, each of which is empty if there is none.
pub const LETTERS: &[&str] = options!(letters);

/// What the options of the rows do, each in a line, which is empty if help leaves the row out.
pub const SUMMARIES: &[&str] = options!(summaries);

impl Value {
    /// Whether there is a value.
    pub fn is_there(self) -> bool
        ensures { result ≡ takes_value self }
    {
        !matches!(self, Value::Nothing)
    }

    /// The words that it may be; if there are none, any text.
    pub fn words(self) -> &'static [&'static str]
        ensures { map (λ word. word.now) result.now ≡ words_of self }
    {
        match self {
            Value::When => &["auto", "always", "never", "ansi"],
            Value::Order => &["none", "path", "modified", "accessed", "created"],
            Value::Engine => &["default", "auto"],
            Value::Kind => &[
                "man",
                "complete-bash",
                "complete-zsh",
                "complete-fish",
                "complete-powershell",
            ],
            _ => &[],
        }
    }

    /// What help calls it.
    pub fn name(self) -> &'static str
        ensures { result.now ≡ value_name self }
    {
        match self {
            Value::Nothing => "",
            Value::Number | Value::Size => "NUM",
            Value::When => "WHEN",
            Value::Order => "ORDER",
            Value::Engine => "ENGINE",
            Value::Format => "FORMAT",
            Value::Kind => "KIND",
            Value::Pattern => "PATTERN",
            Value::File => "FILE",
            Value::Glob => "GLOB",
            Value::Type => "TYPE",
            Value::Definition => "DEFINITION",
            Value::Separator => "SEPARATOR",
            Value::Template => "TEMPLATE",
            Value::Change => "CHANGE",
            Value::Label => "LABEL",
        }
    }
}

/// The row of an option's name, which is without the hyphens, if there is one.
pub fn row_named(name: &[u8]) -> Option<Row>
    ensures { result ≡ row_named name.now }
{
    row_in(rows(), names(), name)
}

fn row_in(rows: &[Row], names: &[&str], name: &[u8]) -> Option<Row>
    ensures { result ≡ named rows.now (map (λ name. name.now) names.now) name.now }
{
    if name.is_empty() {
        return None;
    }
    match place_of(names, name) {
        Some(at) => row_at(rows, at),
        None => None,
    }
}

fn row_at(rows: &[Row], at: usize) -> Option<Row>
    ensures { result ≡ slice_get rows.now at }
{
    rows.get(at).copied()
}

// The place of a name in a list, from 0.
fn place_of(names: &[&str], name: &[u8]) -> Option<usize>
    ensures { result ≡ position (λ own. bytes_eq own.now name.now) names.now }
{
    names.iter().position(|own| own.as_bytes() == name)
}

/// The row of an option's letter, if there is one.
pub fn row_lettered(letter: u8) -> Option<Row>
    ensures { result ≡ row_lettered letter }
{
    lettered_in(rows(), letter)
}

fn lettered_in(rows: &[Row], letter: u8) -> Option<Row>
    ensures { result ≡ lettered rows.now letter }
{
    rows.iter().copied().find(|row| row.letter == Some(letter))
}

/// The rows of the table.
#[tactic(auto, unfolding(crate::specs::Rows::all_rows))]
pub fn rows() -> &'static [Row]
    ensures { result.now ≡ all_rows }
{
    ROWS
}

/// The names of the rows, in their order.
#[tactic(auto, unfolding(crate::specs::Rows::all_names))]
pub fn names() -> &'static [&'static str]
    ensures { map (λ name. name.now) result.now ≡ all_names }
{
    NAMES
}

/// The headings above the rows, each of which is empty if the one before stays.
#[tactic(auto, unfolding(crate::specs::Rows::all_headings))]
pub fn headings() -> &'static [&'static str]
    ensures { map (λ heading. heading.now) result.now ≡ all_headings }
{
    HEADINGS
}

/// The letters of the rows, each of which is empty if there is none.
#[tactic(auto, unfolding(crate::specs::Rows::all_letters))]
pub fn letters() -> &'static [&'static str]
    ensures { map (λ letter. letter.now) result.now ≡ all_letters }
{
    LETTERS
}

/// What the options of the rows do, each in a line, which is empty if help leaves the row out.
#[tactic(auto, unfolding(crate::specs::Rows::all_summaries))]
pub fn summaries() -> &'static [&'static str]
    ensures column { map (λ summary. summary.now) result.now ≡ all_summaries }
    ensures plain { list_all is_plain all_summaries ≡ true }
{
    SUMMARIES
}

/// Which options take which back.
#[tactic(auto, unfolding(crate::specs::Rows::all_contraries))]
pub fn contraries() -> &'static [Contrary]
    ensures { result.now ≡ all_contraries }
{
    CONTRARIES
}
