//! A case: what is searched for, in what, and how.
use grep_matcher::LineTerminator;
use grep_regex::RegexMatcherBuilder;
use grep_searcher::{BinaryDetection, ConfigError, Encoding, Searcher, SearcherBuilder};
use hex::{FromHex, FromHexError};
use std::alloc::{AllocError, Global};
use std::str::FromStr;
use std::{slice, str};

/// Why a line is no case that can be run.
#[derive(Clone, Copy)]
pub(crate) enum CaseError {
    /// The line isn't UTF-8; a field isn't known, or its value isn't one of the field's; the input
    /// or the literal is missing; or a terminator is to be named by a matcher that can't.
    Malformed,
    /// The label of `enc` isn't one of an encoding that is known.
    UnknownEncoding,
    /// There was no memory for the input, a literal or a label.
    OutOfMemory,
}

impl From<AllocError> for CaseError {
    fn from(_error: AllocError) -> CaseError {
        CaseError::OutOfMemory
    }
}

impl From<FromHexError> for CaseError {
    fn from(error: FromHexError) -> CaseError {
        match error {
            FromHexError::OutOfMemory => CaseError::OutOfMemory,
            _ => CaseError::Malformed,
        }
    }
}

/// Which matcher searches.
#[derive(Clone, Copy)]
pub(crate) enum Pattern {
    /// The matcher of the literal.
    Literal,
    /// One with its candidates, of which any other call fails.
    Candidates,
    /// One that matches nothing, and confirms the position at the end of lines.
    End,
    /// One of the literal or the other literal.
    Either,
    /// One that the empty haystack alone matches.
    Empty,
    /// One that each haystack matches, at its end alone.
    AtEnd,
    /// One that fails at a haystack with `!`, and that any other matches.
    Failing,
    /// The regular expression whose text is the literal.
    Regex,
}

impl Pattern {
    // Whether a case may say which terminator the matcher names.
    fn may_name(self) -> bool {
        matches!(self, Pattern::Literal | Pattern::Candidates)
    }
}

impl FromStr for Pattern {
    type Err = CaseError;

    fn from_str(text: &str) -> Result<Pattern, CaseError> {
        match text {
            "lit" | "plain" => Ok(Pattern::Literal),
            "candidates" => Ok(Pattern::Candidates),
            "end" => Ok(Pattern::End),
            "either" => Ok(Pattern::Either),
            "empty" => Ok(Pattern::Empty),
            "at_end" => Ok(Pattern::AtEnd),
            "fail" => Ok(Pattern::Failing),
            "regex" => Ok(Pattern::Regex),
            _ => Err(CaseError::Malformed),
        }
    }
}

/// How the input is given to the search.
#[derive(Clone, Copy)]
pub(crate) enum Mode {
    /// As a slice.
    Slice,
    /// By a reader.
    Reader,
}

impl FromStr for Mode {
    type Err = CaseError;

    fn from_str(text: &str) -> Result<Mode, CaseError> {
        match text {
            "slice" => Ok(Mode::Slice),
            "reader" => Ok(Mode::Reader),
            _ => Err(CaseError::Malformed),
        }
    }
}

/// Where the input is, for a search.
#[derive(Clone, Copy)]
pub(crate) struct Place {
    /// How it is given.
    pub(crate) mode: Mode,
    /// How many bytes a reader gives at most at a read; 0: as many as are asked for.
    pub(crate) piece: usize,
}

/// The places of the searches that a case is repeated by.
const PLACES: &[Place] = &[
    Place {
        mode: Mode::Slice,
        piece: 0,
    },
    Place {
        mode: Mode::Reader,
        piece: 0,
    },
    Place {
        mode: Mode::Reader,
        piece: 1,
    },
];

/// A way to make the search of a case.
#[derive(Clone, Copy)]
pub(crate) struct Way {
    /// Whether the matcher has neither terminator nor byte set, so that it is asked about one line
    /// at a time.
    pub(crate) plain: bool,
    /// Where the input is.
    pub(crate) place: Place,
}

/// What a case says beside its input and its literals.
pub(crate) struct Options {
    /// Which matcher searches.
    pub(crate) pattern: Pattern,
    /// The terminator that the matcher names.
    pub(crate) names: Option<LineTerminator>,
    /// The way of the search.
    pub(crate) way: Way,
    /// Whether the searcher is written in its debug form in place of the search.
    pub(crate) debug: bool,
    /// How often the input is repeated.
    pub(crate) times: usize,
    /// Which read fails, counted from 1.
    pub(crate) error_at: Option<u64>,
    /// Which call of the sink returns false, counted from 1.
    pub(crate) false_at: Option<u64>,
    /// Which call of the sink fails, counted from 1.
    pub(crate) fail_at: Option<u64>,
    /// The settings of the search.
    pub(crate) settings: SearcherBuilder,
    /// The options of the regular expression.
    pub(crate) expression: RegexMatcherBuilder,
    // Whether it declares a line terminator.
    ends_lines: bool,
    // Whether the input is decoded by a label.
    is_labelled: bool,
}

// Written out, so that a caller's proof sees one call.
impl Drop for Options {
    fn drop(self) {
        let Options {
            pattern: _pattern,
            names: _names,
            way: _way,
            debug: _debug,
            times: _times,
            error_at: _error_at,
            false_at: _false_at,
            fail_at: _fail_at,
            settings: _settings,
            expression: _expression,
            ends_lines: _ends_lines,
            is_labelled: _is_labelled,
        } = self;
    }
}

/// A search that is to be made.
pub(crate) struct Case {
    /// What is searched.
    pub(crate) input: Vec<u8>,
    /// What is searched for.
    pub(crate) literal: Vec<u8>,
    /// The other literal of `Pattern::Either`.
    pub(crate) other: Vec<u8>,
    /// The rest.
    pub(crate) options: Options,
}

// Written out, so that a caller's proof sees one call.
impl Drop for Case {
    fn drop(self) {
        let Case {
            input: _input,
            literal: _literal,
            other: _other,
            options: _options,
        } = self;
    }
}

impl Case {
    /// The case of a line: fields `key=value` with a space between.
    ///
    /// An error is that of the first field that can't be read: `OutOfMemory` if there is none for
    /// the input, a literal or a label, `UnknownEncoding` if the label isn't known, else
    /// `Malformed`, which is also the error of a line that isn't UTF-8 or lacks the input or the
    /// literal. `OutOfMemory` for the whole input comes after these.
    pub(crate) fn parse(alloc: Global, line: &[u8]) -> Result<Case, CaseError> {
        let Ok(line) = str::from_utf8(line) else {
            return Err(CaseError::Malformed);
        };
        let mut fields = Fields::new(alloc);
        match fields.read_all(alloc, line) {
            Ok(()) => fields.into_case(),
            Err(error) => Err(error),
        }
    }

    /// Where the same search makes the same calls, plain or not: a slice, a reader in one piece and
    /// one in single bytes, or just the case's own place if a reader fails, if there is a heap
    /// limit, or if binary bytes are looked for by line. Nowhere if the matcher's terminator is
    /// named, or if it can't be asked about one line at a time.
    pub(crate) fn places(&self, searcher: &Searcher) -> &[Place] {
        let options = &self.options;
        if options.names.is_some() || matches!(options.pattern, Pattern::Candidates) {
            &[]
        } else if options.error_at.is_some()
            || searcher.heap_limit().is_some()
            || self.detects_by_line(searcher)
        {
            slice::from_ref(&options.way.place)
        } else {
            PLACES
        }
    }

    /// The byte of ASCII that a search of a reader converts, by line. None if a read fails or if a
    /// call fails or returns false, since `binary_data` is a call too, and none if the input may be
    /// UTF-16.
    pub(crate) fn converted_byte(&self, searcher: &Searcher) -> Option<u8> {
        let byte = searcher.binary_detection().convert_byte()?;
        let is_read = matches!(self.options.way.place.mode, Mode::Reader)
            && self.detects_by_line(searcher)
            && !self.options.has_fault();
        if is_read && byte.is_ascii() && !self.may_be_utf16() {
            Some(byte)
        } else {
            None
        }
    }

    // Whether the input has a label or begins as a mark of UTF-16 does.
    fn may_be_utf16(&self) -> bool {
        self.options.is_labelled || matches!(self.input.first(), Some(0xFE | 0xFF))
    }

    /// Replaces each such byte of the input.
    pub(crate) fn replace(&mut self, byte: u8, new: u8) {
        for some in self.input.iter_mut() {
            if *some == byte {
                *some = new;
            }
        }
    }

    // Whether binary bytes are looked for by line: in a slice that is all there, but in a reader as
    // it is read.
    fn detects_by_line(&self, searcher: &Searcher) -> bool {
        *searcher.binary_detection() != BinaryDetection::None && !self.is_across(searcher)
    }

    // Whether the search is across lines.
    fn is_across(&self, searcher: &Searcher) -> bool {
        searcher.multi_line()
            && match self.options.pattern {
                Pattern::Literal => {
                    let terminator = searcher.line_terminator().as_byte();
                    self.options.way.plain || self.literal.contains(&terminator)
                }
                Pattern::Candidates | Pattern::End => false,
                Pattern::Regex => self.options.way.plain || !self.options.ends_lines,
                Pattern::Either | Pattern::Empty | Pattern::AtEnd | Pattern::Failing => true,
            }
    }
}

// The fields of a case that were read so far.
struct Fields {
    input: Option<Vec<u8>>,
    head: Vec<u8>,
    tail: Vec<u8>,
    literal: Option<Vec<u8>>,
    other: Vec<u8>,
    options: Options,
}

// Written out, so that a caller's proof sees one call.
impl Drop for Fields {
    fn drop(self) {
        let Fields {
            input: _input,
            head: _head,
            tail: _tail,
            literal: _literal,
            other: _other,
            options: _options,
        } = self;
    }
}

impl Fields {
    // No field yet.
    fn new(alloc: Global) -> Fields {
        Fields {
            input: None,
            head: Vec::new(alloc),
            tail: Vec::new(alloc),
            literal: None,
            other: Vec::new(alloc),
            options: Options::new(),
        }
    }

    // Reads the fields of a line.
    fn read_all(&mut self, alloc: Global, line: &str) -> Result<(), CaseError> {
        for field in line.split(' ') {
            self.read(alloc, field)?;
        }
        Ok(())
    }

    // Reads one field.
    fn read(&mut self, alloc: Global, field: &str) -> Result<(), CaseError> {
        let Some((key, value)) = field.split_once('=') else {
            return Err(CaseError::Malformed);
        };
        match key {
            "in" | "head" | "tail" | "lit" | "or" => match hex::decode(alloc, value) {
                Ok(bytes) => {
                    self.keep(key, bytes);
                    Ok(())
                }
                Err(error) => Err(CaseError::from(error)),
            },
            _ => self.options.set(alloc, key, value),
        }
    }

    // Keeps the bytes of a field.
    fn keep(&mut self, key: &str, bytes: Vec<u8>) {
        match key {
            "in" => self.input = Some(bytes),
            "head" => self.head = bytes,
            "tail" => self.tail = bytes,
            "lit" => self.literal = Some(bytes),
            _ => self.other = bytes,
        }
    }

    // The case of all fields.
    fn into_case(self) -> Result<Case, CaseError> {
        let Fields {
            input,
            head,
            tail,
            literal,
            other,
            options,
        } = self;
        let (Some(input), Some(literal)) = (input, literal) else {
            return Err(CaseError::Malformed);
        };
        if options.names.is_some() && !options.pattern.may_name() {
            return Err(CaseError::Malformed);
        }
        Ok(Case {
            input: between(head, &input, options.times, &tail)?,
            literal,
            other,
            options,
        })
    }
}

// Some bytes, so many times, between two others.
fn between(head: Vec<u8>, bytes: &[u8], times: usize, tail: &[u8]) -> Result<Vec<u8>, AllocError> {
    let mut all = head;
    for _ in 0..times {
        all.extend_from_slice(bytes)?;
    }
    all.extend_from_slice(tail)?;
    Ok(all)
}

impl Options {
    // The default of each field.
    fn new() -> Options {
        Options {
            pattern: Pattern::Literal,
            names: None,
            way: Way {
                plain: false,
                place: PLACES[0],
            },
            debug: false,
            times: 1,
            error_at: None,
            false_at: None,
            fail_at: None,
            settings: SearcherBuilder::new(),
            expression: RegexMatcherBuilder::new(),
            ends_lines: false,
            is_labelled: false,
        }
    }

    // Whether a read fails, or a call fails or returns false.
    fn has_fault(&self) -> bool {
        self.error_at.is_some() || self.false_at.is_some() || self.fail_at.is_some()
    }

    // Sets the option of a field.
    fn set(&mut self, alloc: Global, key: &str, value: &str) -> Result<(), CaseError> {
        match key {
            "err_at" => self.error_at = ordinal(value)?,
            "false_at" => self.false_at = ordinal(value)?,
            "fail_at" => self.fail_at = ordinal(value)?,
            "enc" => self.encode(encoding(alloc, value)?),
            _ => self.set_search(key, value)?,
        }
        Ok(())
    }

    // Sets what is searched with, and how.
    fn set_search(&mut self, key: &str, value: &str) -> Result<(), CaseError> {
        match key {
            "matcher" => self.choose(value)?,
            "re" => self.express(value)?,
            "names" => self.names = Some(terminator(value)?),
            "mode" => self.way.place.mode = value.parse()?,
            "debug" => self.debug = flag(value)?,
            "times" => self.times = number(value)?,
            "piece" => self.way.place.piece = number(value)?,
            _ => configure(&mut self.settings, key, value)?,
        }
        Ok(())
    }

    // Sets which matcher searches.
    fn choose(&mut self, name: &str) -> Result<(), CaseError> {
        self.pattern = name.parse()?;
        self.way.plain = name == "plain";
        Ok(())
    }

    // Sets the options of the regular expression, a letter each.
    fn express(&mut self, letters: &str) -> Result<(), CaseError> {
        for letter in letters.chars() {
            express(&mut self.expression, letter)?;
        }
        self.ends_lines = letters.contains('n') || letters.contains('r');
        Ok(())
    }

    fn encode(&mut self, encoding: Option<Encoding>) {
        self.is_labelled = encoding.is_some();
        self.settings.encoding(encoding);
    }
}

/// Sets the option of a letter.
pub(crate) fn express(expression: &mut RegexMatcherBuilder, letter: char) -> Result<(), CaseError> {
    match letter {
        'i' => expression.case_insensitive(true),
        'F' => expression.fixed_strings(true),
        'w' => expression.word(true),
        'x' => expression.whole_line(true),
        'm' => expression.multi_line(true),
        's' => expression.dot_matches_new_line(true),
        'a' => expression.unicode(false),
        'n' => expression.line_terminator(Some(b'\n')),
        'r' => expression.crlf(true),
        _ => return express_syntax(expression, letter),
    };
    Ok(())
}

// Sets an option that is rarer.
fn express_syntax(expression: &mut RegexMatcherBuilder, letter: char) -> Result<(), CaseError> {
    match letter {
        'k' => expression.crlf(true).line_terminator(None),
        'z' => expression.line_terminator(Some(0)),
        'T' => expression.line_terminator(Some(200)),
        'L' => expression.size_limit(1000),
        'U' => expression.swap_greed(true),
        'v' => expression.ignore_whitespace(true),
        'o' => expression.octal(true),
        'd' => expression.nest_limit(2),
        'D' => expression.nest_limit(0),
        _ => return Err(CaseError::Malformed),
    };
    Ok(())
}

// Sets the searcher's setting of a field.
fn configure(settings: &mut SearcherBuilder, key: &str, value: &str) -> Result<(), CaseError> {
    match key {
        "term" => settings.line_terminator(terminator(value)?),
        "bin" => settings.binary_detection(detection(value)?),
        "after" => settings.after_context(number(value)?),
        "before" => settings.before_context(number(value)?),
        "heap" => settings.heap_limit(limit(value)?),
        "max" => settings.max_matches(limit(value)?),
        _ => return configure_flag(settings, key, flag(value)?),
    };
    Ok(())
}

fn configure_flag(settings: &mut SearcherBuilder, key: &str, yes: bool) -> Result<(), CaseError> {
    match key {
        "invert" => settings.invert_match(yes),
        "nums" => settings.line_number(yes),
        "multi" => settings.multi_line(yes),
        "passthru" => settings.passthru(yes),
        "bom" => settings.bom_sniffing(yes),
        "stop" => settings.stop_on_nonmatch(yes),
        _ => return Err(CaseError::Malformed),
    };
    Ok(())
}

// What a search does about which byte, or none.
fn detection(text: &str) -> Result<BinaryDetection, CaseError> {
    if text == "none" {
        return Ok(BinaryDetection::none());
    }
    match text.split_once(':') {
        Some(("quit", byte)) => Ok(BinaryDetection::quit(number(byte)?)),
        Some(("convert", byte)) => Ok(BinaryDetection::convert(number(byte)?)),
        _ => Err(CaseError::Malformed),
    }
}

// The encoding of a label in hex, or none.
fn encoding(alloc: Global, text: &str) -> Result<Option<Encoding>, CaseError> {
    if text == "none" {
        return Ok(None);
    }
    let label = hex::decode(alloc, text)?;
    let label = str::from_utf8(&label).map_err(|_| CaseError::Malformed)?;
    match Encoding::new(alloc, label) {
        Ok(encoding) => Ok(Some(encoding)),
        Err(ConfigError::UnknownEncoding { .. }) => Err(CaseError::UnknownEncoding),
        Err(_) => Err(CaseError::OutOfMemory),
    }
}

fn flag(text: &str) -> Result<bool, CaseError> {
    match text {
        "0" => Ok(false),
        "1" => Ok(true),
        _ => Err(CaseError::Malformed),
    }
}

fn number<N: FromStr>(text: &str) -> Result<N, CaseError>
where
    N::Err: Drop,
{
    text.parse::<N>().map_err(|_| CaseError::Malformed)
}

// A number, or none.
fn limit<N: FromStr>(text: &str) -> Result<Option<N>, CaseError>
where
    N::Err: Drop,
{
    if text == "none" {
        Ok(None)
    } else {
        Ok(Some(number(text)?))
    }
}

// Which one, counted from 1, or none.
fn ordinal(text: &str) -> Result<Option<u64>, CaseError> {
    match limit(text)? {
        Some(0) => Err(CaseError::Malformed),
        ordinal => Ok(ordinal),
    }
}

fn terminator(text: &str) -> Result<LineTerminator, CaseError> {
    match text {
        "lf" => Ok(LineTerminator::byte(b'\n')),
        "crlf" => Ok(LineTerminator::crlf()),
        _ => {
            let [byte] = <[u8; 1]>::from_hex(text)?;
            Ok(LineTerminator::byte(byte))
        }
    }
}
