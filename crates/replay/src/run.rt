//! The search of a case, and how its outcome is written.
use crate::case::{Case, CaseError, Mode, Pattern, Place, Way};
use grep_matcher::{LiteralMatcher, Matcher, Plain};
use grep_regex::Regex;
use grep_searcher::{BinaryDetection, ConfigError, SearchError, Searcher, SinkError};
use grep_testing::{
    AtEnd, CandidatesOnly, ConfirmsEnd, Either, Empty, Failing, Naming, Pieces, RECORDER_MESSAGE,
    Recorder,
};
use std::alloc::{AllocError, Global};
use std::{io, str};

/// Runs the case of a line, and writes its calls and how it ended. A line that is no case that can
/// be run, and a search that fails, are reported in what is written. An error is that of the write
/// to `output`.
pub(crate) fn replay<W: io::Write>(alloc: Global, line: &[u8], output: &mut W) -> io::Result<()> {
    let mut case = match Case::parse(alloc, line) {
        Ok(case) => case,
        Err(error) => return writeln!(output, "{}", case_fault(error)),
    };
    if case.options.debug {
        return write_forms(alloc, &case, output);
    }
    match build(alloc, &case) {
        Ok(mut searcher) => write_calls(alloc, &mut searcher, &mut case, output),
        Err(error) => writeln!(output, "{}", search_fault(&SearchError::Config(error))),
    }
}

// Writes the calls of a case and how it ended, and whether the same search differs elsewhere, or
// that of the converted input.
fn write_calls<W: io::Write>(
    alloc: Global,
    searcher: &mut Searcher,
    case: &mut Case,
    output: &mut W,
) -> io::Result<()> {
    let mut recorder = Recorder::new(alloc, case.options.false_at, case.options.fail_at);
    let end = end_of(search(alloc, searcher, case, case.options.way, &mut recorder));
    let calls = recorder.text();
    write!(output, "{calls}{end}")?;
    for place in case.places(searcher) {
        if !repeats(alloc, searcher, case, *place, calls, end) {
            write!(output, ";differs")?;
        }
    }
    if !agrees_converted(alloc, searcher, case, calls, end) {
        write!(output, ";differs")?;
    }
    writeln!(output)
}

// Whether the search of a case that converts a byte as it reads makes the calls of the search of
// the converted input, and ends so.
fn agrees_converted(
    alloc: Global,
    searcher: &mut Searcher,
    case: &mut Case,
    calls: &str,
    end: &str,
) -> bool {
    let Some(byte) = case.converted_byte(searcher) else {
        return true;
    };
    case.replace(byte, searcher.line_terminator().as_byte());
    searcher.set_binary_detection(BinaryDetection::none());
    let mut recorder = Recorder::new(alloc, None, None);
    let ended = search(alloc, searcher, case, case.options.way, &mut recorder);
    end_of(ended) == end && are_of_view(calls, recorder.text())
}

// Whether calls that tell of a binary byte are the others of the converted input: all the same but
// for `binary_data` and the offset in `finish`.
fn are_of_view(calls: &str, others: &str) -> bool {
    let mut others = others.split(';');
    for call in calls.split(';') {
        if !call.starts_with("binary ") && !is_same(call, others.next()) {
            return false;
        }
    }
    others.next().is_none()
}

// Whether a call is the other but for the offset in `finish`.
fn is_same(call: &str, other: Option<&str>) -> bool {
    let Some(other) = other else {
        return false;
    };
    match (call.rsplit_once(' '), other.rsplit_once(' ')) {
        (Some((count, _)), Some((other, "-"))) if count.starts_with("finish ") => count == other,
        _ => call == other,
    }
}

// Whether the search of a case makes the same calls at a place and ends so, plain or not. Under
// `multi_line` that can be a search in the other mode, so it is only made again as it was.
fn repeats(
    alloc: Global,
    searcher: &mut Searcher,
    case: &Case,
    place: Place,
    calls: &str,
    end: &str,
) -> bool {
    for plain in [false, true] {
        let is_repeated = plain == case.options.way.plain || !searcher.multi_line();
        if is_repeated && !has_calls(alloc, searcher, case, Way { plain, place }, calls, end) {
            return false;
        }
    }
    true
}

// Whether it does in one way.
fn has_calls(
    alloc: Global,
    searcher: &mut Searcher,
    case: &Case,
    way: Way,
    calls: &str,
    end: &str,
) -> bool {
    let mut recorder = Recorder::new(alloc, case.options.false_at, case.options.fail_at);
    let ended = search(alloc, searcher, case, way, &mut recorder);
    end_of(ended) == end && recorder.text() == calls
}

// Writes the debug forms of the case's searcher and of its clone.
fn write_forms<W: io::Write>(alloc: Global, case: &Case, output: &mut W) -> io::Result<()> {
    match forms(alloc, case) {
        Ok(forms) => writeln!(output, "{forms};ok"),
        Err(_) => writeln!(output, "err memory"),
    }
}

// The debug forms of the case's searcher and of its clone.
fn forms(alloc: Global, case: &Case) -> Result<String, SearchError> {
    let searcher = build(alloc, case)?;
    let copy = searcher.clone()?;
    Ok(format!(in alloc; "{searcher:?};{copy:?}")?)
}

// The searcher of a case.
fn build(alloc: Global, case: &Case) -> Result<Searcher, ConfigError> {
    case.options.settings.build(alloc)
}

// Why a line is no case that can be run.
fn case_fault(error: CaseError) -> &'static str {
    match error {
        CaseError::Malformed => "err case",
        CaseError::UnknownEncoding => "err encoding",
        CaseError::OutOfMemory => "err memory",
    }
}

// How a search ended.
fn end_of(ended: Result<(), SearchError>) -> &'static str {
    match ended {
        Ok(()) => "ok",
        Err(error) => search_fault(&error),
    }
}

// Why a search failed.
fn search_fault(error: &SearchError) -> &'static str {
    match error {
        SearchError::Message(text) if text.as_str() == RECORDER_MESSAGE => "err sink",
        SearchError::Message(_) => "err matcher",
        SearchError::Io(error) => io_fault(error.kind()),
        SearchError::Config(ConfigError::SearchUnavailable) => "err unavailable",
        SearchError::Config(ConfigError::MismatchedLineTerminators { .. }) => "err mismatch",
        SearchError::Config(ConfigError::Memory) => "err memory",
        SearchError::Config(_) => "err encoding",
    }
}

// Why a search failed that ended in an error of this kind. The error of a reader has another kind
// than these.
fn io_fault(kind: io::ErrorKind) -> &'static str {
    match kind {
        io::ErrorKind::Other => "err heap",
        io::ErrorKind::InvalidData => "err offset",
        io::ErrorKind::OutOfMemory => "err memory",
        _ => "err read",
    }
}

// Searches with the matcher of the case.
fn search(
    alloc: Global,
    searcher: &mut Searcher,
    case: &Case,
    way: Way,
    recorder: &mut Recorder,
) -> Result<(), SearchError> {
    match case.options.pattern {
        Pattern::Literal => {
            let matcher = literal(alloc, &case.literal)?;
            search_literal(matcher, searcher, case, way, recorder)
        }
        Pattern::Candidates => {
            let matcher = CandidatesOnly(literal(alloc, &case.literal)?);
            search_named(matcher, searcher, case, way.place, recorder)
        }
        Pattern::Either => {
            let first = literal(alloc, &case.literal)?;
            let second = literal(alloc, &case.other)?;
            search_with(
                Either { first, second },
                searcher,
                case,
                way.place,
                recorder,
            )
        }
        Pattern::Regex => search_regex(alloc, searcher, case, way, recorder),
        Pattern::End => search_by(ConfirmsEnd, searcher, case, way, recorder),
        _ => search_bare(searcher, case, way.place, recorder),
    }
}

// Searches with a matcher that has no literal, names no terminator and has no byte set. It is its
// own `Plain`.
fn search_bare(
    searcher: &mut Searcher,
    case: &Case,
    place: Place,
    recorder: &mut Recorder,
) -> Result<(), SearchError> {
    match case.options.pattern {
        Pattern::Empty => search_with(Empty, searcher, case, place, recorder),
        Pattern::AtEnd => search_with(AtEnd, searcher, case, place, recorder),
        _ => search_with(Failing, searcher, case, place, recorder),
    }
}

// Searches with the matcher of the case's regular expression.
fn search_regex(
    alloc: Global,
    searcher: &mut Searcher,
    case: &Case,
    way: Way,
    recorder: &mut Recorder,
) -> Result<(), SearchError> {
    let regex = expression(alloc, case)?;
    let matcher = regex.matcher(alloc).map_err(no_memory)?;
    search_by(matcher, searcher, case, way, recorder)
}

// The regular expression of a case. An error is a message.
fn expression(alloc: Global, case: &Case) -> Result<Regex, SearchError> {
    let Ok(text) = str::from_utf8(&case.literal) else {
        return Err(SearchError::error_message(alloc, "the pattern isn't UTF-8"));
    };
    match case.options.expression.build(alloc, text) {
        Ok(regex) => Ok(regex),
        Err(error) => Err(SearchError::error_message(alloc, error)),
    }
}

// The matcher of a literal.
fn literal(alloc: Global, literal: &[u8]) -> Result<LiteralMatcher<'static>, SearchError> {
    LiteralMatcher::new(alloc, literal).map_err(no_memory)
}

// The error of a search that found no memory.
fn no_memory(error: AllocError) -> SearchError {
    SearchError::Io(io::Error::from(error))
}

// Searches with the matcher of a literal, plain or not, which may name a terminator.
fn search_literal(
    matcher: LiteralMatcher<'static>,
    searcher: &mut Searcher,
    case: &Case,
    way: Way,
    recorder: &mut Recorder,
) -> Result<(), SearchError> {
    if way.plain {
        search_named(Plain(matcher), searcher, case, way.place, recorder)
    } else {
        search_named(matcher, searcher, case, way.place, recorder)
    }
}

// Searches with a matcher, plain or not.
fn search_by<M: Matcher + Drop>(
    matcher: M,
    searcher: &mut Searcher,
    case: &Case,
    way: Way,
    recorder: &mut Recorder,
) -> Result<(), SearchError> {
    if way.plain {
        search_with(Plain(matcher), searcher, case, way.place, recorder)
    } else {
        search_with(matcher, searcher, case, way.place, recorder)
    }
}

// Searches with a matcher, which names the terminator of the case, if there is one.
fn search_named<M: Matcher + Drop>(
    matcher: M,
    searcher: &mut Searcher,
    case: &Case,
    place: Place,
    recorder: &mut Recorder,
) -> Result<(), SearchError> {
    match case.options.names {
        Some(terminator) => {
            let matcher = Naming {
                matcher,
                terminator,
            };
            search_with(matcher, searcher, case, place, recorder)
        }
        None => search_with(matcher, searcher, case, place, recorder),
    }
}

// Searches the slice or the reader of the case.
fn search_with<M: Matcher + Drop>(
    matcher: M,
    searcher: &mut Searcher,
    case: &Case,
    place: Place,
    recorder: &mut Recorder,
) -> Result<(), SearchError> {
    let input = case.input.as_slice();
    match place.mode {
        Mode::Slice => searcher.search_slice(matcher, input, recorder),
        Mode::Reader => {
            let fault = case
                .options
                .error_at
                .map(|read| (read, io::Error::from(io::ErrorKind::TimedOut)));
            let mut reader = Pieces::new(input, place.piece, fault);
            searcher.search_reader(matcher, &mut reader, recorder)
        }
    }
}
