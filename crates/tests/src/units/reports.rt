//! Reports that are made by hand, and the texts of faults.
use crate::texts::{debugs, displays, is_shown};
use grep_matcher::LineTerminator;
use grep_report::{
    BinaryDetection, ConfigError, MmapChoice, SearchError, SinkContext, SinkContextKind, SinkError,
    SinkFinish, SinkMatch,
};
use std::alloc::Global;
use std::io;

const BUFFER: &[u8] = b"xx\nab\ncd";

// Whether a report of a match in the buffer has these parts.
fn has_match(found: &SinkMatch<'_>) -> bool {
    found.line_number() == Some(4)
        && found.absolute_byte_offset() == 70
        && found.buffer() == BUFFER
        && found.bytes() == b"ab\ncd".as_slice()
        && found.bytes_range_in_buffer() == (3..8)
}

// Whether the lines of a match are two.
fn has_lines(found: &SinkMatch<'_>) -> bool {
    let mut lines = found.lines();
    lines.next() == Some(b"ab\n".as_slice())
        && lines.next() == Some(b"cd".as_slice())
        && lines.next().is_none()
}

#[test]
fn matches(rt: HostRuntime) {
    let found = SinkMatch::new(b'\n', Some(4), 70, BUFFER, 3..8);
    let whole = SinkMatch::within(b'\n', Some(4), 70, BUFFER, 3..8);
    assert!(rt; has_lines(&found) && matches!(found.clone(), Ok(copy) if has_match(&copy)));
    assert!(rt; !found.is_whole() && whole.is_whole() && has_match(&whole));
}

// Whether a report of a line has these parts.
fn has_line(line: &SinkContext<'_>) -> bool {
    *line.kind() == SinkContextKind::After
        && line.line_number().is_none()
        && line.absolute_byte_offset() == 70
        && line.bytes() == b"ab\n".as_slice()
}

#[test]
fn contexts(rt: HostRuntime) {
    let line = SinkContext::new(SinkContextKind::After, None, 70, b"ab\n");
    assert!(rt; matches!(line.clone(), Ok(copy) if has_line(&copy)));
}

#[test]
fn kinds(rt: HostRuntime) {
    let alloc = rt.alloc();
    assert!(rt;
        debugs(alloc, &SinkContextKind::Before, "Before")
            && debugs(alloc, &SinkContextKind::After, "After")
            && debugs(alloc, &SinkContextKind::Other, "Other")
    );
}

// Whether the end of a search has these parts.
fn has_end(finish: &SinkFinish) -> bool {
    finish.byte_count() == 9 && finish.binary_byte_offset() == Some(4)
}

#[test]
fn ends(rt: HostRuntime) {
    let finish = SinkFinish::new(9, Some(4));
    let form = "SinkFinish { byte_count: 9, binary_byte_offset: Some(4) }";
    assert!(rt; has_end(&finish) && debugs(rt.alloc(), &finish, form));
}

#[test]
fn maps(rt: HostRuntime) {
    assert!(rt; MmapChoice::default() == MmapChoice::never());
}

// Whether a binary detection ends a search at this byte, and replaces that one.
fn heeds(detection: BinaryDetection, quit: Option<u8>, convert: Option<u8>) -> bool {
    detection.quit_byte() == quit && detection.convert_byte() == convert
}

#[test]
fn binary_bytes(rt: HostRuntime) {
    assert!(rt;
        heeds(BinaryDetection::none(), None, None)
            && heeds(BinaryDetection::quit(0), Some(0), None)
            && heeds(BinaryDetection::convert(255), None, Some(255))
            && heeds(BinaryDetection::default(), None, None)
    );
}

// Whether the detections of a byte are those of the variants, and no other.
fn is_detected(quit: BinaryDetection, convert: BinaryDetection) -> bool {
    quit == BinaryDetection::Quit(7)
        && convert == BinaryDetection::Convert(7)
        && quit != convert
        && quit != BinaryDetection::quit(8)
}

#[test]
fn binary_detections(rt: HostRuntime) {
    let quit = BinaryDetection::quit(7);
    assert!(rt;
        is_detected(quit, BinaryDetection::convert(7))
            && BinaryDetection::none() == BinaryDetection::default()
            && debugs(rt.alloc(), &quit, "Quit(7)")
    );
}

// A matcher that names the byte `z`, and a searcher whose lines end at both.
fn mismatch() -> ConfigError {
    ConfigError::MismatchedLineTerminators {
        matcher: LineTerminator::Byte(b'z'),
        searcher: LineTerminator::Crlf,
    }
}

const MISMATCH_TEXT: &str =
    "the matcher's line terminator is Byte(122), and the searcher's is Crlf";

const UNAVAILABLE_TEXT: &str = "search is unavailable: the heap limit is 0 bytes";

#[test]
fn config_errors(rt: HostRuntime) {
    let alloc = rt.alloc();
    assert!(rt;
        is_shown(alloc, ConfigError::SearchUnavailable, UNAVAILABLE_TEXT)
            && is_shown(alloc, mismatch(), MISMATCH_TEXT)
            && is_shown(alloc, ConfigError::Memory, "out of memory")
    );
}

// Whether an error has these forms.
fn has_forms(alloc: Global, error: SearchError, display: &str, debug: &str) -> bool {
    displays(alloc, &error, display) && debugs(alloc, &error, debug)
}

const MISMATCH_FORM: &str =
    "Config(MismatchedLineTerminators { matcher: Byte(122), searcher: Crlf })";

const CUT: &str = "the line was cut";

const CUT_FORM: &str = "Io(Custom { kind: Other, error: \"the line was cut\" })";

// The error of a search whose reader failed with this text.
fn cut(alloc: Global) -> SearchError {
    SearchError::error_io(alloc, io::Error::new(io::ErrorKind::Other, CUT))
}

// A text of 300 bytes.
const LONG: &str =
    "the pattern has an assertion that this engine cannot decide, which may come of a \
    quoted text, of a class of characters, or of a repetition that has no bound: say which of them it \
    is, and where in the pattern it stands, or take another engine, which decides it at a cost that \
    grows with the text......";

// Whether no text of a message is cut.
fn keeps_texts(alloc: Global) -> bool {
    LONG.len() == 300 && displays(alloc, &SearchError::error_message(alloc, LONG), LONG)
}

#[test]
fn long_messages(rt: HostRuntime) {
    assert!(rt; keeps_texts(rt.alloc()));
}

#[test]
fn search_errors(rt: HostRuntime) {
    let alloc = rt.alloc();
    assert!(rt;
        has_forms(
            alloc,
            SearchError::error_config(alloc, mismatch()),
            MISMATCH_TEXT,
            MISMATCH_FORM
        ) && has_forms(alloc, cut(alloc), CUT, CUT_FORM)
            && has_forms(
                alloc,
                SearchError::error_message(alloc, "oops"),
                "oops",
                "Message(\"oops\")"
            )
    );
}

// Whether an error of std is of the kind `Other` and has this text.
fn is_other(alloc: Global, error: io::Error, text: &str) -> bool {
    error.kind() == io::ErrorKind::Other && displays(alloc, &error, text)
}

#[test]
fn io_errors(rt: HostRuntime) {
    let alloc = rt.alloc();
    let refused = ConfigError::SearchUnavailable;
    assert!(rt;
        is_other(alloc, io::Error::error_message(alloc, "oops"), "oops")
            && is_other(
                alloc,
                io::Error::error_config(alloc, refused),
                UNAVAILABLE_TEXT
            )
    );
    let memory = io::Error::error_config(alloc, ConfigError::Memory);
    assert!(rt; memory.kind() == io::ErrorKind::OutOfMemory);
}
