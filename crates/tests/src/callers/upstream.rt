//! The examples of upstream's pages, each on values worked by hand.
use examples::{
    all_matches, count_in_folder, counts, first_match, first_matches, in_encoding, json_messages,
    longest_match, match_count, matches_any, matches_word, named_group, replaced_lines,
    search_stdin, simplegrep, standard_lines, swapped, write_matches,
};
use grep_regex::Regex;
use grep_searcher::SearchError;
use std::alloc::Global;
use std::fmt::Display;
use std::path::PathBuf;
use std::{env, fs, io, process, str};

const GARDEN: &[u8] = b"\
Monday: water the ferns.
Tuesday: buy seeds, and a can.
Friday: water the ferns again,
and the seeds too.
";

// Whether an error is displayed with this text in it.
fn has_text<E: Display + Drop>(alloc: Global, error: E, part: &str) -> bool {
    match format!(in alloc; "{error}") {
        Ok(text) => text.as_str().contains(part),
        Err(_) => false,
    }
}

// Whether a call failed with an error of this text.
fn is_refused<T: Drop, E: Display + Drop>(alloc: Global, ended: Result<T, E>, part: &str) -> bool {
    match ended {
        Ok(_) => false,
        Err(error) => has_text(alloc, error, part),
    }
}

// Whether a line has this number, and this first match.
fn is_line(line: &(u64, String), number: u64, text: &str) -> bool {
    line.0 == number && line.1.as_str() == text
}

fn finds_first(alloc: Global) -> io::Result<bool> {
    let matches = first_matches(alloc, r"water the \w+|can\.$", GARDEN)?;
    Ok(match matches.as_slice() {
        [first, second, third] => is_line(first, 1, "water the ferns")
            && is_line(second, 2, "can.")
            && is_line(third, 3, "water the ferns"),
        _ => false,
    })
}

#[test]
fn first_matches_are_found(rt: HostRuntime) {
    assert!(rt; matches!(finds_first(rt.alloc()), Ok(true)));
}

#[test]
fn wrong_patterns_are_refused(rt: HostRuntime) {
    let alloc = rt.alloc();
    assert!(rt;
        is_refused(alloc, first_matches(alloc, "a(", GARDEN), "unclosed group")
            && is_refused(alloc, first_match(alloc, "a(", GARDEN), "a(: ")
            && is_refused(alloc, standard_lines(alloc, "[z-a]", GARDEN), "[z-a]: ")
    );
}

// Whether a reader's lines are written.
fn writes_lines(alloc: Global) -> Result<bool, SearchError> {
    let mut reader: &[u8] = GARDEN;
    let mut writer = Vec::new(alloc);
    write_matches(alloc, "seeds", &mut reader, &mut writer)?;
    Ok(writer.as_slice() == b"2:Tuesday: buy seeds, and a can.\n4:and the seeds too.\n".as_slice())
}

#[test]
fn readers_are_searched(rt: HostRuntime) {
    assert!(rt; matches!(writes_lines(rt.alloc()), Ok(true)) && search_stdin(&rt, "x").is_ok());
}

#[test]
fn sinks_of_ones_own(rt: HostRuntime) {
    let alloc = rt.alloc();
    assert!(rt;
        matches!(longest_match(alloc, b"seeds", GARDEN), Ok(31))
            && matches!(longest_match(alloc, b"cat", GARDEN), Ok(0))
    );
}

fn counts_lines(alloc: Global) -> bool {
    matches!(counts(alloc, b"water", GARDEN), Ok((2, 2)))
}

fn matches_patterns(alloc: Global) -> bool {
    matches!(matches_word(alloc, "A+B", b"an a+b c"), Ok(true))
        && matches!(matches_word(alloc, "A+B", b"aab"), Ok(false))
        && matches!(matches_any(alloc, &["^x", r"\d+$"], b"year 12"), Ok(true))
        && matches!(matches_any(alloc, &["^x", r"\d+$"], b"12 x"), Ok(false))
        && is_refused(alloc, matches_any(alloc, &["x", "(y"], b""), "pattern 1: ")
}

#[test]
fn patterns_and_settings(rt: HostRuntime) {
    assert!(rt; counts_lines(rt.alloc()) && matches_patterns(rt.alloc()));
}

fn finds_parts(alloc: Global) -> Result<bool, SearchError> {
    let whole = first_match(alloc, "b+", b"abbc")?;
    let swapped = swapped(alloc, r"(\w+), (\w+)", b"Holmes, Sherlock: 1")?;
    Ok(whole == Some(b"bb".as_slice()) && swapped.as_deref() == Some(b"Sherlock Holmes".as_slice()))
}

#[test]
fn parts_of_lines(rt: HostRuntime) {
    assert!(rt; matches!(finds_parts(rt.alloc()), Ok(true)));
}

// Where the matches of a pattern in a line begin and end.
fn finds_all(alloc: Global) -> Result<bool, SearchError> {
    let regex = Regex::new(alloc, "b*|c")?;
    let matcher = regex.matcher(alloc)?;
    let matches = all_matches(alloc, &matcher, b"abbc")?;
    Ok(match matches.as_slice() {
        [first, second, third] => (first.start(), first.end()) == (0, 0)
            && (second.start(), second.end()) == (1, 3)
            && (third.start(), third.end()) == (4, 4),
        _ => false,
    })
}

fn finds_named(alloc: Global) -> Result<bool, SearchError> {
    let pattern = r"(\d+)-(?<month>\d+)|(?<word>\w+)";
    let month = named_group(alloc, pattern, "month", b"(2026-12)")?;
    let word = named_group(alloc, pattern, "word", b"(2026-12)")?;
    let year = named_group(alloc, pattern, "year", b"(2026-12)")?;
    Ok(month == Some(b"12".as_slice()) && word.is_none() && year.is_none())
}

#[test]
fn all_matches_and_named_groups(rt: HostRuntime) {
    let alloc = rt.alloc();
    assert!(rt; matches!(finds_all(alloc), Ok(true)) && matches!(finds_named(alloc), Ok(true)));
}

fn is_written(written: Result<Vec<u8>, SearchError>, text: &[u8]) -> bool {
    match written {
        Ok(bytes) => bytes.as_slice() == text,
        Err(_) => false,
    }
}

const LINES: &[u8] = b"1:Monday: water the ferns.\n3:Friday: water the ferns again,\n";

const MESSAGES: &[u8] = b"\
{\"type\":\"begin\",\"data\":{\"path\":{\"text\":\"notes\"}}}
{\"type\":\"match\",\"data\":{\"path\":{\"text\":\"notes\"},\
\"lines\":{\"text\":\"Friday: water the ferns again,\\n\"},\
\"line_number\":3,\"absolute_offset\":56,\
\"submatches\":[{\"match\":{\"text\":\"again\"},\"start\":24,\"end\":29}]}}
{\"type\":\"context\",";

fn writes_messages(alloc: Global) -> bool {
    match json_messages(alloc, "again", "notes", GARDEN) {
        Ok(bytes) => bytes.starts_with(MESSAGES),
        Err(_) => false,
    }
}

#[test]
fn printers(rt: HostRuntime) {
    let alloc = rt.alloc();
    assert!(rt;
        is_written(standard_lines(alloc, "ferns", GARDEN), LINES)
            && is_written(match_count(alloc, "ferns", "notes", GARDEN), b"notes:2\n")
            && writes_messages(alloc)
    );
}

#[test]
fn replaced_matches(rt: HostRuntime) {
    let alloc = rt.alloc();
    let lines = replaced_lines(alloc, "([a-z])=([a-z])", b"$2=$1", b"x\na=b, c=d\n");
    assert!(rt; is_written(lines, b"b=a, d=c\n"));
}

// A path of this process alone, in the directory for temporary files.
fn temporary_path(rt: &HostRuntime) -> io::Result<PathBuf> {
    let alloc = rt.alloc();
    let name = format!(in alloc; "examples-{}", process::id(rt.process()))?;
    Ok(env::temp_dir(rt)?.join(alloc, name.as_str())?)
}

// Whether the files of a folder that globs choose, and how many lines of each have a literal, are
// these: this one file with this count.
fn counts_file(rt: &HostRuntime, globs: &[&str], folder: &str, file: &str) -> bool {
    match count_in_folder(rt, b"two", globs, folder) {
        Ok(counts) => match counts.as_slice() {
            [(path, count)] => path.as_str() == file && *count == 1,
            _ => false,
        },
        Err(_) => false,
    }
}

// Whether the lines of a file are found in its folder, and counted.
fn searches_folder(rt: &HostRuntime, folder: &str) -> Result<bool, SearchError> {
    let file = format!(in rt.alloc(); "{folder}/notes")?;
    fs::write(rt, file.as_str(), b"one\na two\n")?;
    let expected = format!(in rt.alloc(); "{file}:a two\n")?;
    let mut writer = Vec::new(rt.alloc());
    simplegrep(rt, "t.o$", &[folder, "no such file"], &mut writer)?;
    let count = in_encoding(rt, "utf8", b"two", file.as_str())?;
    let is_counted = counts_file(rt, &[], folder, file.as_str())
        && counts_file(rt, &["n*"], folder, file.as_str())
        && !counts_file(rt, &["*.md"], folder, file.as_str());
    fs::remove_file(rt, file.as_str())?;
    Ok(writer.as_slice() == expected.as_bytes() && count == 1 && is_counted)
}

fn searches_files(rt: &HostRuntime) -> Result<bool, SearchError> {
    let path = temporary_path(rt)?;
    let Some(folder) = path.to_str() else {
        return Ok(false);
    };
    fs::create_dir(rt, folder)?;
    let is_right = searches_folder(rt, folder)?;
    fs::remove_dir(rt, folder)?;
    Ok(is_right)
}

#[test]
fn files_are_searched(rt: HostRuntime) {
    assert!(rt; matches!(searches_files(&rt), Ok(true)));
}

#[test]
fn wrong_files_and_labels_are_refused(rt: HostRuntime) {
    let alloc = rt.alloc();
    let mut writer = Vec::new(alloc);
    assert!(rt;
        is_refused(alloc, in_encoding(&rt, "utf-99", b"a", "b"), "utf-99")
            && is_refused(
                alloc,
                in_encoding(&rt, "utf8", b"a", "no such file"),
                "no such file: "
            )
            && is_refused(alloc, simplegrep(&rt, "a(", &[], &mut writer), "a(: ")
    );
}
