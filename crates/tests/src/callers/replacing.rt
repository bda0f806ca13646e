//! All matches in some bytes: found, and replaced; and the groups of a match.
use grep_regex::Regex;
use grep_replace::{CapturesAt, Template, find_parts, replace_all, replace_lines};
use grep_searcher::{FindAt, LineTerminator, SearchError};
use std::alloc::Global;
use uses::{groups_of_each, groups_of_match, redact, texts_of_group};

// A pattern, some bytes, where to begin, a limit, and where the parts start and end.
const PART_ROWS: &[(&str, &[u8], usize, usize, &[(usize, usize)])] = &[
    ("b*", b"abbc", 0, 5, &[(0, 0), (1, 3), (4, 4)]),
    ("b*", b"abbc", 0, 4, &[(0, 0), (1, 3)]),
    (r"\bb", b"ab b", 1, 4, &[(2, 3)]),
    ("b+", b"abb", 0, 2, &[]),
    ("", b"", 0, 1, &[(0, 0)]),
];

// A pattern, a template, some bytes, and these with each match replaced.
const ALL_ROWS: &[(&str, &[u8], &[u8], &[u8])] = &[
    ("b*", b"-", b"abc", b"-a-c-"),
    ("b*", b"-", b"", b"-"),
    ("$", b";", b"a\r\nb\r\n", b"a\r\nb\r\n;"),
    (r"(\w)=(\w)", b"$2=$1", b"a=b, c=d\n", b"b=a, d=c\n"),
    (r"(?<first>a)|b", b"<$first>", b"abc", b"<a><>c"),
    (r"b\nc", b"", b"ab\ncd", b"ad"),
    ("x", b"y", b"abc", b"abc"),
];

// A pattern, a template, a terminator, some bytes, and these with each match of each line replaced.
const LINE_ROWS: &[(&str, &[u8], LineTerminator, &[u8], &[u8])] = &[
    (
        "$",
        b";",
        LineTerminator::Crlf,
        b"a\r\nb\r\n",
        b"a;\r\nb;\r\n",
    ),
    (
        r"\s",
        b"_",
        LineTerminator::Crlf,
        b"a b\nc\r\n",
        b"a_b_c\r\n",
    ),
    ("$", b";", LineTerminator::Byte(b'\n'), b"a\nb", b"a;\nb;"),
    (
        "b*",
        b"-",
        LineTerminator::Byte(b'\n'),
        b"ab\n\nb",
        b"-a-\n-\n-",
    ),
    (
        r"(\w)(\w)",
        b"$2$1",
        LineTerminator::Byte(b'\n'),
        b"ab\r\ncd\r\n",
        b"ba\r\ndc\r\n",
    ),
    (
        "^a",
        b"b",
        LineTerminator::Byte(b'\0'),
        b"aa\0a\na",
        b"ba\0b\na",
    ),
];

// Whether a matcher's parts of some bytes are these.
fn finds<M: FindAt>(
    alloc: Global,
    matcher: &M,
    bytes: &[u8],
    start: usize,
    limit: usize,
    ranges: &[(usize, usize)],
) -> bool {
    let mut parts = Vec::new(alloc);
    if start > bytes.len() || find_parts(&mut parts, matcher, bytes, start, limit).is_err() {
        return false;
    }
    let found = parts.iter().map(|part| (part.start(), part.end()));
    found.eq(ranges.iter().copied())
}

fn finds_parts(
    alloc: Global,
    row: &(&str, &[u8], usize, usize, &[(usize, usize)]),
) -> Result<bool, SearchError> {
    let regex = Regex::new(alloc, row.0)?;
    let matcher = regex.matcher(alloc)?;
    Ok(finds(alloc, &matcher, row.1, row.2, row.3, row.4))
}

#[test]
fn parts_are_found(rt: HostRuntime) -> Result<(), usize> {
    for (index, row) in PART_ROWS.iter().enumerate() {
        if !matches!(finds_parts(rt.alloc(), row), Ok(true)) {
            return Err(index);
        }
    }
    Ok(())
}

// Whether some bytes with each match replaced are these.
fn makes<M: CapturesAt>(
    alloc: Global,
    matcher: &M,
    template: &Template,
    bytes: &[u8],
    replaced: &[u8],
) -> bool {
    let mut text = Vec::new(alloc);
    replace_all(&mut text, matcher, template, bytes).is_ok() && text.as_slice() == replaced
}

fn replaces(alloc: Global, row: &(&str, &[u8], &[u8], &[u8])) -> Result<bool, SearchError> {
    let regex = Regex::new(alloc, row.0)?;
    let template = Template::new(alloc, row.1, &regex.group_names(alloc)?)?;
    let matcher = regex.matcher(alloc)?;
    Ok(makes(alloc, &matcher, &template, row.2, row.3))
}

#[test]
fn all_matches_are_replaced(rt: HostRuntime) -> Result<(), usize> {
    for (index, row) in ALL_ROWS.iter().enumerate() {
        if !matches!(replaces(rt.alloc(), row), Ok(true)) {
            return Err(index);
        }
    }
    Ok(())
}

// Whether some bytes with each match of each line replaced are these.
fn makes_lines<M: CapturesAt>(
    alloc: Global,
    matcher: &M,
    template: &Template,
    terminator: LineTerminator,
    bytes: &[u8],
    replaced: &[u8],
) -> bool {
    let mut text = Vec::new(alloc);
    replace_lines(&mut text, matcher, template, bytes, terminator).is_ok()
        && text.as_slice() == replaced
}

fn replaces_lines(
    alloc: Global,
    row: &(&str, &[u8], LineTerminator, &[u8], &[u8]),
) -> Result<bool, SearchError> {
    let regex = Regex::new(alloc, row.0)?;
    let template = Template::new(alloc, row.1, &regex.group_names(alloc)?)?;
    let matcher = regex.matcher(alloc)?;
    Ok(makes_lines(alloc, &matcher, &template, row.2, row.3, row.4))
}

#[test]
fn matches_of_each_line_are_replaced(rt: HostRuntime) -> Result<(), usize> {
    for (index, row) in LINE_ROWS.iter().enumerate() {
        if !matches!(replaces_lines(rt.alloc(), row), Ok(true)) {
            return Err(index);
        }
    }
    Ok(())
}

fn hides(alloc: Global) -> Result<bool, SearchError> {
    let regex = Regex::new(alloc, r"\d+")?;
    let matcher = regex.matcher(alloc)?;
    let redacted = redact(alloc, &matcher, b"call 12-345")?;
    Ok(redacted.as_slice() == b"call ***-***".as_slice())
}

#[test]
fn matches_are_hidden(rt: HostRuntime) {
    assert!(rt; matches!(hides(rt.alloc()), Ok(true)));
}

// Whether these are the texts of group 2: `01`, and nothing where the group takes no part.
fn are_texts(texts: &[Vec<u8>]) -> bool {
    match texts {
        [day, none] => day.as_slice() == b"01".as_slice() && none.is_empty(),
        _ => false,
    }
}

fn finds_texts(alloc: Global) -> Result<bool, SearchError> {
    let regex = Regex::for_lines(alloc, r"(\d+)-(\d+)?")?;
    let matcher = regex.matcher(alloc)?;
    let texts = texts_of_group(alloc, &matcher, b"on 12-01\nnever\n12-\n", 2)?;
    Ok(are_texts(&texts))
}

#[test]
fn texts_of_groups_are_found(rt: HostRuntime) {
    assert!(rt; matches!(finds_texts(rt.alloc()), Ok(true)));
}

// Whether group 1 of the first match from 2 on is where it has to be.
fn has_group<M: CapturesAt>(alloc: Global, matcher: &M) -> bool {
    let line = b"a=b, c=d".as_slice();
    match matcher.find_at(line, 2) {
        Ok(Some(found)) => match groups_of_match(alloc, matcher, line, found) {
            Ok(groups) => match groups.get(1) {
                Some(Some(group)) => group.start() == 5 && group.end() == 6,
                _ => false,
            },
            Err(_) => false,
        },
        _ => false,
    }
}

// Whether there are two matches, each with a group 0 and a group 1.
fn have_groups<M: CapturesAt>(alloc: Global, matcher: &M) -> bool {
    match groups_of_each(alloc, matcher, b"a=b, c=d") {
        Ok(each) => match each.as_slice() {
            [first, second] => first.len() == 2 && second.len() == 2,
            _ => false,
        },
        Err(_) => false,
    }
}

fn finds_groups(alloc: Global) -> Result<bool, SearchError> {
    let regex = Regex::new(alloc, r"(\w)=\w")?;
    let matcher = regex.matcher(alloc)?;
    Ok(has_group(alloc, &matcher) && have_groups(alloc, &matcher))
}

#[test]
fn groups_of_matches_are_found(rt: HostRuntime) {
    assert!(rt; matches!(finds_groups(rt.alloc()), Ok(true)));
}
