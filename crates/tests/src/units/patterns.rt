//! The literal matcher, sets of bytes, ranges and terminators.
ghost use Rattle.std.specs.Prelude.{◌<◌};

use crate::texts::debugs;
use grep_matcher::{ByteSet, LineTerminator, LiteralMatcher, Match, Matcher};
use std::alloc::Global;

// A literal, a haystack, and where the first match starts and ends.
const FIND_ROWS: &[(&[u8], &[u8], Option<(usize, usize)>)] = &[
    (b"ab", b"xabab", Some((1, 3))),
    (b"ab", b"aab", Some((1, 3))),
    (b"ab", b"ab", Some((0, 2))),
    (b"ab", b"a", None),
    (b"ab", b"ba", None),
    (b"ab", b"", None),
    (b"", b"", Some((0, 0))),
    (b"", b"ab", Some((0, 0))),
    (b"\0\xff", b"\xff\0\xff", Some((1, 3))),
    (b"a\n", b"b\na\n", Some((2, 4))),
];

// Whether a matcher finds what a row says.
fn finds<M: Matcher>(matcher: &M, haystack: &[u8], range: Option<(usize, usize)>) -> bool {
    match (matcher.find(haystack), range) {
        (Ok(Some(found)), Some((start, end))) => {
            found.start() == start && found.end() == end && ends(matcher, haystack, Some(end))
        }
        (Ok(None), None) => ends(matcher, haystack, None),
        _ => false,
    }
}

// Whether the shortest match that it finds ends there.
fn ends<M: Matcher>(matcher: &M, haystack: &[u8], end: Option<usize>) -> bool {
    let is_shortest = match matcher.shortest_match(haystack) {
        Ok(shortest) => shortest == end,
        Err(_) => false,
    };
    let is_known = match matcher.is_match(haystack) {
        Ok(is_match) => is_match == end.is_some(),
        Err(_) => false,
    };
    is_shortest && is_known
}

// Matches every haystack at its start, which `shortest_match` says and `find` fails to say.
#[derive(Drop)]
struct Shortest;

impl Matcher for Shortest {
    type Error = &'static str;

    ghost use Rattle.std.specs.Prelude.{Some};
    ghost use Rattle.grep_matcher.specs.FindResults.{plain};

    ghost facts = { λ _. record {
      meaning = plain (λ _. Some (0, 0));
      fails = λ _ _. Unit {0};
      is_lawful = λ _. Unit {0};
    } };

    fn find(&self, _haystack: &[u8]) -> Result<Option<Match>, &'static str> {
        Err("find was asked")
    }

    fn shortest_match(&self, haystack: &[u8]) -> Result<Option<usize>, &'static str> {
        Ok(Some(haystack.len()))
    }

    fn line_terminator(&self) -> Option<LineTerminator> {
        None
    }

    fn non_matching_bytes(&self) -> Option<&ByteSet> {
        None
    }
}

#[test]
fn the_default_is_match_asks_shortest_match(rt: HostRuntime) {
    assert!(rt; matches!(Shortest.is_match(b"a"), Ok(true)));
}

// Whether the byte set of a literal's matcher has each byte that the literal lacks, and no other.
fn lacks(matcher: &LiteralMatcher<'_>, literal: &[u8]) -> bool {
    let Some(absent) = matcher.non_matching_bytes() else {
        return false;
    };
    for byte in 0..=255 {
        if absent.contains(byte) == literal.contains(&byte) {
            return false;
        }
    }
    true
}

// Whether the matcher of a copy of the literal returns what a row says.
fn copies(alloc: Global, literal: &[u8], haystack: &[u8], range: Option<(usize, usize)>) -> bool {
    let Ok(matcher) = LiteralMatcher::new(alloc, literal) else {
        return false;
    };
    finds(&matcher, haystack, range)
        && lacks(&matcher, literal)
        && matcher.line_terminator().is_none()
}

// Whether the matcher of the borrowed literal does.
fn borrows(literal: &[u8], haystack: &[u8], range: Option<(usize, usize)>) -> bool {
    finds(&LiteralMatcher::borrowed(literal), haystack, range)
}

#[test]
fn literals(rt: HostRuntime) -> Result<(), usize> {
    for (index, row) in FIND_ROWS.iter().enumerate() {
        if !copies(rt.alloc(), row.0, row.1, row.2) || !borrows(row.0, row.1, row.2) {
            return Err(index);
        }
    }
    Ok(())
}

// A literal whose bytes are all frequent in text, which is searched for by three of them.
const FREQUENT: &[u8; 6] = b"tea on";

// Bytes among which the literal doesn't occur, and most of it often does.
fn near_misses() -> [u8; 400] {
    let mut haystack = [b'u'; 400];
    for i in 0..400 {
        haystack[i] = b"tea un"[i % 6];
    }
    haystack
}

// Whether the literal is found at a position among them.
fn finds_at(position: usize) -> bool
    requires { position < 395 }
{
    let mut haystack = near_misses();
    for i in 0..6 {
        haystack[position + i] = FREQUENT[i];
    }
    let matcher = LiteralMatcher::borrowed(FREQUENT);
    finds(&matcher, &haystack, Some((position, position + 6)))
}

#[test]
fn near_misses_of_a_literal(rt: HostRuntime) {
    assert!(rt; borrows(FREQUENT, &near_misses(), None));
}

// The error is a position at which the literal isn't found.
#[test]
fn literals_of_frequent_bytes() -> Result<(), usize> {
    for position in 0..395 {
        if !finds_at(position) {
            return Err(position);
        }
    }
    Ok(())
}

// A literal, lines, and the position that its matcher finds in them, with whether it is confirmed.
const CANDIDATE_ROWS: &[(&[u8], &[u8], Option<(usize, bool)>)] = &[
    (b"ab", b"b\nxab\nab\n", Some((3, true))),
    (b"ab", b"ab", Some((0, true))),
    (b"ab", b"a\nb\n", None),
    (b"", b"\n", Some((0, true))),
    (b"a\r", b"b\na\r\n", Some((2, false))),
];

// Whether a matcher finds this in lines.
fn points<M: Matcher>(matcher: &M, lines: &[u8], position: Option<(usize, bool)>) -> bool {
    match matcher.find_candidate_line(lines) {
        Ok(Some(found)) => position == Some((found.position(), found.is_confirmed())),
        Ok(None) => position.is_none(),
        Err(_) => false,
    }
}

// Whether the matcher of a literal does.
fn points_by(literal: &[u8], lines: &[u8], position: Option<(usize, bool)>) -> bool {
    points(&LiteralMatcher::borrowed(literal), lines, position)
}

#[test]
fn candidates() -> Result<(), usize> {
    for (index, row) in CANDIDATE_ROWS.iter().enumerate() {
        if !points_by(row.0, row.1, row.2) {
            return Err(index);
        }
    }
    Ok(())
}

// Whether a byte alone is in a set, or if `has` is false, each byte but that one.
fn splits(set: &ByteSet, byte: u8, has: bool) -> bool {
    for other in 0..=255 {
        if set.contains(other) != (has == (other == byte)) {
            return false;
        }
    }
    true
}

// Whether a byte can be added twice to a set that is copied then, and removed again.
fn adds(byte: u8) -> bool {
    let mut set = ByteSet::empty();
    set.add(byte);
    set.add(byte);
    let Ok(copy) = set.clone() else {
        return false;
    };
    let is_added = splits(&set, byte, true) && splits(&copy, byte, true);
    set.remove(byte);
    is_added && !set.contains(byte)
}

// Whether a byte can be removed twice from the full set, and added again.
fn removes(byte: u8) -> bool {
    let mut rest = ByteSet::full();
    rest.remove(byte);
    rest.remove(byte);
    let is_removed = splits(&rest, byte, false);
    rest.add(byte);
    is_removed && rest.contains(byte)
}

// The error is a byte that isn't added and removed so.
#[test]
fn sets() -> Result<(), u8> {
    for byte in [0, 1, 10, 127, 128, 255] {
        if !adds(byte) || !removes(byte) {
            return Err(byte);
        }
    }
    Ok(())
}

// Whether a range is this one.
fn is_range(range: Match, start: usize, end: usize) -> bool {
    range.start() == start && range.end() == end
}

// Whether a range of three bytes has what it was made of, also moved and with another end.
fn is_moved() -> bool {
    let range = Match::new(2, 5);
    range.len() == 3
        && !range.is_empty()
        && is_range(range, 2, 5)
        && is_range(range.offset(7), 9, 12)
        && is_range(range.with_end(9), 2, 9)
}

// Whether an empty range is equal to that of its position, and not to another.
fn is_position(empty: Match, other: Match) -> bool {
    empty.len() == 0
        && empty.is_empty()
        && is_range(empty, 4, 4)
        && empty == Match::new(4, 4)
        && empty != other
}

#[test]
fn ranges(rt: HostRuntime) {
    let range = Match::new(2, 5);
    let is_made = is_moved() && is_position(Match::zero(4), range);
    assert!(rt; is_made && debugs(rt.alloc(), &range, "Match { start: 2, end: 5 }"));
}

// A terminator, the byte at which lines are split, the bytes that a line is stripped of, and the
// debug form.
const TERMINATOR_ROWS: &[(LineTerminator, u8, &[u8], &str)] = &[
    (LineTerminator::Byte(b'\n'), b'\n', b"\n", "Byte(10)"),
    (LineTerminator::Byte(0), 0, b"\0", "Byte(0)"),
    (LineTerminator::Crlf, b'\n', b"\r\n", "Crlf"),
];

// Whether a terminator splits lines at a byte, and they are stripped of these bytes.
fn splits_at(terminator: &LineTerminator, byte: u8, bytes: &[u8]) -> bool {
    terminator.as_byte() == byte
        && terminator.as_bytes() == bytes
        && terminator.is_crlf() == (bytes.len() == 2)
}

// The error is a terminator's debug form.
#[test]
fn terminators(rt: HostRuntime) -> Result<(), &'static str> {
    for (terminator, byte, bytes, form) in TERMINATOR_ROWS {
        if !splits_at(terminator, *byte, bytes) || !debugs(rt.alloc(), terminator, form) {
            return Err(form);
        }
    }
    Ok(())
}

#[test]
fn line_feeds(rt: HostRuntime) {
    let line_feed = LineTerminator::byte(b'\n');
    assert!(rt; LineTerminator::default() == line_feed && LineTerminator::crlf() != line_feed);
}
