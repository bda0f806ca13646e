//! Readers and matchers that don't behave, each with a search by the same searcher after it.
use crate::case::Fault;
use crate::readers::{Interrupted, Repeated, Resuming};
use crate::searches::{search_reader, search_slice};
use crate::tally::{Tally, Totals};
use crate::trial::comes_to;
use grep_decode::Source;
use grep_matcher::{ByteSet, LineMatchKind, LineTerminator, LiteralMatcher, Match, Matcher};
use grep_searcher::{BinaryDetection, SearchError, Searcher};
use grep_testing::{BREAK, Contrary, LIMIT, Pieces, Row};
use std::alloc::Global;
use std::cell::Cell;
use std::io;

// Another matcher's matches, and candidates anywhere.
#[derive(Drop)]
struct Erratic<M> {
    matcher: M,
    state: Cell<u64>,
}

impl<M: Matcher> Matcher for Erratic<M> {
    type Error = M::Error;

    ghost facts = { λ m. record {
      meaning = (M.facts m.matcher).meaning;
      fails = (M.facts m.matcher).fails;
      is_lawful = λ _. ⊥;
    } };

    fn find(&self, haystack: &[u8]) -> Result<Option<Match>, M::Error> {
        self.matcher.find(haystack)
    }

    fn find_candidate_line(&self, haystack: &[u8]) -> Result<Option<LineMatchKind>, M::Error> {
        let state = next_random(self.state.get());
        self.state.set(state);
        let position = ((state >> 60) as usize).min(haystack.len());
        Ok(match (state >> 32) & 3 {
            0 => None,
            1 => Some(LineMatchKind::Candidate(position)),
            _ => Some(LineMatchKind::Confirmed(position)),
        })
    }

    fn line_terminator(&self) -> Option<LineTerminator> {
        self.matcher.line_terminator()
    }

    fn non_matching_bytes(&self) -> Option<&ByteSet> {
        self.matcher.non_matching_bytes()
    }
}

// The number after a random one.
fn next_random(state: u64) -> u64 {
    state
        .wrapping_mul(6_364_136_223_846_793_005)
        .wrapping_add(1_442_695_040_888_963_407)
}

// What a search is given.
#[derive(Clone, Copy)]
enum Guest {
    // A matcher that says the contrary of many lines.
    Contrary(bool),
    // A matcher whose candidates are anywhere.
    Erratic,
    // A reader that goes on after its end.
    Resuming,
    // A reader that is interrupted at every read.
    Interrupted,
    // A reader without an end, and a sink that returns false at the second match.
    Endless,
    // One with a binary byte, which ends the search.
    Binary,
}

const GUESTS: &[(&str, Guest)] = &[
    (
        "a matcher that finds a line where none matches",
        Guest::Contrary(false),
    ),
    (
        "one that finds none where each matches",
        Guest::Contrary(true),
    ),
    ("one that finds positions anywhere", Guest::Erratic),
    ("a reader that goes on after its end", Guest::Resuming),
    ("one that is interrupted at every read", Guest::Interrupted),
    ("one without an end, and a false", Guest::Endless),
    ("one without an end, and a binary byte", Guest::Binary),
];

/// Searches with each, and writes which searches end as they have to and leave a searcher that
/// makes its calls.
pub(crate) fn try_hostile<W: io::Write>(alloc: Global, output: &mut W) -> io::Result<()> {
    for (name, guest) in GUESTS {
        try_guest(alloc, &BREAK, name, *guest, output)?;
    }
    try_guest(
        alloc,
        &LIMIT,
        "one without an end, and a limit",
        Guest::Endless,
        output,
    )
}

// Searches with one of these, by the searcher of a row, and writes whether the search ends as it
// has to.
fn try_guest<W: io::Write>(
    alloc: Global,
    row: &Row,
    name: &str,
    guest: Guest,
    output: &mut W,
) -> io::Result<()> {
    let Ok(mut searcher) = row.settings.build(alloc) else {
        return writeln!(output, "{name}: no searcher");
    };
    let agrees = ends(&mut searcher, guest) && comes_to(alloc, &mut searcher, row, Fault::None);
    writeln!(output, "{name}: {agrees}")
}

// Whether a search ends as it has to.
fn ends(searcher: &mut Searcher, guest: Guest) -> bool {
    match guest {
        Guest::Contrary(matches) => returns(searcher, &Contrary { matches }),
        Guest::Erratic => is_erratic_safe(searcher),
        Guest::Resuming => totals_are(searcher, &mut Resuming::new(b"a\nb"), (1, 1, 0, 2, 3)),
        Guest::Interrupted => is_interrupted(searcher),
        Guest::Endless => is_cut(searcher),
        Guest::Binary => is_quit(searcher),
    }
}

// Whether a search of a slice and one of a reader end in no error.
fn returns<M: Matcher>(searcher: &mut Searcher, matcher: &M) -> bool {
    let mut tally = Tally::new(u64::MAX);
    let mut reader = Pieces::new(BREAK.input, 3, None);
    search_slice(searcher, matcher, BREAK.input, &mut tally).is_ok()
        && search_reader(searcher, matcher, &mut reader, &mut tally).is_ok()
}

// Whether many of them do, with candidates anywhere.
fn is_erratic_safe(searcher: &mut Searcher) -> bool {
    let matcher = Erratic {
        matcher: LiteralMatcher::borrowed(b"a"),
        state: Cell::new(1),
    };
    for _ in 0..200 {
        if !returns(searcher, &matcher) {
            return false;
        }
    }
    true
}

// Whether a search for `a` ends in no error and these totals, if the second match returns false.
fn totals_are<R: Source>(searcher: &mut Searcher, reader: &mut R, totals: Totals) -> bool {
    adds_up(searcher, reader, Tally::new(1), totals)
}

// Whether one ends so with this sink.
fn adds_up<R: Source>(
    searcher: &mut Searcher,
    reader: &mut R,
    mut tally: Tally,
    totals: Totals,
) -> bool {
    let matcher = LiteralMatcher::borrowed(b"a");
    search_reader(searcher, matcher, reader, &mut tally).is_ok() && tally.has(totals)
}

fn is_interrupted(searcher: &mut Searcher) -> bool {
    let mut tally = Tally::new(u64::MAX);
    let matcher = LiteralMatcher::borrowed(b"a");
    match search_reader(searcher, matcher, &mut Interrupted, &mut tally) {
        Err(SearchError::Io(error)) => error.kind() == io::ErrorKind::Interrupted,
        _ => false,
    }
}

// A limit of 1 has two lines after the match, which are matches too. Without a limit the sink ends
// the search.
fn is_cut(searcher: &mut Searcher) -> bool {
    let mut reader = Repeated::new(b"a\n", u64::MAX, b"");
    match searcher.max_matches() {
        Some(_) => adds_up(searcher, &mut reader, Tally::new(u64::MAX), (3, 6, 6, 6, 6)),
        None => totals_are(searcher, &mut reader, (2, 3, 2, 4, 4)),
    }
}

fn is_quit(searcher: &mut Searcher) -> bool {
    searcher.set_binary_detection(BinaryDetection::Quit(b'b'));
    let is_quit = totals_are(
        searcher,
        &mut Repeated::new(b"ab\n", u64::MAX, b""),
        (0, 0, 0, 0, 0),
    );
    searcher.set_binary_detection(BinaryDetection::None);
    is_quit
}
