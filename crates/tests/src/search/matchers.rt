//! Which calls a matcher by reference, and one with the default bodies, make of a matcher.
use grep_matcher::{LineMatchKind, LiteralMatcher, Matcher, Plain};
use grep_testing::{Counting, Counts};
use std::io;
use std::io::ErrorKind;

// The error of a matcher that fails.
fn fault(call: u64) -> (u64, io::Error) {
    (call, io::Error::from(ErrorKind::TimedOut))
}

// A haystack of the literal `ab`, and the haystacks of four calls.
const HAYSTACK: &[u8] = b"xabab";

const HAYSTACKS: &[&[u8]] = &[HAYSTACK, HAYSTACK, HAYSTACK, HAYSTACK];

// The counted calls of the matcher of the literal `ab`, of which one fails, counted from 1, or none
// at 0.
type Counted<'a> = Counting<'a, LiteralMatcher<'a>>;

fn counted(fails_at: u64) -> Counted<'static> {
    let literal = LiteralMatcher::borrowed(b"ab");
    Counting::new(literal, HAYSTACKS, Some(fault(fails_at)))
}

// Whether there were these calls, each for the haystack.
fn has_counts(counted: &Counted<'_>, counts: Counts) -> bool {
    counted.counts() == counts && counted.strays() == 0
}

// Whether `find`, `shortest_match` and `is_match` find the literal, but for the one that fails,
// counted from 1.
fn finds<M: Matcher<Error = io::Error> + Drop>(matcher: &M, fails_at: u64) -> bool {
    let found = match matcher.find(HAYSTACK) {
        Ok(Some(found)) => fails_at != 1 && found.start() == 1 && found.end() == 3,
        Ok(None) => false,
        Err(error) => fails_at == 1 && error.kind() == ErrorKind::TimedOut,
    };
    let shortest = match matcher.shortest_match(HAYSTACK) {
        Ok(shortest) => fails_at != 2 && shortest == Some(3),
        Err(error) => fails_at == 2 && error.kind() == ErrorKind::TimedOut,
    };
    let is_match = match matcher.is_match(HAYSTACK) {
        Ok(is_match) => fails_at != 3 && is_match,
        Err(error) => fails_at == 3 && error.kind() == ErrorKind::TimedOut,
    };
    found && shortest && is_match
}

// Whether `find_candidate_line` confirms position 1, but if it is the fourth call that fails.
fn confirms<M: Matcher<Error = io::Error> + Drop>(matcher: &M, fails_at: u64) -> bool {
    match matcher.find_candidate_line(HAYSTACK) {
        Ok(Some(LineMatchKind::Confirmed(found))) => fails_at != 4 && found == 1,
        Ok(_) => false,
        Err(error) => fails_at == 4 && error.kind() == ErrorKind::TimedOut,
    }
}

// Whether `find_candidate_line` finds the first line, and doesn't confirm it.
fn finds_first_line<M: Matcher<Error = io::Error> + Drop>(matcher: &M) -> bool {
    matches!(
        matcher.find_candidate_line(HAYSTACK),
        Ok(Some(LineMatchKind::Candidate(0)))
    )
}

// Whether each call of a reference is passed on once as itself, and the error of one is passed on.
fn reference_asks(fails_at: u64) -> bool {
    let counted = counted(fails_at);
    let counts = Counts {
        finds: 1,
        shortest_matches: 1,
        is_matches: 1,
        candidates: 1,
    };
    finds(&&counted, fails_at) && confirms(&&counted, fails_at) && has_counts(&counted, counts)
}

// Whether each call of the defaults is passed on once as `find`, but for the question about many
// lines, which asks nothing.
fn defaults_ask(fails_at: u64) -> bool {
    let counted = counted(fails_at);
    let plain = Plain(&counted);
    let counts = Counts {
        finds: 3,
        shortest_matches: 0,
        is_matches: 0,
        candidates: 0,
    };
    finds(&plain, fails_at) && finds_first_line(&plain) && has_counts(&counted, counts)
}

// None of the calls fails, or one: it is passed on from the call that asked it, and isn't asked
// again. An error is which of them fails, here and below.
#[test]
fn a_reference_asks_the_same_call_once() -> Result<(), u64> {
    for call in 0..=4 {
        if !reference_asks(call) {
            return Err(call);
        }
    }
    Ok(())
}

#[test]
fn defaults_ask_find_once() -> Result<(), u64> {
    for call in 0..=3 {
        if !defaults_ask(call) {
            return Err(call);
        }
    }
    Ok(())
}
