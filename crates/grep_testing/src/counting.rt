//! A matcher that counts its calls.
ghost use Rattle.std.specs.Prelude.{◌≡◌, Some, IfErr};
ghost use Rattle.std.specs.Option.{option_map};

use grep_matcher::{ByteSet, LineMatchKind, LineTerminator, Match, Matcher};
use std::cell::Cell;
use std::io;

/// How many calls of each kind there were.
#[derive(Clone, Copy, PartialEq, Eq)]
pub struct Counts {
    /// Those of `find`.
    pub finds: u64,
    /// Those of `shortest_match`.
    pub shortest_matches: u64,
    /// Those of `is_match`.
    pub is_matches: u64,
    /// Those of `find_candidate_line`.
    pub candidates: u64,
}

/// Another matcher, whose calls with a haystack are counted; each is passed on as the same call. A
/// call whose haystack isn't the expected one is counted as a stray, and one of the calls may fail.
pub struct Counting<'a, M> {
    matcher: M,
    expected: &'a [&'a [u8]],
    fault: Option<(u64, io::Error)>,
    finds: Cell<u64>,
    shortest_matches: Cell<u64>,
    is_matches: Cell<u64>,
    candidates: Cell<u64>,
    strays: Cell<u64>,
}

// Written out, so that a caller's proof sees one call.
impl<'a, M: Drop> Drop for Counting<'a, M> {
    fn drop(self) {
        let Counting {
            matcher: _matcher,
            expected: _expected,
            fault: _fault,
            finds: _finds,
            shortest_matches: _shortest_matches,
            is_matches: _is_matches,
            candidates: _candidates,
            strays: _strays,
        } = self;
    }
}

impl<'a, M> Counting<'a, M> {
    /// The calls of `matcher`, which are expected to be for the haystacks of `expected`, in that
    /// order and no more. `fault` is which call fails, counted from 1, and its error; that call
    /// isn't passed on.
    pub fn new(
        matcher: M,
        expected: &'a [&'a [u8]],
        fault: Option<(u64, io::Error)>,
    ) -> Counting<'a, M>
        ensures matcher { result.matcher ≡ matcher }
        ensures fault { result.fault ≡ fault }
    {
        Counting {
            matcher,
            expected,
            fault,
            finds: Cell::new(0),
            shortest_matches: Cell::new(0),
            is_matches: Cell::new(0),
            candidates: Cell::new(0),
            strays: Cell::new(0),
        }
    }

    /// How many calls of each kind there were. No contract can say what a cell holds.
    pub fn counts(&self) -> Counts {
        Counts {
            finds: self.finds.get(),
            shortest_matches: self.shortest_matches.get(),
            is_matches: self.is_matches.get(),
            candidates: self.candidates.get(),
        }
    }

    /// How many calls there were.
    pub fn calls(&self) -> u64 {
        let counts = self.counts();
        counts
            .finds
            .saturating_add(counts.shortest_matches)
            .saturating_add(counts.is_matches)
            .saturating_add(counts.candidates)
    }

    /// How many calls had another haystack than the expected one, or came after all that were
    /// expected.
    pub fn strays(&self) -> u64 {
        self.strays.get()
    }

    // Counts a call, and fails if it is the one to fail.
    fn count(&self, calls: &Cell<u64>, haystack: &[u8]) -> io::Result<()>
        ensures { IfErr result (λ e. option_map (λ fault. fault.1) self.now.fault ≡ Some e) }
    {
        let before = self.calls();
        match self.expected.get(before as usize) {
            Some(expected) if *expected == haystack => {}
            _ => increase(&self.strays),
        }
        increase(calls);
        match self.fault {
            Some((call, error)) if call == before.saturating_add(1) => Err(error),
            _ => Ok(()),
        }
    }
}

// Counts one more.
fn increase(count: &Cell<u64>) {
    count.set(count.get().saturating_add(1));
}

/// An error is the matcher's own, or the one that the counting matcher was made with.
impl<M: Matcher<Error = io::Error>> Matcher for Counting<'_, M> {
    type Error = io::Error;

    ghost use Rattle.std.specs.Prelude.{◌≡◌, ◌⊎◌, Some};
    ghost use Rattle.std.specs.Option.{option_map};

    ghost facts = { λ m. record {
      meaning = (M.facts m.matcher).meaning;
      fails = λ haystack error. (option_map (λ fault. fault.1) m.fault ≡ Some error)
          ⊎ (M.facts m.matcher).fails haystack error;
      is_lawful = (M.facts m.matcher).is_lawful;
    } };

    fn find(&self, haystack: &[u8]) -> io::Result<Option<Match>> {
        self.count(&self.finds, haystack)?;
        self.matcher.find(haystack)
    }

    fn shortest_match(&self, haystack: &[u8]) -> io::Result<Option<usize>> {
        self.count(&self.shortest_matches, haystack)?;
        self.matcher.shortest_match(haystack)
    }

    fn is_match(&self, haystack: &[u8]) -> io::Result<bool> {
        self.count(&self.is_matches, haystack)?;
        self.matcher.is_match(haystack)
    }

    fn find_candidate_line(&self, haystack: &[u8]) -> io::Result<Option<LineMatchKind>> {
        self.count(&self.candidates, haystack)?;
        self.matcher.find_candidate_line(haystack)
    }

    fn line_terminator(&self) -> Option<LineTerminator> {
        self.matcher.line_terminator()
    }

    fn non_matching_bytes(&self) -> Option<&ByteSet> {
        self.matcher.non_matching_bytes()
    }
}
