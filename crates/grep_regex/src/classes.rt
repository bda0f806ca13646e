//! A search for bytes of some sets, one after another.
ghost use Rattle.std.specs.Prelude.{◌≡◌, ◌≤◌, ◌+◌, length, All, false, Some, IfSome};
ghost use Rattle.grep_matcher.specs.ByteSets.{holds};
ghost use Rattle.grep_regex.specs.Classes.{any_decision, decision, first_size};
ghost use Rattle.grep_regex.specs.Decisions.{IsPassed, IsStart, IsVerdict};
ghost use Rattle.grep_regex.specs.Choices.{items_of};

use crate::asked::Asked;
use crate::prefix::Prefix;
use grep_matcher::ByteSet;

// How often a search may fail before that has to pay, since an engine reads each byte once.
const TRIED: usize = 8;

// How many bytes a search then has to pass for each time that it fails.
const SAVED: usize = 8;

// Where the first match starts, as far as it is decided.
#[derive(Clone, Copy)]
pub(crate) enum Start {
    // Here.
    Match(usize),
    // Not before this position.
    From(usize),
    // There is none.
    Nowhere,
}

// What is decided of a position.
#[derive(Clone, Copy)]
pub(crate) enum Verdict {
    // A match starts here.
    Matches,
    // None starts before this later position.
    Passes(usize),
    Unknown,
}

// Where the first match from a position on starts of a pattern that these sets decide. Where one is
// likely at once, that position is looked at first.
#[inline]
pub(crate) fn find_start(prefix: &Prefix, haystack: &[u8], start: usize, asked: Asked) -> Start
    requires { start ≤ length haystack.now }
    ensures { IsStart (any_decision (items_of prefix.now.choices.items) haystack.now)
        (length haystack.now) start result }
{
    if !prefix.is_likely(asked) {
        return find_later(prefix, haystack, start, start);
    }
    match decide_choices(&prefix.choices, haystack, start) {
        Verdict::Matches => Start::Match(start),
        Verdict::Unknown => Start::From(start),
        Verdict::Passes(next) if next > haystack.len() => Start::Nowhere,
        Verdict::Passes(next) => find_later(prefix, haystack, start, next),
    }
}

// Where the first match from a later position on starts, if none starts before that. It isn't
// inlined, so that the first look of one sequence stays short.
#[inline(never)]
fn find_later(prefix: &Prefix, haystack: &[u8], start: usize, next: usize) -> Start
    requires low { start ≤ next }
    requires within { next ≤ length haystack.now }
    requires passed { IsPassed (any_decision (items_of prefix.now.choices.items) haystack.now)
        start next }
    ensures { IsStart (any_decision (items_of prefix.now.choices.items) haystack.now)
        (length haystack.now) start result }
{
    let mut from = prefix.skip(haystack, next);
    let mut tried = 0;
    'positions: loop {
        match decide_choices(&prefix.choices, haystack, from) {
            Verdict::Matches => return Start::Match(from),
            Verdict::Unknown => return Start::From(from),
            Verdict::Passes(next) if next > haystack.len() => return Start::Nowhere,
            Verdict::Passes(next) => from = prefix.skip(haystack, next),
        }
        tried += 1;
        if tried > TRIED && (from - start) / SAVED < tried {
            return Start::From(from);
        }
    }
}

// The size of the first sequence that follows, if it is decided that those before it don't.
pub(crate) fn first_size(choices: &[Vec<ByteSet>], haystack: &[u8], at: usize) -> Option<usize>
    requires { at ≤ length haystack.now }
    ensures size { IfSome result
        (λ size. first_size (items_of choices.now) haystack.now at ≡ Some size) }
    ensures fits { IfSome result (λ size. at + size ≤ length haystack.now) }
{
    for i in 0..choices.len() {
        let sets = &choices[i];
        match decide(sets, haystack, at) {
            Verdict::Matches => return Some(sets.len()),
            Verdict::Passes(_) => {}
            Verdict::Unknown => return None,
        }
    }
    None
}

// What is decided of a position by sequences of sets, one of which has to follow.
#[inline]
fn decide_choices(choices: &[Vec<ByteSet>], haystack: &[u8], at: usize) -> Verdict
    requires { at ≤ length haystack.now }
    ensures { IsVerdict (any_decision (items_of choices.now) haystack.now) at result }
{
    if choices.len() == 1 {
        return decide(&choices[0], haystack, at);
    }
    decide_any(choices, haystack, at)
}

// What is decided of a position by any number of sequences.
fn decide_any(choices: &[Vec<ByteSet>], haystack: &[u8], at: usize) -> Verdict
    requires { at ≤ length haystack.now }
    ensures { IsVerdict (any_decision (items_of choices.now) haystack.now) at result }
{
    let mut next = haystack.len() + 1;
    let mut is_known = true;
    for i in 0..choices.len() {
        match decide(&choices[i], haystack, at) {
            Verdict::Matches => return Verdict::Matches,
            Verdict::Passes(later) => next = next.min(later),
            Verdict::Unknown => is_known = false,
        }
    }
    if is_known {
        Verdict::Passes(next)
    } else {
        Verdict::Unknown
    }
}

// What the sets decide of a position.
#[inline]
fn decide(sets: &[ByteSet], haystack: &[u8], at: usize) -> Verdict
    requires { at ≤ length haystack.now }
    ensures { IsVerdict (decision sets.now haystack.now) at result }
{
    for k in 0..sets.len() {
        if at + k >= haystack.len() {
            return Verdict::Passes(haystack.len() + 1);
        }
        let byte = haystack[at + k];
        if byte >= 128 {
            return Verdict::Unknown;
        }
        if !sets[k].contains(byte) {
            if is_in_any(&sets[..k], byte) {
                return Verdict::Passes(at + 1);
            }
            return Verdict::Passes(at + k + 1);
        }
    }
    Verdict::Matches
}

// Whether one of the sets has the byte.
fn is_in_any(sets: &[ByteSet], byte: u8) -> bool
    ensures { result ≡ false → All (λ set. holds set byte ≡ false) sets.now }
{
    for i in 0..sets.len() {
        if sets[i].contains(byte) {
            return true;
        }
    }
    false
}
