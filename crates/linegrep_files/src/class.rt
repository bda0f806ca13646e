//! A class of a glob, which is in brackets: the bytes that it stands for.
ghost use Rattle.std.specs.Prelude.{◌≡◌, ◌≢◌, ◌≤◌, ◌∷◌, ◌&&◌, ◌||◌, ◌==◌, ℕ, drop, false, not};
ghost use Rattle.std.specs.Prelude.{nat_lt, ◌<◌, ◌⊎◌, [], IfErr, IfOk, MatchOption, length};
ghost use Rattle.grep_ignore.specs.Classes.{begins_range, begins_with, is_empty, is_negated};
ghost use Rattle.std.specs.Str.{bytes_eq};
ghost use Rattle.grep_ignore.specs.Lines.{ends_with};
ghost use Rattle.grep_matcher.specs.ByteSets.{holds};
ghost use Rattle.linegrep_files.specs.ClassTexts.{AreCut, AreMembersBefore, HasRanges};
ghost use Rattle.linegrep_files.specs.ClassTexts.{IsClassBefore, IsClassOf, IsMalformedClass};
ghost use Rattle.linegrep_files.specs.ClassTexts.{IsRange, IsReversed};

use grep_ignore::add_range;
use grep_matcher::ByteSet;

/// A class of a glob.
#[derive(Drop)]
pub struct Class<'g> {
    /// The bytes that it stands for.
    pub set: ByteSet,
    /// What follows it.
    pub rest: &'g [u8],
}

// The bytes from one to another, and what follows them in a class.
#[derive(Clone, Copy)]
struct Member<'g> {
    first: u8,
    last: u8,
    rest: &'g [u8],
}

const UNCLOSED: &str = "a bracket isn't closed";

const REVERSED: &str = "a range ends before it begins";

/// Reads a class, without its opening bracket. An exclamation mark or a caret at its start means
/// all other bytes. A closing bracket that comes first is a member, and a dash after a range moves
/// its end. If `ignores_case` is set, letters of ASCII stand for both cases. An error is that the
/// class isn't closed, or that a range ends before it begins.
pub fn read_class(text: &[u8], ignores_case: bool) -> Result<Class<'_>, &'static str>
    ensures text { IfOk result (λ class. IsClassBefore text.now class.rest.now) }
    ensures set { IfOk result (λ class. IsClassOf ignores_case class.set text.now class.rest.now) }
    ensures malformed { IfErr result (λ _. IsMalformedClass text.now) }
{
    if is_negated(text) {
        let class = read_members(tail(text), ignores_case)?;
        return Ok(Class {
            set: others(&class.set),
            rest: class.rest,
        });
    }
    read_members(text, ignores_case)
}

fn is_negated(text: &[u8]) -> bool
    ensures { result ≡ is_negated text.now }
{
    begins_with(text, b'!') || begins_with(text, b'^')
}

// Reads the members of a class, and its closing bracket.
fn read_members(text: &[u8], ignores_case: bool) -> Result<Class<'_>, &'static str>
    ensures text { IfOk result (λ class. AreMembersBefore text.now (93 ∷ class.rest.now)) }
    ensures set { IfOk result (λ class. HasRanges ignores_case class.set text.now
        (93 ∷ class.rest.now)) }
    ensures cut { IfErr result (λ _. AreCut text.now) }
{
    let mut set = ByteSet::empty();
    let mut member = read_member(text)?;
    while !begins_with(member.rest, b']') {
        match range_end(member.rest) {
            Some(last) => {
                member = range(member.first, last, tail(tail(member.rest)))?;
            }
            None => {
                add_range(&mut set, member.first, member.last, ignores_case);
                member = read_member(member.rest)?;
            }
        }
    }
    add_range(&mut set, member.first, member.last, ignores_case);
    Ok(Class {
        set,
        rest: tail(member.rest),
    })
}

// The first of some members of a class: a byte, or two bytes with a dash between them, which make a
// range.
fn read_member(text: &[u8]) -> Result<Member<'_>, &'static str>
    ensures text { IfOk result (λ member. AreMembersBefore text.now member.rest.now) }
    ensures range { IfOk result (λ member. IsRange (member.first, member.last) text.now
        member.rest.now) }
    ensures cut { IfErr result (λ _. (text.now ≡ []) ⊎ IsReversed text.now) }
{
    match text {
        [] => Err(UNCLOSED),
        [first, after @ ..] => match range_end(after) {
            Some(last) => range(*first, last, tail(tail(after))),
            None => range(*first, *first, after),
        },
    }
}

// The last byte of a range that goes on with a text: the byte after a dash, unless that is a
// closing bracket.
fn range_end(after: &[u8]) -> Option<u8>
    ensures { MatchOption result (begins_range after.now ≡ false)
        (λ last. (after.now ≡ 45 ∷ last ∷ drop 2 after.now) × (last ≢ 93)) }
{
    match after {
        [] => None,
        [_] => None,
        [dash, last, ..] => {
            if *dash == b'-' && *last != b']' {
                Some(*last)
            } else {
                None
            }
        }
    }
}

fn range(first: u8, last: u8, rest: &[u8]) -> Result<Member<'_>, &'static str>
    ensures range { IfOk result (λ member. (member.first ≡ first) × (member.last ≡ last)
        × (first ≤ last) × (member.rest.now ≡ rest.now)) }
    ensures reversed { IfErr result (λ _. last < first) }
{
    if first > last {
        Err(REVERSED)
    } else {
        Ok(Member { first, last, rest })
    }
}

// The bytes that aren't in a set.
fn others(set: &ByteSet) -> ByteSet
    ensures { (byte : ℕ) → holds result byte ≡ (nat_lt byte 256 && not (holds set.now byte)) }
{
    let mut others = ByteSet::empty();
    for number in 0..256u16 {
        let byte = number as u8;
        add_if(&mut others, byte, !set.contains(byte));
    }
    others
}

// Adds a byte to a set if it is chosen.
fn add_if(set: &mut ByteSet, byte: u8, is_chosen: bool)
    ensures { (other : ℕ) → holds set.new other
        ≡ (((other == byte) && is_chosen) || holds set.old other) }
{
    if is_chosen {
        set.add(byte);
    }
}

/// All of a text but its first byte.
pub fn tail(text: &[u8]) -> &[u8]
    ensures { result.now ≡ drop 1 text.now }
{
    match text {
        [] => text,
        [_, after @ ..] => after,
    }
}

/// Whether a text begins with a byte.
pub fn begins_with(text: &[u8], first: u8) -> bool
    ensures { result ≡ begins_with first text.now }
{
    match text {
        [] => false,
        [byte, ..] => *byte == first,
    }
}

/// Whether a text ends in a byte.
pub fn ends_with(text: &[u8], last: u8) -> bool
    ensures { result ≡ ends_with last text.now }
{
    let count = text.len();
    count > 0 && text[count - 1] == last
}

/// Whether a text has no byte.
pub fn is_empty(text: &[u8]) -> bool
    ensures { result ≡ is_empty text.now }
{
    match text {
        [] => true,
        _ => false,
    }
}

/// Whether two texts are the same.
pub fn is_same(text: &[u8], other: &[u8]) -> bool
    ensures { result ≡ bytes_eq text.now other.now }
{
    text == other
}
