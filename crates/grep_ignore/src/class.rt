//! A class of a glob, which is in brackets: the bytes that it stands for.
ghost use Rattle.std.specs.Prelude.{◌≡◌, ℕ, ◌<◌, ◌&&◌, ◌||◌, not, if◌then◌else◌, nat_lt};
ghost use Rattle.std.specs.Prelude.{List, ◌∷◌, [], ◌⊎◌, ◌==◌};
ghost use Rattle.std.specs.Prelude.{true, false, MatchOption, length, drop};
ghost use Rattle.grep_matcher.specs.ByteSets.{holds};
ghost use Rattle.grep_ignore.specs.Classes.{AreMembers, IsClass, IsCut, IsCutMember, IsLetter};
ghost use Rattle.grep_ignore.specs.Classes.{IsMember, IsUnclosed, AddsRanges, begins_range};
ghost use Rattle.grep_ignore.specs.Classes.{begins_with, is_between, is_either};
ghost use Rattle.grep_ignore.specs.Classes.{is_in_range, is_in_class};
ghost use Rattle.grep_ignore.specs.Classes.{is_name_byte, is_negated, members_of, other_case};

use grep_matcher::ByteSet;

/// Reads a class of which the opening bracket is left out: the set of the bytes that it stands for,
/// and what follows it. `None` means that it isn't closed.
pub fn read_class(text: &[u8], ignores_case: bool) -> Option<(ByteSet, &[u8])>
    ensures { MatchOption result (IsUnclosed text.now)
        (λ r. IsClass ignores_case r.0 text.now r.1.now) }
{
    let negates = is_negated(text);
    let mut members = ByteSet::empty();
    match read_members(&mut members, members_of(text), ignores_case) {
        Some(after) => Some((class_of(&members, negates), after)),
        None => None,
    }
}

fn is_negated(text: &[u8]) -> bool
    ensures { result ≡ is_negated text.now }
{
    begins_with(text, b'!') || begins_with(text, b'^')
}

fn members_of(text: &[u8]) -> &[u8]
    ensures { result.now ≡ members_of text.now }
{
    if is_negated(text) { tail(text) } else { text }
}

/// All of a text but its first byte.
pub fn tail(text: &[u8]) -> &[u8]
    ensures { result.now ≡ drop 1 text.now }
{
    match text {
        [] => text,
        [_, after @ ..] => after,
    }
}

/// Whether a text begins with a byte.
pub fn begins_with(text: &[u8], first: u8) -> bool
    ensures { result ≡ begins_with first text.now }
{
    match text {
        [] => false,
        [byte, ..] => *byte == first,
    }
}

// The bytes that a class stands for, by its members.
fn class_of(members: &ByteSet, negates: bool) -> ByteSet
    ensures { (byte : ℕ) → holds result byte ≡ (is_name_byte byte
        && (if negates then not (holds members.now byte) else holds members.now byte)) }
{
    let mut set = ByteSet::empty();
    for number in 0..256u16 {
        let byte = number as u8;
        add_if(&mut set, byte, is_chosen(byte, members, negates));
    }
    set
}

fn is_chosen(byte: u8, members: &ByteSet, negates: bool) -> bool
    ensures { result ≡ (is_name_byte byte
        && (if negates then not (holds members.now byte) else holds members.now byte)) }
{
    byte != b'/' && is_member(byte, members, negates)
}

fn is_member(byte: u8, members: &ByteSet, negates: bool) -> bool
    ensures { result
        ≡ (if negates then not (holds members.now byte) else holds members.now byte) }
{
    if negates {
        !members.contains(byte)
    } else {
        members.contains(byte)
    }
}

// Adds a byte to a set if it is chosen.
fn add_if(set: &mut ByteSet, byte: u8, is_chosen: bool)
    ensures { (other : ℕ) → holds set.new other
        ≡ (((other == byte) && is_chosen) || holds set.old other) }
{
    if is_chosen {
        set.add(byte);
    }
}

// Adds the members of a class to a set, and gives what follows its closing bracket,
// if there is one.
fn read_members<'t>(set: &mut ByteSet, text: &'t [u8], ignores_case: bool) -> Option<&'t [u8]>
    ensures { MatchOption result
        ((ranges : List (ℕ × ℕ)) × (rest : List ℕ)
        × AreMembers ranges text.now rest × IsCutMember rest)
        (λ after. (ranges : List (ℕ × ℕ)) × (0 < length ranges)
        × AreMembers ranges text.now (93 ∷ after.now)
        × AddsRanges ignores_case ranges set.old set.new) }
{
    let mut left = match take_member(set, text, ignores_case) {
        Some(after) => after,
        None => return None,
    };
    while !begins_with(left, b']') {
        match take_member(set, left, ignores_case) {
            Some(after) => left = after,
            None => return None,
        }
    }
    Some(tail(left))
}

// Adds the member that the text of a class begins with to a set, and gives what follows it.
fn take_member<'t>(set: &mut ByteSet, text: &'t [u8], ignores_case: bool) -> Option<&'t [u8]>
    ensures { MatchOption result (IsCutMember text.now)
        (λ after. (range : ℕ × ℕ) × IsMember range text.now after.now
        × AddsRanges ignores_case (range ∷ []) set.old set.new) }
{
    match read_member(text) {
        Some((first, last, after)) => {
            add_range(set, first, last, ignores_case);
            Some(after)
        }
        None => None,
    }
}

// Reads a member of a class: its first byte and its last one, and what follows it.
fn read_member(text: &[u8]) -> Option<(u8, u8, &[u8])>
    ensures { MatchOption result (IsCutMember text.now)
        (λ r. IsMember (r.0, r.1) text.now r.2.now) }
{
    match read_letter(text) {
        Some((first, after)) => read_range(first, after),
        None => None,
    }
}

// Reads what is left of a member after its first letter.
fn read_range(first: u8, after: &[u8]) -> Option<(u8, u8, &[u8])>
    ensures { MatchOption result
        ((begins_range after.now ≡ true) × IsCut (drop 1 after.now))
        (λ r. (r.0 ≡ first) × (((begins_range after.now ≡ false) × (r.1 ≡ first)
        × (r.2.now ≡ after.now))
        ⊎ ((begins_range after.now ≡ true) × IsLetter r.1 (drop 1 after.now) r.2.now))) }
{
    if !begins_range(after) {
        return Some((first, first, after));
    }
    match read_letter(tail(after)) {
        Some((last, rest)) => Some((first, last, rest)),
        None => None,
    }
}

fn begins_range(text: &[u8]) -> bool
    ensures { result ≡ begins_range text.now }
{
    match text {
        [] => false,
        [_] => false,
        [dash, byte, ..] => *dash == b'-' && *byte != b']',
    }
}

// Reads the letter that a text begins with, and gives what follows it.
fn read_letter(text: &[u8]) -> Option<(u8, &[u8])>
    ensures { MatchOption result (IsCut text.now) (λ r. IsLetter r.0 text.now r.1.now) }
{
    match text {
        [] => None,
        [letter, after @ ..] => {
            if *letter != b'\\' {
                Some((*letter, after))
            } else {
                escaped(after)
            }
        }
    }
}

// The letter after a backslash, and what follows it.
fn escaped(text: &[u8]) -> Option<(u8, &[u8])>
    ensures { MatchOption result (text.now ≡ []) (λ r. text.now ≡ r.0 ∷ r.1.now) }
{
    match text {
        [] => None,
        [letter, after @ ..] => Some((*letter, after)),
    }
}

/// Adds the bytes of a range to a set, and their letters in the other case if `ignores_case` is
/// set. Its first byte is always one of them.
pub fn add_range(set: &mut ByteSet, first: u8, last: u8, ignores_case: bool)
    ensures { (byte : ℕ) → holds set.new byte
        ≡ (holds set.old byte || is_either ignores_case (is_in_range (first, last)) byte) }
{
    for number in 0..256u16 {
        let byte = number as u8;
        add_if(set, byte, is_within(byte, first, last, ignores_case));
    }
}

fn is_within(byte: u8, first: u8, last: u8, ignores_case: bool) -> bool
    ensures { result ≡ is_either ignores_case (is_in_range (first, last)) byte }
{
    is_in_range(byte, first, last) || ignores_case && is_in_range(other_case(byte), first, last)
}

fn is_in_range(byte: u8, first: u8, last: u8) -> bool
    ensures { result ≡ is_in_range (first, last) byte }
{
    byte == first || is_between(byte, first, last)
}

fn is_between(byte: u8, first: u8, last: u8) -> bool
    ensures { result ≡ is_between (first, last) byte }
{
    first <= byte && byte <= last
}

/// The letter of ASCII that a letter is in the other case; any other byte is itself.
pub fn other_case(byte: u8) -> u8
    ensures { result ≡ other_case byte }
{
    if is_between(byte, b'A', b'Z') {
        byte + 32
    } else if is_between(byte, b'a', b'z') {
        byte - 32
    } else {
        byte
    }
}
