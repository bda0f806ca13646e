//! Which bytes a matcher knows no match to hold.
ghost use Rattle.std.specs.Prelude.{◌≡◌, ◌&&◌, ◌==◌, ℕ, map, not, IsTrue};
ghost use Rattle.std.specs.List.{list_any};
ghost use Rattle.regex_hir.specs.Re.{literal};
ghost use Rattle.grep_matcher.specs.ByteSets.{holds};
ghost use Rattle.grep_matcher.specs.FindResults.{holds_if_some};
ghost use Rattle.grep_regex.specs.AbsentBytes.{are_filled, are_plain, is_absent, is_nul};
ghost use Rattle.grep_regex.specs.AbsentBytes.{keep_to_lines};
ghost use Rattle.grep_regex.specs.Alike.{AreAlike};
ghost use Rattle.grep_regex.specs.Clear.{is_among};
ghost use Rattle.grep_regex.specs.Locality.{is_separator};
ghost use Rattle.grep_regex.specs.Patterns.{read_re, AvoidsAbsent};

use crate::locality::is_separator;
use crate::options::Options;
use crate::plain::are_literal;
use grep_matcher::{ByteSet, LineTerminator};

// The bytes that a matcher of the patterns knows no match to hold, if it knows of any.
pub(crate) fn absent_bytes(options: &Options, patterns: &[&str]) -> Option<ByteSet>
    ensures value { (byte : ℕ) → is_absent options.now (map (λ p. p.now) patterns.now) byte
        ≡ holds_if_some result byte }
    ensures avoids { AvoidsAbsent options.now (map (λ p. p.now) patterns.now) }
{
    if is_nul(options.line_terminator) {
        return Some(nul());
    }
    if !are_plain(options, patterns) {
        return None;
    }
    Some(separators_without(patterns))
}

// Whether the line terminator is the byte 0.
pub(crate) fn is_nul(terminator: Option<LineTerminator>) -> bool
    ensures { result ≡ is_nul terminator }
{
    match terminator {
        Some(LineTerminator::Byte(byte)) => byte == 0,
        _ => false,
    }
}

// The byte 0 alone.
fn nul() -> ByteSet
    ensures { (byte : ℕ) → holds result byte ≡ byte == 0 }
{
    let mut set = ByteSet::empty();
    set.add(0);
    set
}

// Whether no line terminator is declared, and each match is one of the patterns as it is written,
// and not only after a line.
fn are_plain(options: &Options, patterns: &[&str]) -> bool
    ensures value { result ≡ are_plain options.now (map (λ p. p.now) patterns.now) }
    ensures read { IsTrue result →
        AreAlike (map (read_re options.now) (map (λ p. p.now) patterns.now))
        (map literal (map (λ p. p.now) patterns.now)) }
{
    options.line_terminator.is_none()
        && !options.whole_line
        && keep_to_lines(options, patterns)
        && are_literal(options, patterns)
}

// Whether no match is only after the line feed that a line may keep under CRLF.
fn keep_to_lines(options: &Options, patterns: &[&str]) -> bool
    ensures { result ≡ keep_to_lines options.now (map (λ p. p.now) patterns.now) }
{
    !(options.crlf && options.word) || are_filled(patterns)
}

// Whether none of the patterns is empty.
fn are_filled(patterns: &[&str]) -> bool
    ensures { result ≡ are_filled (map (λ p. p.now) patterns.now) }
{
    for i in 0..patterns.len() {
        if patterns[i].is_empty() {
            return false;
        }
    }
    true
}

// The ASCII bytes that aren't in words and that none of the patterns has.
fn separators_without(patterns: &[&str]) -> ByteSet
    ensures { (byte : ℕ) → holds result byte ≡ (is_separator byte
        && not (list_any (λ p. is_among p byte) (map (λ p. p.now) patterns.now))) }
{
    let mut absent = separators();
    for i in 0..patterns.len() {
        remove_all(&mut absent, patterns[i].as_bytes());
    }
    absent
}

// The ASCII bytes that aren't in words.
fn separators() -> ByteSet
    ensures { (byte : ℕ) → holds result byte ≡ is_separator byte }
{
    let mut all = ByteSet::empty();
    for byte in 0..128 {
        if is_separator(byte) {
            all.add(byte);
        }
    }
    all
}

// Removes each of the bytes from the set, and changes nothing else.
fn remove_all(set: &mut ByteSet, bytes: &[u8])
    ensures { (other : ℕ) →
        holds set.new other ≡ (not (is_among bytes.now other) && holds set.old other) }
{
    for byte in bytes {
        set.remove(*byte);
    }
}
