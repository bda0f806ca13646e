//! The byte of the line terminator for which patterns are refused.
ghost use Rattle.std.specs.Prelude.{◌≡◌, All, IfOk, IsTrue, MatchOption, false, map, true};
ghost use Rattle.std.specs.List.{list_any};
ghost use Rattle.regex_class.specs.Ranges.{in_ranges};
ghost use Rattle.regex_hir.specs.Meaning.{meaning, cat_all};
ghost use Rattle.regex_hir.specs.Re.{empty};
ghost use Rattle.regex_syntax.specs.Captures.{SameCaptures};
ghost use Rattle.grep_regex.specs.Clear.{is_among};
ghost use Rattle.grep_regex.specs.NamedBytes.{is_naming, names_characters, CanName, HasByte};
ghost use Rattle.grep_regex.specs.NamedBytes.{HasNaming, HasNoTerminator, HasTerminator, IsLost};
ghost use Rattle.grep_regex.specs.NamedBytes.{IsNameable};
ghost use Rattle.grep_regex.specs.Patterns.{excluded_bytes, written_re};
ghost use Rattle.grep_regex.specs.Repetitions.{Repeats};
ghost use Rattle.grep_regex.specs.Stripped.{IsClassOf};

use crate::options::Options;
use crate::plain::are_literal;
use regex_class::Class;
use regex_hir::Hir;
use std::alloc::AllocError;

// The byte of the line terminator for which the patterns are refused. If they match their own texts
// alone, one of them has it. If not, a literal of what was read has it, or a class that has nothing
// else, and one of the texts can name it. `class` has the bytes of the line terminator.
pub(crate) fn refused_byte(
    options: &Options,
    patterns: &[&str],
    hir: &Hir,
    bytes: &[u8],
    class: &Class,
) -> Result<Option<u8>, AllocError>
    requires reads { SameCaptures (meaning hir.now)
        (written_re options.now (map (λ p. p.now) patterns.now)) }
    requires excluded { bytes.now ≡ excluded_bytes options.now.line_terminator }
    requires members { IsClassOf bytes.now class.now.ranges.items }
    ensures { IfOk result (λ refused. MatchOption refused
        (HasNoTerminator options.now (map (λ p. p.now) patterns.now))
        (HasTerminator options.now (map (λ p. p.now) patterns.now))) }
{
    if are_literal(options, patterns) {
        return Ok(first_in_texts(patterns, bytes));
    }
    for byte in bytes {
        if is_nameable(options, patterns, *byte) && has_byte(hir, *byte, bytes, class)? {
            return Ok(Some(*byte));
        }
    }
    Ok(None)
}

// The first byte of the texts that is one of these.
fn first_in_texts(patterns: &[&str], bytes: &[u8]) -> Option<u8>
    ensures { MatchOption result
        (All (λ p. list_any (is_among bytes.now) p ≡ false) (map (λ p. p.now) patterns.now))
        (λ byte. (is_among bytes.now byte ≡ true)
        × (list_any (λ p. is_among p byte) (map (λ p. p.now) patterns.now) ≡ true)) }
{
    for i in 0..patterns.len() {
        if let Some(byte) = first_among(patterns[i].as_bytes(), bytes) {
            return Some(byte);
        }
    }
    None
}

// The first byte of a text that is one of these.
pub(crate) fn first_among(text: &[u8], bytes: &[u8]) -> Option<u8>
    ensures { MatchOption result (list_any (is_among bytes.now) text.now ≡ false)
        (λ byte. (is_among bytes.now byte ≡ true) × (is_among text.now byte ≡ true)) }
{
    for byte in text {
        if is_one_of(*byte, bytes) {
            return Some(*byte);
        }
    }
    None
}

// Whether a byte is one of these.
fn is_one_of(byte: u8, bytes: &[u8]) -> bool
    ensures { result ≡ is_among bytes.now byte }
{
    bytes.iter().any(|other| byte == *other)
}

// Whether one of the texts can name the byte.
fn is_nameable(options: &Options, patterns: &[&str], byte: u8) -> bool
    ensures yes { IsTrue result → IsNameable options.now (map (λ p. p.now) patterns.now) byte }
    ensures no { result ≡ false →
        IsNameable options.now (map (λ p. p.now) patterns.now) byte → ⊥ }
{
    for i in 0..patterns.len() {
        if can_name(options, patterns[i].as_bytes(), byte) {
            return true;
        }
    }
    false
}

// Whether the text of a pattern can name the byte.
fn can_name(options: &Options, text: &[u8], byte: u8) -> bool
    ensures yes { IsTrue result → CanName options.now byte text.now }
    ensures no { result ≡ false → CanName options.now byte text.now → ⊥ }
{
    is_one_of(byte, text) || (!options.fixed_strings && has_naming(text))
}

// Whether a text names other characters than it has.
fn has_naming(text: &[u8]) -> bool
    ensures yes { IsTrue result → HasNaming text.now }
    ensures no { result ≡ false → HasNaming text.now → ⊥ }
{
    for i in 1..text.len() {
        if is_naming(text[i - 1], text[i]) {
            return true;
        }
    }
    false
}

// Whether two characters begin an escape that stands for characters, or take members out of a
// class. A backslash counts even if it is escaped itself.
fn is_naming(one: u8, next: u8) -> bool
    ensures { result ≡ is_naming one next }
{
    match one {
        b'\\' => names_characters(next),
        b'[' => next == b'^',
        b'-' | b'&' | b'~' => next == one,
        _ => false,
    }
}

// Whether an escape with this letter stands for characters.
fn names_characters(letter: u8) -> bool
    ensures { result ≡ names_characters letter }
{
    letter.is_ascii_digit()
        || matches!(
            letter,
            b'a' | b'f' | b'n' | b'r' | b't' | b'v' | b'x' | b'u' | b'U' | b'p' | b'P'
        )
}

// Whether a pattern has one of the bytes in a literal, or in a class without other members.
#[cycle(has_byte)]
fn has_byte(hir: &Hir, byte: u8, bytes: &[u8], class: &Class) -> Result<bool, AllocError>
    requires { IsClassOf bytes.now class.now.ranges.items }
    ensures yes { IfOk result (λ has. IsTrue has → HasByte bytes.now byte (meaning hir.now)) }
    ensures no { IfOk result (λ has. has ≡ false → HasByte bytes.now byte (meaning hir.now) → ⊥) }
{
    if is_never(hir) {
        return Ok(false);
    }
    match hir {
        Hir::Empty | Hir::Look(_) => Ok(false),
        Hir::Literal(text) => Ok(is_one_of(byte, text)),
        Hir::Bytes(members) | Hir::Chars(members) => is_lost(members, byte, bytes, class),
        Hir::Repetition { sub, .. } | Hir::Capture { sub, .. } => has_byte(sub, byte, bytes, class),
        Hir::Concat(subs) | Hir::Alternation(subs) => one_has_byte(subs, byte, bytes, class),
    }
}

#[cycle(has_byte)]
fn one_has_byte(subs: &[Hir], byte: u8, bytes: &[u8], class: &Class) -> Result<bool, AllocError>
    requires { IsClassOf bytes.now class.now.ranges.items }
    ensures yes { IfOk result (λ has. IsTrue has →
        HasByte bytes.now byte (cat_all (map meaning subs.now))) }
    ensures no { IfOk result (λ has. has ≡ false →
        HasByte bytes.now byte (cat_all (map meaning subs.now)) → ⊥) }
{
    for i in 0..subs.len() {
        if has_byte(&subs[i], byte, bytes, class)? {
            return Ok(true);
        }
    }
    Ok(false)
}

// Whether it is a repetition of nothing, `a{0}`.
fn is_never(hir: &Hir) -> bool
    ensures never { IsTrue result → meaning hir.now ≡ empty }
    ensures repeats { result ≡ false → Repeats hir.now }
{
    match hir {
        Hir::Repetition { min, max, .. } => *min == 0 && *max == Some(0),
        _ => false,
    }
}

// Whether a class has the byte, and no member but those of the other class.
fn is_lost(members: &Class, byte: u8, bytes: &[u8], class: &Class) -> Result<bool, AllocError>
    requires { IsClassOf bytes.now class.now.ranges.items }
    ensures yes { IfOk result (λ lost.
        IsTrue lost → IsLost bytes.now byte members.now.ranges.items) }
    ensures no { IfOk result (λ lost. lost ≡ false →
        IsLost bytes.now byte members.now.ranges.items → ⊥) }
{
    if !members.contains(u32::from(byte)) {
        return Ok(false);
    }
    let left = members.difference(class)?;
    Ok(left.bounds().is_none())
}
