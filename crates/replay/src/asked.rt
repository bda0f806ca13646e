//! A row of a regular expression: its options, its patterns, and what its matchers answer.
ghost use Rattle.std.specs.Prelude.{◌≤◌, length};
ghost use Rattle.grep_regex.specs.Views.{IsNamed};

use crate::case::{CaseError, express};
use crate::words::{Words, append};
use grep_matcher::{FindAt, Matcher};
use grep_regex::{Error, Naming, Regex, RegexMatcherBuilder};
use grep_replace::{CapturesAt, Template};
use std::alloc::{AllocError, Global};
use std::fmt::{Debug, Write};
use std::io;
use std::marker::Brand;

/// Compiles the patterns of a row with the options that letters name, and writes what the matchers
/// of the expression answer about the row's input, or why it is refused. Letters that name nothing
/// are reported in what is written.
pub(crate) fn write_answers<W: io::Write>(
    alloc: Global,
    letters: &str,
    words: &Words<'_>,
    output: &mut W,
) -> io::Result<()> {
    match builder(letters) {
        Ok(builder) => write_compiled(alloc, &builder, letters, words, output),
        Err(_) => writeln!(output, "err case"),
    }
}

// The builder with the options that letters name.
fn builder(letters: &str) -> Result<RegexMatcherBuilder, CaseError> {
    let mut builder = RegexMatcherBuilder::new();
    for letter in letters.chars() {
        if !matches!(letter, 'l' | 'C') {
            express(&mut builder, letter)?;
        }
    }
    Ok(builder)
}

// Writes what the matchers of the expression answer, or under `C` the debug form of its clone.
fn write_compiled<W: io::Write>(
    alloc: Global,
    builder: &RegexMatcherBuilder,
    letters: &str,
    words: &Words<'_>,
    output: &mut W,
) -> io::Result<()> {
    match compile(alloc, builder, letters.contains('l'), words) {
        Ok(regex) if letters.contains('C') => write_form(&regex, output),
        Ok(regex) => write_answer(alloc, &regex, words, output),
        Err(error) => writeln!(output, "err {error}"),
    }
}

// The expression of all patterns, or of literals.
fn compile(
    alloc: Global,
    builder: &RegexMatcherBuilder,
    are_literals: bool,
    words: &Words<'_>,
) -> Result<Regex, Error> {
    let patterns = patterns(alloc, words)?;
    match patterns.as_slice() {
        literals if are_literals => builder.build_literals(alloc, literals),
        [pattern] => builder.build(alloc, pattern),
        many => builder.build_many(alloc, many),
    }
}

fn patterns<'p>(alloc: Global, words: &'p Words<'_>) -> Result<Vec<&'p str>, AllocError> {
    let mut patterns = Vec::new(alloc);
    for argument in &words.arguments {
        patterns.push(argument.as_str())?;
    }
    Ok(patterns)
}

// Writes the debug form of a clone of an expression.
fn write_form<W: io::Write>(regex: &Regex, output: &mut W) -> io::Result<()> {
    let copy = regex.clone()?;
    writeln!(output, "{copy:?}")
}

// Writes what the matcher of an expression answers, and what its other matchers do.
fn write_answer<W: io::Write>(
    alloc: Global,
    regex: &Regex,
    words: &Words<'_>,
    output: &mut W,
) -> io::Result<()> {
    match plain_answer(alloc, regex, words) {
        Some(text) => {
            output.write_all(&text)?;
            writeln!(output, "{}", others_answer(alloc, regex, words, &text))
        }
        None => writeln!(output, "err answer"),
    }
}

// Whether the expression has a matcher of a literal, or `differs` if another matcher than the one
// that has answered this answers otherwise.
fn others_answer(alloc: Global, regex: &Regex, words: &Words<'_>, text: &[u8]) -> &'static str {
    if !named_answers(alloc, regex, words, text) {
        return "differs";
    }
    let Some(matcher) = regex.literal_matcher() else {
        return "no literal";
    };
    match answer(alloc, &matcher, regex, words) {
        Some(answer) if answer.as_slice() == text => "literal",
        _ => "differs",
    }
}

// What the matcher of an expression answers.
fn plain_answer(alloc: Global, regex: &Regex, words: &Words<'_>) -> Option<Vec<u8>> {
    match regex.matcher(alloc) {
        Ok(matcher) => answer(alloc, &matcher, regex, words),
        Err(_) => None,
    }
}

// Whether the matcher of an expression that has a type of its own answers this.
fn named_answers(alloc: Global, regex: &Regex, words: &Words<'_>, text: &[u8]) -> bool {
    match named_answer::<Brand>(alloc, regex, words) {
        Some(answer) => answer.as_slice() == text,
        None => false,
    }
}

fn named_answer<N: Naming>(alloc: Global, regex: &Regex, words: &Words<'_>) -> Option<Vec<u8>>
    requires { IsNamed N.options N.patterns regex.now }
{
    match regex.named_matcher::<N>(alloc) {
        Ok(matcher) => answer(alloc, &matcher, regex, words),
        Err(_) => None,
    }
}

// What a matcher answers: what a template makes of the groups of the first match from a position
// on, or without a template each question's answer.
fn answer<M: CapturesAt>(
    alloc: Global,
    matcher: &M,
    regex: &Regex,
    words: &Words<'_>,
) -> Option<Vec<u8>> {
    let haystack = words.input.as_slice();
    let start = words.number.unwrap_or_default();
    if start > haystack.len() {
        return None;
    }
    match words.template {
        Some(text) => {
            let template = template(alloc, regex, text)?;
            expand(alloc, matcher, haystack, start, &template)
        }
        None => Some(ask(alloc, matcher, haystack, start)?.into_bytes()),
    }
}

// What a matcher answers about a haystack: as one, from a position on, and as many lines.
fn ask<M: FindAt>(alloc: Global, matcher: &M, haystack: &[u8], start: usize) -> Option<String>
    requires { start ≤ length haystack.now }
{
    let mut text = String::new(alloc);
    let is_answered = add(&mut text, "find", matcher.find(haystack).ok())
        && add(&mut text, "find_at", matcher.find_at(haystack, start).ok())
        && add(&mut text, "is_match", matcher.is_match(haystack).ok())
        && add(
            &mut text,
            "find_candidate_line",
            matcher.find_candidate_line(haystack).ok(),
        )
        && add(
            &mut text,
            "line_terminator",
            Some(matcher.line_terminator()),
        )
        && add(&mut text, "lacks 0", Some(lacks_nul(matcher)));
    if is_answered { Some(text) } else { None }
}

// Adds an answer, and returns whether there is one, and memory for its text.
fn add<T: Debug + Drop>(text: &mut String, question: &str, answer: Option<T>) -> bool {
    match answer {
        Some(answer) => write!(text, "{question} {answer:?}; ").is_ok(),
        None => false,
    }
}

// Whether the byte 0 is one that the matcher knows no match to hold.
fn lacks_nul<M: Matcher>(matcher: &M) -> bool {
    match matcher.non_matching_bytes() {
        Some(set) => set.contains(0),
        None => false,
    }
}

// What a template makes of the groups that a matcher finds.
fn expand<M: CapturesAt>(
    alloc: Global,
    matcher: &M,
    haystack: &[u8],
    start: usize,
    template: &Template,
) -> Option<Vec<u8>>
    requires { start ≤ length haystack.now }
{
    let mut groups = Vec::new(alloc);
    matcher.captures_at(haystack, start, &mut groups).ok()??;
    let mut bytes = Vec::new(alloc);
    template.push_to(&mut bytes, haystack, &groups).ok()?;
    bytes.extend_from_slice(b"; ").ok()?;
    Some(bytes)
}

// The template of a row.
fn template(alloc: Global, regex: &Regex, text: &str) -> Option<Template> {
    let names = regex.group_names(alloc).ok()?;
    let mut bytes = Vec::new(alloc);
    append(&mut bytes, text).ok()?;
    Template::new(alloc, &bytes, &names).ok()
}
