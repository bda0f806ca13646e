//! The patterns that are searched for.
ghost use Rattle.std.specs.Prelude.{◌≡◌, ◌≢◌, ◌⊎◌, ◌∷◌, ◌++◌, [], codes, false, map, string_bytes};
ghost use Rattle.std.specs.Prelude.{true};
ghost use Rattle.std.specs.Prelude.{IfErr, IfOk, OnErr, OnOk, unwrap_or};
ghost use Rattle.std.specs.List.{list_any};
ghost use Rattle.grep_regex.specs.Sizes.{AreSized};
ghost use Rattle.grep_regex.specs.Views.{regex_options, regex_patterns, regex_programs};
ghost use Rattle.linegrep_cli.specs.OptionUses.{has};
ghost use Rattle.linegrep_cli.specs.PatternOptions.{has_capital, ignores_case, is_escape};
ghost use Rattle.linegrep_cli.specs.PatternOptions.{is_unicode};
ghost use Rattle.linegrep_cli.specs.PatternOptions.{joined_text, names_groups};
ghost use Rattle.linegrep_cli.specs.PatternOptions.{pattern_options, pattern_texts};
ghost use Rattle.linegrep_cli.specs.PatternOptions.{pattern_options, searched_texts};
ghost use Rattle.grep_regex.specs.Refusals.{IsRefusal};
ghost use Rattle.grep_regex.specs.declared.error.Error.{Error};
ghost use Rattle.grep_regex.specs.declared.error.Error.TheVariants.{Memory};
ghost use Rattle.linegrep_cli.specs.PatternOptions.{refuses_size_limits};
ghost use Rattle.linegrep_files.specs.Failures.{has_cause};
ghost use Rattle.linegrep_files.specs.Limits.{size_asked};

use crate::failures::{Failure, pattern_failure};
use crate::options::Options;
use grep_regex::{Regex, RegexMatcherBuilder};
use grep_searcher::LineTerminator;
use linegrep_files::{read_size, size_of};
use linegrep_options::OptionId;
use std::alloc::{AllocError, Global};

/// Compiles patterns as the options say. If files are listed, it compiles the literal that is
/// searched for each path. If a template may name groups, it compiles all patterns as one, each in
/// a group without a number. An error is that of a pattern, or that there is no memory.
pub fn compile(
    alloc: Global,
    options: &Options<'_, '_>,
    patterns: &[String],
) -> Result<Regex, Failure>
    ensures options { IfOk result (λ regex.
        regex_options regex ≡ pattern_options options.now patterns.now) }
    ensures patterns { IfOk result (λ regex.
        regex_patterns regex ≡ pattern_texts options.now patterns.now) }
    ensures sized { IfOk result (λ regex. AreSized (pattern_options options.now patterns.now)
        (pattern_texts options.now patterns.now) (regex_programs regex)) }
    ensures refused { IfErr result (λ failure. has_cause failure ≡ true
        → (error : Error) × (error ≢ Memory)
        × (IsRefusal (pattern_options options.now patterns.now)
        (pattern_texts options.now patterns.now) error
        ⊎ IsRefusal (pattern_options options.now patterns.now) (map string_bytes patterns.now)
        error)) }
{
    match texts_of(alloc, patterns) {
        Ok(texts) => compile_searched(alloc, options, &builder(options, patterns), &texts),
        Err(_) => Err(Failure::out_of_memory()),
    }
}

// Compiles patterns. If there are several and a template may name groups, they are compiled as one.
fn compile_searched(
    alloc: Global,
    options: &Options<'_, '_>,
    builder: &RegexMatcherBuilder,
    texts: &[&str],
) -> Result<Regex, Failure>
    ensures options { IfOk result (λ regex. regex_options regex ≡ builder.now) }
    ensures patterns { IfOk result (λ regex. regex_patterns regex
        ≡ searched_texts options.now (map (λ text. text.now) texts.now)) }
    ensures sized { IfOk result (λ regex. AreSized builder.now
        (searched_texts options.now (map (λ text. text.now) texts.now)) (regex_programs regex)) }
    ensures refused { IfErr result (λ failure. has_cause failure ≡ true
        → (error : Error) × (error ≢ Memory)
        × (IsRefusal builder.now (searched_texts options.now (map (λ text. text.now) texts.now))
        error ⊎ IsRefusal builder.now (map (λ text. text.now) texts.now) error)) }
{
    if texts.len() > 1 && names_groups(options) {
        compile_joined(alloc, builder, texts)
    } else {
        compile_with(alloc, builder, texts)
    }
}

// Whether a template may name groups of the patterns.
fn names_groups(options: &Options<'_, '_>) -> bool
    ensures { result ≡ names_groups options.now }
{
    match options.replace {
        Some(text) => text.as_bytes().contains(&b'$') && !options.has(OptionId::FixedStrings),
        None => false,
    }
}

// Compiles patterns as one pattern. Each of them has to be a pattern by itself too.
fn compile_joined(
    alloc: Global,
    builder: &RegexMatcherBuilder,
    texts: &[&str],
) -> Result<Regex, Failure>
    ensures options { IfOk result (λ regex. regex_options regex ≡ builder.now) }
    ensures patterns { IfOk result (λ regex.
        regex_patterns regex ≡ joined_text (map (λ text. text.now) texts.now) ∷ []) }
    ensures sized { IfOk result (λ regex. AreSized builder.now
        (joined_text (map (λ text. text.now) texts.now) ∷ []) (regex_programs regex)) }
    ensures refused { IfErr result (λ failure. has_cause failure ≡ true
        → (error : Error) × (error ≢ Memory)
        × (IsRefusal builder.now (joined_text (map (λ text. text.now) texts.now) ∷ []) error
        ⊎ IsRefusal builder.now (map (λ text. text.now) texts.now) error)) }
{
    compile_with(alloc, builder, texts)?;
    match joined_text(alloc, texts) {
        Ok(text) => compile_with(alloc, builder, &[text.as_str()]),
        Err(_) => Err(Failure::out_of_memory()),
    }
}

// The text of several patterns as one pattern: each of them is in a group that has no number.
fn joined_text(alloc: Global, texts: &[&str]) -> Result<String, AllocError>
    ensures { IfOk result (λ text.
        string_bytes text ≡ joined_text (map (λ text. text.now) texts.now)) }
{
    let mut joined = String::new(alloc);
    let Some((first, later)) = texts.split_first() else {
        return Ok(joined);
    };
    push_group(&mut joined, "(?:", first)?;
    for text in later {
        push_group(&mut joined, "|(?:", text)?;
    }
    Ok(joined)
}

// Pushes what a group begins with, its text, and its end.
fn push_group(joined: &mut String, start: &str, text: &str) -> Result<(), AllocError>
    ensures { OnOk result (string_bytes joined.new
        ≡ string_bytes joined.old ++ (start.now ++ (text.now ++ codes ")"))) }
{
    joined.push_str(start)?;
    joined.push_str(text)?;
    joined.push_str(")")
}

fn compile_with(
    alloc: Global,
    builder: &RegexMatcherBuilder,
    texts: &[&str],
) -> Result<Regex, Failure>
    ensures options { IfOk result (λ regex. regex_options regex ≡ builder.now) }
    ensures patterns { IfOk result
        (λ regex. regex_patterns regex ≡ map (λ text. text.now) texts.now) }
    ensures sized { IfOk result (λ regex.
        AreSized builder.now (map (λ text. text.now) texts.now) (regex_programs regex)) }
    ensures refused { IfErr result (λ failure. has_cause failure ≡ true
        → (error : Error) × (error ≢ Memory)
        × IsRefusal builder.now (map (λ text. text.now) texts.now) error) }
{
    match builder.build_many(alloc, texts) {
        Ok(regex) => Ok(regex),
        Err(error) => Err(pattern_failure(alloc, texts, &error)),
    }
}

/// The texts of some strings.
pub fn texts_of<'p>(alloc: Global, patterns: &'p [String]) -> Result<Vec<&'p str>, AllocError>
    ensures { IfOk result (λ texts.
        map (λ text. text.now) texts.items ≡ map string_bytes patterns.entry.now) }
{
    let mut texts = Vec::new(alloc);
    for pattern in patterns {
        texts.push(pattern.as_str())?;
    }
    Ok(texts)
}

// How the patterns are compiled. If a match may run over lines, no terminator is declared.
fn builder(options: &Options<'_, '_>, patterns: &[String]) -> RegexMatcherBuilder
    ensures { result ≡ pattern_options options.now patterns.now }
{
    let mut builder = RegexMatcherBuilder::new();
    builder
        .multi_line(true)
        .case_insensitive(ignores_case(options, patterns))
        .fixed_strings(options.has(OptionId::FixedStrings))
        .word(options.has(OptionId::WordRegexp))
        .whole_line(options.has(OptionId::LineRegexp))
        .dot_matches_new_line(
            options.has(OptionId::Multiline) && options.has(OptionId::MultilineDotall),
        )
        .unicode(is_unicode(options));
    limit_size(&mut builder, options);
    match options.line_terminator() {
        LineTerminator::Crlf => {
            builder.crlf(true);
        }
        LineTerminator::Byte(byte) => {
            builder.line_terminator(Some(byte));
        }
    }
    if options.has(OptionId::Multiline) {
        builder.line_terminator(None);
    }
    builder
}

// Sets how many bytes the tables of patterns may have, if an option says it.
fn limit_size(builder: &mut RegexMatcherBuilder, options: &Options<'_, '_>)
    ensures { builder.new ≡ record builder.old {
      size_limit = unwrap_or (size_asked options.now.regex_size_limit) builder.old.size_limit;
    } }
{
    if let Some(bytes) = size_asked(options) {
        builder.size_limit(bytes as usize);
    }
}

// The limit of bytes that an option says.
fn size_asked(options: &Options<'_, '_>) -> Option<u64>
    ensures { result ≡ size_asked options.now.regex_size_limit }
{
    match options.regex_size_limit {
        Some(text) => size_of(text),
        None => None,
    }
}

/// Checks that the limits of sizes which options set are sizes. That one isn't is the only error.
pub fn check_size_limits(alloc: Global, options: &Options<'_, '_>) -> Result<(), Failure>
    ensures known { OnOk result (refuses_size_limits options.now ≡ false) }
    ensures refused { OnErr result (refuses_size_limits options.now ≡ true) }
{
    read_size(alloc, options.regex_size_limit)?;
    read_size(alloc, options.dfa_size_limit)?;
    Ok(())
}

// Whether classes, case folding and words are Unicode's.
fn is_unicode(options: &Options<'_, '_>) -> bool
    ensures { result ≡ is_unicode options.now }
{
    !options.has(OptionId::NoUnicode) && !options.has(OptionId::NoPcre2Unicode)
}

// Whether letters match in either case.
fn ignores_case(options: &Options<'_, '_>, patterns: &[String]) -> bool
    ensures { result ≡ ignores_case options.now patterns.now }
{
    let is_literal = options.has(OptionId::FixedStrings);
    options.has(OptionId::IgnoreCase)
        || options.has(OptionId::SmartCase) && !have_capital(patterns, is_literal)
}

// Whether one of some patterns has a capital letter.
fn have_capital(patterns: &[String], is_literal: bool) -> bool
    ensures { result ≡ list_any (λ text. has_capital is_literal (string_bytes text)) patterns.now }
{
    patterns
        .iter()
        .any(|text| has_capital(text.as_str(), is_literal))
}

// Whether a pattern has a capital letter that isn't right after an escape.
#[tactic(auto, unfolding(crate::specs::PatternOptions::has_capital))]
fn has_capital(pattern: &str, is_literal: bool) -> bool
    ensures { result ≡ has_capital is_literal pattern.now }
{
    let mut is_escaped = false;
    for letter in pattern.chars() {
        if is_escaped {
            is_escaped = false;
            continue;
        }
        if letter.is_uppercase() {
            return true;
        }
        is_escaped = is_escape(letter, is_literal);
    }
    false
}

// Whether a letter takes its meaning from the one after it.
fn is_escape(letter: char, is_literal: bool) -> bool
    ensures { result ≡ is_escape is_literal letter }
{
    !is_literal && letter == '\\'
}
