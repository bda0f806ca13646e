//! Reading patterns.
ghost use Rattle.std.specs.Prelude.{◌≡◌, ◌-◌, ◌^◌, IfOk, IfErr, map, min, option_map};
ghost use Rattle.std.specs.Prelude.{chars, string_bytes};
ghost use Rattle.regex_hir.specs.Meaning.{meaning, alt_all};
ghost use Rattle.regex_syntax.specs.Captures.{SameCaptures};
ghost use Rattle.regex_syntax.specs.Grammar.{read};
ghost use Rattle.regex_syntax.specs.Verdict.{Reads};
ghost use Rattle.grep_regex.specs.Groups.{names_in};
ghost use Rattle.grep_regex.specs.Patterns.{config_of, escape_of, text_of, read_re};
ghost use Rattle.grep_regex.specs.Patterns.{ArePatterns, most_groups};
ghost use Rattle.grep_regex.specs.Alike.{AreAlike};
ghost use Rattle.grep_regex.specs.Refusals.{IsTextError, IsTextsError};

use crate::error::Error;
use crate::options::Options;
use regex_hir::Hir;
use regex_syntax::{Config, Error as SyntaxError, Flags, Parsed, Span};
use std::alloc::{AllocError, Global};
use std::mem;

// The alternation of some patterns.
#[derive(Drop)]
pub(crate) struct Choice {
    pub(crate) hir: Hir,
    // The most groups that one of them has, group 0 included; `u32::MAX` if it has more.
    pub(crate) groups: u32,
}

// The alternation of what the texts are read as.
pub(crate) fn read_choice(
    alloc: Global,
    options: &Options,
    patterns: &[&str],
) -> Result<Choice, Error>
    ensures ok { IfOk result (λ choice. SameCaptures (meaning choice.hir)
        (alt_all (map (read_re options.now) (map (λ p. p.now) patterns.now)))) }
    ensures read { IfOk result (λ _. ArePatterns options.now (map (λ p. p.now) patterns.now)) }
    ensures groups { IfOk result (λ choice. choice.groups
        ≡ min (most_groups options.now (map (λ p. p.now) patterns.now)) (2 ^ 32 - 1)) }
    ensures error { IfErr result (IsTextsError options.now (map (λ p. p.now) patterns.now)) }
{
    let Branches { hirs, groups } = read_all(alloc, options, patterns)?;
    Ok(Choice {
        hir: choice_of(hirs),
        groups: u32::try_from(groups).unwrap_or(u32::MAX),
    })
}

// Some patterns, and the most groups that one of them has, group 0 included.
#[derive(Drop)]
struct Branches {
    hirs: Vec<Hir>,
    groups: usize,
}

// What each of the texts is read as.
fn read_all(alloc: Global, options: &Options, patterns: &[&str]) -> Result<Branches, Error>
    ensures ok { IfOk result (λ branches. AreAlike (map meaning branches.hirs.items)
        (map (read_re options.now) (map (λ p. p.now) patterns.now))) }
    ensures read { IfOk result (λ _. ArePatterns options.now (map (λ p. p.now) patterns.now)) }
    ensures groups { IfOk result (λ branches. branches.groups
        ≡ most_groups options.now (map (λ p. p.now) patterns.now)) }
    ensures error { IfErr result (IsTextsError options.now (map (λ p. p.now) patterns.now)) }
{
    let mut hirs = Vec::new(alloc);
    let mut groups: usize = 1;
    for i in 0..patterns.len() {
        let Parsed { hir, names } = match read(alloc, options, i, patterns[i]) {
            Ok(parsed) => parsed,
            Err(error) => return Err(error),
        };
        groups = groups.max(names.len());
        hirs.push(hir)?;
    }
    Ok(Branches { hirs, groups })
}

// The names of the groups of a text that is a pattern, by their numbers. So it fails only where
// memory is out.
pub(crate) fn read_names(
    alloc: Global,
    options: &Options,
    pattern: &str,
) -> Result<Vec<Option<String>>, AllocError>
    ensures { IfOk result (λ names. map (option_map string_bytes) names.items
        ≡ names_in (read (config_of options.now) (chars (text_of options.now pattern.now)))) }
{
    match read(alloc, options, 0, pattern) {
        Ok(mut parsed) => Ok(mem::replace(&mut parsed.names, Vec::new(alloc))),
        Err(_) => Err(AllocError),
    }
}

// The alternation of the patterns; of one, that pattern itself.
fn choice_of(mut hirs: Vec<Hir>) -> Hir
    ensures { SameCaptures (meaning result) (alt_all (map meaning hirs.items)) }
{
    if hirs.len() != 1 {
        return Hir::Alternation(hirs);
    }
    match hirs.pop() {
        Some(hir) => hir,
        None => Hir::Alternation(hirs),
    }
}

// What a text is read as, which is the pattern with this index.
fn read(alloc: Global, options: &Options, index: usize, pattern: &str) -> Result<Parsed, Error>
    ensures ok { IfOk result (λ p. Reads (config_of options.now) (text_of options.now pattern.now)
        p.hir (map (option_map string_bytes) p.names.items)) }
    ensures error { IfErr result (IsTextError (config_of options.now) index
        (text_of options.now pattern.now) pattern.now) }
{
    let config = config_of(options);
    if options.fixed_strings {
        return read_literal(alloc, &config, index, pattern);
    }
    match regex_syntax::parse(alloc, pattern, &config) {
        Ok(parsed) => Ok(parsed),
        Err(error) => Err(Error::of_parser(index, error)),
    }
}

// What a literal is read as, which is the pattern with this index. Its escape is read, and an error
// is one of the literal as a whole.
fn read_literal(
    alloc: Global,
    config: &Config,
    index: usize,
    literal: &str,
) -> Result<Parsed, Error>
    ensures ok { IfOk result (λ p. Reads config.now (escape_of literal.now) p.hir
        (map (option_map string_bytes) p.names.items)) }
    ensures error { IfErr result
        (IsTextError config.now index (escape_of literal.now) literal.now) }
{
    let text = regex_syntax::escape(alloc, literal)?;
    match regex_syntax::parse(alloc, text.as_str(), config) {
        Ok(parsed) => Ok(parsed),
        Err(error) => {
            let span = Span {
                start: 0,
                end: literal.len(),
            };
            Err(Error::of_parser(index, SyntaxError { span, ..error }))
        }
    }
}

fn config_of(options: &Options) -> Config
    ensures { result ≡ config_of options.now }
{
    Config {
        flags: Flags {
            case_insensitive: options.case_insensitive,
            multi_line: options.multi_line,
            dot_matches_new_line: options.dot_matches_new_line,
            swap_greed: options.swap_greed,
            unicode: options.unicode,
            crlf: options.crlf,
            ignore_whitespace: options.ignore_whitespace && !options.fixed_strings,
        },
        octal: options.octal,
        utf8: false,
        nest_limit: options.nest_limit,
    }
}
