//! The patterns that arguments name.
ghost use Rattle.std.specs.Prelude.{◌≡◌, ◌++◌, ◌∷◌, [], ℕ, List, IfErr, IfOk, Err, false, map};
ghost use Rattle.std.specs.Prelude.{string_bytes, true};
ghost use Rattle.std.specs.List.{concat};
ghost use Rattle.std.specs.Str.{IsUtf8};
ghost use Rattle.std.specs.Str.Lines.{lines};
ghost use Rattle.std.specs.declared.io.Error.{Error};
ghost use Rattle.grep_searcher.specs.Source.{Pulls, Reads};
ghost use Rattle.linegrep_cli.specs.NamedPatterns.{AreNamed, ArePatterns, AreUnnamed, IsFileRead};
ghost use Rattle.linegrep_cli.specs.NamedPatterns.{IsNamed, IsUnnamed, IsUnread, LackPatterns};
ghost use Rattle.linegrep_cli.specs.NamedPatterns.{name_patterns};
ghost use Rattle.linegrep_files.specs.Failures.{has_cause};

use crate::failures::Failure;
use crate::options::Options;
use crate::system::System;
use crate::usage::no_pattern_failure;
use crate::words::{is_escaped, is_input};
use grep_searcher::Source;
use linegrep_options::{OptionId, Use, is_same, last_place};
use std::alloc::{AllocError, Global};

// What is said of a file of patterns that isn't UTF-8.
const NOT_UTF8: &str = "stream did not contain valid UTF-8";

/// Reads the texts of the patterns. These are the texts of `-e`, and the lines of the files of
/// `-f`, in the order of these options; `-` is standard input. If neither option is used, the
/// pattern is the first operand. `system` is asked for the files. An error is that there is no
/// pattern, that it isn't UTF-8, that a file can't be read, or that there is no memory.
pub fn read_patterns<S: System, R: Source>(
    alloc: Global,
    system: &S,
    options: &Options<'_, '_>,
    input: &mut R,
) -> Result<Vec<String>, Failure>
    ensures patterns { IfOk result (λ patterns. ArePatterns R.remaining R.step
        (S.facts system.now).reads options.now input.old (map string_bytes patterns.items)
        input.new) }
    ensures refused { IfErr result (λ failure. has_cause failure ≡ true → LackPatterns R.remaining
        R.step (S.facts system.now).reads options.now input.old input.new) }
{
    if name_patterns(options.uses) {
        return read_named(alloc, system, options.uses, input);
    }
    match options.first_operand() {
        Some(pattern) if is_escaped(pattern) => {
            Err(Failure::of_cause(alloc, pattern, &"the argument isn't UTF-8"))
        }
        Some(pattern) => only_pattern(alloc, pattern),
        None => Err(no_pattern_failure(alloc)),
    }
}

// Whether uses of options name patterns.
fn name_patterns(uses: &[Use<'_>]) -> bool
    ensures { result ≡ name_patterns uses.now }
{
    last_place(uses, OptionId::Regexp) > 0 || last_place(uses, OptionId::File) > 0
}

// A list of one pattern.
fn only_pattern(alloc: Global, pattern: &str) -> Result<Vec<String>, Failure>
    ensures refused { IfErr result (λ failure. has_cause failure ≡ false) }
    ensures pattern { IfOk result (λ patterns. map string_bytes patterns.items ≡ pattern.now ∷ []) }
{
    let mut patterns = Vec::new(alloc);
    add_text(alloc, &mut patterns, pattern)?;
    Ok(patterns)
}

// The patterns that uses of options name.
fn read_named<S: System, R: Source>(
    alloc: Global,
    system: &S,
    uses: &[Use<'_>],
    input: &mut R,
) -> Result<Vec<String>, Failure>
    ensures patterns { IfOk result (λ patterns. AreNamed R.remaining R.step
        (S.facts system.now).reads uses.now input.old (map string_bytes patterns.items)
        input.new) }
    ensures refused { IfErr result (λ failure. has_cause failure ≡ true → AreUnnamed R.remaining
        R.step (S.facts system.now).reads uses.now input.old input.new) }
{
    let mut patterns = Vec::new(alloc);
    for one in uses {
        match add_use(alloc, system, one, &mut patterns, input) {
            Ok(()) => {}
            Err(failure) => return Err(failure),
        }
    }
    Ok(patterns)
}

// Adds the patterns that a use of an option names, if it names any.
fn add_use<S: System, R: Source>(
    alloc: Global,
    system: &S,
    one: &Use<'_>,
    patterns: &mut Vec<String>,
    input: &mut R,
) -> Result<(), Failure>
    ensures added { IfOk result (λ _. (own : List (List ℕ))
        × IsNamed R.remaining R.step (S.facts system.now).reads one.now input.old own input.new
        × (map string_bytes patterns.new.items ≡ map string_bytes patterns.old.items ++ own)) }
    ensures refused { IfErr result (λ failure. has_cause failure ≡ true → IsUnnamed R.remaining
        R.step (S.facts system.now).reads one.now input.old input.new) }
{
    let Some(value) = one.value else {
        return Ok(());
    };
    if is_same(one.id, OptionId::Regexp) {
        add_text(alloc, patterns, value)
    } else if is_same(one.id, OptionId::File) {
        add_file(alloc, system, patterns, value, input)
    } else {
        Ok(())
    }
}

// Adds the lines of a file.
fn add_file<S: System, R: Source>(
    alloc: Global,
    system: &S,
    patterns: &mut Vec<String>,
    file: &str,
    input: &mut R,
) -> Result<(), Failure>
    ensures added { IfOk result (λ _. (contents : List ℕ)
        × IsFileRead R.remaining R.step (S.facts system.now).reads file.now input.old contents
        input.new × IsUtf8 contents
        × (map string_bytes patterns.new.items
        ≡ map string_bytes patterns.old.items ++ lines contents)) }
    ensures unread { IfErr result (λ failure. has_cause failure ≡ true → IsUnread R.remaining
        R.step (S.facts system.now).reads file.now input.old input.new) }
{
    match read_text(alloc, system, file, input) {
        Ok(text) => add_lines(alloc, patterns, text.as_str()),
        Err(failure) => Err(failure),
    }
}

// The text of a file, of which `-` is standard input.
fn read_text<S: System, R: Source>(
    alloc: Global,
    system: &S,
    file: &str,
    input: &mut R,
) -> Result<String, Failure>
    ensures read { IfOk result (λ text. IsFileRead R.remaining R.step (S.facts system.now).reads
        file.now input.old (string_bytes text) input.new) }
    ensures unread { IfErr result (λ failure. has_cause failure ≡ true → IsUnread R.remaining
        R.step (S.facts system.now).reads file.now input.old input.new) }
{
    match read_contents(alloc, system, file, input) {
        Ok(contents) => match String::from_utf8(contents) {
            Ok(text) => Ok(text),
            Err(_) => Err(Failure::of_cause(alloc, file, &NOT_UTF8)),
        },
        Err(failure) => Err(failure),
    }
}

// What a file has.
fn read_contents<S: System, R: Source>(
    alloc: Global,
    system: &S,
    file: &str,
    input: &mut R,
) -> Result<Vec<u8>, Failure>
    ensures read { IfOk result (λ contents. IsFileRead R.remaining R.step
        (S.facts system.now).reads file.now input.old contents.items input.new) }
    ensures unread { IfErr result (λ failure. has_cause failure ≡ true → IsUnread R.remaining
        R.step (S.facts system.now).reads file.now input.old input.new) }
{
    if is_input(file) {
        return read_input(alloc, file, input);
    }
    match system.read(alloc, file) {
        Ok(contents) => Ok(contents),
        Err(error) => Err(Failure::of_cause(alloc, file, &error)),
    }
}

// What standard input gives up to its end. A failure names it by `name`.
fn read_input<R: Source>(alloc: Global, name: &str, input: &mut R) -> Result<Vec<u8>, Failure>
    ensures read { IfOk result (λ contents. (pieces : List (List ℕ))
        × (contents.items ≡ concat pieces)
        × Reads R.remaining R.step true input.old pieces input.new) }
    ensures failed { IfErr result (λ failure. has_cause failure ≡ true
        → (pieces : List (List ℕ)) × (mid : R) × (error : Error)
        × Pulls R.step input.old pieces mid × R.step mid (Err error) input.new) }
{
    let mut contents = Vec::new(alloc);
    let mut buffer = [0u8; 4096];
    for _ in 0..u64::MAX {
        match input.pull(&mut buffer) {
            Ok(0) => return Ok(contents),
            Ok(count) => match contents.extend_from_slice(&buffer[..count]) {
                Ok(()) => {}
                Err(_) => return Err(Failure::out_of_memory()),
            },
            Err(error) => return Err(Failure::of_cause(alloc, name, &error)),
        }
    }
    Err(Failure::out_of_memory())
}

fn add_lines(alloc: Global, texts: &mut Vec<String>, text: &str) -> Result<(), Failure>
    ensures added { IfOk result (λ _. map string_bytes texts.new.items
        ≡ map string_bytes texts.old.items ++ lines text.now) }
    ensures refused { IfErr result (λ failure. has_cause failure ≡ false) }
{
    for line in text.lines() {
        add_text(alloc, texts, line)?;
    }
    Ok(())
}

fn add_text(alloc: Global, texts: &mut Vec<String>, text: &str) -> Result<(), Failure>
    ensures refused { IfErr result (λ failure. has_cause failure ≡ false) }
    ensures added { IfOk result (λ _. map string_bytes texts.new.items
        ≡ map string_bytes texts.old.items ++ text.now ∷ []) }
{
    match push_text(alloc, texts, text) {
        Ok(()) => Ok(()),
        Err(_) => Err(Failure::out_of_memory()),
    }
}

fn push_text(alloc: Global, texts: &mut Vec<String>, text: &str) -> Result<(), AllocError>
    ensures { IfOk result (λ _. map string_bytes texts.new.items
        ≡ map string_bytes texts.old.items ++ text.now ∷ []) }
{
    texts.push(String::from_str(alloc, text)?)?;
    Ok(())
}
