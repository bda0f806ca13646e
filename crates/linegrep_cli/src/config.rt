//! The file of options that the environment names.
ghost use Rattle.std.specs.Prelude.{◌≡◌, ◌≢◌, ℕ, List, Ok, Some, IfOk, MatchBool, codes};
ghost use Rattle.std.specs.Prelude.{string_bytes};
ghost use Rattle.std.specs.IoError.{error_kind};
ghost use Rattle.std.specs.declared.io.ErrorKind.TheVariants.{OutOfMemory};
ghost use Rattle.linegrep_cli.specs.ConfigFiles.{IsConfig, IsWarned, other_name_text};
ghost use Rattle.linegrep_cli.specs.ConfigFiles.{skips_config, unread_text};

use crate::config_words::line_number;
use crate::failures::{Failure, say};
use crate::system::System;
use crate::usage::line_failure;
use grep_output::Output;
use linegrep_options::{Fault, OptionId, ParseError, Use, applies, parse};
use std::alloc::{AllocError, Global};
use std::fmt::Display;
use std::io;

/// What there is of a file of options.
#[derive(Drop)]
pub enum Config {
    /// The environment names no file.
    Absent,
    /// The file can't be read. The text says so, with the reason.
    Unreadable(String),
    /// The file is there.
    Present(ConfigFile),
}

/// A file of options.
#[derive(Drop)]
pub struct ConfigFile {
    /// The path.
    pub path: String,
    /// What the file has.
    pub contents: Vec<u8>,
}

/// Whether a command line is parsed without a file of options: `--no-config` says so, or a text is
/// asked for in place of a search.
pub fn skips_config(uses: &[Use<'_>]) -> bool
    ensures { result ≡ skips_config uses.now }
{
    applies(uses, OptionId::NoConfig)
        || applies(uses, OptionId::Help)
        || applies(uses, OptionId::ShortHelp)
        || applies(uses, OptionId::Version)
}

/// Reads the file of options that the environment of a system names by `RIPGREP_CONFIG_PATH`. An
/// error is one of being out of memory.
pub fn read_config<S: System>(alloc: Global, system: &S) -> Result<Config, AllocError>
    ensures { IfOk result (IsConfig (S.facts system.now)) }
{
    match system.variable(alloc, "RIPGREP_CONFIG_PATH") {
        Ok(Some(path)) => read_file(alloc, system, path),
        Ok(None) => Ok(Config::Absent),
        Err(error) if is_out_of_memory(&error) => Err(AllocError),
        Err(_) => {
            let text = other_name_text(alloc)?;
            Ok(Config::Unreadable(text))
        }
    }
}

// Reads the file of options at a path that the environment has. The empty path is that of none.
fn read_file<S: System>(alloc: Global, system: &S, path: String) -> Result<Config, AllocError>
    requires { (S.facts system.now).variables (codes "RIPGREP_CONFIG_PATH") (Ok (Some path)) }
    ensures { IfOk result (IsConfig (S.facts system.now)) }
{
    if path.as_str().is_empty() {
        return Ok(Config::Absent);
    }
    match system.read(alloc, path.as_str()) {
        Ok(contents) => Ok(Config::Present(ConfigFile { path, contents })),
        Err(error) if is_out_of_memory(&error) => Err(AllocError),
        Err(error) => {
            let text = unread_text(alloc, path.as_str(), &error)?;
            Ok(Config::Unreadable(text))
        }
    }
}

// Whether an error is that memory is out.
fn is_out_of_memory(error: &io::Error) -> bool
    ensures { MatchBool result (error_kind error.now ≡ OutOfMemory)
        (error_kind error.now ≢ OutOfMemory) }
{
    error.kind() == io::ErrorKind::OutOfMemory
}

// What is said if the name of the file isn't UTF-8.
fn other_name_text(alloc: Global) -> Result<String, AllocError>
    ensures { IfOk result (λ text. string_bytes text ≡ other_name_text) }
{
    String::from_str(
        alloc,
        "linegrep: RIPGREP_CONFIG_PATH: the value isn't UTF-8\n",
    )
}

// What is said if the file at a path can't be read.
fn unread_text<D: Display>(alloc: Global, path: &str, error: &D) -> Result<String, AllocError>
    ensures { IfOk result (λ text. (reason : List ℕ)
        × (string_bytes text ≡ unread_text path.now reason)) }
{
    let error = format!(in alloc; "{error}")?;
    let reason = without_number(error.as_str());
    let text = format!(in alloc; "linegrep: RIPGREP_CONFIG_PATH: {path}: {reason}\n")?;
    Ok(text)
}

// What a system says of an error, without the number of the error.
fn without_number(error: &str) -> &str {
    match error.split_once(" (os error ") {
        Some((words, _)) => words,
        None => error,
    }
}

/// Says that the file of options can't be read, unless a command line asks for no such message.
pub fn warn<E: Output>(uses: &[Use<'_>], text: &str, errors: &mut E)
    ensures { IsWarned E.step uses.now text.now errors.old errors.new }
{
    if !applies(uses, OptionId::NoMessages) {
        say(errors, text);
    }
}

impl ConfigFile {
    /// The failure that something is wrong with the arguments of the file. They are the first of
    /// some words. It has the number of the line.
    pub fn failure(&self, alloc: Global, words: &[Vec<u8>], fault: &Fault<'_>) -> Failure {
        let line = line_number(&self.contents, fault_place(alloc, words));
        line_failure(alloc, self.path.as_str(), line, fault)
    }
}

// How many words come before the first that can't be parsed, neither alone nor with the next word,
// which may be its value.
fn fault_place(alloc: Global, words: &[Vec<u8>]) -> usize {
    let mut is_value = false;
    for place in 0..words.len() {
        let later = words.get(place..).unwrap_or(&[]);
        if is_value {
            is_value = false;
        } else if !parses_first(alloc, later, 1) {
            if !parses_first(alloc, later, 2) {
                return place;
            }
            is_value = true;
        }
    }
    words.len()
}

// Whether there are so many words, and the first of them can be parsed.
fn parses_first(alloc: Global, words: &[Vec<u8>], count: usize) -> bool {
    match words.get(..count) {
        Some(first) => !matches!(parse(alloc, first), Err(ParseError::Words(_))),
        None => false,
    }
}
