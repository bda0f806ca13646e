//! The program, by its arguments.
ghost use Rattle.std.specs.Prelude.{◌≡◌, ◌&&◌, IfOk, None, is_some, nat_lt};
ghost use Rattle.std.specs.Prelude.{string_bytes};
ghost use Rattle.std.specs.List.{count_by};
ghost use Rattle.linegrep_cli.specs.OperandRuns.{is_input};
ghost use Rattle.grep_output.specs.PendingTexts.{Flushes};
ghost use Rattle.linegrep_cli.specs.ConfigFiles.{IsConfig, SeeksConfig};
ghost use Rattle.linegrep_cli.specs.ProgramRuns.{IsAnswered, IsOptionsRun, IsParsedRun};
ghost use Rattle.linegrep_cli.specs.ProgramRuns.{IsProgramRun};
ghost use Rattle.linegrep_cli.specs.ProgramRuns.{exclude_each_other};
ghost use Rattle.linegrep_cli.specs.ProgramRuns.{kind_asked, searches_named_input, text_asked};
ghost use Rattle.linegrep_cli.specs.Worlds.{world_of};
ghost use Rattle.linegrep_cli.specs.WrittenRuns.{DoesAsAsked};
ghost use Rattle.linegrep_options.specs.OptionUses.{places_of, values_of};
ghost use Rattle.linegrep_options.specs.ParsedWords.{AreRead};
ghost use Rattle.std.specs.Option.{option_map};

use crate::config::{Config, ConfigFile, read_config, skips_config, warn};
use crate::config_words::all_words;
use crate::failures::output_failure;
use crate::listing::list_all;
use crate::lists::Lists;
use crate::named_patterns::read_patterns;
use crate::options::Options;
use crate::patterns::texts_of;
use crate::search::{Ended, search_all};
use crate::system::System;
use crate::usage::{arguments_failure, fault_failure};
use crate::words::{is_input, names_input, texts};
use grep_output::{Output, write_all};
use grep_searcher::Source;
use linegrep_files::{FileId, type_list};
use linegrep_help::{generated_text, help_text, short_text, version_text};
use linegrep_options::{OptionId, ParseError, Parsed, Use, last_value, parse};
use std::alloc::{AllocError, Global};
use std::fmt::Display;
use std::io;

/// What a run knows of its standard streams besides their bytes.
#[derive(Clone, Copy)]
pub struct Streams {
    /// Whether the output is a terminal.
    pub is_terminal: bool,
    /// Whether the environment allows colors on a terminal, as `allows_colors` says.
    pub allows_colors: bool,
    /// Whether the input is a file, a pipe or a socket, and not a terminal or another device. Then
    /// it is searched if there is no path.
    pub has_input: bool,
    /// The file that the input comes from, if it is a regular one.
    pub input: Option<FileId>,
    /// The file that the output goes to, if it is a regular one. Its lines aren't searched.
    pub output: Option<FileId>,
}

/// Does what the arguments ask for. They are without the program's name, and need not be UTF-8.
///
/// If the environment of `system` names a file of options by `RIPGREP_CONFIG_PATH`, its arguments
/// come before these, unless these have `--no-config` or ask for help or the version. It searches
/// the files at the paths of the arguments and in their folders. If there are no paths, it searches
/// what `input` gives, or the files of the current folder. It writes to `output` what is found, and
/// says on `errors` what goes wrong. `system` is asked about the paths.
///
/// The result has the status that the program exits with: 0 if a line matches, or if help, the
/// version, a generated text or the list of types is written; 1 if no line matches; and 2 if
/// something can't be read or written, or the arguments are wrong. With `-q` it is 0 once a line
/// matches, and it is 0 if nobody reads the output any more. The result has the streams too.
///
/// If the status isn't 2, and `output` says which bytes it holds, it has taken exactly what the
/// arguments ask for, unless nobody reads it any more: help, the version, a generated text or the
/// list of types; the paths of the files that are listed; or else the texts of the searches, one
/// after the other, and then the totals of `--stats` or `--json`. Of runs with `-q` less is
/// promised.
pub fn run<S: System, R: Source + Drop, W: Output + Drop, E: Output>(
    rt: &HostRuntime,
    system: &S,
    streams: Streams,
    arguments: &[Vec<u8>],
    input: R,
    output: W,
    errors: &mut E,
) -> Ended<R, W>
    ensures run { IsProgramRun ⟦<AllocError as Display>⟧.output
        (world_of S.System.own S.Open S.Folders S.File.Read R.Source W.Output E.Output)
        system.now arguments.now streams input output errors.old result errors.new }
    ensures written { DoesAsAsked
        (world_of S.System.own S.Open S.Folders S.File.Read R.Source W.Output E.Output)
        system.now arguments.now streams input output errors.old result }
{
    run_arguments(rt, system, streams, arguments, input, output, errors)
}

// Does what the arguments ask for.
fn run_arguments<S: System, R: Source + Drop, W: Output + Drop, E: Output>(
    rt: &HostRuntime,
    system: &S,
    streams: Streams,
    arguments: &[Vec<u8>],
    input: R,
    output: W,
    errors: &mut E,
) -> Ended<R, W>
    ensures { IsProgramRun ⟦<AllocError as Display>⟧.output
        (world_of S.System.own S.Open S.Folders S.File.Read R.Source W.Output E.Output)
        system.now arguments.now streams input output errors.old result errors.new }
{
    match parse(rt.alloc(), arguments) {
        Ok(parsed) => run_command(
            rt, system, streams, arguments, &parsed, input, output, errors,
        ),
        Err(ParseError::Words(fault)) => {
            let failure = fault_failure(rt.alloc(), arguments, &fault);
            Ended::refused(errors, &failure, input, output)
        }
        Err(ParseError::Memory) => Ended::without_memory(errors, input, output),
    }
}

// Does what a command line asks for, with the file of options before it, if there is one.
fn run_command<S: System, R: Source + Drop, W: Output + Drop, E: Output>(
    rt: &HostRuntime,
    system: &S,
    streams: Streams,
    arguments: &[Vec<u8>],
    parsed: &Parsed<'_>,
    input: R,
    output: W,
    errors: &mut E,
) -> Ended<R, W>
    requires { AreRead arguments.now parsed.now }
    ensures { IsProgramRun ⟦<AllocError as Display>⟧.output
        (world_of S.System.own S.Open S.Folders S.File.Read R.Source W.Output E.Output)
        system.now arguments.now streams input output errors.old result errors.new }
{
    if skips_config(&parsed.uses) {
        return run_parsed(rt, system, streams, parsed, input, output, errors);
    }
    match read_config(rt.alloc(), system) {
        Ok(Config::Absent) => run_parsed(rt, system, streams, parsed, input, output, errors),
        Ok(Config::Unreadable(text)) => {
            warn(&parsed.uses, text.as_str(), errors);
            run_parsed(rt, system, streams, parsed, input, output, errors)
        }
        Ok(Config::Present(file)) => {
            run_with_file(rt, system, streams, &file, arguments, input, output, errors)
        }
        Err(_) => Ended::without_memory(errors, input, output),
    }
}

// Does what the arguments of a file of options ask for, and after them those of a command line.
fn run_with_file<S: System, R: Source + Drop, W: Output + Drop, E: Output>(
    rt: &HostRuntime,
    system: &S,
    streams: Streams,
    file: &ConfigFile,
    arguments: &[Vec<u8>],
    input: R,
    output: W,
    errors: &mut E,
) -> Ended<R, W>
    requires command { SeeksConfig arguments.now }
    requires file { IsConfig (S.facts system.now) (Config.Present file.now) }
    ensures { IsProgramRun ⟦<AllocError as Display>⟧.output
        (world_of S.System.own S.Open S.Folders S.File.Read R.Source W.Output E.Output)
        system.now arguments.now streams input output errors.old result errors.new }
{
    let Ok(words) = all_words(rt.alloc(), &file.contents, arguments) else {
        return Ended::without_memory(errors, input, output);
    };
    match parse(rt.alloc(), &words) {
        Ok(parsed) => run_parsed(rt, system, streams, &parsed, input, output, errors),
        Err(ParseError::Words(fault)) => {
            Ended::refused(
                errors,
                &file.failure(rt.alloc(), &words, &fault),
                input,
                output,
            )
        }
        Err(ParseError::Memory) => Ended::without_memory(errors, input, output),
    }
}

// Does what parsed arguments ask for.
fn run_parsed<S: System, R: Source + Drop, W: Output + Drop, E: Output>(
    rt: &HostRuntime,
    system: &S,
    streams: Streams,
    parsed: &Parsed<'_>,
    input: R,
    output: W,
    errors: &mut E,
) -> Ended<R, W>
    ensures { IsParsedRun ⟦<AllocError as Display>⟧.output
        (world_of S.System.own S.Open S.Folders S.File.Read R.Source W.Output E.Output)
        system.now parsed.now streams input output errors.old result errors.new }
{
    let Ok(operands) = texts(rt.alloc(), &parsed.operands) else {
        return Ended::without_memory(errors, input, output);
    };
    let Ok(operands) = texts_of(rt.alloc(), &operands) else {
        return Ended::without_memory(errors, input, output);
    };
    let Ok(lists) = Lists::read(rt.alloc(), &parsed.uses, operands) else {
        return Ended::without_memory(errors, input, output);
    };
    let options = Options::new(&parsed.uses, &lists, streams);
    run_options(rt, system, &lists, &options, input, output, errors)
}

// Writes a text as the answer. If that fails, standard error gets a message, unless nobody reads
// the text.
fn write_answer<R, W: Output, E: Output>(
    alloc: Global,
    text: &str,
    input: R,
    mut output: W,
    errors: &mut E,
) -> Ended<R, W>
    ensures { IsAnswered W.step E.step text.now input output errors.old result errors.new }
{
    match write_whole(&mut output, text) {
        Err(error) if error.kind() != io::ErrorKind::BrokenPipe => {
            Ended::refused(errors, &output_failure(alloc, &error), input, output)
        }
        _ => Ended {
            status: 0,
            input,
            output,
        },
    }
}

// Writes and flushes a text.
fn write_whole<W: Output>(output: &mut W, text: &str) -> io::Result<()>
    ensures { Flushes W.step output.old text.now result output.new }
{
    write_all(output, text.as_bytes())?;
    output.flush()
}

// Does what the options ask for.
fn run_options<S: System, R: Source + Drop, W: Output + Drop, E: Output>(
    rt: &HostRuntime,
    system: &S,
    lists: &Lists<'_>,
    options: &Options<'_, '_>,
    input: R,
    output: W,
    errors: &mut E,
) -> Ended<R, W>
    requires unrestricted { lists.now.unrestricted.items
        ≡ places_of OptionId.Unrestricted 1 options.now.uses.now }
    requires files { lists.now.pattern_files.items ≡ values_of OptionId.File options.now.uses.now }
    ensures { IsOptionsRun ⟦<AllocError as Display>⟧.output
        (world_of S.System.own S.Open S.Folders S.File.Read R.Source W.Output E.Output)
        system.now options.now input output errors.old result errors.new }
{
    let Ok(asked) = text_asked(rt.alloc(), options) else {
        return Ended::without_memory(errors, input, output);
    };
    match &asked {
        Some(text) => write_answer(rt.alloc(), text.as_str(), input, output, errors),
        None => run_unanswered(rt, system, lists, options, input, output, errors),
    }
}

// Does what the options ask for, if that is none of the texts.
fn run_unanswered<S: System, R: Source + Drop, W: Output + Drop, E: Output>(
    rt: &HostRuntime,
    system: &S,
    lists: &Lists<'_>,
    options: &Options<'_, '_>,
    mut input: R,
    output: W,
    errors: &mut E,
) -> Ended<R, W>
    requires unanswered { text_asked options.now ≡ None }
    requires unrestricted { lists.now.unrestricted.items
        ≡ places_of OptionId.Unrestricted 1 options.now.uses.now }
    requires files { lists.now.pattern_files.items ≡ values_of OptionId.File options.now.uses.now }
    ensures { IsOptionsRun ⟦<AllocError as Display>⟧.output
        (world_of S.System.own S.Open S.Folders S.File.Read R.Source W.Output E.Output)
        system.now options.now input output errors.old result errors.new }
{
    if options.has(OptionId::TypeList) {
        return match type_list(rt.alloc(), &options.types) {
            Ok(list) => write_answer(rt.alloc(), list.as_str(), input, output, errors),
            Err(failure) => Ended::refused(errors, &failure, input, output),
        };
    }
    if let Some(fault) = fault_of(lists, options) {
        return Ended::refused(errors, &arguments_failure(rt.alloc(), fault), input, output);
    }
    if options.has(OptionId::Files) {
        return list_all(rt, system, options, input, output, errors);
    }
    match read_patterns(rt.alloc(), system, options, &mut input) {
        Ok(patterns) => search_all(rt, system, options, &patterns, input, output, errors),
        Err(failure) => Ended::refused(errors, &failure, input, output),
    }
}

// The text that is asked for in place of a search, if one is. The only error is being out of
// memory.
fn text_asked(alloc: Global, options: &Options<'_, '_>) -> Result<Option<String>, AllocError>
    ensures { IfOk result (λ text. option_map string_bytes text ≡ text_asked options.now) }
{
    if options.has(OptionId::Help) {
        Ok(Some(help_text(alloc)?))
    } else if options.has(OptionId::ShortHelp) {
        Ok(Some(String::from_str(alloc, short_text())?))
    } else if options.has(OptionId::Version) {
        Ok(Some(String::from_str(alloc, version_text())?))
    } else if options.has(OptionId::Generate) {
        Ok(Some(generated_text(alloc, kind_asked(options.uses))?))
    } else {
        Ok(None)
    }
}

// The kind of the text that is to be generated, if one is.
fn kind_asked<'w>(uses: &[Use<'w>]) -> &'w str
    ensures { result.now ≡ kind_asked uses.now }
{
    match last_value(uses, OptionId::Generate) {
        Some(kind) => kind,
        None => "",
    }
}

// What is wrong with options that are each right, and don't go together, if something is.
fn fault_of(lists: &Lists<'_>, options: &Options<'_, '_>) -> Option<&'static str>
    requires unrestricted { lists.now.unrestricted.items
        ≡ places_of OptionId.Unrestricted 1 options.now.uses.now }
    requires files { lists.now.pattern_files.items ≡ values_of OptionId.File options.now.uses.now }
    ensures { is_some result ≡ exclude_each_other options.now }
{
    let inputs = count_inputs(&lists.pattern_files);
    if lists.unrestricted.len() > 3 {
        Some("-u can be given three times at most")
    } else if inputs > 1 {
        Some("patterns can be read from standard input once")
    } else if is_read_and_searched(inputs, options) {
        Some("patterns are read from standard input, so that it can't be searched")
    } else {
        None
    }
}

// How many of some files are standard input.
fn count_inputs(files: &[&str]) -> usize
    ensures { result ≡ count_by (λ file. is_input file.now) files.now }
{
    files.iter().filter(|file| is_input(file)).count()
}

// Whether patterns are read from standard input, which is a path that is searched too.
fn is_read_and_searched(inputs: usize, options: &Options<'_, '_>) -> bool
    ensures { result ≡ (nat_lt 0 inputs && searches_named_input options.now) }
{
    inputs > 0 && searches_named_input(options)
}

// Whether standard input is searched, as one of the paths.
fn searches_named_input(options: &Options<'_, '_>) -> bool
    ensures { result ≡ searches_named_input options.now }
{
    !options.has(OptionId::Files) && names_input(options.paths())
}
