//! The separators of fields, of groups of lines, and of the names in paths.
ghost use Rattle.std.specs.Prelude.{◌≡◌, false, true, IfErr, IfOk, codes, string_bytes};
ghost use Rattle.linegrep_cli.specs.PathSeparators.{first_byte, is_path_separator};
ghost use Rattle.linegrep_cli.specs.PathSeparators.{path_separator_of, refuses_path_separator};
ghost use Rattle.linegrep_cli.specs.PathSeparators.{with_separator, writes_paths_as_they_are};
ghost use Rattle.linegrep_cli.specs.SeparatorOptions.{IsContext, IsSeparators, asks_for_separators};
ghost use Rattle.linegrep_cli.specs.SeparatorOptions.{separator_text};
ghost use Rattle.linegrep_files.specs.Failures.{has_cause};

use crate::failures::Failure;
use crate::options::Options;
use crate::usage::arguments_failure;
use bstr::ByteVec;
use grep_printer::Separators;
use linegrep_options::OptionId;
use std::alloc::{AllocError, Global};

const MALFORMED: &str = "--path-separator: the separator is one byte of ASCII, or none";

/// The separators that the options ask for, if they ask for any. The only error is being out of
/// memory.
pub fn separators(
    alloc: Global,
    options: &Options<'_, '_>,
) -> Result<Option<Separators>, AllocError>
    ensures { IfOk result (IsSeparators options.now) }
{
    if !asks_for_separators(options) {
        return Ok(None);
    }
    let field_match = text(alloc, options.field_match_separator, ":")?;
    let field_context = text(alloc, options.field_context_separator, "-")?;
    let context = context(alloc, options)?;
    Ok(Some(Separators {
        field_match,
        field_context,
        context,
    }))
}

// Whether an option about separators is used.
fn asks_for_separators(options: &Options<'_, '_>) -> bool
    ensures { result ≡ asks_for_separators options.now }
{
    options.field_match_separator.is_some()
        || options.field_context_separator.is_some()
        || options.context_separator.is_some()
        || options.has(OptionId::NoContextSeparator)
}

// What comes between two groups of lines.
fn context(alloc: Global, options: &Options<'_, '_>) -> Result<Option<Vec<u8>>, AllocError>
    ensures { IfOk result (IsContext options.now) }
{
    if options.has(OptionId::NoContextSeparator) {
        return Ok(None);
    }
    Ok(Some(text(alloc, options.context_separator, "--")?))
}

// The text of an option with its escapes read, or another if it isn't used.
fn text(alloc: Global, option: Option<&str>, other: &str) -> Result<Vec<u8>, AllocError>
    ensures { IfOk result (λ text. text.items ≡ separator_text option.entry other.now) }
{
    match option {
        Some(text) => Vec::unescape_bytes(alloc, text),
        None => Vec::from_slice(alloc, other.as_bytes()),
    }
}

/// The byte that the options ask for in place of each slash of a path that is written, if they ask
/// for one. In JSON there is none. An error is that the separator isn't one byte of ASCII, or that
/// there is no memory.
pub fn path_separator(alloc: Global, options: &Options<'_, '_>) -> Result<Option<u8>, Failure>
    ensures separator { IfOk result (λ separator. separator ≡ path_separator_of options.now) }
    ensures known { IfOk result (λ _. refuses_path_separator options.now ≡ false) }
    ensures refused { IfErr result (λ failure. has_cause failure ≡ true
        → refuses_path_separator options.now ≡ true) }
{
    let Ok(text) = text(alloc, options.path_separator, "") else {
        return Err(Failure::out_of_memory());
    };
    if !is_path_separator(&text) {
        return Err(arguments_failure(alloc, MALFORMED));
    }
    if writes_paths_as_they_are(options) {
        Ok(None)
    } else {
        Ok(text.first().copied())
    }
}

// Whether some bytes are one byte of ASCII, or none.
fn is_path_separator(bytes: &[u8]) -> bool
    ensures { result ≡ is_path_separator bytes.now }
{
    match bytes {
        [] => true,
        [byte] => byte.is_ascii(),
        _ => false,
    }
}

// Whether paths are written in JSON, as they are.
fn writes_paths_as_they_are(options: &Options<'_, '_>) -> bool
    ensures { result ≡ writes_paths_as_they_are options.now }
{
    options.has(OptionId::Json) && !options.has(OptionId::Files)
}

/// A path with a separator in place of each slash. The only error is being out of memory.
pub fn with_separator(alloc: Global, path: &str, separator: u8) -> Result<String, AllocError>
    ensures { IfOk result (λ text. string_bytes text ≡ with_separator separator path.now) }
{
    path.chars()
        .map(|letter| if letter == '/' {
            separator as char
        } else {
            letter
        })
        .collect(alloc)
}
