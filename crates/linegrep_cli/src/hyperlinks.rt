//! Links to files.
ghost use Rattle.std.specs.Prelude.{◌≡◌, ◌≤◌, ◌&&◌, length, not, true, IfErr, IfOk, string_bytes};
ghost use Rattle.grep_printer.specs.HyperlinkFormats.{IsFormatOf, IsRefusedFormat};
ghost use Rattle.linegrep_cli.specs.HyperlinkOptions.{AreHyperlinks, IsEnvironment};
ghost use Rattle.linegrep_cli.specs.HyperlinkOptions.{IsFormatAccepted, IsFormatRefused, IsHost};
ghost use Rattle.linegrep_cli.specs.HyperlinkOptions.{IsTarget, IsWslPrefix};
ghost use Rattle.linegrep_cli.specs.HyperlinkOptions.{host_in, links_are_written, name_len};
ghost use Rattle.linegrep_cli.specs.HyperlinkOptions.{text_or_nothing};
ghost use Rattle.linegrep_files.specs.Failures.{has_cause};
ghost use Rattle.std.specs.List.{prefix_len};

use crate::colors::is_colored;
use crate::failures::Failure;
use crate::options::Options;
use crate::usage::arguments_failure;
use grep_printer::{HyperlinkConfig, HyperlinkEnvironment, HyperlinkFormat, HyperlinkFormatError};
use linegrep_files::Folders;
use linegrep_options::OptionId;
use std::alloc::{AllocError, Global};
use std::str;

// The file in which Linux has the name of the machine.
const HOSTNAME: &str = "/proc/sys/kernel/hostname";

const NO_VARIABLE: &str = "--hyperlink-format: the format has no variable, and isn't the name of \
    a format: default, none, file, grep+, kitty, macvim, textmate, vscode, vscode-insiders, \
    vscodium or cursor";

const NO_PATH: &str = "--hyperlink-format: the format doesn't have {path}";

const NO_LINE: &str = "--hyperlink-format: the format has {column}, and not {line}";

const NO_SCHEME: &str = "--hyperlink-format: the format doesn't begin with a scheme of URLs, which \
    are letters of ASCII, digits, +, - and . before a colon";

const UNCLOSED: &str = "--hyperlink-format: after a { there is no }; {{ stands for a single {";

const UNOPENED: &str = "--hyperlink-format: before a } there is no {; }} stands for a single }";

const UNKNOWN: &str = "is no variable; variables are path, host, line, column and wslprefix";

/// How links are written, if the options ask for links. An error is that the format isn't well
/// formed, or that there is no memory.
pub fn hyperlinks<S: Folders>(
    alloc: Global,
    system: &S,
    options: &Options<'_, '_>,
) -> Result<Option<HyperlinkConfig>, Failure>
    ensures hyperlinks { IfOk result (AreHyperlinks (S.facts system.now) options.now) }
    ensures accepted { IfOk result (λ _. IsFormatAccepted options.now) }
    ensures refused { IfErr result (λ failure. has_cause failure ≡ true
        → IsFormatRefused options.now) }
{
    let Some(text) = options.hyperlink_format else {
        return Ok(None);
    };
    let format = match HyperlinkFormat::parse(alloc, text) {
        Ok(format) => format,
        Err(HyperlinkFormatError::Memory) => return Err(Failure::out_of_memory()),
        Err(error) => return Err(format_failure(alloc, &error)),
    };
    if format.is_empty() {
        return Ok(None);
    }
    if !links_are_written(options) {
        return Ok(None);
    }
    match environment(alloc, system) {
        Ok(environment) => Ok(Some(HyperlinkConfig {
            format,
            environment,
        })),
        Err(_) => Err(Failure::out_of_memory()),
    }
}

// Whether there may be links: there are colors, and no messages in JSON.
fn links_are_written(options: &Options<'_, '_>) -> bool
    ensures { result ≡ links_are_written options.now }
{
    is_colored(options.color(), options.streams)
        && !(options.has(OptionId::Json) && !options.has(OptionId::Files))
}

// The failure that a format of links isn't well formed.
fn format_failure(alloc: Global, error: &HyperlinkFormatError<'_>) -> Failure {
    let text = match error {
        HyperlinkFormatError::Memory => return Failure::out_of_memory(),
        HyperlinkFormatError::NoVariable => NO_VARIABLE,
        HyperlinkFormatError::NoPath => NO_PATH,
        HyperlinkFormatError::NoLine => NO_LINE,
        HyperlinkFormatError::NoScheme => NO_SCHEME,
        HyperlinkFormatError::Unclosed => UNCLOSED,
        HyperlinkFormatError::Unopened => UNOPENED,
        HyperlinkFormatError::UnknownVariable(name) => return unknown_failure(alloc, name),
    };
    arguments_failure(alloc, text)
}

// The failure that a name isn't that of a variable.
fn unknown_failure(alloc: Global, name: &[u8]) -> Failure {
    let name = text_or_nothing(name);
    match format!(in alloc; "--hyperlink-format: {{{name}}} {UNKNOWN}") {
        Ok(text) => arguments_failure(alloc, text.as_str()),
        Err(_) => Failure::out_of_memory(),
    }
}

// What a format names of the environment. The only error is being out of memory.
fn environment<S: Folders>(alloc: Global, system: &S) -> Result<HyperlinkEnvironment, AllocError>
    ensures { IfOk result (IsEnvironment (S.facts system.now)) }
{
    let host = host(alloc, system)?;
    let wsl_prefix = wsl_prefix(alloc, system)?;
    Ok(HyperlinkEnvironment { host, wsl_prefix })
}

// The name of the machine, or nothing if the system doesn't say it in UTF-8.
fn host<S: Folders>(alloc: Global, system: &S) -> Result<String, AllocError>
    ensures { IfOk result (λ host. IsHost (S.facts system.now) (string_bytes host)) }
{
    match system.read(alloc, HOSTNAME) {
        Ok(bytes) => String::from_str(alloc, host_in(&bytes)),
        Err(_) => Ok(String::new(alloc)),
    }
}

// The name in the first line of a file, or nothing if it isn't in UTF-8.
fn host_in(bytes: &[u8]) -> &str
    ensures { result.now ≡ host_in bytes.now }
{
    text_or_nothing(&bytes[..name_len(bytes)])
}

// Bytes as a text, or nothing if they aren't UTF-8.
fn text_or_nothing(bytes: &[u8]) -> &str
    ensures { result.now ≡ text_or_nothing bytes.now }
{
    match str::from_utf8(bytes) {
        Ok(text) => text,
        Err(_) => "",
    }
}

// How many bytes come before the first line feed.
fn name_len(bytes: &[u8]) -> usize
    ensures value { result ≡ name_len bytes.now }
    ensures within { result ≤ length bytes.now }
{
    bytes.iter().take_while(|byte| **byte != b'\n').count()
}

// What comes before a path in the Windows Subsystem for Linux, or nothing outside of it.
fn wsl_prefix<S: Folders>(alloc: Global, system: &S) -> Result<String, AllocError>
    ensures { IfOk result (λ prefix. IsWslPrefix (S.facts system.now) (string_bytes prefix)) }
{
    match system.variable(alloc, "WSL_DISTRO_NAME") {
        Ok(Some(name)) => format!(in alloc; "wsl$/{name}"),
        _ => Ok(String::new(alloc)),
    }
}

/// Where a link to the file at a path leads: the path from the root of the system on, without
/// links. If the system doesn't say it, there is none.
pub fn link_target<S: Folders>(alloc: Global, system: &S, path: &str) -> Option<String>
    ensures { IsTarget (S.facts system.now) path.now result }
{
    match system.resolve(alloc, path) {
        Ok(target) if target.as_str().starts_with('/') => Some(target),
        _ => None,
    }
}
