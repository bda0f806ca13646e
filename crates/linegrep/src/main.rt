//! Searches files, or standard input, for lines that match a pattern, and writes them.
#![tactic(auto)]

use grep_output::Writing;
use grep_searcher::Reading;
use linegrep_cli::{FileId, Streams, allows_colors, run};
use std::env::{Env, FillError};
use std::io::IsTerminal;
use std::os::unix::fs::FileTypeExt;
use std::process::ExitCode;
use std::{fs, io};

fn main(rt: HostRuntime) -> ExitCode {
    match grep(&rt) {
        Ok(status) => ExitCode::from(status),
        Err(error) => {
            let _ = eprintln!(rt; "linegrep: {error}");
            ExitCode::from(2)
        }
    }
}

// Does what the arguments ask for, with the standard streams. An error is one of being out of
// memory.
fn grep(rt: &HostRuntime) -> io::Result<u8> {
    let arguments = arguments(rt)?;
    let stdout = rt.stdout();
    let is_terminal = stdout.is_terminal();
    let output = Writing::new(stdout);
    let input = Reading::new(rt.stdin());
    let mut errors = Writing::new(rt.stderr());
    let streams = Streams {
        is_terminal,
        allows_colors: allows_colors(rt.alloc(), rt),
        has_input: has_input(rt),
        input: FileId::at(rt, "/proc/self/fd/0"),
        output: FileId::at(rt, "/proc/self/fd/1"),
    };
    Ok(run(rt, rt, streams, &arguments, input, output, &mut errors).status)
}

// Whether standard input is a file, a pipe or a socket.
fn has_input(rt: &HostRuntime) -> bool {
    match fs::metadata(rt, "/proc/self/fd/0") {
        Ok(metadata) => {
            let kind = metadata.file_type();
            kind.is_file() || kind.is_fifo() || kind.is_socket()
        }
        Err(_) => false,
    }
}

// The arguments after the program's name, as the system has them.
fn arguments(rt: &HostRuntime) -> io::Result<Vec<Vec<u8>>> {
    let mut arguments = Vec::new(rt.alloc());
    for index in 1..usize::MAX {
        match argument(rt, index)? {
            Some(argument) => arguments.push(argument)?,
            None => break,
        }
    }
    Ok(arguments)
}

// The argument with an index, if there is one.
fn argument(rt: &HostRuntime, index: usize) -> io::Result<Option<Vec<u8>>> {
    let mut argument = vec![in rt.alloc(); 0u8; 256]?;
    for _ in 0..usize::BITS {
        match rt.arg(index, argument.as_mut_slice()) {
            Ok(length) => {
                argument.truncate(length);
                return Ok(Some(argument));
            }
            Err(FillError::TooLong) => argument.resize(argument.len().saturating_mul(2), 0)?,
            Err(FillError::NotPresent) => return Ok(None),
        }
    }
    Err(io::Error::from(io::ErrorKind::OutOfMemory))
}
