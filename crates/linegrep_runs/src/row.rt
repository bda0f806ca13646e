//! A row: a command line, what its standard streams are, and what it says of the system.
use crate::streams::{Kept, Text};
use crate::system::{RowSystem, Said};
use grep_output::Writing;
use grep_searcher::Reading;
use linegrep_cli::{FileId, Streams, allows_colors, run};
use percent_encoding::percent_decode_str;
use std::alloc::{AllocError, Global};
use std::io;

/// A run, with what it reads and what it has written.
pub struct Row {
    arguments: Vec<Vec<u8>>,
    streams: Streams,
    said: Said,
    input: Text,
    output: Kept,
    errors: Kept,
}

// Written out, so that a caller's proof sees one call.
impl Drop for Row {
    fn drop(self) {
        let Row {
            arguments: _arguments,
            streams: _streams,
            said: _said,
            input: _input,
            output: _output,
            errors: _errors,
        } = self;
    }
}

impl Row {
    /// The row of a line: its words, with one space between them, are the arguments, but for those
    /// that begin with `<` or `>`: these say what a standard stream is, or what the system
    /// has. A `%` and two hexadecimal digits stand for a byte.
    pub fn read(rt: &HostRuntime, line: &str) -> io::Result<Row> {
        let mut row = Row {
            arguments: Vec::new(rt.alloc()),
            streams: Streams {
                is_terminal: false,
                allows_colors: false,
                has_input: false,
                input: None,
                output: None,
            },
            said: Said::new(rt.alloc()),
            input: Text::new(rt.alloc()),
            output: Kept::new(rt.alloc()),
            errors: Kept::new(rt.alloc()),
        };
        for word in line.split(' ') {
            row.add(rt, word)?;
        }
        Ok(row)
    }

    // Adds an argument, or what the row says of streams and of the system.
    fn add(&mut self, rt: &HostRuntime, word: &str) -> io::Result<()> {
        if let Some(path) = word.strip_prefix("<=") {
            self.streams.input = FileId::at(rt, path);
        } else if let Some(text) = word.strip_prefix("<$") {
            self.said.set_variable(rt.alloc(), text)?;
        } else if let Some(text) = word.strip_prefix("<:") {
            self.said.set_file(rt.alloc(), text)?;
        } else if let Some(text) = word.strip_prefix("<@") {
            self.said.set_time(rt.alloc(), text)?;
        } else if let Some(text) = word.strip_prefix("<+") {
            self.said.set_kind(rt.alloc(), text)?;
        } else if let Some(text) = word.strip_prefix('<') {
            self.streams.has_input = true;
            self.input.set(text)?;
        } else if let Some(kind) = word.strip_prefix('>') {
            self.set_output(rt, kind);
        } else {
            self.arguments.push(argument(rt.alloc(), word)?)?;
        }
        Ok(())
    }

    fn set_output(&mut self, rt: &HostRuntime, kind: &str) {
        match kind {
            "terminal" => self.streams.is_terminal = true,
            "full" => self.output.fail(io::ErrorKind::StorageFull),
            "closed" => self.output.fail(io::ErrorKind::BrokenPipe),
            path => self.streams.output = FileId::at(rt, path.strip_prefix('=').unwrap_or(path)),
        }
    }

    /// Runs it, and gives the status.
    pub fn run(&mut self, rt: &HostRuntime) -> u8 {
        let system = RowSystem {
            rt,
            said: &self.said,
        };
        let mut streams = self.streams;
        streams.allows_colors = allows_colors(rt.alloc(), &system);
        let input = Reading::new(&mut self.input);
        let output = Writing::new(&mut self.output);
        let mut errors = Writing::new(&mut self.errors);
        let ended = run(
            rt,
            &system,
            streams,
            &self.arguments,
            input,
            output,
            &mut errors,
        );
        ended.status
    }

    /// What it has written to standard output.
    pub fn output(&self) -> &[u8] {
        self.output.bytes()
    }

    /// What it has written to standard error.
    pub fn errors(&self) -> &[u8] {
        self.errors.bytes()
    }
}

fn argument(alloc: Global, word: &str) -> Result<Vec<u8>, AllocError> {
    let mut bytes = Vec::new(alloc);
    percent_decode_str(word).append_to(&mut bytes)?;
    Ok(bytes)
}
