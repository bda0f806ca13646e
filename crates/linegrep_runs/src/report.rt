//! What a run comes to, as text.
use std::io::Write;
use std::{io, str};

/// Writes a command line after a `$`, the lines of what its run has written to standard output,
/// each after a `|`, those of standard error, each after a `!`, and its status after a `?`.
pub fn report<W: Write>(
    writer: &mut W,
    line: &str,
    output: &[u8],
    errors: &[u8],
    status: u8,
) -> io::Result<()> {
    writeln!(writer, "$ {line}")?;
    write_lines(writer, b"|", output)?;
    write_lines(writer, b"!", errors)?;
    writeln!(writer, "? {status}")
}

// Writes each line of a text after a mark.
fn write_lines<W: Write>(writer: &mut W, mark: &[u8], text: &[u8]) -> io::Result<()> {
    for line in text.split_inclusive(|byte| *byte == b'\n') {
        writer.write_all(mark)?;
        write_line(writer, line)?;
    }
    Ok(())
}

// Writes a line, without the times that are in it, and says so if it doesn't end in a line feed.
fn write_line<W: Write>(writer: &mut W, line: &[u8]) -> io::Result<()> {
    match str::from_utf8(line) {
        Ok(text) => write_without_times(writer, after_time(text))?,
        Err(_) => writer.write_all(line)?,
    }
    if line.ends_with(b"\n") {
        Ok(())
    } else {
        writer.write_all(b"\n\\ without a line feed\n")
    }
}

// A line without the time at its start, if it says how long searches took.
fn after_time(line: &str) -> &str {
    match line.split_once(" seconds ") {
        Some((_, "spent searching\n")) => "seconds spent searching\n",
        Some((_, "total\n")) => "seconds total\n",
        _ => line,
    }
}

// Writes a text without the members of the times in a JSON message.
fn write_without_times<W: Write>(writer: &mut W, text: &str) -> io::Result<()> {
    let mut is_first = true;
    for part in text.split("\"elapsed") {
        match (part.split_once('{'), part.split_once('}')) {
            (Some((name, _)), Some((_, rest))) if !is_first => {
                write!(writer, "\"elapsed{name}{{}}{rest}")?;
            }
            _ => writer.write_all(part.as_bytes())?,
        }
        is_first = false;
    }
    Ok(())
}
