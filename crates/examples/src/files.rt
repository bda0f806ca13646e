//! A program that searches files, and those in folders.
use crate::about::about;
use grep_output::{Output, Writing};
use grep_printer::{Standard, StandardBuilder};
use grep_regex::Regex;
use grep_searcher::{
    BinaryDetection, FindAt, Open, Reading, SearchError, Searcher, SearcherBuilder,
};
use std::fs;
use std::io::Write;

/// Writes the lines that match a pattern in the files at some paths, and in all files of the
/// folders among them, each line after the path of its file. It doesn't follow links that are in a
/// folder. What can't be searched it names on standard error, and goes on. It corresponds to the
/// example program `simplegrep` of upstream's crate grep.
///
/// An error is that of the pattern, which it names, of the writer or of standard error, or of being
/// out of memory.
pub fn simplegrep<W: Write>(
    rt: &HostRuntime,
    pattern: &str,
    paths: &[&str],
    writer: &mut W,
) -> Result<(), SearchError> {
    let regex = match Regex::for_lines(rt.alloc(), pattern) {
        Ok(regex) => regex,
        Err(error) => return Err(about(rt.alloc(), pattern, error)),
    };
    let matcher = regex.matcher(rt.alloc())?;
    let mut searcher = SearcherBuilder::new()
        .binary_detection(BinaryDetection::quit(b'\0'))
        .line_number(false)
        .build(rt.alloc())?;
    let mut printer = StandardBuilder::new().build(rt.alloc());
    let mut writer = Writing::new(writer);
    for path in files_at(rt, paths)? {
        let path = path.as_str();
        match print_file(rt, &mut searcher, &matcher, &mut printer, path, &mut writer) {
            Ok(()) => {}
            Err(error) if printer.has_failed() => return Err(error),
            Err(error) => eprintln!(rt; "{path}: {error}")?,
        }
    }
    printer.flush(&mut writer)?;
    Ok(())
}

// Writes the lines of the file at a path that match.
fn print_file<M: FindAt, W: Output>(
    rt: &HostRuntime,
    searcher: &mut Searcher,
    matcher: &M,
    printer: &mut Standard<'_>,
    path: &str,
    writer: &mut W,
) -> Result<(), SearchError> {
    let mut file = Reading::new(rt.open(path)?);
    printer
        .search(searcher, matcher, Some(path), &mut file, writer)
        .result
}

// The paths of the files, and of all files in the folders. What can't be read is named on standard
// error.
fn files_at(rt: &HostRuntime, paths: &[&str]) -> Result<Vec<String>, SearchError> {
    let mut files = Vec::new(rt.alloc());
    let mut folders = Vec::new(rt.alloc());
    for path in paths {
        let path = String::from_str(rt.alloc(), path)?;
        match fs::metadata(rt, path.as_str()) {
            Ok(data) if data.is_dir() => folders.push(path)?,
            _ => files.push(path)?,
        }
    }
    for _ in 0..u64::MAX {
        let Some(folder) = folders.pop() else {
            break;
        };
        if let Err(error) = push_entries(rt, folder.as_str(), &mut files, &mut folders) {
            eprintln!(rt; "{folder}: {error}")?;
        }
    }
    Ok(files)
}

// Adds the paths of the files and folders in a folder. Links are left out.
fn push_entries(
    rt: &HostRuntime,
    folder: &str,
    files: &mut Vec<String>,
    folders: &mut Vec<String>,
) -> Result<(), SearchError> {
    for entry in fs::read_dir(rt, folder)? {
        let entry = entry?;
        let name = entry.file_name();
        let path = format!(in rt.alloc(); "{folder}/{name}")?;
        match fs::symlink_metadata(rt, path.as_str()) {
            Ok(data) if data.is_dir() => folders.push(path)?,
            Ok(data) if data.is_file() => files.push(path)?,
            Ok(_) => {}
            Err(error) => eprintln!(rt; "{path}: {error}")?,
        }
    }
    Ok(())
}
