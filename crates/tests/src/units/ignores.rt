//! What the lines of ignore files leave out.
use grep_ignore::Rules;
use std::alloc::{AllocError, Global};

// The lines of a file, a path, which is that of a folder if a slash is at its end,
// and whether it is ignored.
type Row = (&'static [u8], &'static [u8], bool);

const WILDCARDS: &[Row] = &[
    (b"*.o", b"src/a.o", true),
    (b"*.o", b"a.o/", true),
    (b"a?c", b"abc", true),
    (b"a?c", b"a/c", false),
    (b"[a-c]x", b"bx", true),
    (b"[!a-c]x", b"bx", false),
    (b"[]-]", b"]", true),
    (b"a**b", b"axb", true),
    (b"\\*", b"*", true),
    (b"\\*", b"a", false),
    (b"a\\ ", b"a ", true),
    (b"[b-a]", b"b", true),
    (b"[b-a]", b"a", false),
    (b"[a\\]]", b"]", true),
    (b"a ", b"a", true),
];

const PLACES: &[Row] = &[
    (b"a", b"b/a", true),
    (b"/a", b"b/a", false),
    (b"b/a", b"b/a", true),
    (b"b/a", b"c/b/a", false),
    (b"a/", b"a", false),
    (b"a/", b"b/a/", true),
    (b"**/a", b"b/c/a", true),
    (b"b/**", b"b/c/a", true),
    (b"b/**", b"b/", false),
    (b"b/**/a", b"b/a", true),
    (b"b/**/a", b"b/c/d/a", true),
    (b"b/\n!b/a", b"b/a", true),
    (b"b/*\n!b/a", b"b/a", false),
];

const LINES: &[Row] = &[
    (b"*\n!a", b"a", false),
    (b"!a\n*", b"a", true),
    (b"# a\n\n", b"a", false),
    (b"\\#a", b"#a", true),
    (b"\\!a", b"!a", true),
    (b"a\r\nb", b"a", true),
    (b"[a\nb", b"[a", false),
    (b"\xef\xbb\xbfa", b"a", true),
];

#[test]
fn wildcards(rt: HostRuntime) -> Result<(), usize> {
    first_wrong(rt.alloc(), WILDCARDS)
}

#[test]
fn places(rt: HostRuntime) -> Result<(), usize> {
    first_wrong(rt.alloc(), PLACES)
}

#[test]
fn lines(rt: HostRuntime) -> Result<(), usize> {
    first_wrong(rt.alloc(), LINES)
}

// The error is the index of the first row that is wrong.
fn first_wrong(alloc: Global, rows: &[Row]) -> Result<(), usize> {
    for (index, (contents, path, is_ignored)) in rows.iter().enumerate() {
        if ignores(alloc, contents, path) != Ok(*is_ignored) {
            return Err(index);
        }
    }
    Ok(())
}

// Whether a path is ignored.
fn ignores(alloc: Global, contents: &[u8], path: &[u8]) -> Result<bool, AllocError> {
    let mut rules = Rules::new(alloc);
    let mut misread = Vec::new(alloc);
    rules.add_lines(alloc, contents, false, &mut misread)?;
    let mut row = Vec::new(alloc);
    match path {
        [path @ .., b'/'] => rules.leaves_out(&mut row, path, true),
        _ => rules.leaves_out(&mut row, path, false),
    }
}
