//! Git's settings, as far as they name ignore files.
ghost use Rattle.std.specs.Prelude.{◌≡◌, ◌<◌, ◌++◌, false, IfOk, IfSome, length, OnOk};
ghost use Rattle.std.specs.List.{after_first, before_first, position};
ghost use Rattle.std.specs.Option.{option_copied, option_map, option_to_list};
ghost use Rattle.grep_ignore.specs.Lines.{without_mark};
ghost use Rattle.linegrep_files.specs.GitSettings.{bytes_of, escaped, excludes_file, has_heading};
ghost use Rattle.linegrep_files.specs.GitSettings.{heading_of, is_blank, is_core_at, is_plain};
ghost use Rattle.linegrep_files.specs.GitSettings.{is_text};
ghost use Rattle.linegrep_files.specs.GitSettings.{is_word, last_value, lines_of, pieces_of, plain};
ghost use Rattle.linegrep_files.specs.GitSettings.{quoted, read, read_comment, read_escaped};
ghost use Rattle.linegrep_files.specs.GitSettings.{read_plain, read_quoted, setting_of, trimmed};
ghost use Rattle.linegrep_files.specs.GitSettings.{trimmed_end, trimmed_start, value_at};

use std::alloc::{AllocError, Global};

// A byte that settings stand for.
#[derive(Clone, Copy)]
struct Piece {
    byte: u8,
    // Whether it stands for itself alone: between quotes, or after a backslash.
    is_quoted: bool,
}

// How a byte is read, by what is before it in its line.
#[derive(Clone, Copy)]
enum Mode {
    Plain,
    // Between quotes.
    Quoted,
    // After a backslash, with whether that is between quotes.
    Escaped(bool),
    Comment,
}

/// The last value of `core.excludesFile` in the contents of a file of settings, as it is written
/// there: the path of the ignore file for all repositories. The only error is being out of memory.
pub fn excludes_file(alloc: Global, contents: &[u8]) -> Result<Option<Vec<u8>>, AllocError>
    ensures { IfOk result (λ file. option_map (λ path. path.items) file
        ≡ excludes_file contents.now) }
{
    let pieces = read_pieces(alloc, without_mark(contents))?;
    match last_value(pieces.as_slice()) {
        Some(value) => Ok(Some(bytes_of(alloc, value)?)),
        None => Ok(None),
    }
}

// Contents without a mark of UTF-8 at their start.
fn without_mark(contents: &[u8]) -> &[u8]
    ensures { result.now ≡ without_mark contents.now }
{
    if contents.starts_with(b"\xef\xbb\xbf") {
        contents.get(3..).unwrap_or(contents)
    } else {
        contents
    }
}

// What the bytes of contents stand for.
fn read_pieces(alloc: Global, contents: &[u8]) -> Result<Vec<Piece>, AllocError>
    ensures { IfOk result (λ pieces. pieces.items ≡ pieces_of Mode.Plain contents.now) }
{
    let mut pieces = Vec::new(alloc);
    let mut mode = Mode::Plain;
    for byte in contents {
        let (piece, next) = read(mode, *byte);
        add(&mut pieces, piece)?;
        mode = next;
    }
    Ok(pieces)
}

fn add(pieces: &mut Vec<Piece>, piece: Option<Piece>) -> Result<(), AllocError>
    ensures { OnOk result (pieces.new.items ≡ pieces.old.items ++ option_to_list piece) }
{
    match piece {
        Some(piece) => Ok(pieces.push(piece)?),
        None => Ok(()),
    }
}

// What a byte stands for, and how the next one is read.
fn read(mode: Mode, byte: u8) -> (Option<Piece>, Mode)
    ensures { result ≡ read mode byte }
{
    match mode {
        Mode::Plain => read_plain(byte),
        Mode::Quoted => read_quoted(byte),
        Mode::Escaped(is_quoted) => read_escaped(is_quoted, byte),
        Mode::Comment => read_comment(byte),
    }
}

fn read_plain(byte: u8) -> (Option<Piece>, Mode)
    ensures { result ≡ read_plain byte }
{
    match byte {
        b'"' => (None, Mode::Quoted),
        b'\\' => (None, Mode::Escaped(false)),
        b'#' | b';' => (None, Mode::Comment),
        _ => (plain(byte), Mode::Plain),
    }
}

fn read_quoted(byte: u8) -> (Option<Piece>, Mode)
    ensures { result ≡ read_quoted byte }
{
    match byte {
        b'"' => (None, Mode::Plain),
        b'\\' => (None, Mode::Escaped(true)),
        b'\n' => (plain(byte), Mode::Plain),
        _ => (quoted(byte), Mode::Quoted),
    }
}

fn read_comment(byte: u8) -> (Option<Piece>, Mode)
    ensures { result ≡ read_comment byte }
{
    match byte {
        b'\n' => (plain(byte), Mode::Plain),
        _ => (None, Mode::Comment),
    }
}

// After a backslash a line goes on in the next, also if a carriage return is at its end.
fn read_escaped(is_quoted: bool, byte: u8) -> (Option<Piece>, Mode)
    ensures { result ≡ read_escaped is_quoted byte }
{
    let mode = if is_quoted { Mode::Quoted } else { Mode::Plain };
    match byte {
        b'\r' => (None, Mode::Escaped(is_quoted)),
        b'\n' => (None, mode),
        _ => (quoted(escaped(byte)), mode),
    }
}

// The byte that one after a backslash stands for.
fn escaped(byte: u8) -> u8
    ensures { result ≡ escaped byte }
{
    match byte {
        b'n' => b'\n',
        b't' => b'\t',
        b'b' => 8,
        other => other,
    }
}

// The last value of `core.excludesFile`, by what settings stand for.
fn last_value(pieces: &[Piece]) -> Option<&[Piece]>
    ensures { option_copied result ≡ last_value false (lines_of pieces.now) }
{
    let mut is_core = false;
    let mut last = None;
    for line in pieces.split(|piece| piece.is_plain(b'\n')) {
        is_core = is_core_at(is_core, line);
        last = value_at(is_core, line).or(last);
    }
    last
}

// Whether a line is in the section `core`, by whether the line before is.
fn is_core_at(is_core: bool, line: &[Piece]) -> bool
    ensures { result ≡ is_core_at is_core line.now }
{
    if has_heading(line) {
        is_word(heading_of(line), b"core")
    } else {
        is_core
    }
}

// The value that a line has for `core.excludesFile`, by whether it is in the section `core`.
fn value_at(is_core: bool, line: &[Piece]) -> Option<&[Piece]>
    ensures { option_copied result ≡ value_at is_core line.now }
{
    let setting = setting_of(line);
    let is_named = is_word(trim(before(setting, b'=')), b"excludesfile");
    if is_core && is_named {
        Some(trim(after(setting, b'=')))
    } else {
        None
    }
}

// Whether a line begins with the heading of a section.
fn has_heading(line: &[Piece]) -> bool
    ensures { result ≡ has_heading line.now }
{
    match trim_start(line) {
        [] => false,
        [first, ..] => first.is_plain(b'['),
    }
}

// What is in the brackets of a heading.
fn heading_of(line: &[Piece]) -> &[Piece]
    ensures { result.now ≡ heading_of line.now }
{
    before(after(line, b'['), b']')
}

// What a line says in its section.
fn setting_of(line: &[Piece]) -> &[Piece]
    ensures { result.now ≡ setting_of line.now }
{
    if has_heading(line) {
        after(line, b']')
    } else {
        line
    }
}

// Whether pieces are a word, which is given in small letters.
fn is_word(pieces: &[Piece], word: &[u8]) -> bool
    ensures { result ≡ is_word word.now pieces.now }
{
    pieces.len() == word.len()
        && pieces
            .iter()
            .zip(word)
            .all(|(piece, byte)| piece.byte.to_ascii_lowercase() == *byte)
}

// What is before the first byte of a kind that isn't quoted, or all pieces if there is none.
fn before(pieces: &[Piece], byte: u8) -> &[Piece]
    ensures { result.now ≡ before_first (is_plain byte) pieces.now }
{
    match place_of(pieces, byte) {
        Some(place) => &pieces[..place],
        None => pieces,
    }
}

// What is after the first byte of a kind that isn't quoted, or nothing if there is none.
fn after(pieces: &[Piece], byte: u8) -> &[Piece]
    ensures { result.now ≡ after_first (is_plain byte) pieces.now }
{
    match place_of(pieces, byte) {
        Some(place) => &pieces[place + 1..],
        None => &[],
    }
}

fn place_of(pieces: &[Piece], byte: u8) -> Option<usize>
    ensures place { result ≡ position (is_plain byte) pieces.now }
    ensures bound { IfSome result (λ place. place < length pieces.now) }
{
    pieces.iter().position(|piece| piece.is_plain(byte))
}

// Pieces without the blanks around them.
fn trim(pieces: &[Piece]) -> &[Piece]
    ensures { result.now ≡ trimmed pieces.now }
{
    trim_end(trim_start(pieces))
}

fn trim_start(pieces: &[Piece]) -> &[Piece]
    ensures { result.now ≡ trimmed_start pieces.now }
{
    match first_text(pieces) {
        Some(start) => &pieces[start..],
        None => &[],
    }
}

fn first_text(pieces: &[Piece]) -> Option<usize>
    ensures place { result ≡ position is_text pieces.now }
    ensures bound { IfSome result (λ place. place < length pieces.now) }
{
    pieces.iter().position(|piece| !piece.is_blank())
}

fn trim_end(pieces: &[Piece]) -> &[Piece]
    ensures { result.now ≡ trimmed_end pieces.now }
{
    let mut end = pieces.len();
    while end > 0 {
        if !pieces[end - 1].is_blank() {
            return &pieces[..end];
        }
        end -= 1;
    }
    &[]
}

// The bytes of pieces.
fn bytes_of(alloc: Global, pieces: &[Piece]) -> Result<Vec<u8>, AllocError>
    ensures { IfOk result (λ bytes. bytes.items ≡ bytes_of pieces.now) }
{
    pieces.iter().map(|piece| piece.byte).collect(alloc)
}

impl Piece {
    fn is_plain(&self, byte: u8) -> bool
        ensures { result ≡ is_plain byte self.now }
    {
        self.byte == byte && !self.is_quoted
    }

    fn is_blank(&self) -> bool
        ensures { result ≡ is_blank self.now }
    {
        self.is_plain(b' ') || self.is_plain(b'\t') || self.is_plain(b'\r')
    }
}

fn plain(byte: u8) -> Option<Piece>
    ensures { result ≡ Some (plain byte) }
{
    Some(Piece {
        byte,
        is_quoted: false,
    })
}

fn quoted(byte: u8) -> Option<Piece>
    ensures { result ≡ Some (quoted byte) }
{
    Some(Piece {
        byte,
        is_quoted: true,
    })
}
