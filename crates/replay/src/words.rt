//! A row that is written in words: arguments, and what is read.
use percent_encoding::percent_decode_str;
use std::alloc::{AllocError, Global};

/// The words of a row, with one space between them.
pub(crate) struct Words<'w> {
    /// The first word, which says what the row is of.
    pub(crate) mark: &'w str,
    /// The words without a mark, as arguments, each with the texts of the words after it that begin
    /// with `+`.
    pub(crate) arguments: Vec<String>,
    /// The texts of the words that begin with `<`, one after another: what is read.
    pub(crate) input: Vec<u8>,
    /// Whether reading fails after that, as a word `<!` says.
    pub(crate) is_cut: bool,
    /// The number of a word that begins with `@`.
    pub(crate) number: Option<usize>,
    /// The text of a word that begins with `=`.
    pub(crate) template: Option<&'w str>,
}

// Written out, so that a caller's proof sees one call.
impl<'w> Drop for Words<'w> {
    fn drop(self) {
        let Words {
            mark: _mark,
            arguments: _arguments,
            input: _input,
            is_cut: _is_cut,
            number: _number,
            template: _template,
        } = self;
    }
}

impl<'w> Words<'w> {
    /// Those of a line. An error is that of being out of memory.
    pub(crate) fn read(alloc: Global, line: &'w str) -> Result<Words<'w>, AllocError> {
        let mut later = line.split(' ');
        let mut words = Words {
            mark: later.next().unwrap_or_default(),
            arguments: Vec::new(alloc),
            input: Vec::new(alloc),
            is_cut: false,
            number: None,
            template: None,
        };
        for word in later {
            words.add(alloc, word)?;
        }
        Ok(words)
    }

    // Adds a word.
    fn add(&mut self, alloc: Global, word: &'w str) -> Result<(), AllocError> {
        match word.split_at_checked(1) {
            Some(("<", "!")) => self.is_cut = true,
            Some(("<", text)) => append(&mut self.input, text)?,
            Some(("@", text)) => self.number = text.parse().ok(),
            Some(("=", text)) => self.template = Some(text),
            Some(("+", text)) => self.extend(alloc, text)?,
            _ => self.arguments.push(argument(alloc, word)?)?,
        }
        Ok(())
    }

    // Adds a text to the last argument.
    fn extend(&mut self, alloc: Global, text: &str) -> Result<(), AllocError> {
        let text = argument(alloc, text)?;
        match self.arguments.last_mut() {
            Some(last) => last.push_str(text.as_str())?,
            None => self.arguments.push(text)?,
        }
        Ok(())
    }
}

// The argument of a word. What isn't UTF-8 is the replacement character.
fn argument(alloc: Global, word: &str) -> Result<String, AllocError> {
    let mut bytes = Vec::new(alloc);
    append(&mut bytes, word)?;
    match String::from_utf8(bytes) {
        Ok(text) => Ok(text),
        Err(_) => String::from_str(alloc, "\u{FFFD}"),
    }
}

/// Adds the bytes of a text, in which `%` and two hexadecimal digits stand for a byte. `*N*TEXT` is
/// `TEXT`, N times.
pub(crate) fn append(bytes: &mut Vec<u8>, text: &str) -> Result<(), AllocError> {
    let (times, text) = repeated(text).unwrap_or((1, text));
    for _ in 0..times {
        percent_decode_str(text).append_to(bytes)?;
    }
    Ok(())
}

// How often a text is repeated, and that text.
fn repeated(text: &str) -> Option<(usize, &str)> {
    let (times, text) = text.strip_prefix('*')?.split_once('*')?;
    Some((times.parse().ok()?, text))
}
