//! The arguments that the contents of a file of options have.
ghost use Rattle.std.specs.Prelude.{◌≡◌, ◌++◌, ◌∷◌, [], IfOk, filter};
ghost use Rattle.linegrep_cli.specs.ConfigWords.{config_words, is_argument, trimmed};
ghost use Rattle.linegrep_options.specs.ParsedWords.{texts};

use bstr::ByteSlice;
use std::alloc::{AllocError, Global};

/// The arguments that contents have, and after them those of a command line. Each line without the
/// white space at its ends is an argument, unless it is blank or begins with `#`. The only error is
/// being out of memory.
pub fn all_words(
    alloc: Global,
    contents: &[u8],
    arguments: &[Vec<u8>],
) -> Result<Vec<Vec<u8>>, AllocError>
    ensures { IfOk result (λ words. texts words.items
        ≡ config_words contents.now ++ texts arguments.now) }
{
    let mut words = config_words(alloc, contents)?;
    for argument in arguments {
        add_word(alloc, &mut words, argument)?;
    }
    Ok(words)
}

// The arguments that contents have.
fn config_words(alloc: Global, contents: &[u8]) -> Result<Vec<Vec<u8>>, AllocError>
    ensures { IfOk result (λ words. texts words.items ≡ config_words contents.now) }
{
    let mut words = Vec::new(alloc);
    for line in contents.split(|byte| *byte == b'\n') {
        add_line(alloc, &mut words, trimmed(line))?;
    }
    Ok(words)
}

// Adds a line that was trimmed, if it is an argument.
fn add_line(alloc: Global, words: &mut Vec<Vec<u8>>, line: &[u8]) -> Result<(), AllocError>
    ensures { IfOk result (λ _. texts words.new.items
        ≡ texts words.old.items ++ filter is_argument (line.now ∷ [])) }
{
    if is_argument(line) {
        add_word(alloc, words, line)
    } else {
        Ok(())
    }
}

fn add_word(alloc: Global, words: &mut Vec<Vec<u8>>, word: &[u8]) -> Result<(), AllocError>
    ensures { IfOk result (λ _. texts words.new.items
        ≡ texts words.old.items ++ word.now ∷ []) }
{
    words.push(Vec::from_slice(alloc, word)?)?;
    Ok(())
}

/// The number of the line that has an argument of some contents, by how many arguments come before
/// it. If there are no more, it is that of the last one.
pub fn line_number(contents: &[u8], before: usize) -> usize {
    let mut number = 0usize;
    let mut left = before;
    let mut last = 0;
    for line in contents.split(|byte| *byte == b'\n') {
        number = number.saturating_add(1);
        if is_argument(trimmed(line)) {
            last = number;
            if left == 0 {
                return last;
            }
            left = left.saturating_sub(1);
        }
    }
    last
}

// A line without the white space at its ends.
fn trimmed(line: &[u8]) -> &[u8]
    ensures { result.now ≡ trimmed line.now }
{
    line.trim()
}

// Whether a line that was trimmed is an argument.
fn is_argument(line: &[u8]) -> bool
    ensures { result ≡ is_argument line.now }
{
    !line.is_empty() && line[0] != b'#'
}
