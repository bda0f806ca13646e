//! Names of files as texts.
ghost use Rattle.std.specs.Prelude.{◌≡◌, ◌++◌, ◌<◌, IfOk, OnOk, string_bytes};
ghost use Rattle.linegrep_files.specs.Words.{escaped, escaped_byte, hex_digit};

use std::alloc::{AllocError, Global};

/// What is said if the name of a file isn't UTF-8.
pub const NOT_UTF8: &str = "the name isn't UTF-8";

/// A word for bytes that aren't UTF-8. A NUL and two hexadecimal digits stand for each byte that
/// isn't ASCII, so that no name is such a word. An error is one of being out of memory.
pub fn escape(alloc: Global, bytes: &[u8]) -> Result<String, AllocError>
    ensures { IfOk result (λ word. string_bytes word ≡ escaped bytes.now) }
{
    let mut word = String::new(alloc);
    for byte in bytes {
        push_byte(&mut word, *byte)?;
    }
    Ok(word)
}

// Adds what stands for a byte.
fn push_byte(word: &mut String, byte: u8) -> Result<(), AllocError>
    ensures { OnOk result (string_bytes word.new ≡ string_bytes word.old ++ escaped_byte byte) }
{
    if byte.is_ascii() {
        return word.push(char::from(byte));
    }
    word.push('\0')?;
    word.push(hex_digit(byte / 16))?;
    word.push(hex_digit(byte % 16))
}

// The hexadecimal digit of a number.
fn hex_digit(value: u8) -> char
    requires { value < 16 }
    ensures { result ≡ hex_digit value }
{
    if value < 10 {
        char::from(b'0' + value)
    } else {
        char::from(b'a' + (value - 10))
    }
}

/// A word as it is written in a message. If it stands for bytes that aren't UTF-8, each byte that
/// isn't ASCII is `\x` and two digits. An error is one of being out of memory.
pub fn shown(alloc: Global, word: &str) -> Result<String, AllocError> {
    let mut text = String::new(alloc);
    for letter in word.chars() {
        match letter {
            '\0' => text.push_str("\\x")?,
            letter => text.push(letter)?,
        }
    }
    Ok(text)
}
