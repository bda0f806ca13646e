//! Arguments as texts.
ghost use Rattle.std.specs.Prelude.{◌≡◌, IfOk, map, string_bytes};
ghost use Rattle.linegrep_cli.specs.OperandRuns.{is_escaped, is_input};
ghost use Rattle.linegrep_cli.specs.OperandTexts.{operand_text, operand_texts};
ghost use Rattle.linegrep_cli.specs.OptionValues.{names_input};

use linegrep_files::escape;
use std::alloc::{AllocError, Global};
use std::str;

/// The texts of operands, each as `escape` writes it if it isn't UTF-8.
pub fn texts(alloc: Global, operands: &[&[u8]]) -> Result<Vec<String>, AllocError>
    ensures { IfOk result (λ texts. map string_bytes texts.items ≡ operand_texts operands.now) }
{
    let mut texts = Vec::new(alloc);
    for operand in operands {
        texts.push(word(alloc, operand)?)?;
    }
    Ok(texts)
}

/// Bytes as a text, as `escape` writes them if they aren't UTF-8.
pub fn word(alloc: Global, bytes: &[u8]) -> Result<String, AllocError>
    ensures { IfOk result (λ text. string_bytes text ≡ operand_text bytes.now) }
{
    match str::from_utf8(bytes) {
        Ok(text) => String::from_str(alloc, text),
        Err(_) => escape(alloc, bytes),
    }
}

/// Whether an operand names standard input.
pub fn is_input(word: &str) -> bool
    ensures { result ≡ is_input word.now }
{
    word == "-"
}

/// Whether one of some operands names standard input.
pub fn names_input(words: &[&str]) -> bool
    ensures { result ≡ names_input words.now }
{
    words.iter().any(|word| is_input(word))
}

/// Whether a word stands for bytes that aren't UTF-8.
pub fn is_escaped(word: &str) -> bool
    ensures { result ≡ is_escaped word.now }
{
    word.bytes().any(|byte| byte == 0)
}
