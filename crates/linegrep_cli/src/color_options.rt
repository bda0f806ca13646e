//! The colors that the options choose.
ghost use Rattle.std.specs.Prelude.{◌≡◌, true, IfErr, IfOk};
ghost use Rattle.linegrep_cli.specs.ColorOptions.{AreColorTexts, looks_of, looks_then};
ghost use Rattle.linegrep_cli.specs.ColorOptions.{refuses_colors};
ghost use Rattle.linegrep_files.specs.Failures.{has_cause};

use crate::failures::Failure;
use crate::looks::Looks;
use crate::options::Options;
use grep_printer::ColorTexts;
use std::alloc::{AllocError, Global};

const MALFORMED: &str = "--colors: each is path, line, column, match or highlight with :none, \
    :fg:COLOR, :bg:COLOR or :style:STYLE\n\
    COLOR is black, red, green, yellow, blue, magenta, cyan, white, a number up to 255, or three \
    with commas between\n\
    STYLE is bold, intense, underline or italic, or one of these with no before it";

/// The escapes for the colors that the options choose, if they choose any. An error is that a color
/// isn't well formed, or that there is no memory.
pub fn color_texts(alloc: Global, options: &Options<'_, '_>) -> Result<Option<ColorTexts>, Failure>
    ensures texts { IfOk result (AreColorTexts options.now) }
    ensures refused { IfErr result (λ failure. has_cause failure ≡ true
        → refuses_colors options.now ≡ true) }
{
    let Some(texts) = options.colors else {
        return Ok(None);
    };
    match looks(alloc, texts) {
        Ok(Some(looks)) => match looks.texts(alloc) {
            Ok(texts) => Ok(Some(texts)),
            Err(_) => Err(Failure::out_of_memory()),
        },
        Ok(None) => Err(Failure::new(alloc, &MALFORMED)),
        Err(_) => Err(Failure::out_of_memory()),
    }
}

// All looks after some changes, if each of these is well formed.
fn looks(alloc: Global, texts: &[&str]) -> Result<Option<Looks>, AllocError>
    ensures { IfOk result (λ looks. looks ≡ looks_of texts.now) }
{
    let mut looks = Some(Looks::first());
    for text in texts {
        looks = apply(alloc, looks, text)?;
    }
    Ok(looks)
}

// All looks after one more change, if it and all before it are well formed. Its letters may be
// capitals.
fn apply(alloc: Global, looks: Option<Looks>, text: &str) -> Result<Option<Looks>, AllocError>
    ensures { IfOk result (λ changed. changed ≡ looks_then looks text.entry) }
{
    let Some(looks) = looks else {
        return Ok(None);
    };
    let mut text = String::from_str(alloc, text)?;
    text.make_ascii_lowercase();
    Ok(looks.with(text.as_str()))
}
