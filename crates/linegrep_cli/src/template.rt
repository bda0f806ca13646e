//! What is written in place of each match.
ghost use Rattle.std.specs.Prelude.{IfOk};
ghost use Rattle.grep_regex.specs.Groups.{group_names};
ghost use Rattle.grep_regex.specs.Views.{regex_options, regex_patterns};
ghost use Rattle.grep_replace.specs.Templates.{AreReadFrom};
ghost use Rattle.linegrep_cli.specs.TemplateOptions.{IsTemplate};

use crate::options::Options;
use grep_regex::Regex;
use grep_replace::Template;
use std::alloc::{AllocError, Global};

/// The template that the options ask for, if they ask for one. The only error is being out of
/// memory.
pub fn template(
    alloc: Global,
    options: &Options<'_, '_>,
    regex: &Regex,
) -> Result<Option<Template>, AllocError>
    ensures { IfOk result (IsTemplate options.now regex.now) }
{
    let Some(text) = options.replace else {
        return Ok(None);
    };
    Ok(Some(read(alloc, regex, text)?))
}

// A template with the groups of an expression.
fn read(alloc: Global, regex: &Regex, text: &str) -> Result<Template, AllocError>
    ensures { IfOk result (λ template. AreReadFrom
        (group_names (regex_options regex.now) (regex_patterns regex.now)) text.now
        template.pieces.items) }
{
    match regex.group_names(alloc) {
        Ok(names) => Template::new(alloc, text.as_bytes(), &names),
        Err(error) => Err(error),
    }
}
