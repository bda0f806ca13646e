//! What the options say of which files of folders are searched.
ghost use Rattle.std.specs.Prelude.{◌≡◌};
ghost use Rattle.linegrep_cli.specs.FileChoices.{AreFileOptions, sources_of, texts_of};

use crate::options::Options;
use linegrep_files::{FileOptions, Sources};
use linegrep_options::OptionId;

// The texts of an option, if it is used.
fn texts_of<'m, 'w>(texts: Option<&'m [&'w str]>) -> &'m [&'w str]
    ensures { result.now ≡ texts_of texts.entry }
{
    match texts {
        Some(texts) => texts,
        None => &[],
    }
}

/// What the options say of which files of folders are searched.
pub fn file_options<'m, 'w>(options: &Options<'m, 'w>) -> FileOptions<'m, 'w>
    ensures { AreFileOptions options.now result }
{
    FileOptions {
        globs: texts_of(options.globs),
        iglobs: texts_of(options.iglobs),
        ignores_glob_case: options.has(OptionId::GlobCaseInsensitive),
        types: options.types,
        max_depth: options.max_depth,
        max_filesize: options.max_filesize,
        is_one_system: options.has(OptionId::OneFileSystem),
        sources: sources(options),
        ignore_files: options.ignore_files(),
        shows_hidden: options.shows_hidden(),
        explains: options.has(OptionId::Debug),
    }
}

// Which ignore files are read.
fn sources(options: &Options<'_, '_>) -> Sources
    ensures { result ≡ sources_of options.now }
{
    let git = options.reads(OptionId::IgnoreVcs, OptionId::NoIgnoreVcs);
    Sources {
        dot: options.reads(OptionId::IgnoreDot, OptionId::NoIgnoreDot),
        git,
        exclude: git && options.reads(OptionId::IgnoreExclude, OptionId::NoIgnoreExclude),
        global: git && options.reads(OptionId::IgnoreGlobal, OptionId::NoIgnoreGlobal),
        parents: options.reads(OptionId::IgnoreParent, OptionId::NoIgnoreParent),
        needs_repository: !options.has(OptionId::NoRequireGit),
        ignores_case: options.has(OptionId::IgnoreFileCaseInsensitive),
    }
}
