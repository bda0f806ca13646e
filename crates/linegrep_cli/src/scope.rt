//! What the options say of a run.
ghost use Rattle.std.specs.Prelude.{◌≡◌};
ghost use Rattle.linegrep_cli.specs.OperandRuns.{ends_with_match, finding_scope, has_found};
ghost use Rattle.linegrep_cli.specs.OperandRuns.{is_over, is_same};
ghost use Rattle.linegrep_cli.specs.OperandRuns.{path_of, says_errors, says_warnings};
ghost use Rattle.linegrep_cli.specs.OperandRuns.{seeks_unmatched};
ghost use Rattle.linegrep_cli.specs.OperandRuns.{status_of};
ghost use Rattle.linegrep_cli.specs.RunScopes.{IsScopeOf, MaySearch, messages_of, quiet_of};

use crate::options::Options;
use crate::system::System;
use crate::visit::Visit;
use grep_printer::Searched;
use linegrep_files::{FileId, Order, Route};
use linegrep_options::OptionId;

/// What the options say of a run.
#[derive(Clone, Copy)]
pub struct Scope {
    /// Whether standard input is searched if there is no path.
    pub searches_input: bool,
    /// Whether the search of a file of a folder goes on after a NUL.
    pub searches_binary: bool,
    /// How folders are walked through.
    pub route: Route,
    /// In which order files are searched.
    pub order: Order,
    /// Whether the paths of files are written, and nothing is searched.
    pub lists_files: bool,
    /// Whether the name of standard input is written, and it isn't searched.
    pub lists_input: bool,
    shows_paths: bool,
    /// What standard error says of what goes wrong.
    pub messages: Messages,
    /// Whether standard error says what isn't visited, and why.
    pub explains: bool,
    quiet: Option<Quiet>,
    /// The file that isn't searched.
    pub left_out: Option<FileId>,
    /// Whether that file is standard input.
    pub leaves_out_input: bool,
}

/// What standard error says of what goes wrong. Why a run ends early is said in any case.
#[derive(Clone, Copy)]
pub enum Messages {
    /// What can't be read, and what is wrong with ignore files.
    Full,
    /// What can't be read.
    WithoutWarnings,
    /// Nothing.
    Silent,
}

/// What a run looks for, if it writes nothing of what it finds.
#[derive(Clone, Copy)]
struct Quiet {
    // Whether it looks for a file without a match, and not for a match.
    seeks_unmatched: bool,
    // Whether it counts all matches, and doesn't end at the first.
    counts_all: bool,
}

impl Scope {
    /// What the options say of a run over the files at their paths.
    pub fn new<S: System>(system: &S, options: &Options<'_, '_>) -> Scope
        ensures { IsScopeOf (S.finds system.now) options.now result }
    {
        let searches_input = options.searches_input();
        Scope {
            searches_input,
            searches_binary: options.searches_binary(),
            route: Route {
                follows_links: options.has(OptionId::Follow),
            },
            order: options.order(),
            lists_files: options.has(OptionId::Files),
            lists_input: options.has(OptionId::Files),
            shows_paths: options.shows_paths(
                !searches_input && searches_several(system, options.paths()),
            ),
            messages: Messages::read(options),
            explains: options.has(OptionId::Debug),
            quiet: Quiet::read(options),
            left_out: options.left_out(),
            leaves_out_input: is_same(options.left_out(), options.streams.input),
        }
    }

    /// The scope with which a run finds what it searches, before it searches anything. Each file is
    /// listed then, and standard input isn't left out yet.
    pub fn finding(&self) -> Scope
        ensures { result ≡ finding_scope self.now }
    {
        let mut scope = *self;
        scope.lists_files = true;
        scope.lists_input = false;
        scope.leaves_out_input = false;
        scope.quiet = None;
        scope
    }

    /// Whether a search found what is looked for.
    pub fn has_found(&self, searched: &Searched) -> bool
        ensures { result ≡ has_found self.now searched.now }
    {
        if self.seeks_unmatched() {
            searched.result.is_ok() && !searched.has_match
        } else {
            searched.has_match
        }
    }

    // Whether the run looks for a file without a match.
    fn seeks_unmatched(&self) -> bool
        ensures { result ≡ seeks_unmatched self.now.quiet }
    {
        match self.quiet {
            Some(quiet) => quiet.seeks_unmatched,
            None => false,
        }
    }

    /// The path that is written, by the name of what is searched, if paths are written.
    pub fn path_of<'n>(&self, name: &'n str) -> Option<&'n str>
        ensures { result ≡ path_of self.now name.entry }
    {
        if self.shows_paths { Some(name) } else { None }
    }

    /// Whether what is visited later makes no difference.
    pub fn is_over(&self, total: &Visit) -> bool
        ensures { result ≡ is_over self.now total.now }
    {
        total.failure.is_some() || self.ends_with_match() && total.has_match
    }

    // Whether the first match ends the run.
    fn ends_with_match(&self) -> bool
        ensures { result ≡ ends_with_match self.now.quiet }
    {
        match self.quiet {
            Some(quiet) => !quiet.counts_all,
            None => false,
        }
    }

    /// The status, if all was written.
    pub fn status(&self, total: &Visit) -> u8
        ensures { result ≡ status_of self.now total.now }
    {
        if total.has_error && !(self.quiet.is_some() && total.has_match) {
            2
        } else if total.has_match {
            0
        } else {
            1
        }
    }
}

impl Messages {
    // What the options ask for.
    fn read(options: &Options<'_, '_>) -> Messages
        ensures { result ≡ messages_of options.now }
    {
        if options.has(OptionId::NoMessages) {
            Messages::Silent
        } else if options.has(OptionId::NoIgnoreMessages) {
            Messages::WithoutWarnings
        } else {
            Messages::Full
        }
    }

    /// Whether standard error says what can't be read.
    pub fn says_errors(self) -> bool
        ensures { result ≡ says_errors self }
    {
        !matches!(self, Messages::Silent)
    }

    /// Whether standard error says what is wrong with ignore files.
    pub fn says_warnings(self) -> bool
        ensures { result ≡ says_warnings self }
    {
        matches!(self, Messages::Full)
    }
}

impl Quiet {
    // What the options ask for, if nothing is to be written of what is found.
    fn read(options: &Options<'_, '_>) -> Option<Quiet>
        ensures { result ≡ quiet_of options.now }
    {
        if options.has(OptionId::Quiet) {
            Some(Quiet {
                seeks_unmatched: options.has(OptionId::FilesWithoutMatch)
                    && !options.has(OptionId::Files),
                counts_all: options.counts_all() && !options.has(OptionId::Files),
            })
        } else {
            None
        }
    }
}

/// Whether both are the same file.
pub fn is_same(one: Option<FileId>, other: Option<FileId>) -> bool
    ensures { result ≡ is_same one other }
{
    match (one, other) {
        (Some(one), Some(other)) => one.is(other),
        _ => false,
    }
}

// Whether several files may be searched: there is no path, there are several, or the only one is
// that of a folder.
fn searches_several<S: System>(system: &S, paths: &[&str]) -> bool
    ensures { MaySearch (S.finds system.now) paths.now result }
{
    match paths {
        [] => true,
        [path] => system.is_folder(path).unwrap_or(false),
        _ => true,
    }
}
