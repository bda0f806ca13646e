//! The rules of an ignore file.
ghost use Rattle.std.specs.Prelude.{◌≡◌, ◌↔◌, ◌++◌, [], List, IfErr, IfOk, IsTrue, OnOk};
ghost use Rattle.std.specs.Prelude.{◌<◌, length, slice_index, take, true};
ghost use Rattle.std.specs.Option.{option_copied};
ghost use Rattle.grep_ignore.specs.Decisions.{IsAbout, IsDecided, IsLastRule, IsLeftOut};
ghost use Rattle.grep_ignore.specs.Decisions.{decision_of};
ghost use Rattle.grep_ignore.specs.Globs.{OnMalformed};
ghost use Rattle.grep_ignore.specs.Lines.{AreOfLine, AreOfLines, IsMisread, IsRead, lines_of};
ghost use Rattle.grep_ignore.specs.declared.rules.Decision.TheVariants.{Ignored};
ghost use Rattle.grep_ignore.specs.declared.rules.Misread.{Misread};
ghost use Rattle.grep_ignore.specs.declared.rules.Rule.{Rule};

use crate::glob::GlobError;
use crate::line::{has_no_rule, read_rule, said, split_line, without_mark};
use crate::path_tests::{PathTest, PathTests};
use crate::wildcards::Wildcards;
use std::alloc::{AllocError, Global};
use std::marker::Model;

/// What rules say of a file or a folder.
#[derive(Clone, Copy, Debug, PartialEq, Eq)]
pub enum Decision {
    /// The last rule that matches it leaves it out.
    Ignored,
    /// The last rule that matches it begins with an exclamation mark.
    Kept,
    /// No rule matches it.
    Unmatched,
}

/// The rules of an ignore file, in their order.
#[derive(Drop)]
pub struct Rules {
    rules: PathTests<Rule>,
}

impl Model for Rules {
    ghost use Rattle.std.specs.Prelude.{List};
    ghost use Rattle.grep_ignore.specs.declared.rules.Rule.{Rule};

    ghost Value = { List Rule };

    ghost view = { λ r. r.rules };
}

/// A rule: the paths that it matches, whether it keeps them, whether it matches folders alone, and
/// the number of its line in the file, from 1.
#[derive(Drop)]
pub struct Rule {
    pub(crate) wildcards: Wildcards,
    pub(crate) keeps: bool,
    pub(crate) names_folders: bool,
    pub(crate) number: usize,
}

/// A line that isn't well formed.
#[derive(Clone, Copy, Drop)]
pub struct Misread {
    /// Its number in the file, from 1.
    pub number: usize,
    /// What is wrong with it.
    pub cause: &'static str,
}

impl Rules {
    /// No rules.
    pub fn new(alloc: Global) -> Rules
        ensures { result ≡ [] }
    {
        Rules {
            rules: PathTests::new(alloc),
        }
    }

    /// Adds the rules of the lines of a file, and to `misread` the lines that aren't well formed,
    /// which match nothing. An error is one of being out of memory.
    pub fn add_lines(
        &mut self,
        alloc: Global,
        contents: &[u8],
        ignores_case: bool,
        misread: &mut Vec<Misread>,
    ) -> Result<(), AllocError>
        ensures { OnOk result ((rules : List Rule) × (faults : List Misread)
            × (self.new ≡ self.old ++ rules) × (misread.new.items ≡ misread.old.items ++ faults)
            × AreOfLines ignores_case 1 (lines_of contents.now) rules faults) }
    {
        let _most = contents.len();
        let mut text = without_mark(contents);
        let mut number = 1;
        loop {
            let (line, after) = split_line(text);
            self.add_line(alloc, line, ignores_case, number, misread)?;
            match after {
                Some(rest) => text = rest,
                None => return Ok(()),
            }
            number += 1;
        }
    }

    // Adds the rule of the line with a number, or that it isn't well formed.
    fn add_line(
        &mut self,
        alloc: Global,
        line: &[u8],
        ignores_case: bool,
        number: usize,
        misread: &mut Vec<Misread>,
    ) -> Result<(), AllocError>
        ensures { OnOk result ((rules : List Rule) × (faults : List Misread)
            × (self.new ≡ self.old ++ rules) × (misread.new.items ≡ misread.old.items ++ faults)
            × AreOfLine ignores_case number line.now rules faults) }
    {
        match self.add(alloc, line, ignores_case, number) {
            Ok(()) => Ok(()),
            Err(GlobError::OutOfMemory) => Err(AllocError),
            Err(GlobError::Malformed(cause)) => match misread.push(Misread { number, cause }) {
                Ok(()) => Ok(()),
                Err(_) => Err(AllocError),
            },
        }
    }

    /// Adds the rule of the line with a number. A line that is blank or begins with `#` has none.
    /// `ignores_case` says whether letters of ASCII match in either case. After an error nothing is
    /// added.
    pub fn add(
        &mut self,
        alloc: Global,
        line: &[u8],
        ignores_case: bool,
        number: usize,
    ) -> Result<(), GlobError>
        ensures ok { OnOk result ((rules : List Rule) × (self.new ≡ self.old ++ rules)
            × IsRead ignores_case number line.now rules) }
        ensures err { IfErr result (λ e. (self.new ≡ self.old)
            × OnMalformed e (IsMisread ignores_case line.now)) }
    {
        let text = said(line);
        if has_no_rule(text) {
            return Ok(());
        }
        match read_rule(alloc, text, ignores_case, number) {
            Ok(rule) => match self.rules.push(rule) {
                Ok(()) => Ok(()),
                Err(_) => Err(GlobError::OutOfMemory),
            },
            Err(error) => Err(error),
        }
    }

    /// The rule that decides of the file or the folder at a path, if there is one: the last that
    /// matches it. The path begins in the folder that the rules are about. `row` is room to work
    /// in. An error is one of being out of memory.
    pub(crate) fn last_about(
        &self,
        row: &mut Vec<bool>,
        path: &[u8],
        is_folder: bool,
    ) -> Result<Option<&Rule>, AllocError>
        ensures { IfOk result (λ found. IsLastRule self.now path.now is_folder
            (option_copied found)) }
    {
        self.rules.last_about(row, path, is_folder)
    }

    /// What the rules say of the file or the folder at a path, which begins in the folder that they
    /// are about: the last that matches it decides. `row` is room to work in. An error is one of
    /// being out of memory.
    pub fn decision(
        &self,
        row: &mut Vec<bool>,
        path: &[u8],
        is_folder: bool,
    ) -> Result<Decision, AllocError>
        ensures { IfOk result (IsDecided self.now path.now is_folder) }
    {
        match self.last_about(row, path, is_folder)? {
            Some(rule) => Ok(rule.decision()),
            None => Ok(Decision::Unmatched),
        }
    }

    /// Whether the rules leave out what is at a path, or a folder on the way to it. `row` is room
    /// to work in. An error is one of being out of memory.
    pub fn leaves_out(
        &self,
        row: &mut Vec<bool>,
        path: &[u8],
        is_folder: bool,
    ) -> Result<bool, AllocError>
        ensures { IfOk result
            (λ is_left_out. IsTrue is_left_out ↔ IsLeftOut self.now path.now is_folder) }
    {
        let mut at = 0;
        while at < path.len() {
            match self.ignores_at(row, path, at) {
                Ok(false) => {}
                Ok(true) => return Ok(true),
                Err(error) => return Err(error),
            }
            at += 1;
        }
        self.ignores(row, path, is_folder)
    }

    // Whether there is a slash at a position of a path, and the folder before it is left out.
    fn ignores_at(&self, row: &mut Vec<bool>, path: &[u8], at: usize) -> Result<bool, AllocError>
        requires { at < length path.now }
        ensures { IfOk result (λ ignores. IsTrue ignores ↔ ((slice_index path.now at ≡ 47)
            × IsDecided self.now (take at path.now) true Ignored)) }
    {
        if path[at] == b'/' {
            self.ignores(row, &path[..at], true)
        } else {
            Ok(false)
        }
    }

    // Whether the last rule that matches what is at a path leaves it out.
    fn ignores(&self, row: &mut Vec<bool>, path: &[u8], is_folder: bool) -> Result<bool, AllocError>
        ensures { IfOk result
            (λ ignores. IsTrue ignores ↔ IsDecided self.now path.now is_folder Ignored) }
    {
        match self.decision(row, path, is_folder)? {
            Decision::Ignored => Ok(true),
            Decision::Kept => Ok(false),
            Decision::Unmatched => Ok(false),
        }
    }

    /// Whether there is no rule.
    pub fn is_empty(&self) -> bool
        ensures { IsTrue result ↔ (self.now ≡ []) }
    {
        self.rules.is_empty()
    }
}

impl Rule {
    // What it says of what it matches.
    fn decision(&self) -> Decision
        ensures { result ≡ decision_of self.now }
    {
        if self.keeps {
            Decision::Kept
        } else {
            Decision::Ignored
        }
    }
}

impl PathTest for Rule {
    ghost use Rattle.grep_ignore.specs.Decisions.{IsAbout};

    ghost about = { λ rule path is_folder. IsAbout path is_folder rule };

    fn is_about(
        &self,
        row: &mut Vec<bool>,
        path: &[u8],
        is_folder: bool,
    ) -> Result<bool, AllocError> {
        if self.names_folders && !is_folder {
            Ok(false)
        } else {
            self.wildcards.is_match(row, path)
        }
    }

    fn ending(&self) -> &[u8] {
        self.wildcards.ending()
    }

    fn start(&self) -> &[u8] {
        self.wildcards.start()
    }
}
