//! Bytes in which each part that matches is replaced.
ghost use Rattle.std.specs.Prelude.{◌≡◌, ◌≤◌, ◌+◌, ◌++◌, ◌∷◌, [], length, IfOk, OnOk};
ghost use Rattle.grep_replace.specs.Groups.{LieWithin};
ghost use Rattle.grep_replace.specs.MatchedParts.{AreInOrder};
ghost use Rattle.grep_printer.specs.CallParts.{asked_bytes, asked_start};
ghost use Rattle.grep_replace.specs.ReplacedBytes.{replaced_bytes, replaced_parts};
ghost use Rattle.grep_printer.specs.ReplacedTexts.{end_of_line, ended, replacement_at};
ghost use Rattle.grep_printer.specs.Reports.{IsShown, call_of};

use crate::report::Report;
use grep_lines::without_terminator;
use grep_replace::{CapturesAt, Template};
use grep_searcher::{Match, Searcher};
use std::alloc::{AllocError, Allocator, Global};

// What replaces a part. A matcher finds the groups in some bytes, in which the report begins at a
// position, and the template says what is made of them. If a line is emptied, a byte ends it, if
// there is such a byte.
#[derive(Clone, Copy)]
pub struct Replacement<'t, 'r, M> {
    pub(crate) template: &'t Template,
    pub(crate) matcher: M,
    pub(crate) asked: &'r [u8],
    pub(crate) start: usize,
    pub(crate) end: Option<u8>,
}

// Bytes in which parts are replaced, and where the texts are that replaced them.
pub struct Replaced {
    pub(crate) bytes: Vec<u8>,
    pub(crate) parts: Vec<Match>,
}

// Written out, so that a caller's proof sees one call.
impl Drop for Replaced {
    fn drop(self) {
        let Replaced {
            bytes: _bytes,
            parts: _parts,
        } = self;
    }
}

impl<'t, 'r, M: CapturesAt + Copy> Replacement<'t, 'r, M> {
    // What replaces each part of a report. The groups are found in the bytes about which the
    // matcher was asked. In a search by line, a line that is emptied gets an end.
    pub(crate) fn of_report<A: Allocator + Copy>(
        template: &'t Template,
        matcher: M,
        searcher: &Searcher<A>,
        report: &Report<'r>,
    ) -> Replacement<'t, 'r, M>
        requires { IsShown report.now }
        ensures template { result.template.now ≡ template.now }
        ensures matcher { result.matcher ≡ matcher }
        ensures asked { result.asked.now ≡ asked_bytes searcher.now.settings
            (M.facts matcher).meaning (call_of report.now) }
        ensures start { result.start ≡ asked_start searcher.now.settings
            (M.facts matcher).meaning (call_of report.now) }
        ensures end { result.end ≡ end_of_line searcher.now.settings (M.facts matcher).meaning }
    {
        if searcher.multi_line_with_matcher(&matcher) {
            return Replacement {
                template,
                matcher,
                asked: report.shown,
                start: report.start,
                end: None,
            };
        }
        let terminator = searcher.line_terminator();
        Replacement {
            template,
            matcher,
            asked: without_terminator(report.bytes, terminator),
            start: 0,
            end: Some(terminator.as_byte()),
        }
    }

    // The bytes of a report in which each part is replaced. If no bytes are left, the end of the
    // line alone.
    pub(crate) fn replace(
        &self,
        alloc: Global,
        bytes: &[u8],
        parts: &[Match],
    ) -> Result<Replaced, AllocError>
        requires ordered { AreInOrder 0 (length bytes.now) parts.now }
        ensures bytes { IfOk result (λ replaced. replaced.bytes.items ≡ ended self.now.end
            (replaced_bytes (replacement_at M.groups_at self.now) bytes.now 0 parts.now)) }
        ensures parts { IfOk result (λ replaced. replaced.parts.items ≡ replaced_parts
            (replacement_at M.groups_at self.now) 0 0 parts.now) }
        ensures ordered { IfOk result (λ replaced.
            AreInOrder 0 (length replaced.bytes.items) replaced.parts.items) }
    {
        let mut replaced = Replaced {
            bytes: Vec::new(alloc),
            parts: Vec::new(alloc),
        };
        let mut position = 0;
        let mut rest = parts;
        while let Some((part, later)) = rest.split_first() {
            replaced
                .bytes
                .extend_from_slice(&bytes[position..part.start()])?;
            self.push_part(&mut replaced, part.start())?;
            position = part.end();
            rest = later;
        }
        replaced.bytes.extend_from_slice(&bytes[position..])?;
        self.end_line(&mut replaced.bytes)?;
        Ok(replaced)
    }

    // Adds the end of the line to bytes, if there are none.
    fn end_line(&self, bytes: &mut Vec<u8>) -> Result<(), AllocError>
        ensures { OnOk result (bytes.new.items ≡ ended self.now.end bytes.old.items) }
    {
        match self.end {
            Some(end) if bytes.is_empty() => Ok(bytes.push(end)?),
            _ => Ok(()),
        }
    }

    // Pushes what is written in place of the part at a position.
    fn push_part(&self, replaced: &mut Replaced, position: usize) -> Result<(), AllocError>
        ensures bytes { OnOk result (replaced.new.bytes.items ≡ replaced.old.bytes.items
            ++ replacement_at M.groups_at self.now position) }
        ensures parts { OnOk result (replaced.new.parts.items ≡ replaced.old.parts.items
            ++ (length replaced.old.bytes.items, length replaced.new.bytes.items) ∷ []) }
    {
        let start = replaced.bytes.len();
        self.push_text(&mut replaced.bytes, position)?;
        replaced
            .parts
            .push(Match::new(start, replaced.bytes.len()))?;
        Ok(())
    }

    // Pushes what the template makes of the groups of the match at a position.
    pub(crate) fn push_text(&self, text: &mut Vec<u8>, position: usize) -> Result<(), AllocError>
        ensures { OnOk result (text.new.items
            ≡ text.old.items ++ replacement_at M.groups_at self.now position) }
    {
        let mut groups = Vec::new(*text.allocator());
        self.find_groups(&mut groups, position)?;
        self.template.push_to(text, self.asked, &groups)
    }

    // The groups of the match at a position.
    fn find_groups(
        &self,
        groups: &mut Vec<Option<Match>>,
        position: usize,
    ) -> Result<(), AllocError>
        ensures groups { OnOk result (groups.new.items
            ≡ M.groups_at self.now.matcher self.now.asked.now (self.now.start + position)) }
        ensures within { OnOk result (LieWithin (length self.now.asked.now) groups.new.items) }
    {
        let len = self.asked.len();
        if position > len || self.start > len - position {
            groups.clear();
            return Ok(());
        }
        match self
            .matcher
            .captures_at(self.asked, self.start + position, groups)
        {
            Ok(_) => Ok(()),
            Err(error) => Err(error),
        }
    }
}
