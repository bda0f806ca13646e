//! What messages of JSON say beside each match: what would replace it.
ghost use Rattle.std.specs.Prelude.{◌≡◌, ℕ, IfOk, List, Option};
ghost use Rattle.std.specs.Option.{option_map};
ghost use Rattle.grep_searcher.specs.Plans.{Call, Settings};
ghost use Rattle.grep_printer.specs.Reports.{IsShown, call_of};

use crate::replaced::Replacement;
use crate::report::Report;
use grep_replace::{CapturesAt, Template};
use grep_searcher::Searcher;
use std::alloc::{AllocError, Allocator, Global};

/// What would replace the matches of a search, if something would.
pub trait Replacer: Copy {
    /// What would replace the match at a position of a call's report, if something would.
    ghost text_at: { Self → Settings → Call → ℕ → Option (List ℕ) };

    /// What would replace the match at a position of a report, if something would. An error is one
    /// of being out of memory.
    fn replacement<A: Allocator + Copy>(
        &self,
        alloc: Global,
        searcher: &Searcher<A>,
        report: &Report<'_>,
        position: usize,
    ) -> Result<Option<Vec<u8>>, AllocError>
        requires { IsShown report.now }
        ensures { IfOk result (λ text. option_map (λ bytes. bytes.items) text
            ≡ text_at self.now searcher.now.settings (call_of report.now) position) };
}

/// No match is replaced.
#[derive(Clone, Copy)]
pub struct NoReplacer;

impl Replacer for NoReplacer {
    ghost use Rattle.grep_printer.specs.ReplacerTexts.{no_text_at};

    ghost text_at = { no_text_at };

    fn replacement<A: Allocator + Copy>(
        &self,
        _alloc: Global,
        _searcher: &Searcher<A>,
        _report: &Report<'_>,
        _position: usize,
    ) -> Result<Option<Vec<u8>>, AllocError> {
        Ok(None)
    }
}

/// Each match is replaced by what a template makes of its groups, which the matcher of the search
/// finds.
#[derive(Clone, Copy)]
pub struct TemplateReplacer<'t, M> {
    pub(crate) template: &'t Template,
    pub(crate) matcher: M,
}

impl<'t, M> TemplateReplacer<'t, M> {
    /// A replacer of the matches of a search with this matcher.
    pub fn new(matcher: M, template: &'t Template) -> TemplateReplacer<'t, M>
        ensures matcher { result.matcher ≡ matcher }
        ensures template { result.template.now ≡ template.now }
    {
        TemplateReplacer { template, matcher }
    }
}

impl<'t, M: CapturesAt + Copy> Replacer for TemplateReplacer<'t, M> {
    ghost use Rattle.grep_printer.specs.ReplacerTexts.{template_text_at};

    ghost text_at = { template_text_at M.groups_at (λ m. (M.facts m).meaning) };

    fn replacement<A: Allocator + Copy>(
        &self,
        alloc: Global,
        searcher: &Searcher<A>,
        report: &Report<'_>,
        position: usize,
    ) -> Result<Option<Vec<u8>>, AllocError> {
        let mut text = Vec::new(alloc);
        Replacement::of_report(self.template, self.matcher, searcher, report).push_text(
            &mut text, position,
        )?;
        Ok(Some(text))
    }
}

impl<R: Replacer> Replacer for Option<R> {
    ghost use Rattle.grep_printer.specs.ReplacerTexts.{optional_text_at};

    ghost text_at = { optional_text_at R.text_at };

    fn replacement<A: Allocator + Copy>(
        &self,
        alloc: Global,
        searcher: &Searcher<A>,
        report: &Report<'_>,
        position: usize,
    ) -> Result<Option<Vec<u8>>, AllocError> {
        match self {
            Some(replacer) => replacer.replacement(alloc, searcher, report, position),
            None => Ok(None),
        }
    }
}
