//! What searches for a regular expression.
ghost use Rattle.std.specs.Prelude.{◌≡◌, ◌≤◌, ◌-◌, length, IfOk, IfSome, MatchOption, OnOk, Some};
ghost use Rattle.std.specs.Prelude.{option_map};
ghost use Rattle.std.specs.Arc.{arc_value};
ghost use Rattle.regex_meta.specs.Programs.{leftmost};
ghost use Rattle.grep_regex.specs.Patterns.{captured};
ghost use Rattle.grep_regex.specs.Programs.{capturing_program};

use crate::asked::Asked;
use crate::finder::Finder;
use crate::group_finder::GroupFinder;
use crate::groups::push_match;
use crate::regex::Regex;
use grep_matcher::Match;
use regex_meta::Searcher;
use std::alloc::{AllocError, Global};

// What searches for an expression, with the expression that it was made for.
pub(crate) struct Engine<'r> {
    pub(crate) regex: &'r Regex,
    searcher: Searcher<'r>,
    // What finds groups, if the searcher doesn't.
    groups: Option<GroupFinder<'r>>,
    ghost same: { ∥ searcher.program.now ≡ (arc_value regex.now.shared).programs.finding ∥₁ },
    ghost captures: { ∥ MatchOption groups (capturing_program (arc_value regex.now.shared).programs
        ≡ (arc_value regex.now.shared).programs.finding)
        (λ finder. finder.program.now
        ≡ capturing_program (arc_value regex.now.shared).programs) ∥₁ },
}

// Written out, so that a caller's proof sees one call.
impl<'r> Drop for Engine<'r> {
    fn drop(self) {
        let Engine {
            regex: _regex,
            searcher: _searcher,
            groups: _groups,
        } = self;
    }
}

impl<'r> Engine<'r> {
    ghost use Rattle.grep_matcher.specs.FindResults.{IsFrom};
    ghost use Rattle.grep_replace.specs.Groups.{IsOfMatch, LieWithin};
    ghost use Rattle.grep_regex.specs.Views.{engine_regex, regex_text_at, IsAnswer};
    ghost use Rattle.grep_regex.specs.Views.{regex_capturing, regex_text_groups_at};

    pub(crate) fn new(alloc: Global, regex: &'r Regex) -> Result<Engine<'r>, AllocError>
        ensures { IfOk result (λ engine. engine.regex.now ≡ regex.now) }
    {
        let searcher = regex.searcher(alloc)?;
        let groups = regex.group_finder(alloc)?;
        Ok(Engine {
            regex,
            searcher,
            groups,
        })
    }

    // The first match from a position on in a haystack of which all is seen; for `AnyMatch` some
    // pair exactly if there is a match, and for `Start` one that starts there.
    pub(crate) fn find_at(
        &mut self,
        haystack: &[u8],
        start: usize,
        asked: Asked,
    ) -> Option<(usize, usize)>
        requires { start ≤ length haystack.now }
        ensures value { IsAnswer asked
            (regex_text_at (engine_regex self.old) haystack.now start) result }
        ensures within { IsFrom start haystack.now result }
        ensures same { self.new.regex.now ≡ self.old.regex.now }
    {
        match asked {
            Asked::AnyMatch => {
                if self.searcher.is_match(haystack, start) {
                    Some((start, start))
                } else {
                    None
                }
            }
            _ => self.searcher.find(haystack, start),
        }
    }

    // The first match from a position on, by a new engine. The only error is being out of memory.
    pub(crate) fn find_anew(
        alloc: Global,
        regex: &'r Regex,
        haystack: &[u8],
        start: usize,
        asked: Asked,
    ) -> Result<Option<(usize, usize)>, AllocError>
        requires { start ≤ length haystack.now }
        ensures value { IfOk result
            (IsAnswer asked (regex_text_at regex.now haystack.now start)) }
        ensures within { IfOk result (IsFrom start haystack.now) }
    {
        match Engine::new(alloc, regex) {
            Ok(mut engine) => Ok(engine.find_at(haystack, start, asked)),
            Err(error) => Err(error),
        }
    }

    // The first match from a position on in a haystack of which all is seen, with its groups in
    // place of what was in `groups`.
    pub(crate) fn captures_at(
        &mut self,
        haystack: &[u8],
        start: usize,
        groups: &mut Vec<Option<Match>>,
    ) -> Result<Option<Match>, AllocError>
        requires { start ≤ length haystack.now }
        ensures value { IfOk result (λ m.
            m ≡ regex_text_at (engine_regex self.old) haystack.now start) }
        ensures groups { OnOk result (groups.new.items
            ≡ regex_text_groups_at (engine_regex self.old) haystack.now start) }
        ensures whole { IfOk result (IsOfMatch groups.new.items) }
        ensures within { OnOk result (LieWithin (length haystack.now) groups.new.items) }
        ensures same { self.new.regex.now ≡ self.old.regex.now }
    {
        let slots = self.regex.slot_count() as usize;
        match zeros(*groups.allocator(), slots.saturating_sub(2)) {
            Ok(mut cells) => self.captures_by(haystack, start, groups, &mut cells),
            Err(error) => Err(error),
        }
    }

    // The first match from a position on, with its groups in place of what was in `groups`. The
    // engine writes them to cells, two for each group but the first.
    fn captures_by(
        &mut self,
        haystack: &[u8],
        start: usize,
        groups: &mut Vec<Option<Match>>,
        cells: &mut [usize],
    ) -> Result<Option<Match>, AllocError>
        requires start { start ≤ length haystack.now }
        requires width { length cells.old
            ≡ (regex_capturing (engine_regex self.old)).dfa.nfa.slot_count - 2 }
        ensures value { IfOk result (λ m.
            m ≡ regex_text_at (engine_regex self.old) haystack.now start) }
        ensures groups { OnOk result (groups.new.items
            ≡ regex_text_groups_at (engine_regex self.old) haystack.now start) }
        ensures whole { IfOk result (IsOfMatch groups.new.items) }
        ensures within { OnOk result (LieWithin (length haystack.now) groups.new.items) }
        ensures same { self.new.regex.now ≡ self.old.regex.now }
    {
        groups.clear();
        let Some((from, end)) = self.find_cells(haystack, start, cells)? else {
            return Ok(None);
        };
        match push_match(groups, haystack.len(), from, end, cells) {
            Ok(whole) => Ok(Some(whole)),
            Err(error) => Err(error),
        }
    }

    // The span of the first match from a position on, with the cells of its groups.
    fn find_cells(
        &mut self,
        haystack: &[u8],
        start: usize,
        cells: &mut [usize],
    ) -> Result<Option<(usize, usize)>, AllocError>
        requires start { start ≤ length haystack.now }
        requires width { length cells.old
            ≡ (regex_capturing (engine_regex self.old)).dfa.nfa.slot_count - 2 }
        ensures span { IfOk result (λ s.
            s ≡ regex_text_at (engine_regex self.old) haystack.now start) }
        ensures cells { IfOk result (λ s. IfSome s (λ span. Some (span, cells.new)
            ≡ option_map (captured (length cells.old))
            (leftmost (regex_capturing (engine_regex self.old)) haystack.now start))) }
        ensures same { self.new.regex.now ≡ self.old.regex.now }
    {
        match &mut self.groups {
            None => Ok(self.searcher.captures(haystack, start, cells)),
            Some(finder) => match self.searcher.find(haystack, start) {
                Some((from, end)) => {
                    finder.find_at(haystack, from, end, cells)?;
                    Ok(Some((from, end)))
                }
                None => Ok(None),
            },
        }
    }

    // The first match from a position on, with its groups in place of what was in `groups`, by a
    // new engine. The only error is being out of memory.
    pub(crate) fn captures_anew(
        alloc: Global,
        regex: &'r Regex,
        haystack: &[u8],
        start: usize,
        groups: &mut Vec<Option<Match>>,
    ) -> Result<Option<Match>, AllocError>
        requires { start ≤ length haystack.now }
        ensures value { IfOk result (λ m. m ≡ regex_text_at regex.now haystack.now start) }
        ensures groups { OnOk result (groups.new.items
            ≡ regex_text_groups_at regex.now haystack.now start) }
        ensures whole { IfOk result (IsOfMatch groups.new.items) }
        ensures within { OnOk result (LieWithin (length haystack.now) groups.new.items) }
    {
        match Engine::new(alloc, regex) {
            Ok(mut engine) => engine.captures_at(haystack, start, groups),
            Err(error) => Err(error),
        }
    }
}

// So many cells for groups.
fn zeros(alloc: Global, count: usize) -> Result<Vec<usize>, AllocError>
    ensures { IfOk result (λ cells. length cells.items ≡ count) }
{
    let cells = vec![in alloc; 0usize; count]?;
    Ok(cells)
}

// It is for the expressions that have the same options and texts.
impl<'r> Finder for Engine<'r> {
    ghost is_known = { λ _. Unit {0} };

    fn find_for(
        &mut self,
        regex: &Regex,
        haystack: &[u8],
        start: usize,
        asked: Asked,
    ) -> Option<Option<(usize, usize)>> {
        if !self.regex.is_equal(regex) {
            return None;
        }
        Some(self.find_at(haystack, start, asked))
    }

    fn captures_for(
        &mut self,
        regex: &Regex,
        haystack: &[u8],
        start: usize,
        groups: &mut Vec<Option<Match>>,
    ) -> Option<Result<Option<Match>, AllocError>> {
        if !self.regex.is_equal(regex) {
            return None;
        }
        Some(self.captures_at(haystack, start, groups))
    }
}
