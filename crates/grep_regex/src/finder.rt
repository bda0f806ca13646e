//! Asking what is in a cell for matches.
ghost use Rattle.std.specs.Prelude.{◌≡◌, ◌≤◌, length, is_some, IfOk, IfSome, OnOk};
ghost use Rattle.grep_matcher.specs.FindResults.{Avoids, IsFrom};
ghost use Rattle.grep_matcher.specs.Lawful.{IsInside, IsTrusted};
ghost use Rattle.grep_replace.specs.Groups.{IsOfMatch, LieWithin};
ghost use Rattle.grep_regex.specs.Views.{regex_first, regex_first_at, regex_text_at};
ghost use Rattle.grep_regex.specs.Views.{regex_groups_at, regex_text_groups_at};
ghost use Rattle.grep_regex.specs.Views.{regex_meaning, IsAnswer};

use crate::asked::Asked;
use crate::engine::Engine;
use crate::known::Known;
use crate::regex::Regex;
use crate::shortcut::Shortcut;
use grep_matcher::{LineMatchKind, Match};
use std::alloc::{AllocError, Global};
use std::cell::RefCell;

// What finds the matches of an expression.
pub(crate) trait Finder {
    ghost use Rattle.grep_regex.specs.declared.regex.Regex.{Regex};

    // What is known of an expression for which it is asked.
    ghost is_known: { Regex → Type 0 };

    // The first match from a position on in a haystack of which all is seen; for `AnyMatch` some
    // pair exactly if there is a match, and for `Start` one that starts there. It is `None` if this
    // is for another expression.
    fn find_for(
        &mut self,
        regex: &Regex,
        haystack: &[u8],
        start: usize,
        asked: Asked,
    ) -> Option<Option<(usize, usize)>>
        requires start { start ≤ length haystack.now }
        requires known { is_known regex.now }
        ensures value { IfSome result
            (IsAnswer asked (regex_text_at regex.now haystack.now start)) }
        ensures within { IfSome result (IsFrom start haystack.now) };

    // That match with its groups, in place of what was in `groups`.
    fn captures_for(
        &mut self,
        regex: &Regex,
        haystack: &[u8],
        start: usize,
        groups: &mut Vec<Option<Match>>,
    ) -> Option<Result<Option<Match>, AllocError>>
        requires start { start ≤ length haystack.now }
        requires known { is_known regex.now }
        ensures value { IfSome result (λ found. IfOk found (λ m.
            m ≡ regex_text_at regex.now haystack.now start)) }
        ensures groups { IfSome result (λ found. OnOk found (groups.new.items
            ≡ regex_text_groups_at regex.now haystack.now start)) }
        ensures whole { IfSome result (λ found. IfOk found (IsOfMatch groups.new.items)) }
        ensures within { IfSome result (λ found. OnOk found
            (LieWithin (length haystack.now) groups.new.items)) };
}

// The first match from a position on; for `AnyMatch` some pair exactly if there is a match, and
// for `Start` one that starts there. It is found by what is in the cell if that is needed.
fn find_by<F: Finder>(
    alloc: Global,
    shortcut: &Shortcut<'_>,
    cell: &RefCell<F>,
    haystack: &[u8],
    start: usize,
    asked: Asked,
) -> Result<Option<(usize, usize)>, AllocError>
    requires start { start ≤ length haystack.now }
    requires known { F.is_known shortcut.now.regex.now }
    ensures value { IfOk result
        (IsAnswer asked (regex_first_at shortcut.now.regex.now haystack.now start)) }
    ensures within { IfOk result (IsFrom start haystack.now) }
{
    let seen = shortcut.regex.seen_bytes(haystack);
    if start > seen.len() {
        return Ok(None);
    }
    match shortcut.look(seen, start, asked) {
        Known::Answer(found) => Ok(found),
        Known::From(later) => find_in(alloc, shortcut.regex, cell, seen, later, asked),
    }
}

// The first match from a position on in a haystack of which all is seen: by what is in the cell if
// that is for this expression, and otherwise by a new engine. It isn't inlined: engines take much
// of the stack.
#[inline(never)]
fn find_in<F: Finder>(
    alloc: Global,
    regex: &Regex,
    cell: &RefCell<F>,
    haystack: &[u8],
    start: usize,
    asked: Asked,
) -> Result<Option<(usize, usize)>, AllocError>
    requires start { start ≤ length haystack.now }
    requires known { F.is_known regex.now }
    ensures value { IfOk result (IsAnswer asked (regex_text_at regex.now haystack.now start)) }
    ensures within { IfOk result (IsFrom start haystack.now) }
{
    if let Ok(mut borrowed) = cell.try_borrow_mut() {
        if let Some(found) = borrowed.find_for(regex, haystack, start, asked) {
            return Ok(found);
        }
    }
    Engine::find_anew(alloc, regex, haystack, start, asked)
}

// The first match of an expression that starts at a position or after it.
pub(crate) fn match_at<F: Finder>(
    alloc: Global,
    shortcut: &Shortcut<'_>,
    cell: &RefCell<F>,
    haystack: &[u8],
    start: usize,
) -> Result<Option<Match>, AllocError>
    requires start { start ≤ length haystack.now }
    requires known { F.is_known shortcut.now.regex.now }
    ensures value { IfOk result
        (λ m. m ≡ regex_first_at shortcut.now.regex.now haystack.now start) }
    ensures within { IfOk result (IsFrom start haystack.now) }
    ensures avoids { IfOk result
        (Avoids (regex_meaning shortcut.now.regex.now).absent haystack.now) }
{
    match find_by(alloc, shortcut, cell, haystack, start, Asked::FirstMatch) {
        Ok(Some((from, end))) => Ok(Some(Match::new(from, end))),
        Ok(None) => Ok(None),
        Err(error) => Err(error),
    }
}

// The first match of an expression that starts at a position or after it, with its groups in place
// of what was in `groups`.
pub(crate) fn captures_at<F: Finder>(
    alloc: Global,
    regex: &Regex,
    cell: &RefCell<F>,
    haystack: &[u8],
    start: usize,
    groups: &mut Vec<Option<Match>>,
) -> Result<Option<Match>, AllocError>
    requires start { start ≤ length haystack.now }
    requires known { F.is_known regex.now }
    ensures value { IfOk result (λ m. m ≡ regex_first_at regex.now haystack.now start) }
    ensures groups { OnOk result (groups.new.items
        ≡ regex_groups_at regex.now haystack.now start) }
    ensures whole { IfOk result (IsOfMatch groups.new.items) }
    ensures within { OnOk result (LieWithin (length haystack.now) groups.new.items) }
{
    let seen = regex.seen_bytes(haystack);
    if seen.len() < start {
        groups.clear();
        return Ok(None);
    }
    captures_in(alloc, regex, cell, seen, start, groups)
}

// The first match from a position on in a haystack of which all is seen, with its groups in place
// of what was in `groups`.
fn captures_in<F: Finder>(
    alloc: Global,
    regex: &Regex,
    cell: &RefCell<F>,
    haystack: &[u8],
    start: usize,
    groups: &mut Vec<Option<Match>>,
) -> Result<Option<Match>, AllocError>
    requires start { start ≤ length haystack.now }
    requires known { F.is_known regex.now }
    ensures value { IfOk result (λ m. m ≡ regex_text_at regex.now haystack.now start) }
    ensures groups { OnOk result (groups.new.items
        ≡ regex_text_groups_at regex.now haystack.now start) }
    ensures whole { IfOk result (IsOfMatch groups.new.items) }
    ensures within { OnOk result (LieWithin (length haystack.now) groups.new.items) }
{
    if let Ok(mut borrowed) = cell.try_borrow_mut() {
        if let Some(found) = borrowed.captures_for(regex, haystack, start, groups) {
            return found;
        }
    }
    Engine::captures_anew(alloc, regex, haystack, start, groups)
}

// Whether the haystack has a match of an expression.
pub(crate) fn has_match<F: Finder>(
    alloc: Global,
    shortcut: &Shortcut<'_>,
    cell: &RefCell<F>,
    haystack: &[u8],
) -> Result<bool, AllocError>
    requires { F.is_known shortcut.now.regex.now }
    ensures { IfOk result
        (λ found. found ≡ is_some (regex_first shortcut.now.regex.now haystack.now)) }
{
    match find_by(alloc, shortcut, cell, haystack, 0, Asked::AnyMatch) {
        Ok(found) => Ok(found.is_some()),
        Err(error) => Err(error),
    }
}

// The first line that may match an expression. It is that of the first match, confirmed, if such a
// match lies within one line, which then matches by itself; and otherwise the first line.
pub(crate) fn candidate_line<F: Finder>(
    alloc: Global,
    shortcut: &Shortcut<'_>,
    cell: &RefCell<F>,
    haystack: &[u8],
) -> Result<Option<LineMatchKind>, AllocError>
    requires { F.is_known shortcut.now.regex.now }
    ensures inside { IfOk result (IsInside haystack.now) }
    ensures trusted { IfOk result
        (IsTrusted (regex_meaning shortcut.now.regex.now) (λ _. Unit {0}) haystack.now) }
{
    if !shortcut.regex.is_by_line() {
        return Ok(Some(LineMatchKind::Candidate(0)));
    }
    match find_by(alloc, shortcut, cell, haystack, 0, Asked::Start) {
        Ok(Some((start, _))) => Ok(Some(LineMatchKind::Confirmed(start))),
        Ok(None) => Ok(None),
        Err(error) => Err(error),
    }
}
