//! Bytes in which all matches are replaced.
ghost use Rattle.std.specs.Prelude.{◌≡◌, ◌++◌, ◌+◌, IfOk, IfSome, OnOk, length};
ghost use Rattle.std.specs.Io.{StartsWith};
ghost use Rattle.grep_replace.specs.Groups.{LieWithin};
ghost use Rattle.grep_replace.specs.MatchedParts.{LiesFrom, found_from};
ghost use Rattle.grep_replace.specs.ReplacedBytes.{all_replaced, replaced_lines};

use crate::captures_at::CapturesAt;
use crate::parts::{is_passed, position_after};
use crate::template::Template;
use grep_lines::{LineIter, without_terminator};
use grep_matcher::{LineTerminator, Match};
use std::alloc::AllocError;

/// Pushes `bytes` to `text`, with what `template` makes of the groups of each match in its place.
///
/// The matches are the successive ones of all the bytes, as `find_parts` finds them from 0 on with
/// a limit past the end: an empty match at the very end is replaced too, and an empty match right
/// where the one before ended isn't. There is one search for each match.
///
/// The only error is being out of memory. After it, some of the text may have been pushed. What was
/// in `text` before is still at its start.
pub fn replace_all<M: CapturesAt>(
    text: &mut Vec<u8>,
    matcher: &M,
    template: &Template,
    bytes: &[u8],
) -> Result<(), AllocError>
    ensures text { OnOk result (text.new.items ≡ text.old.items
        ++ all_replaced template.now (M.first_at matcher.now) (M.groups_at matcher.now)
        bytes.now) }
    ensures kept { StartsWith text.new.items text.old.items }
{
    let mut groups = Vec::new(*text.allocator());
    push_replaced(text, &mut groups, matcher, template, bytes)
}

/// Pushes `bytes` to `text`, line by line, with what `template` makes of the groups of each match
/// in its place. Each line is searched by itself, without its terminator, as `replace_all` does.
/// Its terminator stays as it is, and a last line without one gets none.
///
/// The lines are split at the byte of `terminator`. Under `LineTerminator::Crlf` that is a line
/// feed, and a carriage return before it belongs to the terminator. A line feed without one is then
/// searched as part of its line.
///
/// The only error is being out of memory. After it, some of the text may have been pushed. What was
/// in `text` before is still at its start.
pub fn replace_lines<M: CapturesAt>(
    text: &mut Vec<u8>,
    matcher: &M,
    template: &Template,
    bytes: &[u8],
    terminator: LineTerminator,
) -> Result<(), AllocError>
    ensures text { OnOk result (text.new.items ≡ text.old.items
        ++ replaced_lines template.now (M.first_at matcher.now) (M.groups_at matcher.now)
        terminator bytes.now) }
    ensures kept { StartsWith text.new.items text.old.items }
{
    let mut groups = Vec::new(*text.allocator());
    for line in LineIter::new(terminator.as_byte(), bytes) {
        let searched = without_terminator(line, terminator);
        push_replaced(text, &mut groups, matcher, template, searched)?;
        text.extend_from_slice(&line[searched.len()..])?;
    }
    Ok(())
}

// Pushes bytes in which each match is replaced. The groups of each match come in place of what was
// in `groups`.
fn push_replaced<M: CapturesAt>(
    text: &mut Vec<u8>,
    groups: &mut Vec<Option<Match>>,
    matcher: &M,
    template: &Template,
    bytes: &[u8],
) -> Result<(), AllocError>
    ensures text { OnOk result (text.new.items ≡ text.old.items
        ++ all_replaced template.now (M.first_at matcher.now) (M.groups_at matcher.now)
        bytes.now) }
    ensures kept { StartsWith text.new.items text.old.items }
{
    let mut position = 0;
    let mut end = None;
    let mut copied = 0;
    while let Some(found) = match_from(groups, matcher, bytes, position)? {
        let passed = is_passed(end, &found);
        end = Some(found.end());
        position = position_after(&found);
        if passed {
            continue;
        }
        text.extend_from_slice(&bytes[copied..found.start()])?;
        template.push_to(text, bytes, groups)?;
        copied = found.end();
    }
    text.extend_from_slice(&bytes[copied..])?;
    Ok(())
}

// The first match from a position on, with its groups. There is none from a position past the
// bytes.
fn match_from<M: CapturesAt>(
    groups: &mut Vec<Option<Match>>,
    matcher: &M,
    bytes: &[u8],
    position: usize,
) -> Result<Option<Match>, AllocError>
    ensures value { IfOk result (λ m. m ≡ found_from (M.first_at matcher.now bytes.now)
        (length bytes.now) (length bytes.now + 1) position) }
    ensures lies { IfOk result (LiesFrom position (length bytes.now) (length bytes.now + 1)) }
    ensures groups { IfOk result (λ m. IfSome m (λ found.
        groups.new.items ≡ M.groups_at matcher.now bytes.now found.0)) }
    ensures within { OnOk result (LieWithin (length bytes.now) groups.new.items) }
{
    if position > bytes.len() {
        groups.clear();
        return Ok(None);
    }
    matcher.captures_at(bytes, position, groups)
}
