//! The groups of matches, from the cells that the engines write.
ghost use Rattle.std.specs.Prelude.{◌≡◌, ◌≤◌, ◌++◌, ◌∷◌, [], IfOk, OnOk, Some};
ghost use Rattle.grep_regex.specs.Groups.{group_of_cells, groups_of_cells};

use grep_matcher::Match;
use std::alloc::AllocError;

// Pushes a match and its groups.
pub(crate) fn push_match(
    groups: &mut Vec<Option<Match>>,
    size: usize,
    from: usize,
    end: usize,
    cells: &[usize],
) -> Result<Match, AllocError>
    requires { from ≤ end }
    ensures whole { IfOk result (λ m. m ≡ (from, end)) }
    ensures groups { OnOk result (groups.new.items ≡ groups.old.items
        ++ Some (from, end) ∷ groups_of_cells size cells.now) }
{
    let whole = Match::new(from, end);
    groups.push(Some(whole))?;
    push_groups(groups, size, cells)?;
    Ok(whole)
}

// Pushes a match alone.
pub(crate) fn push_whole(
    groups: &mut Vec<Option<Match>>,
    from: usize,
    end: usize,
) -> Result<Option<Match>, AllocError>
    requires { from ≤ end }
    ensures whole { IfOk result (λ m. m ≡ Some (from, end)) }
    ensures groups { OnOk result (groups.new.items ≡ groups.old.items ++ Some (from, end) ∷ []) }
{
    let whole = Match::new(from, end);
    groups.push(Some(whole))?;
    Ok(Some(whole))
}

// Pushes the groups with these cells, two for each: the position of each end and one more, or 0. A
// group that takes no part, or wouldn't lie in so many bytes, is none.
fn push_groups(
    groups: &mut Vec<Option<Match>>,
    size: usize,
    cells: &[usize],
) -> Result<(), AllocError>
    ensures { OnOk result (groups.new.items
        ≡ groups.old.items ++ groups_of_cells size cells.now) }
{
    let mut rest = cells;
    while let Some((first, others)) = rest.split_first() {
        let Some((last, later)) = others.split_first() else {
            break;
        };
        groups.push(group_of_cells(size, *first, *last))?;
        rest = later;
    }
    Ok(())
}

// The group with two cells.
fn group_of_cells(size: usize, first: usize, last: usize) -> Option<Match>
    ensures { result ≡ group_of_cells size first last }
{
    if 1 <= first && first <= last && last - 1 <= size {
        Some(Match::new(first - 1, last - 1))
    } else {
        None
    }
}
