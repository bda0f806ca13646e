//! Uses of options, and which of them decide.
ghost use Rattle.std.specs.Prelude.{◌≡◌, IfOk, find, option_map, position, reverse};
ghost use Rattle.linegrep_options.specs.OptionUses.{applies, decides, is_same, last_place};
ghost use Rattle.linegrep_options.specs.OptionUses.{last_use};
ghost use Rattle.linegrep_options.specs.OptionUses.{last_value, places_of, takes_back, value_for};
ghost use Rattle.linegrep_options.specs.OptionUses.{values_of};
ghost use Rattle.linegrep_options.specs.OptionUses.{is_contrary};
ghost use Rattle.linegrep_options.specs.Rows.{all_contraries};

use crate::option_id::OptionId;
use crate::table::{Contrary, contraries};
use std::alloc::{AllocError, Global};

/// A use of an option.
#[derive(Clone, Copy)]
pub struct Use<'w> {
    /// The option.
    pub id: OptionId,
    /// Its value, if it has one.
    pub value: Option<&'w str>,
}

/// Whether an option applies: of its uses and of those of options that take it back the last is its
/// own.
#[tactic(auto, unfolding(crate::specs::OptionUses::applies))]
pub fn applies(uses: &[Use<'_>], option: OptionId) -> bool
    ensures { result ≡ applies uses.now option }
{
    match last_deciding(uses, contraries(), option) {
        Some(last) => is_same(last.id, option),
        None => false,
    }
}

// The last use that decides whether an option applies.
fn last_deciding<'u, 'w>(
    uses: &'u [Use<'w>],
    contraries: &[Contrary],
    option: OptionId,
) -> Option<&'u Use<'w>>
    ensures { option_map (λ one. one.now) result
        ≡ find (decides contraries.now option) (reverse uses.entry.now) }
{
    uses.iter().rev().find(|one| is_same(one.id, option) || takes_back(contraries, option, one.id))
}

// Whether a use of an option after one of another takes that back.
fn takes_back(contraries: &[Contrary], option: OptionId, by: OptionId) -> bool
    ensures { result ≡ takes_back contraries.now option by }
{
    contraries
        .iter()
        .any(|contrary| is_contrary(contrary, option, by))
}

fn is_contrary(contrary: &Contrary, option: OptionId, by: OptionId) -> bool
    ensures { result ≡ is_contrary option by contrary.now }
{
    is_same(contrary.option, option) && is_same(contrary.by, by)
}

/// Whether two options are one.
pub fn is_same(one: OptionId, other: OptionId) -> bool
    ensures { result ≡ is_same one other }
{
    one as u8 == other as u8
}

// The last use of an option.
fn last_use<'u, 'w>(uses: &'u [Use<'w>], option: OptionId) -> Option<&'u Use<'w>>
    ensures { option_map (λ one. one.now) result ≡ last_use uses.entry.now option }
{
    uses.iter().rev().find(|one| is_same(one.id, option))
}

/// The value of the last use of an option, if it is used and has one.
#[tactic(auto, unfolding(crate::specs::OptionUses::last_value))]
pub fn last_value<'w>(uses: &[Use<'w>], option: OptionId) -> Option<&'w str>
    ensures { result ≡ last_value uses.entry.now option }
{
    match last_use(uses, option) {
        Some(last) => last.value,
        None => None,
    }
}

/// The place of the last use of an option among the uses, from 1, or 0 if it isn't used.
#[tactic(auto, unfolding(crate::specs::OptionUses::last_place))]
pub fn last_place(uses: &[Use<'_>], option: OptionId) -> usize
    ensures { result ≡ last_place uses.now option }
{
    match place_from_end(uses, option) {
        Some(back) => uses.len() - back,
        None => 0,
    }
}

// How many uses are after the last one of an option.
fn place_from_end(uses: &[Use<'_>], option: OptionId) -> Option<usize>
    ensures { result ≡ position (λ one. is_same one.id option) (reverse uses.now) }
{
    uses.iter().rev().position(|one| is_same(one.id, option))
}

/// The values of an option, in the order of its uses. The only error is being out of memory.
pub fn values_of<'w>(
    alloc: Global,
    uses: &[Use<'w>],
    option: OptionId,
) -> Result<Vec<&'w str>, AllocError>
    ensures { IfOk result (λ values. values.items ≡ values_of option uses.entry.now) }
{
    let mut values = Vec::new(alloc);
    for one in uses {
        if let Some(value) = value_for(one, option) {
            values.push(value)?;
        }
    }
    Ok(values)
}

// The value of a use, if it is of an option and has one.
fn value_for<'w>(one: &Use<'w>, option: OptionId) -> Option<&'w str>
    ensures { result ≡ value_for option one.entry.now }
{
    if is_same(one.id, option) {
        one.value
    } else {
        None
    }
}

/// The places of the uses of an option among all uses, from 1. The only error is being out of
/// memory.
pub fn places_of(
    alloc: Global,
    uses: &[Use<'_>],
    option: OptionId,
) -> Result<Vec<usize>, AllocError>
    ensures { IfOk result (λ places. places.items ≡ places_of option 1 uses.now) }
{
    let mut places = Vec::new(alloc);
    for (at, one) in uses.iter().enumerate() {
        if is_same(one.id, option) {
            places.push(at + 1)?;
        }
    }
    Ok(places)
}
