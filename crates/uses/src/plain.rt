//! Searchers of input as it is.
ghost use Rattle.std.specs.Prelude.{◌≡◌, ℕ, List, false, true, None, IfOk, IfErr};
ghost use Rattle.grep_searcher.specs.Plans.{Settings};
ghost use Rattle.grep_searcher.specs.Searches.{searched_bytes};
ghost use Rattle.grep_searcher.specs.SliceSearches.{is_searched_unchanged};
ghost use Rattle.uses.specs.PlainSettings.{as_it_is, built_with, held_to, inverted, limited_to};

use grep_searcher::laws::unchanged_is_searched;
use grep_searcher::{ConfigError, Searcher, SearcherBuilder};
use std::alloc::Global;

// What such a searcher searches: a law that follows from one of grep_searcher.
pub(crate) fn input_is_searched()
    ensures unchanged { (settings : Settings) (input : List ℕ)
        → settings.encoding ≡ None → settings.bom_sniffing ≡ false
        → is_searched_unchanged settings input ≡ true }
    ensures input { (settings : Settings) (input : List ℕ)
        → settings.encoding ≡ None → settings.bom_sniffing ≡ false
        → searched_bytes settings input ≡ input }
{
    unchanged_is_searched();
}

// A searcher that searches its input as it is.
pub(crate) fn searcher_as_it_is(alloc: Global) -> Result<Searcher, ConfigError>
    ensures settings { IfOk result (λ searcher.
        searcher ≡ built_with as_it_is) }
    ensures error { IfErr result (λ e. e ≡ ConfigError.Memory) }
{
    SearcherBuilder::new().bom_sniffing(false).build(alloc)
}

// One that holds at most so many bytes of it.
pub(crate) fn searcher_held_to(alloc: Global, limit: usize) -> Result<Searcher, ConfigError>
    ensures settings { IfOk result (λ searcher.
        searcher ≡ built_with (held_to limit)) }
    ensures error { IfErr result (λ e. e ≡ ConfigError.Memory) }
{
    SearcherBuilder::new()
        .bom_sniffing(false)
        .heap_limit(Some(limit))
        .build(alloc)
}

// One that searches up to the last of so many lines that match.
pub(crate) fn searcher_limited_to(alloc: Global, limit: u64) -> Result<Searcher, ConfigError>
    ensures settings { IfOk result (λ searcher.
        searcher ≡ built_with (limited_to limit)) }
    ensures error { IfErr result (λ e. e ≡ ConfigError.Memory) }
{
    SearcherBuilder::new()
        .bom_sniffing(false)
        .max_matches(Some(limit))
        .build(alloc)
}

// One that searches for the lines that don't match.
pub(crate) fn searcher_inverted(alloc: Global) -> Result<Searcher, ConfigError>
    ensures settings { IfOk result (λ searcher.
        searcher ≡ built_with inverted) }
    ensures error { IfErr result (λ e. e ≡ ConfigError.Memory) }
{
    SearcherBuilder::new()
        .bom_sniffing(false)
        .invert_match(true)
        .build(alloc)
}
