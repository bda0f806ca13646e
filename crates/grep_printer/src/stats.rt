//! What was searched, found and written.
ghost use Rattle.std.specs.Prelude.{◌≡◌, ◌+◌, ◌/◌};
ghost use Rattle.std.specs.Duration.{as_nanos};
ghost use Rattle.grep_printer.specs.StatsSums.{nanos_of, no_stats, stats_sum};

use std::time::Duration;

/// Counts of what was searched, found and written, in one search or in several. A count that
/// doesn't fit in 64 bits is the greatest number that does.
#[derive(Clone, Copy, Debug, PartialEq, Eq)]
pub struct Stats {
    // How long the searches took, in nanoseconds.
    pub(crate) elapsed: u64,
    pub(crate) searches: u64,
    pub(crate) searches_with_match: u64,
    pub(crate) bytes_searched: u64,
    pub(crate) bytes_printed: u64,
    pub(crate) matched_lines: u64,
    pub(crate) matches: u64,
}

impl Stats {
    /// Nothing was searched yet.
    pub fn new() -> Stats
        ensures { result ≡ no_stats }
    {
        Stats {
            elapsed: 0,
            searches: 0,
            searches_with_match: 0,
            bytes_searched: 0,
            bytes_printed: 0,
            matched_lines: 0,
            matches: 0,
        }
    }

    /// How long the searches took, up to 2^64 - 1 nanoseconds.
    pub fn elapsed(&self) -> Duration
        ensures { as_nanos result ≡ self.now.elapsed }
    {
        Duration::from_nanos(self.elapsed)
    }

    /// How many searches there were.
    pub fn searches(&self) -> u64
        ensures { result ≡ self.now.searches }
    {
        self.searches
    }

    /// How many of them found a match.
    pub fn searches_with_match(&self) -> u64
        ensures { result ≡ self.now.searches_with_match }
    {
        self.searches_with_match
    }

    /// How many bytes they have been through, of decoded input.
    pub fn bytes_searched(&self) -> u64
        ensures { result ≡ self.now.bytes_searched }
    {
        self.bytes_searched
    }

    /// How many bytes were written of what they found.
    pub fn bytes_printed(&self) -> u64
        ensures { result ≡ self.now.bytes_printed }
    {
        self.bytes_printed
    }

    /// How many lines the matches have that were reported.
    pub fn matched_lines(&self) -> u64
        ensures { result ≡ self.now.matched_lines }
    {
        self.matched_lines
    }

    /// How many times the matcher matches in them.
    pub fn matches(&self) -> u64
        ensures { result ≡ self.now.matches }
    {
        self.matches
    }

    /// Adds other counts, each to its own.
    pub fn add(&mut self, other: &Stats)
        ensures { self.new ≡ stats_sum self.old other.now }
    {
        self.elapsed = self.elapsed.saturating_add(other.elapsed);
        self.searches = self.searches.saturating_add(other.searches);
        self.searches_with_match = self
            .searches_with_match
            .saturating_add(other.searches_with_match);
        self.bytes_searched = self.bytes_searched.saturating_add(other.bytes_searched);
        self.bytes_printed = self.bytes_printed.saturating_add(other.bytes_printed);
        self.matched_lines = self.matched_lines.saturating_add(other.matched_lines);
        self.matches = self.matches.saturating_add(other.matches);
    }
}

// The nanoseconds of a duration, or the greatest number of 64 bits.
pub(crate) fn nanoseconds(duration: Duration) -> u64
    ensures { result ≡ nanos_of duration }
{
    duration.as_nanos().min(u64::MAX as u128) as u64
}

// The microseconds next to a number of nanoseconds.
pub(crate) fn microseconds(nanos: u64) -> u64
    ensures { result ≡ (nanos + 500) / 1000 }
{
    nanos / 1000 + (nanos % 1000 + 500) / 1000
}
