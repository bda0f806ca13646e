//! The text of what was searched, found and written.
ghost use Rattle.std.specs.Prelude.{◌≡◌, IfOk};
ghost use Rattle.std.specs.String.{string_bytes};
ghost use Rattle.grep_output.specs.PendingTexts.{Adds};
ghost use Rattle.grep_printer.specs.CountedTexts.{count_text, found_text, searched_text};
ghost use Rattle.grep_printer.specs.CountedTexts.{seconds_of};
ghost use Rattle.grep_printer.specs.CountedTexts.{stats_text, time_text};
ghost use Rattle.grep_printer.specs.JsonEnds.{HasPutText};
ghost use Rattle.grep_printer.specs.StatsSums.{nanos_of};

use crate::counted::CountedFormat;
use crate::printer::Printer;
use crate::stats::{Stats, microseconds, nanoseconds};
use grep_output::{Output, Pending};
use grep_searcher::SearchError;
use std::alloc::{AllocError, Global};
use std::time::Duration;

impl<F> Printer<CountedFormat<F>> {
    /// Writes what was searched, found and written in all searches, in lines of their own after an
    /// empty one, and how long they took together. An error is the writer's, or one of being out of
    /// memory.
    pub fn write_stats<W: Output>(
        &mut self,
        writer: &mut W,
        stats: &Stats,
        elapsed: Duration,
    ) -> Result<(), SearchError>
        ensures { HasPutText W.step writer.old self.old (stats_text stats.now (nanos_of elapsed))
            result writer.new self.new }
    {
        self.pending.begin();
        push_stats(&mut self.pending, stats, nanoseconds(elapsed));
        if self.pending.has_failed() {
            self.pending.cancel();
            return Err(SearchError::from(AllocError));
        }
        match self.end_text(writer) {
            Ok(()) => Ok(()),
            Err(error) => Err(SearchError::Io(error)),
        }
    }
}

// Pushes the text of counts, and how long all took, which is given in nanoseconds.
fn push_stats(text: &mut Pending, stats: &Stats, elapsed: u64)
    ensures { Adds text.old text.new (stats_text stats.now elapsed) }
{
    text.push(b"\n");
    push_found(text, stats);
    push_searched(text, stats);
    push_time(text, stats.elapsed, b" seconds spent searching\n");
    push_time(text, elapsed, b" seconds total\n")
}

// Pushes what was found.
fn push_found(text: &mut Pending, stats: &Stats)
    ensures { Adds text.old text.new (found_text stats.now) }
{
    push_count(text, stats.matches, b"matches\n");
    push_count(text, stats.matched_lines, b"matched lines\n");
    push_count(
        text,
        stats.searches_with_match,
        b"files contained matches\n",
    )
}

// Pushes what was searched and written.
fn push_searched(text: &mut Pending, stats: &Stats)
    ensures { Adds text.old text.new (searched_text stats.now) }
{
    push_count(text, stats.searches, b"files searched\n");
    push_count(text, stats.bytes_printed, b"bytes printed\n");
    push_count(text, stats.bytes_searched, b"bytes searched\n")
}

// Pushes a count and some words after it.
fn push_count(text: &mut Pending, count: u64, words: &[u8])
    ensures { Adds text.old text.new (count_text count words.now) }
{
    text.push_number(count, b' ');
    text.push(words)
}

// Pushes nanoseconds as seconds, and some words after them.
fn push_time(text: &mut Pending, nanos: u64, words: &[u8])
    ensures { Adds text.old text.new (time_text nanos words.now) }
{
    match seconds(text.allocator(), nanos) {
        Ok(seconds) => {
            text.push(seconds.as_bytes());
            text.push(words)
        }
        Err(_) => text.fail(),
    }
}

// Nanoseconds as seconds.
fn seconds(alloc: Global, nanos: u64) -> Result<String, AllocError>
    ensures { IfOk result (λ text. string_bytes text ≡ seconds_of nanos) }
{
    let micros = microseconds(nanos);
    let secs = micros / 1_000_000;
    let rest = micros % 1_000_000;
    format!(in alloc; "{secs}.{rest:06}")
}
