//! The messages of a printer of JSON, each in a line of its own.
ghost use Rattle.std.specs.Prelude.{◌≤◌, All, length};
ghost use Rattle.json.specs.Tree.{json_tokens};
ghost use Rattle.grep_printer.specs.JsonMessages.{begin_json, end_json, json_line, summary_json};
ghost use Rattle.grep_printer.specs.JsonPieces.{head_tokens, message_of, report_of, texts_in};
ghost use Rattle.grep_output.specs.PendingTexts.{Adds};
ghost use Rattle.grep_printer.specs.Pushes.{AddsTokens};
ghost use Rattle.grep_printer.specs.Reports.{IsShown};

use crate::json_text::{JsonText, Piece};
use crate::messages::Replacements;
use crate::replacers::Replacer;
use crate::report::Report;
use crate::stats::Stats;
use grep_output::Pending;
use grep_searcher::Match;
use std::alloc::Allocator;

// A message.
#[derive(Clone, Copy)]
pub(crate) enum Message<'m> {
    // A search of a path begins.
    Begin(Option<&'m str>),
    // A search of a path has ended. If it found a binary byte, this is the byte's offset.
    End(Option<&'m str>, Option<u64>, Stats),
    // The totals of all searches, and how many nanoseconds these took.
    Summary(Stats, u64),
}

// Adds a message in a line of its own.
pub(crate) fn add_message(text: &mut Pending, message: Message<'_>)
    ensures { Adds text.old text.new (json_line (message_of message.entry)) }
{
    let start = text.len() - text.text_len();
    let mut json = JsonText::take_from(text);
    json.push_message(message);
    json.put_line(text, start)
}

// Adds the message of a report in a path, with the matches in it, in a line of its own.
pub(crate) fn add_report<R: Replacer, A: Allocator + Copy>(
    text: &mut Pending,
    path: Option<&str>,
    report: &Report<'_>,
    ranges: &[Match],
    replacements: &Replacements<'_, R, A>,
)
    requires shown { IsShown report.now }
    requires within { All (λ range. range.1 ≤ length report.now.bytes.now) ranges.now }
    ensures { Adds text.old text.new (json_line (report_of path.entry report.now
        (texts_in R.text_at replacements.now report.now) ranges.now)) }
{
    let start = text.len() - text.text_len();
    let mut json = JsonText::take_from(text);
    json.push_report(path, report, ranges, replacements);
    json.put_line(text, start)
}

impl JsonText {
    // Pushes a message.
    fn push_message(&mut self, message: Message<'_>)
        ensures { AddsTokens self.old self.new (json_tokens (message_of message.entry)) }
    {
        match message {
            Message::Begin(path) => self.push_begin(path),
            Message::End(path, binary, stats) => self.push_end(path, binary, &stats),
            Message::Summary(stats, total) => self.push_summary(&stats, total),
        }
    }

    // Pushes the first members of a message about a path.
    fn push_head(&mut self, kind: &str, path: Option<&str>)
        ensures { AddsTokens self.old self.new (head_tokens kind.now path.entry) }
    {
        self.push_all(&[
            Piece::Open,
            Piece::Key("type"),
            Piece::Text(kind),
            Piece::Key("data"),
            Piece::Open,
            Piece::Key("path"),
        ]);
        self.push_path(path)
    }

    // Pushes the message `begin` of a search.
    fn push_begin(&mut self, path: Option<&str>)
        ensures { AddsTokens self.old self.new (json_tokens (begin_json path.entry)) }
    {
        self.push_head("begin", path);
        self.push_all(&[Piece::Close, Piece::Close])
    }

    // Pushes a report.
    fn push_report<R: Replacer, A: Allocator + Copy>(
        &mut self,
        path: Option<&str>,
        report: &Report<'_>,
        ranges: &[Match],
        replacements: &Replacements<'_, R, A>,
    )
        requires shown { IsShown report.now }
        requires within { All (λ range. range.1 ≤ length report.now.bytes.now) ranges.now }
        ensures { AddsTokens self.old self.new (json_tokens (report_of path.entry report.now
            (texts_in R.text_at replacements.now report.now) ranges.now)) }
    {
        self.push_head(report.kind.name(), path);
        self.push(Piece::Key("lines"));
        self.push_bytes(report.bytes);
        self.push_all(&[
            Piece::Key("line_number"),
            Piece::Optional(report.number),
            Piece::Count("absolute_offset", report.offset),
            Piece::Key("submatches"),
            Piece::OpenArray,
        ]);
        self.push_submatches(report, ranges, replacements)
    }

    // Pushes the message `end` of a search.
    fn push_end(&mut self, path: Option<&str>, binary: Option<u64>, stats: &Stats)
        ensures { AddsTokens self.old self.new
            (json_tokens (end_json path.entry binary stats.now)) }
    {
        self.push_head("end", path);
        self.push(Piece::Key("binary_offset"));
        self.push(Piece::Optional(binary));
        self.push_stats(stats)
    }

    // Pushes the message about all searches.
    fn push_summary(&mut self, stats: &Stats, total: u64)
        ensures { AddsTokens self.old self.new (json_tokens (summary_json stats.now total)) }
    {
        self.push_all(&[
            Piece::Open,
            Piece::Key("type"),
            Piece::Text("summary"),
            Piece::Key("data"),
            Piece::Open,
            Piece::Key("elapsed_total"),
        ]);
        self.push_time(total);
        self.push_stats(stats)
    }
}
