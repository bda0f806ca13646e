//! The parts of messages, as JSON.
ghost use Rattle.std.specs.Prelude.{◌≡◌, ◌≤◌, ◌∷◌, ◌++◌, IfOk, All, codes, length};
ghost use Rattle.std.specs.String.{string_bytes};
ghost use Rattle.base64.specs.Engines.{standard};
ghost use Rattle.base64.specs.GeneralPurpose.{encode_of};
ghost use Rattle.json.specs.Token.{key};
ghost use Rattle.json.specs.Tree.{items_tokens, json_tokens};
ghost use Rattle.grep_printer.specs.JsonMessages.{base64_json, bytes_json, path_json};
ghost use Rattle.grep_printer.specs.JsonMessages.{seconds_text, stats_json};
ghost use Rattle.grep_printer.specs.JsonMessages.{submatch_items, submatch_json, time_json};
ghost use Rattle.grep_printer.specs.JsonMessages.{wrapped_json};
ghost use Rattle.grep_printer.specs.JsonPieces.{last_tokens, replacement_tokens, texts_in};
ghost use Rattle.grep_printer.specs.Pushes.{AddsTokens};
ghost use Rattle.grep_printer.specs.Reports.{IsShown};

use crate::json_text::{JsonText, Piece};
use crate::replacers::Replacer;
use crate::report::Report;
use crate::stats::{Stats, microseconds};
use base64::engine::general_purpose::STANDARD;
use grep_searcher::{Match, Searcher};
use simdutf8::basic::from_utf8;
use std::alloc::{AllocError, Allocator, Global};

// What would replace the matches in the reports of a search.
#[derive(Clone, Copy)]
pub(crate) struct Replacements<'s, R, A: Allocator + Copy> {
    pub(crate) replacer: R,
    pub(crate) searcher: &'s Searcher<A>,
}

impl JsonText {
    // Pushes a path, if there is one.
    pub(crate) fn push_path(&mut self, path: Option<&str>)
        ensures { AddsTokens self.old self.new (json_tokens (path_json path.entry)) }
    {
        match path {
            Some(path) => self.push_wrapped("text", path),
            None => self.push(Piece::Optional(None)),
        }
    }

    // Pushes an object whose only member is a text.
    fn push_wrapped<'t>(&mut self, name: &'t str, text: &'t str)
        ensures { AddsTokens self.old self.new (json_tokens (wrapped_json name.now text.now)) }
    {
        self.push_all(&[
            Piece::Open,
            Piece::Key(name),
            Piece::Text(text),
            Piece::Close,
        ])
    }

    // Pushes bytes: a text if they are UTF-8, or else in base64.
    pub(crate) fn push_bytes(&mut self, bytes: &[u8])
        ensures { AddsTokens self.old self.new (json_tokens (bytes_json bytes.now)) }
    {
        match from_utf8(bytes) {
            Ok(text) => self.push_wrapped("text", text),
            Err(_) => self.push_encoded(bytes),
        }
    }

    // Pushes bytes in base64.
    fn push_encoded(&mut self, bytes: &[u8])
        ensures { AddsTokens self.old self.new
            (json_tokens (base64_json (encode_of standard bytes.now))) }
    {
        match STANDARD.encode(self.alloc, bytes) {
            Ok(text) => self.push_wrapped("bytes", text.as_str()),
            Err(_) => self.has_failed = true,
        }
    }

    // Pushes the matches in a report, and ends the message.
    pub(crate) fn push_submatches<R: Replacer, A: Allocator + Copy>(
        &mut self,
        report: &Report<'_>,
        ranges: &[Match],
        replacements: &Replacements<'_, R, A>,
    )
        requires shown { IsShown report.now }
        requires within { All (λ range. range.1 ≤ length report.now.bytes.now) ranges.now }
        ensures { AddsTokens self.old self.new (items_tokens (submatch_items report.now.bytes.now
            (texts_in R.text_at replacements.now report.now) ranges.now) ++ last_tokens) }
    {
        for range in ranges {
            self.push_submatch(report, range, replacements);
        }
        self.push_all(&[Piece::CloseArray, Piece::Close, Piece::Close])
    }

    // Pushes a match in a report.
    fn push_submatch<R: Replacer, A: Allocator + Copy>(
        &mut self,
        report: &Report<'_>,
        range: &Match,
        replacements: &Replacements<'_, R, A>,
    )
        requires shown { IsShown report.now }
        requires within { range.now.1 ≤ length report.now.bytes.now }
        ensures { AddsTokens self.old self.new (json_tokens (submatch_json report.now.bytes.now
            (texts_in R.text_at replacements.now report.now range.now.0) range.now)) }
    {
        self.push_all(&[Piece::Open, Piece::Key("match")]);
        self.push_bytes(&report.bytes[range.start()..range.end()]);
        self.push_replacement(report, range.start(), replacements);
        self.push_all(&[
            Piece::Count("start", range.start() as u64),
            Piece::Count("end", range.end() as u64),
            Piece::Close,
        ])
    }

    // Pushes what would replace the match at a position of a report, if something would.
    fn push_replacement<R: Replacer, A: Allocator + Copy>(
        &mut self,
        report: &Report<'_>,
        position: usize,
        replacements: &Replacements<'_, R, A>,
    )
        requires { IsShown report.now }
        ensures { AddsTokens self.old self.new
            (replacement_tokens (texts_in R.text_at replacements.now report.now position)) }
    {
        let Replacements { replacer, searcher } = replacements;
        match replacer.replacement(self.alloc, searcher, report, position) {
            Ok(Some(text)) => {
                self.push(Piece::Key("replacement"));
                self.push_bytes(&text)
            }
            Ok(None) => {}
            Err(_) => self.has_failed = true,
        }
    }

    // Pushes a time in nanoseconds.
    pub(crate) fn push_time(&mut self, nanos: u64)
        ensures { AddsTokens self.old self.new (json_tokens (time_json nanos)) }
    {
        match seconds_text(self.alloc, microseconds(nanos)) {
            Ok(text) => self.push_all(&[
                Piece::Open,
                Piece::Count("secs", nanos / 1_000_000_000),
                Piece::Count("nanos", nanos % 1_000_000_000),
                Piece::Key("human"),
                Piece::Text(text.as_str()),
                Piece::Close,
            ]),
            Err(_) => self.has_failed = true,
        }
    }

    // Pushes counts as the last member of a message, and ends it.
    pub(crate) fn push_stats(&mut self, stats: &Stats)
        ensures { AddsTokens self.old self.new
            (key (codes "stats") ∷ (json_tokens (stats_json stats.now) ++ last_tokens)) }
    {
        self.push_all(&[Piece::Key("stats"), Piece::Open, Piece::Key("elapsed")]);
        self.push_time(stats.elapsed);
        self.push_all(&[
            Piece::Count("searches", stats.searches),
            Piece::Count("searches_with_match", stats.searches_with_match),
            Piece::Count("bytes_searched", stats.bytes_searched),
            Piece::Count("bytes_printed", stats.bytes_printed),
            Piece::Count("matched_lines", stats.matched_lines),
            Piece::Count("matches", stats.matches),
            Piece::Close,
            Piece::Close,
            Piece::Close,
        ])
    }
}

// Microseconds as seconds.
fn seconds_text(alloc: Global, micros: u64) -> Result<String, AllocError>
    ensures { IfOk result (λ text. string_bytes text ≡ seconds_text micros) }
{
    let secs = micros / 1_000_000;
    let rest = micros % 1_000_000;
    format!(in alloc; "{secs}.{rest:06}s")
}
