//! The lines in which the parts of a report start, each put as a piece of a text.
ghost use Rattle.std.specs.Prelude.{◌≡◌, ◌+◌, ◌++◌, ◌<◌, ◌^◌, [], length};
ghost use Rattle.grep_replace.specs.MatchedParts.{AreInOrder};
ghost use Rattle.grep_printer.specs.Reports.{line_kind};
ghost use Rattle.grep_printer.specs.StandardTexts.{text_before};
ghost use Rattle.grep_printer.specs.TextWriters.{PutsInPieces};
ghost use Rattle.grep_printer.specs.VimgrepTexts.{part_lines};

use crate::fields::Layout;
use crate::report::Report;
use crate::standard::Progress;
use crate::text_writer::{TextError, TextWriter};
use crate::vimgrep::push_part_line;
use grep_lines::count;
use grep_output::Output;
use grep_searcher::Match;

// Puts what comes before a report, and for each of its parts the line in which that part starts.
// Each line is a piece.
pub(crate) fn put_part_lines<W: Output>(
    out: &mut TextWriter<'_, W>,
    layout: &Layout<'_, '_>,
    before: &Progress,
    report: &Report<'_>,
    parts: &[Match],
) -> Result<(), TextError>
    requires empty { out.old.pending.now.text ≡ [] }
    requires fits { report.now.offset + length report.now.bytes.now < 2 ^ 64 }
    requires ordered { AreInOrder 0 (length report.now.bytes.now) parts.now }
    ensures { PutsInPieces W.step out.old (text_before layout.now before.now
        ++ part_lines layout.now (line_kind report.now.kind) report.now.offset
        report.now.bytes.now report.now.number parts.now) result out.new }
{
    layout.push_before(out.pending, before);
    if let Err(error) = out.end_piece() {
        return Err(error);
    }
    let terminator = layout.terminator.as_byte();
    let mut passed = 0;
    let mut position = 0;
    let mut rest = parts;
    while let Some((part, later)) = rest.split_first() {
        passed += count(&report.bytes[position..part.start()], terminator);
        push_part_line(layout, out.pending, report, passed, part);
        if let Err(error) = out.end_piece() {
            return Err(error);
        }
        position = part.start();
        rest = later;
    }
    Ok(())
}
