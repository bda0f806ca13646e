//! The searcher and the printer that the options ask for.
ghost use Rattle.std.specs.Prelude.{◌≡◌, ◌⊎◌, [], false, true, if◌then◌else◌, IfErr, IfOk};
ghost use Rattle.grep_output.specs.PendingTexts.{pending_bytes};
ghost use Rattle.linegrep_cli.specs.OptionMeanings.{after_lines, before_lines};
ghost use Rattle.linegrep_cli.specs.OptionUses.{has};
ghost use Rattle.linegrep_cli.specs.PrinterOptions.{IsNewRun, IsPrinterOf, IsReplacer};
ghost use Rattle.linegrep_cli.specs.PrinterOptions.{column_limit};
ghost use Rattle.linegrep_cli.specs.PrinterOptions.{line_settings};
ghost use Rattle.linegrep_cli.specs.PrinterOptions.{path_terminator_of, separator_of};
ghost use Rattle.linegrep_cli.specs.PrinterOptions.{shows_headings};
ghost use Rattle.linegrep_cli.specs.PrinterOptions.{summary_settings, with_line_parts};
ghost use Rattle.linegrep_cli.specs.SearcherOptions.{IsLabelError};
ghost use Rattle.linegrep_cli.specs.SearcherOptions.{encoding_of_label, is_unknown_label, label_of};
ghost use Rattle.linegrep_cli.specs.SearcherOptions.{looks_for_mark, refuses_label};
ghost use Rattle.linegrep_cli.specs.SearcherOptions.{searcher_settings, with_selection};
ghost use Rattle.linegrep_files.specs.Failures.{has_cause};

use crate::colors::color_specs;
use crate::counted_run::CountedRun;
use crate::failures::Failure;
use crate::json_run::JsonRun;
use crate::options::Options;
use crate::printers::Printer;
use grep_output::Output;
use grep_printer::{
    ColorSpecs, ColorTexts, JsonBuilder, SearchSeparator, Separators, StandardBuilder,
    SummaryBuilder, SummaryKind, TemplateReplacer,
};
use grep_replace::Template;
use grep_searcher::{ConfigError, Encoding, Searcher, SearcherBuilder};
use linegrep_options::OptionId;
use std::alloc::Global;

const ENCODINGS: &str = "-E takes auto, none, utf-8, utf-16, utf-16le or utf-16be";

/// The searcher that the options ask for. If files are listed, it has the default settings. An
/// error is that the label of an encoding isn't known, or that there is no memory.
pub fn build_searcher(alloc: Global, options: &Options<'_, '_>) -> Result<Searcher, Failure>
    ensures settings { IfOk result (λ searcher.
        searcher ≡ record { settings = searcher_settings options.now; has_buffers = true }) }
    ensures known { IfOk result (λ _. refuses_label options.now ≡ false) }
    ensures refused { IfErr result (λ failure. has_cause failure ≡ true
        → refuses_label options.now ≡ true) }
{
    match try_searcher(alloc, options) {
        Ok(searcher) => Ok(searcher),
        Err(ConfigError::Memory) => Err(Failure::out_of_memory()),
        Err(error) => Err(Failure::of_text(format!(in alloc; "linegrep: {error}; {ENCODINGS}\n"))),
    }
}

// The searcher. An error is that a label isn't known, or that there is no memory.
fn try_searcher(alloc: Global, options: &Options<'_, '_>) -> Result<Searcher, ConfigError>
    ensures settings { IfOk result (λ searcher.
        searcher ≡ record { settings = searcher_settings options.now; has_buffers = true }) }
    ensures known { IfOk result (λ _. refuses_label options.now ≡ false) }
    ensures error { IfErr result (λ error. (error ≡ ConfigError.Memory)
        ⊎ (IsLabelError (label_of options.now) error
        × (refuses_label options.now ≡ true))) }
{
    let encoding = encoding(alloc, options.encoding())?;
    let mut builder = SearcherBuilder::new();
    builder
        .encoding(encoding)
        .bom_sniffing(looks_for_mark(options.encoding()))
        .line_number(options.shows_numbers());
    select(&mut builder, options);
    surround(&mut builder, options);
    builder.build(alloc)
}

// Sets which lines a search selects.
fn select(builder: &mut SearcherBuilder, options: &Options<'_, '_>)
    ensures { builder.new ≡ with_selection options.now builder.old }
{
    builder
        .line_terminator(options.line_terminator())
        .invert_match(options.has(OptionId::InvertMatch))
        .multi_line(options.has(OptionId::Multiline))
        .stop_on_nonmatch(options.has(OptionId::StopOnNonmatch))
        .max_matches(options.max_count)
        .binary_detection(options.binary_detection());
}

// Sets which other lines a search reports.
fn surround(builder: &mut SearcherBuilder, options: &Options<'_, '_>)
    ensures { builder.new ≡ record builder.old {
      after_context = after_lines options.now;
      before_context = before_lines options.now;
      passthru = has options.now OptionId.Passthru;
    } }
{
    builder
        .after_context(options.after_context())
        .before_context(options.before_context())
        .passthru(options.has(OptionId::Passthru));
}

// The encoding that a label names, if it names one.
fn encoding(alloc: Global, label: Option<&str>) -> Result<Option<Encoding>, ConfigError>
    ensures encoding { IfOk result (λ encoding. encoding ≡ encoding_of_label label.entry) }
    ensures known { IfOk result (λ _. is_unknown_label label.entry ≡ false) }
    ensures unknown { IfErr result (λ _. is_unknown_label label.entry ≡ true) }
    ensures error { IfErr result (IsLabelError label.entry) }
{
    match label {
        None | Some("auto" | "none") => Ok(None),
        Some(label) => match Encoding::new(alloc, label) {
            Ok(encoding) => Ok(Some(encoding)),
            Err(error) => Err(error),
        },
    }
}

// Whether a mark at the start of the input is looked for.
fn looks_for_mark(label: Option<&str>) -> bool
    ensures { result ≡ looks_for_mark label.entry }
{
    !matches!(label, Some("none"))
}

/// The printer that the options ask for, which writes what searches find, by line or across lines.
/// If there is a template, it replaces each match, for the groups that the matcher finds.
pub fn build_printer<'c, M: Copy>(
    rt: &HostRuntime,
    options: &Options<'_, '_>,
    is_across: bool,
    separators: Option<&'c Separators>,
    chosen: Option<&'c ColorTexts>,
    matcher: M,
    template: Option<&'c Template>,
) -> Printer<'c, M>
    ensures { IsPrinterOf options.now is_across separators.entry chosen.entry matcher template.entry
        result }
{
    let colors = color_specs(options.color(), chosen, options.streams);
    if let Some(kind) = options.summary_kind(is_across) {
        let printer = summary(options, kind, colors).build(rt.alloc());
        Printer::Summary(run_of(rt, options, printer))
    } else if options.has(OptionId::Json) {
        let printer = JsonBuilder::new().build_with(rt.alloc(), replacer(matcher, template));
        Printer::Json(JsonRun::new(rt, buffered(options.is_line_buffered(), printer)))
    } else if options.is_vimgrep() {
        let printer = lines(options, colors, separators).build_vimgrep(rt.alloc());
        match template {
            None => Printer::Parts(run_of(rt, options, printer)),
            Some(template) => {
                Printer::ReplacedParts(run_of(rt, options, printer.replacing(matcher, template)))
            }
        }
    } else {
        let printer = lines(options, colors, separators).build(rt.alloc());
        match template {
            None => Printer::Lines(run_of(rt, options, printer)),
            Some(template) => {
                Printer::ReplacedLines(run_of(rt, options, printer.replacing(matcher, template)))
            }
        }
    }
}

// What replaces each match, if there is a template.
fn replacer<'t, M: Copy>(
    matcher: M,
    template: Option<&'t Template>,
) -> Option<TemplateReplacer<'t, M>>
    ensures { IsReplacer matcher template.entry result }
{
    match template {
        None => None,
        Some(template) => Some(TemplateReplacer::new(matcher, template)),
    }
}

// A run of searches with a printer, which counts if the options ask for that, and may have to write
// each text at once.
fn run_of<F>(
    rt: &HostRuntime,
    options: &Options<'_, '_>,
    printer: grep_printer::Printer<F>,
) -> CountedRun<F>
    requires pending { pending_bytes printer.pending ≡ [] }
    requires buffer_size { printer.buffer_size ≡ 65536 }
    requires has_written { printer.has_written ≡ false }
    requires has_failed { printer.has_failed ≡ false }
    ensures format { result.printer.format.format ≡ printer.format }
    ensures new { IsNewRun options.now result }
{
    let printer = printer.counting(options.counts_all());
    CountedRun::new(rt, buffered(options.is_line_buffered(), printer))
}

// A printer that may have to write each text at once.
fn buffered<F>(
    is_line_buffered: bool,
    mut printer: grep_printer::Printer<F>,
) -> grep_printer::Printer<F>
    ensures { result
        ≡ record printer { buffer_size = if is_line_buffered then 0 else printer.buffer_size } }
{
    if is_line_buffered {
        printer.set_buffer_size(0);
    }
    printer
}

// How a summary is written.
fn summary<'c>(
    options: &Options<'_, '_>,
    kind: SummaryKind,
    colors: ColorSpecs<'c>,
) -> SummaryBuilder<'c>
    ensures { result ≡ summary_settings options.now kind colors.entry }
{
    let mut builder = SummaryBuilder::new();
    builder
        .kind(kind)
        .exclude_zero(!options.has(OptionId::IncludeZero))
        .counts_all(options.counts_all())
        .path_terminator(path_terminator(options))
        .color_specs(colors);
    builder
}

// How lines are written.
fn lines<'c>(
    options: &Options<'_, '_>,
    colors: ColorSpecs<'c>,
    separators: Option<&'c Separators>,
) -> StandardBuilder<'c>
    ensures { result ≡ line_settings options.now colors.entry separators.entry }
{
    let heading = options.shows_headings();
    let mut builder = StandardBuilder::new();
    builder
        .heading(heading)
        .separator_search(separator(options, heading))
        .path_terminator(path_terminator(options))
        .color_specs(colors)
        .separators(separators);
    show(&mut builder, options);
    builder
}

// Sets what is written of a line.
fn show(builder: &mut StandardBuilder<'_>, options: &Options<'_, '_>)
    ensures { builder.new ≡ with_line_parts options.now builder.old }
{
    builder
        .column(options.shows_columns())
        .byte_offset(options.has(OptionId::ByteOffset))
        .only_matching(options.has(OptionId::OnlyMatching))
        .max_columns(max_columns(options))
        .max_columns_preview(options.has(OptionId::MaxColumnsPreview))
        .trim_ascii(options.has(OptionId::Trim));
}

// The limit of bytes of a line that is written. With `-M 0` there is none.
fn max_columns(options: &Options<'_, '_>) -> Option<u64>
    ensures { result ≡ column_limit options.now.max_columns }
{
    match options.max_columns {
        Some(0) => None,
        most => most,
    }
}

fn path_terminator(options: &Options<'_, '_>) -> Option<u8>
    ensures { result ≡ path_terminator_of options.now }
{
    if options.has(OptionId::Null) {
        Some(0)
    } else {
        None
    }
}

// What comes between two files. Files with headings have an empty line between them. Without
// headings, if lines have a context, what comes between two groups of lines of one file comes there
// too.
fn separator(options: &Options<'_, '_>, heading: bool) -> SearchSeparator
    requires { heading ≡ shows_headings options.now }
    ensures { result ≡ separator_of options.now }
{
    if heading {
        SearchSeparator::Blank
    } else if options.after_context() > 0 || options.before_context() > 0 {
        SearchSeparator::Groups
    } else {
        SearchSeparator::Nothing
    }
}
