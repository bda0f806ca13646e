//! Printers: sinks that write what a search reports to an output of bytes.
//!
//! `Standard` writes each reported line, as grep does, `Summary` a count or a path for each search,
//! and `Json` messages for programs. `specs/StandardTexts.antt`, `specs/SummaryTexts.antt` and
//! `specs/JsonTexts.antt` define the text of each call of a search, and `CALLING.md` has an
//! example. The printers follow those of ripgrep's crate grep-printer.
#![tactic(auto)]

mod bare;
mod binary_messages;
mod colors;
mod config;
mod counted;
mod fields;
mod format;
mod hyperlink_format;
mod hyperlinks;
mod json_lines;
mod json_printer;
mod json_text;
pub mod laws;
mod messages;
mod part_pieces;
mod parts;
mod path;
mod plain;
mod printed_search;
mod printer;
mod put_calls;
mod replaced;
mod replaced_format;
mod replacers;
mod report;
mod reports;
mod separators;
mod standard;
mod stats;
mod stats_text;
mod summary;
mod summary_builder;
mod text_writer;
mod vimgrep;

pub use colors::{ColorSpecs, ColorTexts};
pub use config::{SearchSeparator, StandardBuilder};
pub use counted::CountedFormat;
pub use format::Format;
pub use hyperlink_format::{HyperlinkFormat, HyperlinkFormatError, HyperlinkPart};
pub use hyperlinks::{Hyperlink, HyperlinkConfig, HyperlinkEnvironment, PrinterPath};
pub use json_printer::{Json, JsonBuilder, JsonFormat, JsonSink};
pub use path::{PathFormat, PathPrinter, PathPrinterBuilder};
pub use printed_search::{Searched, search};
pub use printer::{Printer, PrinterSink};
pub use replaced_format::ReplacedFormat;
pub use replacers::{NoReplacer, Replacer, TemplateReplacer};
pub use separators::Separators;
pub use standard::{Standard, StandardFormat, StandardSink};
pub use stats::Stats;
pub use summary::{Summary, SummaryFormat, SummarySink};
pub use summary_builder::{SummaryBuilder, SummaryKind};
pub use text_writer::{TextError, TextWriter};
pub use vimgrep::{Vimgrep, VimgrepFormat, VimgrepSink};
