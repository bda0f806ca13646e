//! Code that the pages show: whole programs, each in a module of its own, and functions whose lines
//! a page quotes. No other crate uses it.
#![tactic(auto)]

mod buffered;
mod collected;
mod colors;
mod context;
mod copies;
mod copy_error;
mod counted;
mod decoded;
mod each_match;
mod expressions;
mod files;
mod found;
mod ignored;
mod line_count;
mod long_lines;
mod long_matches;
mod path_printed;
mod printed;
mod template;
mod totals;
mod windows;
mod written;
