//! The options of `linegrep`: what the words of a command line say.
//!
//! `specs/CommandLines.antt` defines which uses of options and which operands some words are.
#![tactic(auto)]

mod command_line;
mod option_id;
mod table;
mod uses;

pub use command_line::{Fault, ParseError, Parsed, number, parse};
pub use option_id::OptionId;
pub use table::{
    Contrary, Row, Value, contraries, headings, letters, names, row_lettered, row_named, rows,
    summaries,
};
pub use uses::{Use, applies, is_same, last_place, last_value, places_of, values_of};
