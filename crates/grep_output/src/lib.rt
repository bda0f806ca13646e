//! Outputs of bytes: a trait whose contract says each call that is made, an adapter of standard
//! writers, writing a text whole, texts that are kept before they are written,
//! and numbers in decimal.
//!
//! `specs/Outputs.antt` defines what a call and a run of calls do, and `specs/PendingTexts.antt`
//! what comes of a text that is put after others.
#![tactic(auto)]

mod numeral;
mod output;
mod pending;
mod writing;

pub use numeral::{MARKED_LEN, Numeral, write_number};
pub use output::{Output, write_all};
pub use pending::Pending;
pub use writing::{LastCall, Writing};
