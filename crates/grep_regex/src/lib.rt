//! Matchers of regular expressions, over the kit's engines, for a line-oriented search.
#![tactic(auto)]

mod absent;
mod asked;
mod buckets;
mod builder;
mod class_tree;
mod classes;
mod covers;
mod engine;
mod error;
mod finder;
mod folds;
mod frame;
mod group_finder;
mod groups;
mod known;
mod lanes;
pub mod laws;
mod literal;
mod literal_matcher;
mod locality;
mod matcher;
mod named;
mod options;
mod parse;
mod plain;
mod prefix;
mod programs;
mod rarity;
mod refused;
mod regex;
mod seen;
mod shortcut;
mod strip;
mod tables;
mod texts;
mod ungrouped;
mod unions;
mod windows;

pub use crate::regex::Regex;
pub use builder::RegexMatcherBuilder;
pub use error::Error;
pub use literal_matcher::LiteralRegexMatcher;
pub use matcher::RegexMatcher;
pub use named::{NamedMatcher, Naming};
pub use options::Options;
