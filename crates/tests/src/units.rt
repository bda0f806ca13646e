//! Tests of the crates below the search, each alone.
mod encodings;
mod hosts;
mod ignores;
mod lines;
mod patterns;
mod pending;
mod reports;
