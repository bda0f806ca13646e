//! Tests of searches that cases of `replay` can't show: which calls a search makes of its matcher
//! and of a file, the window around a match, and sinks that call a closure.
mod closures;
mod files;
mod handlers;
mod matchers;
mod questions;
mod readers;
mod searches;
mod windows;
