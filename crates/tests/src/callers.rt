//! Tests of what is built on the search: the program `lgrep` as a library, the small callers of
//! `uses`, replacing, and the examples of upstream's pages.
mod filtered;
mod kept;
mod lent;
mod measured;
mod pieces;
mod printing;
mod programs;
mod replacing;
mod upstream;
