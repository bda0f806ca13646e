//! Why a search can't run with its configuration.
use bstr::BStr;
use grep_matcher::LineTerminator;
use thiserror::Error;

/// Why a searcher couldn't be made, or can't search with its configuration. More variants may come.
#[derive(Clone, Debug, Drop, PartialEq, Eq, Error)]
#[non_exhaustive]
pub enum ConfigError {
    /// The heap limit is 0 bytes, so nothing can be searched.
    #[error("search is unavailable: the heap limit is 0 bytes")]
    SearchUnavailable,
    /// The matcher's line terminator isn't the searcher's.
    #[error("the matcher's line terminator is {matcher:?}, and the searcher's is {searcher:?}")]
    MismatchedLineTerminators {
        /// The matcher's line terminator.
        matcher: LineTerminator,
        /// The searcher's line terminator.
        searcher: LineTerminator,
    },
    /// The label isn't one of an encoding that is known here.
    #[error("unknown encoding: {}", BStr::new(label))]
    UnknownEncoding {
        /// The bytes of the label, as given. They are in the global allocator.
        label: Vec<u8>,
    },
    /// There was no memory for the searcher's buffers, or for an unknown label.
    #[error("out of memory")]
    Memory,
}
