//! What a search reports to its sink, and the errors that it can end in.
#![tactic(auto)]

mod binary_detection;
mod config_error;
mod encoding;
mod io_error;
mod mmap_choice;
mod sink_context;
mod sink_error;
mod sink_finish;
mod sink_match;

pub use binary_detection::BinaryDetection;
pub use config_error::ConfigError;
pub use encoding::Encoding;
pub use grep_decode::Label;
pub use mmap_choice::MmapChoice;
pub use sink_context::{SinkContext, SinkContextKind};
pub use sink_error::{SearchError, SinkError};
pub use sink_finish::SinkFinish;
pub use sink_match::SinkMatch;
