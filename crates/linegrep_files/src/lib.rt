//! Which files of folders are searched: the walk through a folder, and what globs, ignore files,
//! types of files, sizes and depths say of what is in it.
//!
//! `CALLING.md` has an example.
#![tactic(auto)]

mod braces;
mod choices;
mod class;
mod entry;
mod failures;
mod file_id;
mod file_options;
mod finder;
mod folders;
mod git_files;
mod git_settings;
mod glob;
mod globs;
mod ignores;
mod known_types;
pub mod laws;
mod limits;
mod notes;
mod order;
mod paths;
mod type_definitions;
mod types;
mod user_file;
mod walk;
mod words;

pub use choices::Choices;
pub use entry::Entry;
pub use failures::Failure;
pub use file_id::FileId;
pub use file_options::{FileOptions, TypeOptions, Values};
pub use folders::{Folders, Found, Kind};
pub use ignores::Sources;
pub use limits::{read_size, size_of};
pub use notes::{Note, Reason};
pub use order::{Order, Ranked, SortKey};
pub use types::type_list;
pub use walk::{Route, Walk};
pub use words::{NOT_UTF8, escape, shown};
