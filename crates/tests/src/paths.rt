//! Where the files of tests are.
use std::path::PathBuf;
use std::{env, io, process};

/// A path of this process alone, in the directory for temporary files.
pub(crate) fn temporary_path(rt: &HostRuntime, name: &str) -> io::Result<PathBuf> {
    let alloc = rt.alloc();
    let name = format!(in alloc; "tests-{}-{name}", process::id(rt.process()))?;
    Ok(env::temp_dir(rt)?.join(alloc, name.as_str())?)
}
