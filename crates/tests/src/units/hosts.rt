//! What the host says of the times of a file, and of its environment.
use crate::paths::temporary_path;
use linegrep_files::{Folders, SortKey};
use std::time::{SystemTime, UNIX_EPOCH};
use std::{fs, io};

// Whether the time of the file at a path is the one that its metadata has.
fn says(rt: &HostRuntime, path: &str, key: SortKey, time: io::Result<SystemTime>) -> bool {
    match (rt.time(path, key), time) {
        (Ok(said), Ok(time)) => match time.duration_since(UNIX_EPOCH) {
            Ok(duration) => said == Some(duration.as_nanos()),
            Err(_) => said.is_none(),
        },
        (Err(_), Err(_)) => true,
        _ => false,
    }
}

// Whether each time of the file at a path is the one that its metadata has.
fn says_times(rt: &HostRuntime, path: &str) -> bool {
    match fs::metadata(rt, path) {
        Ok(metadata) => {
            says(rt, path, SortKey::Modified, metadata.modified())
                && says(rt, path, SortKey::Accessed, metadata.accessed())
                && says(rt, path, SortKey::Created, metadata.created())
        }
        Err(_) => false,
    }
}

// Of a file that was written and then read, and of a folder of the system.
#[test]
fn times(rt: HostRuntime) -> Result<(), &'static str> {
    let Ok(path) = temporary_path(&rt, "times") else {
        return Err("no path");
    };
    if fs::write(&rt, &path, b"a\n").is_err() || fs::read(&rt, &path).is_err() {
        return Err("no file");
    }
    let is_said = says_times(&rt, path.as_str());
    let _ = fs::remove_file(&rt, &path);
    if is_said && says_times(&rt, "/") {
        Ok(())
    } else {
        Err("times")
    }
}

#[test]
fn variables(rt: HostRuntime) -> Result<(), &'static str> {
    match rt.variable(rt.alloc(), "NO SUCH VARIABLE") {
        Ok(None) => Ok(()),
        _ => Err("a variable that isn't set"),
    }
}
