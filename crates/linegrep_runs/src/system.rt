//! The system of a row: the one that there is, but for the order in which it lists names, its
//! environment, the times of its files, files that only the row has, where files are from the root
//! of the system on, and files that are links, pipes or on another file system for the row alone.
use grep_searcher::Open;
use linegrep_cli::{FileId, Folders, Found, SortKey, System};
use linegrep_files::Kind;
use percent_encoding::percent_decode_str;
use std::alloc::{AllocError, Global};
use std::io;

// A folder on another file system than the rows' files.
const ELSEWHERE: &str = "/proc";

/// What a row says of the system.
pub struct Said {
    // The variables of the environment, by their names.
    variables: Vec<Pair>,
    // What files have, by their paths.
    files: Vec<Pair>,
    times: Vec<Time>,
    // Where links lead, by their paths.
    links: Vec<Pair>,
    // The paths from the root of the system on, by paths.
    resolved: Vec<Pair>,
    // The paths of pipes, and of what is on another file system.
    pipes: Vec<Vec<u8>>,
    mounts: Vec<Vec<u8>>,
}

// Written out, so that a caller's proof sees one call.
impl Drop for Said {
    fn drop(self) {
        let Said {
            variables: _variables,
            files: _files,
            times: _times,
            links: _links,
            resolved: _resolved,
            pipes: _pipes,
            mounts: _mounts,
        } = self;
    }
}

// A name, and the bytes that it has.
struct Pair {
    name: Vec<u8>,
    bytes: Vec<u8>,
}

// Written out, so that a caller's proof sees one call.
impl Drop for Pair {
    fn drop(self) {
        let Pair {
            name: _name,
            bytes: _bytes,
        } = self;
    }
}

// A time of a file.
struct Time {
    key: SortKey,
    path: Vec<u8>,
    // In seconds from the start of 1970 on. Without one, the system fails to say it.
    seconds: Option<u64>,
}

// Written out, so that a caller's proof sees one call.
impl Drop for Time {
    fn drop(self) {
        let Time {
            key: _key,
            path: _path,
            seconds: _seconds,
        } = self;
    }
}

impl Said {
    /// An empty environment, and nothing said of any file.
    pub fn new(alloc: Global) -> Said {
        Said {
            variables: Vec::new(alloc),
            files: Vec::new(alloc),
            times: Vec::new(alloc),
            links: Vec::new(alloc),
            resolved: Vec::new(alloc),
            pipes: Vec::new(alloc),
            mounts: Vec::new(alloc),
        }
    }

    /// Says what is at a path: by `link:`, the path, `=` and where it leads; by `resolved:`, the
    /// path, `=` and the path from the root of the system on; by `pipe:` and the path; or by
    /// `mount:` and the path of what is on another file system.
    pub fn set_kind(&mut self, alloc: Global, text: &str) -> Result<(), AllocError> {
        let (kind, rest) = text.split_once(':').unwrap_or(("", text));
        match kind {
            "link" => self.links.push(read_pair(alloc, rest)?)?,
            "resolved" => self.resolved.push(read_pair(alloc, rest)?)?,
            "pipe" => self.pipes.push(decoded(alloc, rest)?)?,
            _ => self.mounts.push(decoded(alloc, rest)?)?,
        }
        Ok(())
    }

    // The path of the system at which a path of the row is, where links have led.
    fn real(&self, alloc: Global, path: &str) -> io::Result<String> {
        for link in &self.links {
            if let Some(rest) = path.as_bytes().strip_prefix(link.name.as_slice())
                && (rest.is_empty() || rest.starts_with(b"/"))
            {
                let mut real = Vec::from_slice(alloc, link.bytes.as_slice())?;
                real.extend_from_slice(rest)?;
                return String::from_utf8(real).map_err(|_| io::Error::from(
                    io::ErrorKind::InvalidData,
                ));
            }
        }
        Ok(String::from_str(alloc, path)?)
    }

    // Whether there is a link at a path.
    fn is_link(&self, path: &str) -> bool {
        bytes_of(&self.links, path).is_some()
    }
}

// Whether a path is among some.
fn is_among(paths: &[Vec<u8>], path: &str) -> bool {
    for one in paths {
        if one.as_slice() == path.as_bytes() {
            return true;
        }
    }
    false
}

impl Said {
    /// Sets a variable, by its name, `=` and its value.
    pub fn set_variable(&mut self, alloc: Global, text: &str) -> Result<(), AllocError> {
        let variable = read_pair(alloc, text)?;
        Ok(self.variables.push(variable)?)
    }

    /// Sets what a file has that is read whole, by its path, `=` and its text.
    pub fn set_file(&mut self, alloc: Global, text: &str) -> Result<(), AllocError> {
        let file = read_pair(alloc, text)?;
        Ok(self.files.push(file)?)
    }

    /// Sets a time of a file, by the time's name, `:`, the path, `=` and the seconds. Without
    /// seconds the system fails to say it.
    pub fn set_time(&mut self, alloc: Global, text: &str) -> Result<(), AllocError> {
        let (name, rest) = text.split_once(':').unwrap_or(("", text));
        let (path, seconds) = rest.split_once('=').unwrap_or((rest, ""));
        let time = Time {
            key: key_of(name),
            path: decoded(alloc, path)?,
            seconds: seconds.parse().ok(),
        };
        Ok(self.times.push(time)?)
    }
}

// A name and what it has, with `=` between.
fn read_pair(alloc: Global, text: &str) -> Result<Pair, AllocError> {
    let (name, bytes) = text.split_once('=').unwrap_or((text, ""));
    Ok(Pair {
        name: decoded(alloc, name)?,
        bytes: decoded(alloc, bytes)?,
    })
}

// What a name has among pairs, if it is there.
fn bytes_of<'p>(pairs: &'p [Pair], name: &str) -> Option<&'p [u8]> {
    for pair in pairs {
        if pair.name.as_slice() == name.as_bytes() {
            return Some(pair.bytes.as_slice());
        }
    }
    None
}

// The time with a name.
fn key_of(name: &str) -> SortKey {
    match name {
        "accessed" => SortKey::Accessed,
        "created" => SortKey::Created,
        _ => SortKey::Modified,
    }
}

fn is_same(one: SortKey, other: SortKey) -> bool {
    matches!(
        (one, other),
        (SortKey::Accessed, SortKey::Accessed)
            | (SortKey::Created, SortKey::Created)
            | (SortKey::Modified, SortKey::Modified)
            | (SortKey::Path, SortKey::Path)
    )
}

fn decoded(alloc: Global, text: &str) -> Result<Vec<u8>, AllocError> {
    let mut bytes = Vec::new(alloc);
    percent_decode_str(text).append_to(&mut bytes)?;
    Ok(bytes)
}

// Names in the order of their bytes, each with a NUL at its end, as they are listed. A system's own
// order isn't the same on each machine.
fn sorted(alloc: Global, names: &[u8]) -> Result<Vec<u8>, AllocError> {
    let mut parts: Vec<&[u8]> = Vec::new(alloc);
    for name in names.split(|byte| *byte == 0) {
        if !name.is_empty() {
            parts.push(name)?;
        }
    }
    parts.sort_unstable();
    let mut all = Vec::new(alloc);
    for name in &parts {
        all.extend_from_slice(name)?;
        all.push(0)?;
    }
    Ok(all)
}

/// The system that there is, but for what a row says of it.
#[derive(Clone, Copy)]
pub struct RowSystem<'r, 's> {
    /// The system.
    pub rt: &'r HostRuntime,
    /// What the row says.
    pub said: &'s Said,
}

impl Open for RowSystem<'_, '_> {
    type File = <HostRuntime as Open>::File;

    ghost opens = { λ _ _ _. Unit {0} };

    fn open(&self, path: &str) -> io::Result<<HostRuntime as Open>::File> {
        let real = self.said.real(self.rt.alloc(), path)?;
        self.rt.open(real.as_str())
    }
}

impl Folders for RowSystem<'_, '_> {
    ghost facts = { λ _. record {
      lists = λ _ _. Unit {0};
      looks = λ _ _ _. Unit {0};
      reads = λ _ _. Unit {0};
      resolves = λ _ _. Unit {0};
      times = λ _ _ _. Unit {0};
      variables = λ _ _. Unit {0};
    } };

    fn names(&self, alloc: Global, path: &str) -> io::Result<Vec<u8>> {
        let real = self.said.real(alloc, path)?;
        let names = self.rt.names(alloc, real.as_str())?;
        Ok(sorted(alloc, names.as_slice())?)
    }

    fn look(&self, path: &str, follows_links: bool) -> io::Result<Found> {
        if self.said.is_link(path) && !follows_links {
            let link = self.rt.look(path, false)?;
            return Ok(Found {
                kind: Kind::Link,
                ..link
            });
        }
        let real = self.said.real(self.rt.alloc(), path)?;
        let found = self.rt.look(real.as_str(), follows_links)?;
        let kind = if is_among(&self.said.pipes, path) {
            Kind::Other
        } else {
            found.kind
        };
        let id = if is_among(&self.said.mounts, path) {
            self.rt.look(ELSEWHERE, true)?.id
        } else {
            found.id
        };
        Ok(Found { kind, id, ..found })
    }

    fn read(&self, alloc: Global, path: &str) -> io::Result<Vec<u8>> {
        match bytes_of(&self.said.files, path) {
            Some(bytes) => Ok(Vec::from_slice(alloc, bytes)?),
            None => {
                let real = self.said.real(alloc, path)?;
                self.rt.read(alloc, real.as_str())
            }
        }
    }

    fn resolve(&self, alloc: Global, path: &str) -> io::Result<String> {
        if let Some(bytes) = bytes_of(&self.said.resolved, path) {
            return text_of(alloc, bytes);
        }
        let real = self.said.real(alloc, path)?;
        self.rt.resolve(alloc, real.as_str())
    }

    fn time(&self, path: &str, key: SortKey) -> io::Result<Option<u128>> {
        for time in &self.said.times {
            if is_same(time.key, key) && time.path.as_slice() == path.as_bytes() {
                return match time.seconds {
                    Some(seconds) => Ok(Some(u128::from(seconds))),
                    None => Err(io::Error::from(io::ErrorKind::Unsupported)),
                };
            }
        }
        Ok(None)
    }

    fn variable(&self, alloc: Global, name: &str) -> io::Result<Option<String>> {
        let Some(bytes) = bytes_of(&self.said.variables, name) else {
            return Ok(None);
        };
        Ok(Some(text_of(alloc, bytes)?))
    }
}

// Bytes as a text.
fn text_of(alloc: Global, bytes: &[u8]) -> io::Result<String> {
    match String::from_utf8(Vec::from_slice(alloc, bytes)?) {
        Ok(text) => Ok(text),
        Err(_) => Err(io::Error::from(io::ErrorKind::InvalidData)),
    }
}

impl System for RowSystem<'_, '_> {
    ghost finds = { λ _ _ _. Unit {0} };

    ghost identifies = { λ _ _ _. Unit {0} };

    fn is_folder(&self, path: &str) -> io::Result<bool> {
        let real = self.said.real(self.rt.alloc(), path)?;
        self.rt.is_folder(real.as_str())
    }

    fn id_of(&self, file: &<HostRuntime as Open>::File) -> Option<FileId> {
        self.rt.id_of(file)
    }
}
