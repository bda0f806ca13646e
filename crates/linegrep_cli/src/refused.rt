//! Options that ripgrep has and this program doesn't have.
use linegrep_options::OptionId;

const NO_PROGRAM: &str = "no other program is started, so files are searched as they are";

const NO_ENGINE: &str = "there is no engine with look-around or backreferences";

/// Why an option can't be used, in one line, if it is one of ripgrep's.
pub fn reason(option: &str) -> Option<&'static str> {
    match option {
        "-z" | "--search-zip" | "--pre" | "--pre-glob" | "--hostname-bin" => Some(NO_PROGRAM),
        "-P" | "--pcre2" | "--auto-hybrid-regex" | "--pcre2-version" => Some(NO_ENGINE),
        _ => None,
    }
}

/// Why an option takes none of the other values that it has in ripgrep.
pub fn refused_value(option: OptionId) -> Option<&'static str> {
    match option {
        OptionId::Engine => Some(NO_ENGINE),
        _ => None,
    }
}
