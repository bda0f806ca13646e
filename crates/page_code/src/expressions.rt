//! Regular expressions with options.
use grep_regex::{Error, Regex, RegexMatcherBuilder};

/// An expression whose letters match in either case, and one of literals.
pub fn compile(rt: &HostRuntime) -> Result<(Regex, Regex), Error> {
    let regex = RegexMatcherBuilder::new()
        .multi_line(true)
        .line_terminator(Some(b'\n'))
        .case_insensitive(true)
        .build(rt.alloc(), "ne+dle")?;
    let literals = RegexMatcherBuilder::new()
        .multi_line(true)
        .line_terminator(Some(b'\n'))
        .build_literals(rt.alloc(), &["needle", "pin", "a.b"])?;
    Ok((regex, literals))
}
