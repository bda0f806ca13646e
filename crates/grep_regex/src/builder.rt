//! The builder of regular expressions.
ghost use Rattle.std.specs.Prelude.{◌≡◌, if◌then◌else◌, true, [], ◌∷◌, map, option_map, IfOk};
ghost use Rattle.std.specs.Prelude.{IfErr};
ghost use Rattle.grep_regex.specs.Patterns.{default_options, meaning_of};
ghost use Rattle.grep_regex.specs.Refusals.{AreAccepted, IsRefusal};
ghost use Rattle.grep_regex.specs.Sizes.{AreSized};
ghost use Rattle.grep_regex.specs.Views.{regex_options, regex_patterns, regex_programs};

use crate::error::Error;
use crate::options::Options;
use crate::regex::Regex;
use grep_matcher::LineTerminator;
use std::alloc::{AllocError, Global};
use std::marker::Model;

/// The options of regular expressions to be compiled. Each setter changes only its own option,
/// except that `crlf` also sets the line terminator, and returns the builder.
#[derive(Debug, Drop)]
pub struct RegexMatcherBuilder {
    options: Options,
}

impl Model for RegexMatcherBuilder {
    ghost use Rattle.grep_regex.specs.declared.options.Options.{Options};

    ghost Value = { Options };

    ghost view = { λ b. b.options };
}

impl Default for RegexMatcherBuilder {
    ghost use Rattle.std.specs.Prelude.{◌≡◌};
    ghost use Rattle.grep_regex.specs.Patterns.{default_options};

    ghost is_default = { λ b. b ≡ default_options };

    fn default() -> RegexMatcherBuilder {
        RegexMatcherBuilder::new()
    }
}

/// An equal builder. It takes no memory, so that it never fails.
impl Clone for RegexMatcherBuilder {
    ghost is_clone = { λ b copy. copy ≡ b };

    ghost is_infallible = { λ _. Unit {0} };

    fn clone(&self) -> Result<RegexMatcherBuilder, AllocError> {
        Ok(RegexMatcherBuilder {
            options: self.options,
        })
    }
}

impl RegexMatcherBuilder {
    /// The default options: case matters, the pattern is a regular expression, read as Unicode's,
    /// `^` and `$` match only at the start and the end of the haystack, `.` doesn't match a line
    /// feed, and no line terminator is declared.
    pub fn new() -> RegexMatcherBuilder
        ensures { result ≡ default_options }
    {
        RegexMatcherBuilder {
            options: Options {
                case_insensitive: false,
                fixed_strings: false,
                word: false,
                whole_line: false,
                multi_line: false,
                dot_matches_new_line: false,
                unicode: true,
                crlf: false,
                swap_greed: false,
                ignore_whitespace: false,
                octal: false,
                nest_limit: 250,
                line_terminator: None,
                size_limit: 48 << 20,
            },
        }
    }

    /// Compiles a pattern: the text of a regular expression, or under `fixed_strings` a literal.
    /// See `build_many` for errors.
    pub fn build(&self, alloc: Global, pattern: &str) -> Result<Regex, Error>
        ensures options { IfOk result (λ regex. regex_options regex ≡ self.now) }
        ensures patterns { IfOk result (λ regex. regex_patterns regex ≡ pattern.now ∷ []) }
        ensures accepted { IfOk result (λ _. AreAccepted self.now (pattern.now ∷ [])) }
        ensures sized { IfOk result
            (λ regex. AreSized self.now (pattern.now ∷ []) (regex_programs regex)) }
        ensures error { IfErr result (IsRefusal self.now (pattern.now ∷ [])) }
    {
        Regex::compile(alloc, self.options, &[pattern])
    }

    /// Compiles patterns as alternatives: at a position the first one that matches wins. With no
    /// patterns nothing matches.
    ///
    /// An error is `InvalidLineTerminator` if the line terminator isn't ASCII, and `Syntax` if a
    /// text isn't a pattern or is nested too deep. It is `NotAllowed` if a literal has a byte of
    /// the line terminator, or a class has some of its bytes and no other member, and a text can
    /// name that byte. It is `TooBig` if the compiled patterns are larger than the limit or have
    /// too many groups, and `Memory` if there is none for them.
    pub fn build_many(&self, alloc: Global, patterns: &[&str]) -> Result<Regex, Error>
        ensures options { IfOk result (λ regex. regex_options regex ≡ self.now) }
        ensures patterns { IfOk result
            (λ regex. regex_patterns regex ≡ map (λ p. p.now) patterns.now) }
        ensures accepted { IfOk result (λ _. AreAccepted self.now (map (λ p. p.now) patterns.now)) }
        ensures sized { IfOk result
            (λ regex. AreSized self.now (map (λ p. p.now) patterns.now) (regex_programs regex)) }
        ensures error { IfErr result (IsRefusal self.now (map (λ p. p.now) patterns.now)) }
    {
        Regex::compile(alloc, self.options, patterns)
    }

    /// Compiles literals, as `build_many` does under `fixed_strings`.
    pub fn build_literals(&self, alloc: Global, literals: &[&str]) -> Result<Regex, Error>
        ensures options { IfOk result
            (λ regex. regex_options regex ≡ record self.now { fixed_strings = true }) }
        ensures patterns { IfOk result
            (λ regex. regex_patterns regex ≡ map (λ p. p.now) literals.now) }
        ensures accepted { IfOk result (λ _. AreAccepted (record self.now { fixed_strings = true })
            (map (λ p. p.now) literals.now)) }
        ensures sized { IfOk result (λ regex. AreSized (record self.now { fixed_strings = true })
            (map (λ p. p.now) literals.now) (regex_programs regex)) }
        ensures error { IfErr result
            (IsRefusal (record self.now { fixed_strings = true }) (map (λ p. p.now) literals.now)) }
    {
        let mut options = self.options;
        options.fixed_strings = true;
        Regex::compile(alloc, options, literals)
    }

    /// Whether letters match in either case; not by default.
    pub fn case_insensitive(&mut self, yes: bool) -> &mut RegexMatcherBuilder
        ensures reference { result.ghost_name ≡ self.entry.ghost_name }
        ensures set { result.now ≡ record self.old { case_insensitive = yes } }
    {
        self.options.case_insensitive = yes;
        self
    }

    /// Whether patterns are literals; not by default.
    pub fn fixed_strings(&mut self, yes: bool) -> &mut RegexMatcherBuilder
        ensures reference { result.ghost_name ≡ self.entry.ghost_name }
        ensures set { result.now ≡ record self.old { fixed_strings = yes } }
    {
        self.options.fixed_strings = yes;
        self
    }

    /// Whether a match has to begin and to end where no word goes on; not by default.
    pub fn word(&mut self, yes: bool) -> &mut RegexMatcherBuilder
        ensures reference { result.ghost_name ≡ self.entry.ghost_name }
        ensures set { result.now ≡ record self.old { word = yes } }
    {
        self.options.word = yes;
        self
    }

    /// Whether a match has to begin at the start of a line and to end at the end of one; not by
    /// default. Then `word` has no effect.
    pub fn whole_line(&mut self, yes: bool) -> &mut RegexMatcherBuilder
        ensures reference { result.ghost_name ≡ self.entry.ghost_name }
        ensures set { result.now ≡ record self.old { whole_line = yes } }
    {
        self.options.whole_line = yes;
        self
    }

    /// Whether `^` and `$` match at the start and the end of each line; not by default.
    pub fn multi_line(&mut self, yes: bool) -> &mut RegexMatcherBuilder
        ensures reference { result.ghost_name ≡ self.entry.ghost_name }
        ensures set { result.now ≡ record self.old { multi_line = yes } }
    {
        self.options.multi_line = yes;
        self
    }

    /// Whether `.` matches a line feed too, and under `crlf` a carriage return; not by default.
    pub fn dot_matches_new_line(&mut self, yes: bool) -> &mut RegexMatcherBuilder
        ensures reference { result.ghost_name ≡ self.entry.ghost_name }
        ensures set { result.now ≡ record self.old { dot_matches_new_line = yes } }
    {
        self.options.dot_matches_new_line = yes;
        self
    }

    /// Whether classes, case folding and words are Unicode's, as by default, or ASCII's.
    pub fn unicode(&mut self, yes: bool) -> &mut RegexMatcherBuilder
        ensures reference { result.ghost_name ≡ self.entry.ghost_name }
        ensures set { result.now ≡ record self.old { unicode = yes } }
    {
        self.options.unicode = yes;
        self
    }

    /// Whether `a*` prefers fewer repetitions and `a*?` more; not by default.
    pub fn swap_greed(&mut self, yes: bool) -> &mut RegexMatcherBuilder
        ensures reference { result.ghost_name ≡ self.entry.ghost_name }
        ensures set { result.now ≡ record self.old { swap_greed = yes } }
    {
        self.options.swap_greed = yes;
        self
    }

    /// Whether white space in patterns is ignored, and what follows a `#` up to the end of its
    /// line; not by default. It has no effect on literals.
    pub fn ignore_whitespace(&mut self, yes: bool) -> &mut RegexMatcherBuilder
        ensures reference { result.ghost_name ≡ self.entry.ghost_name }
        ensures set { result.now ≡ record self.old { ignore_whitespace = yes } }
    {
        self.options.ignore_whitespace = yes;
        self
    }

    /// Whether `\141` is the character with this octal number, of one to three digits; not by
    /// default, when a backslash before a digit is a syntax error.
    pub fn octal(&mut self, yes: bool) -> &mut RegexMatcherBuilder
        ensures reference { result.ghost_name ≡ self.entry.ghost_name }
        ensures set { result.now ≡ record self.old { octal = yes } }
    {
        self.options.octal = yes;
        self
    }

    /// How deep groups, repetitions, classes and sequences of patterns may nest, in levels; 250 by
    /// default. A pattern that nests deeper is a syntax error. The calls that compile a pattern
    /// nest as deep as it does, so a higher limit needs a larger stack.
    pub fn nest_limit(&mut self, levels: u32) -> &mut RegexMatcherBuilder
        ensures reference { result.ghost_name ≡ self.entry.ghost_name }
        ensures set { result.now ≡ record self.old { nest_limit = levels } }
    {
        self.options.nest_limit = levels;
        self
    }

    /// What matchers declare as their line terminator, none by default. Its byte is taken out of
    /// the classes of patterns and refused in literals, so that no match holds it, and a search
    /// runs line by line and may ask about many lines at once. Of the byte 0 matchers declare no
    /// more than that no match holds it. What `crlf` says of `^`, `$` and `.` stays.
    pub fn line_terminator(&mut self, terminator: Option<u8>) -> &mut RegexMatcherBuilder
        ensures reference { result.ghost_name ≡ self.entry.ghost_name }
        ensures set { result.now
            ≡ record self.old { line_terminator = option_map LineTerminator.Byte terminator } }
    {
        self.options.line_terminator = match terminator {
            Some(byte) => Some(LineTerminator::Byte(byte)),
            None => None,
        };
        self
    }

    /// Whether lines end in CRLF; not by default. This also sets the line terminator: to CRLF, or
    /// to none if `yes` is false. Under `multi_line`, `^` and `$` match around the pair, and `.`
    /// matches neither byte. While CRLF is the line terminator, neither byte is in a match, and a
    /// pattern doesn't see what a haystack ends in, be it CRLF or a line feed alone; a later call
    /// of `line_terminator` declares another one, or none.
    pub fn crlf(&mut self, yes: bool) -> &mut RegexMatcherBuilder
        ensures reference { result.ghost_name ≡ self.entry.ghost_name }
        ensures set { result.now ≡ record self.old {
          crlf = yes;
          line_terminator = if yes then Some LineTerminator.Crlf else None;
        } }
    {
        self.options.crlf = yes;
        self.options.line_terminator = if yes {
            Some(LineTerminator::Crlf)
        } else {
            None
        };
        self
    }

    /// About how large the compiled patterns may be, in bytes; 48 MiB by default, which takes what
    /// upstream takes under its 100 MiB.
    pub fn size_limit(&mut self, bytes: usize) -> &mut RegexMatcherBuilder
        ensures reference { result.ghost_name ≡ self.entry.ghost_name }
        ensures set { result.now ≡ record self.old { size_limit = bytes } }
    {
        self.options.size_limit = bytes;
        self
    }
}

impl Regex {
    ghost use Rattle.grep_regex.specs.LinePatterns.{line_meaning, line_options};
    ghost use Rattle.grep_regex.specs.Views.{regex_meaning};

    /// Compiles a pattern with the default options, as upstream's `RegexMatcher::new` does. Its
    /// matchers declare no line terminator, so that most are asked about each line alone: for the
    /// lines of a search `for_lines` is faster. See `RegexMatcherBuilder::build_many` for errors.
    pub fn new(alloc: Global, pattern: &str) -> Result<Regex, Error>
        ensures options { IfOk result (λ regex. regex_options regex ≡ default_options) }
        ensures patterns { IfOk result (λ regex. regex_patterns regex ≡ pattern.now ∷ []) }
        ensures meaning { IfOk result
            (λ regex. regex_meaning regex ≡ meaning_of default_options (pattern.now ∷ [])) }
        ensures accepted { IfOk result (λ _. AreAccepted default_options (pattern.now ∷ [])) }
        ensures error { IfErr result (IsRefusal default_options (pattern.now ∷ [])) }
    {
        RegexMatcherBuilder::new().build(alloc, pattern)
    }

    /// Compiles a pattern for the lines of a search: `^` and `$` match at the ends of a line, and
    /// its matchers declare a line feed as the line terminator, as those of upstream's
    /// `RegexMatcher::new_line_matcher` do. See `RegexMatcherBuilder::build_many` for errors.
    pub fn for_lines(alloc: Global, pattern: &str) -> Result<Regex, Error>
        ensures options { IfOk result (λ regex. regex_options regex ≡ line_options) }
        ensures patterns { IfOk result (λ regex. regex_patterns regex ≡ pattern.now ∷ []) }
        ensures meaning { IfOk result (λ regex. regex_meaning regex ≡ line_meaning pattern.now) }
        ensures accepted { IfOk result (λ _. AreAccepted line_options (pattern.now ∷ [])) }
        ensures error { IfErr result (IsRefusal line_options (pattern.now ∷ [])) }
    {
        RegexMatcherBuilder::new()
            .multi_line(true)
            .line_terminator(Some(b'\n'))
            .build(alloc, pattern)
    }
}
