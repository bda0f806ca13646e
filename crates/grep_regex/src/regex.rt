//! A compiled regular expression.
ghost use Rattle.std.specs.Prelude.{◌≡◌, ℕ, IfOk, IfErr, IfSome, MatchOption, OnOk, IsTrue, None};
ghost use Rattle.std.specs.Prelude.{map};
ghost use Rattle.std.specs.Option.{option_copied, option_map};
ghost use Rattle.std.specs.Prelude.{string_bytes};
ghost use Rattle.regex_hir.specs.Meaning.{meaning};
ghost use Rattle.grep_matcher.specs.FindResults.{holds_if_some};
ghost use Rattle.grep_regex.specs.AbsentBytes.{is_absent};
ghost use Rattle.grep_regex.specs.Choices.{items_of};
ghost use Rattle.grep_regex.specs.Groups.{group_names, HasOneGroup};
ghost use Rattle.grep_regex.specs.Classes.{IsPrefix};
ghost use Rattle.grep_regex.specs.Locality.{is_by_line};
ghost use Rattle.grep_regex.specs.Patterns.{excluded_bytes, named_terminator, AvoidsAbsent};
ghost use Rattle.grep_regex.specs.Patterns.{FindsAs, FindsSpans};
ghost use Rattle.grep_regex.specs.Programs.{capturing_program};
ghost use Rattle.grep_regex.specs.Refusals.{AreAccepted, IsRefusal, IsTerminatorError};
ghost use Rattle.grep_regex.specs.Seen.{seen_bytes};
ghost use Rattle.grep_regex.specs.Sizes.{AreSized, IsSized};
ghost use Rattle.grep_regex.specs.Spelled.{IsSpelled};
ghost use Rattle.grep_regex.specs.Stripped.{AreAscii};

use crate::absent::{absent_bytes, is_nul};
use crate::class_tree::prefix_of;
use crate::error::Error;
use crate::frame::frame;
use crate::group_finder::GroupFinder;
use crate::literal::literal_of;
use crate::locality::is_by_line;
use crate::options::Options;
use crate::parse::{Choice, read_choice, read_names};
use crate::prefix::Prefix;
use crate::programs::Programs;
use crate::seen::seen_bytes;
use crate::strip::without_terminator;
use crate::texts::Texts;
use grep_matcher::{ByteSet, LineTerminator};
use regex_hir::Hir;
use regex_meta::{Program, Searcher};
use std::alloc::{AllocError, Global};
use std::fmt;
use std::sync::Arc;

/// A compiled regular expression, with its options and the texts of its patterns. It doesn't
/// search: `matcher` gives what does. Its clones share what was compiled.
///
/// What upstream's `RegexMatcher::new` is in one line are two here, since a matcher borrows its
/// expression:
///
/// ```text
/// let regex = Regex::new(alloc, pattern)?;
/// let matcher = regex.matcher(alloc)?;
/// ```
pub struct Regex {
    shared: Arc<Shared>,
}

// What the clones of an expression share.
pub(crate) struct Shared {
    options: Options,
    patterns: Texts,
    absent: Option<ByteSet>,
    programs: Programs,
    by_line: bool,
    ghost lacks: { ∥ ((byte : ℕ) →
        is_absent options patterns byte ≡ holds_if_some absent byte) ∥₁ },
    ghost avoids: { ∥ AvoidsAbsent options patterns ∥₁ },
    ghost finds: { ∥ FindsSpans options patterns (meaning programs.finding.hir) ∥₁ },
    ghost captures: { ∥ FindsAs options patterns (meaning (capturing_program programs).hir) ∥₁ },
    ghost confirms: { ∥ (IsTrue by_line →
        IsTrue (is_by_line options.line_terminator (meaning programs.finding.hir))) ∥₁ },
    ghost strips: { ∥ (IsTrue by_line → options.line_terminator ≡ None →
        IsTrue (is_absent options patterns 13)) ∥₁ },
    ghost sized: { ∥ AreSized options patterns programs ∥₁ },
}

// Written out, so that a caller's proof sees one call.
impl Drop for Regex {
    fn drop(self) {
        let Regex { shared: _shared } = self;
    }
}

// Written out, so that a caller's proof sees one call.
impl Drop for Shared {
    fn drop(self) {
        let Shared {
            options: _options,
            patterns: _patterns,
            absent: _absent,
            programs: _programs,
            by_line: _by_line,
        } = self;
    }
}

impl Shared {
    fn is_by_line(&self) -> bool
        ensures local { IsTrue result →
            IsTrue (is_by_line self.now.options.line_terminator
            (meaning self.now.programs.finding.hir)) }
        ensures strips { IsTrue result → self.now.options.line_terminator ≡ None →
            IsTrue (is_absent self.now.options self.now.patterns 13) }
    {
        self.by_line
    }

    fn absent(&self) -> Option<&ByteSet>
        ensures { (byte : ℕ) → is_absent self.now.options self.now.patterns byte
            ≡ holds_if_some (option_copied result) byte }
    {
        self.absent.as_ref()
    }
}

/// The same expression. Nothing is compiled again and no memory is taken; an error says that there
/// are as many clones as can be counted.
impl Clone for Regex {
    ghost use Rattle.std.specs.Prelude.{◌≡◌};
    ghost use Rattle.grep_regex.specs.Views.{regex_options, regex_patterns};

    ghost is_clone = { λ regex copy. (regex_options copy ≡ regex_options regex)
        × (regex_patterns copy ≡ regex_patterns regex) };

    fn clone(&self) -> Result<Regex, AllocError> {
        Ok(Regex {
            shared: self.shared.clone()?,
        })
    }
}

/// The options and the texts of the patterns.
impl fmt::Debug for Regex {
    fn fmt<W: fmt::Write>(&self, f: &mut fmt::Formatter<W>) -> fmt::Result {
        f.debug_struct("Regex")
            .field("options", &self.shared.options)
            .field("patterns", &self.shared.patterns)
            .finish()
    }
}

impl Regex {
    ghost use Rattle.grep_regex.specs.Views.{regex_options, regex_patterns, program_re};
    ghost use Rattle.grep_regex.specs.Views.{regex_capturing, regex_program, regex_programs};
    ghost use Rattle.grep_regex.specs.Views.{searcher_program};

    // Compiles the alternation of the patterns.
    pub(crate) fn compile(
        alloc: Global,
        options: Options,
        patterns: &[&str],
    ) -> Result<Regex, Error>
        ensures options { IfOk result (λ r. regex_options r ≡ options) }
        ensures patterns { IfOk result (λ r. regex_patterns r ≡ map (λ p. p.now) patterns.now) }
        ensures accepted { IfOk result
            (λ _. AreAccepted options (map (λ p. p.now) patterns.now)) }
        ensures sized { IfOk result
            (λ r. AreSized options (map (λ p. p.now) patterns.now) (regex_programs r)) }
        ensures error { IfErr result (IsRefusal options (map (λ p. p.now) patterns.now)) }
    {
        let programs = match programs_of(alloc, &options, patterns) {
            Ok(programs) => programs,
            Err(error) => return Err(error),
        };
        let absent = absent_bytes(&options, patterns);
        let by_line = confirms(options.line_terminator, &absent, &programs.finding.hir);
        let patterns = Texts::new(alloc, patterns)?;
        let shared = Shared {
            options,
            patterns,
            absent,
            programs,
            by_line,
        };
        match Arc::new(alloc, shared) {
            Ok(shared) => Ok(Regex { shared }),
            Err(error) => Err(Error::from(error)),
        }
    }

    /// The options that it was compiled with.
    pub fn options(&self) -> Options
        ensures { result ≡ regex_options self.now }
    {
        self.shared.options
    }

    /// The names of the groups of its pattern, by their numbers; the first is that of the whole
    /// match, which has none. Of several patterns no group has a name. The text is read again, and
    /// the only error is being out of memory.
    pub fn group_names(&self, alloc: Global) -> Result<Vec<Option<String>>, AllocError>
        ensures { IfOk result (λ names. map (option_map string_bytes) names.items
            ≡ group_names (regex_options self.now) (regex_patterns self.now)) }
    {
        match self.shared.patterns.only() {
            Some(pattern) => read_names(alloc, &self.shared.options, pattern),
            None => Ok(Vec::new(alloc)),
        }
    }

    // The line terminator that its matchers name: none for the byte 0.
    pub(crate) fn named_terminator(&self) -> Option<LineTerminator>
        ensures { result ≡ named_terminator (regex_options self.now).line_terminator }
    {
        let terminator = self.shared.options.line_terminator;
        if is_nul(terminator) { None } else { terminator }
    }

    // What its matchers see of a haystack.
    pub(crate) fn seen_bytes<'h>(&self, haystack: &'h [u8]) -> &'h [u8]
        ensures { result.now
            ≡ seen_bytes (regex_options self.now).line_terminator haystack.now }
    {
        seen_bytes(self.shared.options.line_terminator, haystack)
    }

    // Whether a match found in many lines lies within one of them, which then matches by itself.
    pub(crate) fn is_by_line(&self) -> bool
        ensures local { IsTrue result →
            IsTrue (is_by_line (regex_options self.now).line_terminator (program_re self.now)) }
        ensures strips { IsTrue result → (regex_options self.now).line_terminator ≡ None →
            IsTrue (is_absent (regex_options self.now) (regex_patterns self.now) 13) }
    {
        self.shared.is_by_line()
    }

    // Whether the whole match is the only group of each match.
    pub(crate) fn has_one_group(&self) -> bool
        ensures { IsTrue result → HasOneGroup (regex_options self.now) (regex_patterns self.now) }
    {
        self.slot_count() == 2
    }

    // How many ends of groups there are, two for each.
    pub(crate) fn slot_count(&self) -> u32
        ensures { result ≡ (regex_capturing self.now).dfa.nfa.slot_count }
    {
        match &self.shared.programs.capturing {
            Some(program) => program.dfa.nfa.slot_count,
            None => self.shared.programs.finding.dfa.nfa.slot_count,
        }
    }

    // The bytes that it knows no match to hold, if it knows of any.
    pub(crate) fn absent(&self) -> Option<&ByteSet>
        ensures { (byte : ℕ) → is_absent (regex_options self.now) (regex_patterns self.now) byte
            ≡ holds_if_some (option_copied result) byte }
    {
        self.shared.absent()
    }

    // The bytes of the literal that was compiled, if it is one that isn't empty.
    pub(crate) fn literal(&self) -> Option<&[u8]>
        ensures { IfSome result (λ bytes. IsSpelled (program_re self.now) bytes.now) }
    {
        literal_of(&self.shared.programs.finding.hir)
    }

    // The sets of bytes that decide where it matches, if there are such.
    pub(crate) fn prefix(&self, alloc: Global) -> Result<Option<Prefix>, AllocError>
        ensures { IfOk result (λ found. IfSome found
            (λ p. IsPrefix (program_re self.now) (items_of p.choices.items) p.has_sizes)) }
    {
        prefix_of(alloc, &self.shared.programs.finding.hir)
    }

    // What searches for the expression.
    pub(crate) fn searcher(&self, alloc: Global) -> Result<Searcher<'_>, AllocError>
        ensures { IfOk result (λ s. searcher_program s ≡ regex_program self.now) }
    {
        Searcher::new(alloc, &self.shared.programs.finding)
    }

    // What finds groups, if the searcher doesn't.
    pub(crate) fn group_finder(&self, alloc: Global) -> Result<Option<GroupFinder<'_>>, AllocError>
        ensures { IfOk result (λ found. MatchOption found
            (regex_capturing self.now ≡ regex_program self.now)
            (λ finder. finder.program.now ≡ regex_capturing self.now)) }
    {
        match &self.shared.programs.capturing {
            Some(program) => Ok(Some(GroupFinder::new(alloc, program)?)),
            None => Ok(None),
        }
    }

    // Whether the options and the texts are equal.
    pub(crate) fn is_equal(&self, other: &Regex) -> bool
        ensures options { IsTrue result → regex_options self.now ≡ regex_options other.now }
        ensures patterns { IsTrue result → regex_patterns self.now ≡ regex_patterns other.now }
    {
        self.shared.options.is_equal(&other.shared.options)
            && self.shared.patterns.is_equal(&other.shared.patterns)
    }
}

// What finds the matches of the patterns, and what finds their groups.
fn programs_of(alloc: Global, options: &Options, patterns: &[&str]) -> Result<Programs, Error>
    ensures finds { IfOk result (λ programs.
        FindsSpans options.now (map (λ p. p.now) patterns.now) (meaning programs.finding.hir)) }
    ensures captures { IfOk result (λ programs. FindsAs options.now (map (λ p. p.now) patterns.now)
        (meaning (capturing_program programs).hir)) }
    ensures accepted { IfOk result
        (λ _. AreAccepted options.now (map (λ p. p.now) patterns.now)) }
    ensures sized { IfOk result (AreSized options.now (map (λ p. p.now) patterns.now)) }
    ensures error { IfErr result (IsRefusal options.now (map (λ p. p.now) patterns.now)) }
{
    match program_of(alloc, options, patterns) {
        Ok(program) => Programs::new(alloc, program, options.size_limit),
        Err(error) => Err(error),
    }
}

// The program of the alternation of the patterns, within what the options put around it.
fn program_of(alloc: Global, options: &Options, patterns: &[&str]) -> Result<Program, Error>
    ensures ok { IfOk result (λ program.
        FindsAs options.now (map (λ p. p.now) patterns.now) (meaning program.hir)) }
    ensures accepted { IfOk result
        (λ _. AreAccepted options.now (map (λ p. p.now) patterns.now)) }
    ensures sized { IfOk result (IsSized options.now (map (λ p. p.now) patterns.now)) }
    ensures error { IfErr result (IsRefusal options.now (map (λ p. p.now) patterns.now)) }
{
    check_terminator(options.line_terminator)?;
    let Choice { hir, groups } = read_choice(alloc, options, patterns)?;
    let whole = frame(alloc, options, hir)?;
    let stripped = without_terminator(alloc, options, patterns, whole)?;
    match Program::new(alloc, stripped, groups, options.size_limit) {
        Ok(program) => Ok(program),
        Err(error) => Err(Error::of_compiler(error)),
    }
}

// That the terminator is ASCII.
fn check_terminator(terminator: Option<LineTerminator>) -> Result<(), Error>
    ensures ascii { OnOk result (AreAscii (excluded_bytes terminator)) }
    ensures error { IfErr result (IsTerminatorError terminator) }
{
    match terminator {
        Some(LineTerminator::Byte(byte)) if byte >= 128 => Err(Error::InvalidLineTerminator(byte)),
        _ => Ok(()),
    }
}

// Whether a match found in many lines lies within one of them, which then matches by itself, also
// if a carriage return is stripped from it.
fn confirms(terminator: Option<LineTerminator>, absent: &Option<ByteSet>, hir: &Hir) -> bool
    ensures local { IsTrue result → IsTrue (is_by_line terminator (meaning hir.now)) }
    ensures strips { IsTrue result → terminator ≡ None → IsTrue (holds_if_some absent.now 13) }
{
    is_by_line(terminator, hir) && avoids_carriage_return(terminator, absent)
}

// Whether no match holds a carriage return that a search may strip from a line: the terminator is
// declared, or the byte is known to be absent.
fn avoids_carriage_return(terminator: Option<LineTerminator>, absent: &Option<ByteSet>) -> bool
    ensures { IsTrue result → terminator ≡ None → IsTrue (holds_if_some absent.now 13) }
{
    match absent {
        Some(set) => terminator.is_some() || set.contains(b'\r'),
        None => terminator.is_some(),
    }
}

// The bytes of the line terminator.
pub(crate) fn excluded_bytes(terminator: &Option<LineTerminator>) -> &[u8]
    ensures { result.now ≡ excluded_bytes terminator.now }
{
    match terminator {
        Some(terminator) => terminator.as_bytes(),
        None => &[],
    }
}
