//! The search of all that the arguments name.
ghost use Rattle.std.specs.Prelude.{◌≡◌, ◌⊎◌, Option, true, IfErr, IfOk};
ghost use Rattle.std.specs.Borrow.{Bor};
ghost use Rattle.std.specs.Option.{option_copied};
ghost use Rattle.grep_replace.specs.declared.template.Template.{Template};
ghost use Rattle.grep_regex.specs.Sizes.{AreSized};
ghost use Rattle.grep_regex.specs.Views.{IsNamed, regex_options, regex_patterns, regex_programs};
ghost use Rattle.linegrep_cli.specs.PatternOptions.{pattern_options, pattern_texts};
ghost use Rattle.linegrep_cli.specs.PreparedRuns.{IsPrepared};
ghost use Rattle.linegrep_cli.specs.Refusals.{ArePatternsRefused, IsCause};
ghost use Rattle.linegrep_cli.specs.Refusals.{IsRefusedWith, IsRefusedWithoutMemory};
ghost use Rattle.linegrep_cli.specs.TemplateOptions.{IsTemplate};
ghost use Rattle.linegrep_cli.specs.WholeRuns.{IsRunOf, IsRunWith, IsSearchRun};
ghost use Rattle.linegrep_cli.specs.Worlds.{world_of};
ghost use Rattle.linegrep_files.specs.Failures.{has_cause};

use crate::engine::PrintingEngine;
use crate::failures::{Failure, say};
use crate::file_run::Run;
use crate::options::Options;
use crate::patterns::compile;
use crate::prepared::{Layout, prepare_files};
use crate::scope::Scope;
use crate::settings::{build_printer, build_searcher};
use crate::system::System;
use crate::template::template;
use grep_output::Output;
use grep_regex::{NamedMatcher, Naming, Regex};
use grep_replace::{CapturesAt, Template};
use grep_searcher::{FindAt, Matcher, Searcher, Source};
use linegrep_files::Choices;
use std::alloc::{AllocError, Global};
use std::fmt::Display;
use std::marker::Brand;

/// What comes of a run: the status that the program exits with, and its streams.
#[derive(Drop)]
pub struct Ended<R, W> {
    /// The status.
    pub status: u8,
    /// Standard input.
    pub input: R,
    /// The output.
    pub output: W,
}

impl<R, W> Ended<R, W> {
    /// A run that is refused, since there is no memory. `errors` says so.
    pub fn without_memory<E: Output>(errors: &mut E, input: R, output: W) -> Ended<R, W>
        ensures { IsRefusedWithoutMemory E.step input output errors.old result errors.new }
    {
        Ended::refused(errors, &Failure::out_of_memory(), input, output)
    }

    /// A run that is refused. The failure is written to `errors`.
    pub fn refused<E: Output>(errors: &mut E, failure: &Failure, input: R, output: W) -> Ended<R, W>
        ensures { IsRefusedWith E.step failure.now input output errors.old result errors.new }
    {
        say(errors, failure.text());
        Ended {
            status: 2,
            input,
            output,
        }
    }
}

// What a search is made with, besides the expression.
struct Prepared<'r> {
    searcher: Searcher,
    choices: Choices<'r>,
    layout: Layout,
    template: Option<Template>,
}

// Written out, so that a caller's proof sees one call.
impl<'r> Drop for Prepared<'r> {
    fn drop(self) {
        let Prepared {
            searcher: _searcher,
            choices: _choices,
            layout: _layout,
            template: _template,
        } = self;
    }
}

// The expression that the options ask for, and what else a search is made with. An error is that a
// setting is wrong, that a pattern can't be compiled, that a glob isn't well formed, or that there
// is no memory.
fn prepare<'r, S: System>(
    rt: &'r HostRuntime,
    system: &S,
    options: &Options<'_, '_>,
    patterns: &[String],
) -> Result<(Regex, Prepared<'r>), Failure>
    ensures options { IfOk result (λ (regex, prepared).
        regex_options regex ≡ pattern_options options.now patterns.now) }
    ensures patterns { IfOk result (λ (regex, prepared).
        regex_patterns regex ≡ pattern_texts options.now patterns.now) }
    ensures sized { IfOk result (λ (regex, prepared).
        AreSized (pattern_options options.now patterns.now)
        (pattern_texts options.now patterns.now) (regex_programs regex)) }
    ensures prepared { IfOk result (λ (regex, prepared).
        IsPrepared (S.facts system.now) options.now prepared) }
    ensures template { IfOk result (λ (regex, prepared).
        IsTemplate options.now regex prepared.template) }
    ensures refused { IfErr result (λ failure. has_cause failure ≡ true
        → IsCause (S.facts system.now) options.now patterns.now) }
{
    let (layout, choices) = match prepare_files(rt, system, options) {
        Ok(prepared) => prepared,
        Err(failure) => return Err(failure),
    };
    let searcher = match build_searcher(rt.alloc(), options) {
        Ok(searcher) => searcher,
        Err(failure) => return Err(failure),
    };
    match compile_with_template(rt.alloc(), options, patterns) {
        Ok((regex, template)) => {
            let prepared = Prepared {
                searcher,
                choices,
                layout,
                template,
            };
            Ok((regex, prepared))
        }
        Err(failure) => Err(failure),
    }
}

// The expression that the options ask for, and the template for its groups, if they ask for one. An
// error is that of a pattern, or that there is no memory.
fn compile_with_template(
    alloc: Global,
    options: &Options<'_, '_>,
    patterns: &[String],
) -> Result<(Regex, Option<Template>), Failure>
    ensures options { IfOk result (λ (regex, template).
        regex_options regex ≡ pattern_options options.now patterns.now) }
    ensures patterns { IfOk result (λ (regex, template).
        regex_patterns regex ≡ pattern_texts options.now patterns.now) }
    ensures sized { IfOk result (λ (regex, template).
        AreSized (pattern_options options.now patterns.now)
        (pattern_texts options.now patterns.now) (regex_programs regex)) }
    ensures template { IfOk result (λ (regex, template). IsTemplate options.now regex template) }
    ensures refused { IfErr result (λ failure. has_cause failure ≡ true
        → ArePatternsRefused options.now patterns.now) }
{
    let regex = match compile(alloc, options, patterns) {
        Ok(regex) => regex,
        Err(failure) => return Err(failure),
    };
    match template(alloc, options, &regex) {
        Ok(template) => Ok((regex, template)),
        Err(_) => Err(Failure::out_of_memory()),
    }
}

/// Searches the files at the paths of the options, one after another, and writes to `output` what
/// is found. If there is no path, it searches what `input` gives, or the current folder, if the
/// input is a terminal or another device.
///
/// The status is 0 if there is a match, 1 if there is none, and 2 if a file can't be read; then
/// standard error says so, unless `--no-messages` is given. If nothing is to be written, the first
/// match ends the run with 0. If a setting, a pattern or a glob isn't well formed, or there is no
/// memory, the status is 2, and nothing is searched or written to `output`.
#[inline(never)]
pub fn search_all<S: System, R: Source + Drop, W: Output + Drop, E: Output>(
    rt: &HostRuntime,
    system: &S,
    options: &Options<'_, '_>,
    patterns: &[String],
    input: R,
    output: W,
    errors: &mut E,
) -> Ended<R, W>
    ensures { IsSearchRun ⟦<AllocError as Display>⟧.output
        (world_of S.System.own S.Open S.Folders S.File.Read R.Source W.Output E.Output)
        system.now options.now patterns.now input output errors.old result errors.new }
{
    match prepare(rt, system, options, patterns) {
        Ok((regex, prepared)) => search_named::<Brand, S, R, W, E>(
            rt, system, options, &regex, prepared, input, output, errors,
        ),
        Err(failure) => Ended::refused(errors, &failure, input, output),
    }
}

// Searches for a compiled expression. If it is a literal and matches aren't replaced, that is done
// by the matcher of a literal, and otherwise by a matcher that `N` names, no call of which compares
// texts.
fn search_named<'r, N: Naming, S: System, R: Source + Drop, W: Output + Drop, E: Output>(
    rt: &'r HostRuntime,
    system: &'r S,
    options: &Options<'_, '_>,
    regex: &Regex,
    prepared: Prepared<'r>,
    input: R,
    output: W,
    errors: &mut E,
) -> Ended<R, W>
where
    requires named { IsNamed N.options N.patterns regex.now }
    requires prepared { IsPrepared (S.facts system.now) options.now prepared }
    requires template { IsTemplate options.now regex.now prepared.template }
    ensures { IsRefusedWithoutMemory E.step input output errors.old result errors.new
        ⊎ IsRunOf ⟦<AllocError as Display>⟧.output
        (world_of S.System.own S.Open S.Folders S.File.Read R.Source W.Output E.Output)
        system.now N.Naming options.now regex.now input output errors.old result }
{
    if prepared.template.is_none() {
        if let Some(matcher) = regex.literal_matcher() {
            return prepared.search(rt, system, options, &matcher, input, output, errors);
        }
    }
    match regex.named_matcher::<N>(rt.alloc()) {
        Ok(matcher) => prepared.search(rt, system, options, &matcher, input, output, errors),
        Err(_) => Ended::without_memory(errors, input, output),
    }
}

impl<'r> Prepared<'r> {
    // Searches what the options choose, with a matcher.
    fn search<M: CapturesAt + Copy, S: System, R: Source + Drop, W: Output + Drop, E: Output>(
        self,
        rt: &'r HostRuntime,
        system: &'r S,
        options: &Options<'_, '_>,
        matcher: M,
        input: R,
        output: W,
        errors: &mut E,
    ) -> Ended<R, W>
        requires { IsPrepared (S.facts system.now) options.now self }
        ensures { (template : Option (Bor Template))
            × (option_copied template ≡ self.entry.template)
            × IsRunWith M.Error.output M.facts M.first_at M.groups_at
            (world_of S.System.own S.Open S.Folders S.File.Read R.Source W.Output E.Output)
            system.now options.now matcher template input output errors.old result }
    {
        let Prepared {
            searcher,
            mut choices,
            layout,
            template,
        } = self;
        let scope = Scope::new(system, options);
        let is_across = searcher.multi_line_with_matcher(matcher);
        let printer = build_printer(
            rt,
            options,
            is_across,
            layout.separators.as_ref(),
            layout.colors.as_ref(),
            matcher,
            template.as_ref(),
        );
        let mut engine: PrintingEngine<'_, S, S::File, M, R, W, E> = PrintingEngine::new(
            rt,
            searcher,
            matcher,
            printer,
            output,
            input,
            errors,
            layout.path_separator,
            layout.hyperlinks.as_ref(),
            system,
        );
        let run = Run::new(rt, system, scope);
        let status = run.complete(&mut engine, &mut choices, options.paths());
        let (input, output) = engine.into_parts();
        Ended {
            status,
            input,
            output,
        }
    }
}
