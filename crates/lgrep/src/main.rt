//! Searches a file or standard input for a literal, line by line or across lines.
#![tactic(auto)]

use grep_searcher::Reading;
use lgrep_cli::{Writing, run_arguments};
use std::env::Env;
use std::process::ExitCode;
use std::{env, io};

// Does what the arguments ask for, with standard input, standard output and standard error.
fn main(rt: HostRuntime) -> ExitCode {
    let arguments = arguments(&rt);
    let mut input = Reading::new(rt.stdin());
    let mut writer = Writing::new(rt.stdout());
    let mut messages = Writing::new(rt.stderr());
    run_arguments(
        &rt,
        rt.alloc(),
        &arguments,
        &mut input,
        &mut writer,
        &mut messages,
    )
}

// The arguments after the program's name.
fn arguments(rt: &(impl Env + AllocGlobal)) -> io::Result<Vec<String>> {
    let mut arguments = env::args(rt)?;
    let _ = arguments.next();
    Ok(arguments.collect(rt.alloc())?)
}
