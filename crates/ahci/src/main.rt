//! `ahci`: a reference model of one AHCI port, run by scripts and by lists of jobs, and the pages of its disk.
#![tactic(auto)]

use ahci_cli::{StreamLog, WordsFault, program_with};
use std::process::ExitCode;

fn main(rt: HostRuntime) -> ExitCode {
    let (mut input, mut output, mut errors) = (rt.stdin(), rt.stdout(), rt.stderr());
    ExitCode::from(program_with(
        &rt,
        rt.alloc(),
        words(&rt),
        &mut input,
        &mut output,
        &mut errors,
        &mut StreamLog::new(),
    ))
}

/// The command line, the program's name first.
fn words(rt: &HostRuntime) -> Result<Vec<String>, WordsFault> {
    Ok(std::env::args(rt)?.collect(rt.alloc())?)
}
