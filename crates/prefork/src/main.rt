//! `prefork`: a preforking master, whose plans are proved.
#![tactic(auto)]

mod checking;
mod exploration;
mod program;
mod setup;
mod telling;

use faults::Fault;
pub use master_programs::Surroundings;
pub use program::run;
use std::env::Env;
use std::io::IsTerminal;
use std::process::ExitCode;
use std::{env, io, process};

fn main(rt: HostRuntime) -> ExitCode {
    let stdout = rt.stdout();
    let stderr = rt.stderr();
    let mut errors = io::writer(&stderr);
    let args = match arguments(&rt) {
        Ok(args) => args,
        Err(fault) => return ExitCode::from(fault.tell(&mut errors)),
    };
    let mut input = rt.reader();
    let mut output = io::writer(&stdout);
    let around = Surroundings {
        number: process::id(rt.process()),
        asks: rt.stdin().is_terminal() && stderr.is_terminal(),
        explains: stderr.is_terminal(),
    };
    ExitCode::from(run(
        &rt,
        &around,
        args.as_slice(),
        &mut input,
        &mut output,
        &mut errors,
    ))
}

/// The words of the command line, of which the first is the program's name.
fn arguments<R: AllocGlobal + Env>(rt: &R) -> Result<Vec<String>, Fault> {
    Ok(env::args(rt)?.collect(rt.alloc())?)
}
