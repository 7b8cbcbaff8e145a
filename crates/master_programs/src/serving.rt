//! `supervise`, `adopt` and `child`: masters and workers that run.
ghost use Rattle.std.specs.Prelude.{◌≡◌, option_map};
ghost use Rattle.master_programs.specs.Faults.{supervisor_fault};
ghost use Rattle.master_programs.specs.Limits.{limits_of};
ghost use Rattle.master_programs.specs.Refusals.{IsDeclined, IsNext};

use crate::pid_file::check_pid_file;
use crate::sharing::{Explained, NextName, Shared};
use crate::surroundings::Surroundings;
use child_processes::{ANSWER_WITHIN, ChildLimits, OsFamily, READY_WITHIN};
use child_programs::{ServedMaster, serve_master, serve_worker};
use command_line::{AdoptOptions, LimitOptions, SuperviseOptions};
use faults::Fault;
use log::sink::{Discard, Writer};
use log::{LevelFilter, Log, Logged};
use master_config::{ConfigRefusal, config_in};
use master_on_children::{
    NextRefusal, NextSettings, Operator, SupervisorFault, SupervisorStart, supervise_on,
};
use plain_text::read_number;
use std::alloc::Global;
use std::cell::RefCell;
use std::env;
use std::env::{Env, VarError};
use std::io::{Read, Write};
use std::os::fd::AsRawFd;
use std::process::{OpenProcess, Processes};
use std::rt::Files;
use std::time::Clock;
use vocabulary::Settings;
use word_runner::CodeText;

/// The configuration that a reload goes over to: a file, read anew each time.
#[derive(Drop)]
struct NextFile<'a, R: AllocGlobal + Files> {
    rt: &'a R,
    /// Without a file the defaults hold.
    path: Option<&'a str>,
}

impl<R: AllocGlobal + Files> NextSettings for NextFile<'_, R> {
    ghost reads = { λ old answer new. IsNext (option_map (λ text. text.now) old.path) answer × (new ≡ old) };

    fn read(&mut self) -> Result<Settings, NextRefusal> {
        match config_in(self.rt, self.path) {
            Ok(config) => Ok(config.settings),
            Err(refusal) => Err(declined(self.rt.alloc(), &refusal)),
        }
    }
}

/// Why a configuration is not taken up: want of memory, a file that can't be read, or the code of its refusal with what
/// that is about.
fn declined(alloc: Global, refusal: &ConfigRefusal) -> NextRefusal
    ensures { IsDeclined refusal.now result }
{
    match refusal {
        ConfigRefusal::Memory => NextRefusal::Memory,
        ConfigRefusal::Unreadable => NextRefusal::Unreadable,
        _ => match format!(in alloc; "{refusal}") {
            Ok(code) => NextRefusal::Refused(CodeText::long(code)),
            Err(_) => NextRefusal::Memory,
        },
    }
}

/// `supervise`: a master whose workers and new masters are processes. What is left of its children when it ends is ended
/// with it. On standard error it logs its blocks and whom it killed, and explains refused words, where that is asked for.
#[inline(never)]
pub fn supervise<R: AllocGlobal + Files + Processes + Clock, I: Read, O: Write, E: Write>(
    rt: &R,
    around: &Surroundings,
    options: &SuperviseOptions<'_>,
    input: &mut I,
    output: &mut O,
    errors: &mut E,
) -> Result<u8, Fault>
where
    <R::Started as OpenProcess>::Stdout: AsRawFd,
    <R::Started as OpenProcess>::Stdin: AsRawFd,
{
    let errors = RefCell::new(&mut *errors);
    supervise_told(rt, around, options, input, output, &errors)
}

/// The same, where several write to standard error. It is a function of its own, since the log and what explains codes
/// borrow the cell for as long as they live.
fn supervise_told<R: AllocGlobal + Files + Processes + Clock, I: Read, O: Write, E: Write>(
    rt: &R,
    around: &Surroundings,
    options: &SuperviseOptions<'_>,
    input: &mut I,
    output: &mut O,
    errors: &RefCell<E>,
) -> Result<u8, Fault>
where
    <R::Started as OpenProcess>::Stdout: AsRawFd,
    <R::Started as OpenProcess>::Stdin: AsRawFd,
{
    let level = if options.verbose {
        LevelFilter::Info
    } else {
        LevelFilter::Off
    };
    let for_log = Shared::new(errors);
    let for_codes = Shared::new(errors);
    let log = Logged::new((), level, Writer::new(for_log));
    let mut explained = Explained {
        rt,
        next: next_name(options),
        output,
        errors: for_codes,
        is_wanted: around.explains || options.why,
    };
    supervise_logged(rt, around.number, options, input, &mut explained, &log)
}

/// The file that a word reads: that of `--to`, or else that with which the master started.
fn next_name<'a>(options: &SuperviseOptions<'a>) -> NextName<'a> {
    match options.to {
        Some(path) => NextName {
            option: "--to",
            path: Some(path),
        },
        None => NextName {
            option: "--from",
            path: options.from,
        },
    }
}

/// The same, with a log: its blocks and the children that it kills are lines of it. `number` is that of its own process;
/// the system counts processes from 1.
fn supervise_logged<R: AllocGlobal + Files + Processes + Clock, I: Read, O: Write, L: Log>(
    rt: &R,
    number: u32,
    options: &SuperviseOptions<'_>,
    input: &mut I,
    output: &mut O,
    log: &L,
) -> Result<u8, Fault>
where
    <R::Started as OpenProcess>::Stdout: AsRawFd,
    <R::Started as OpenProcess>::Stdin: AsRawFd,
{
    let alloc = rt.alloc();
    let config = config_in(rt, options.from)?;
    check_pid_file(rt, config.settings.pid.as_ref(), number)?;
    let family = OsFamily::new(alloc, rt, options.program, &config.command)?;
    let family = family.limited(limits_of(&options.limits), log);
    let mut next = NextFile {
        rt,
        path: next_name(options).path,
    };
    let start = SupervisorStart {
        settings: config.settings,
        pid: number.max(1),
    };
    let operator = Operator { input, log };
    let mut supervised = supervise_on(alloc, family, &start, &mut next, operator, output);
    supervised.family.finish();
    supervised.status.map_err(fault_of)
}

/// Want of memory, or a file, of a master that ran.
fn fault_of(fault: SupervisorFault) -> Fault
    ensures { result ≡ supervisor_fault fault }
{
    match fault {
        SupervisorFault::Memory => Fault::Memory,
        SupervisorFault::File => Fault::File,
    }
}

/// How long a child may keep its master waiting. Without a limit of its own it has eight times as long to be ready.
fn limits_of(options: &LimitOptions) -> ChildLimits
    ensures { result ≡ limits_of options.now }
{
    let answer = options.answer_within.unwrap_or(0);
    let ready = options.ready_within.unwrap_or(answer.saturating_mul(8));
    ChildLimits { answer, ready }
}

/// What is given, and otherwise what the old master told by the environment.
fn limits_told<R: AllocGlobal + Env>(rt: &R, given: &LimitOptions) -> Result<ChildLimits, Fault> {
    let answer_within = match given.answer_within {
        None => variable(rt, ANSWER_WITHIN)?,
        seconds => seconds,
    };
    let ready_within = match given.ready_within {
        None => variable(rt, READY_WITHIN)?,
        seconds => seconds,
    };
    Ok(limits_of(&LimitOptions {
        answer_within,
        ready_within,
    }))
}

/// The number in a variable, if it is set.
fn variable<R: AllocGlobal + Env>(rt: &R, name: &str) -> Result<Option<u32>, Fault> {
    match env::var(rt, name) {
        Ok(text) => match read_number(text.as_bytes()) {
            None => Err(Fault::Usage),
            number => Ok(number),
        },
        Err(VarError::OutOfMemory) => Err(Fault::Memory),
        Err(VarError::NotPresent) => Ok(None),
        Err(_) => Err(Fault::Usage),
    }
}

/// `adopt`: the new master of an upgrade. Its workers are the program that is named, or its own executable. `number` is
/// that of its own process. It logs nothing: its standard error is the old master's.
#[inline(never)]
pub fn adopt<R: AllocGlobal + Files + Processes + Clock + Env, I: Read, O: Write>(
    rt: &R,
    number: u32,
    options: &AdoptOptions<'_>,
    input: &mut I,
    output: &mut O,
) -> Result<u8, Fault>
where
    <R::Started as OpenProcess>::Stdout: AsRawFd,
    <R::Started as OpenProcess>::Stdin: AsRawFd,
{
    let alloc = rt.alloc();
    let limits = limits_told(rt, &options.limits)?;
    let family = match options.program {
        Some(program) => OsFamily::new(alloc, rt, program, &[])?,
        None => OsFamily::new(alloc, rt, env::current_exe(rt)?.as_str(), &[])?,
    };
    let family = family.limited(limits, Discard);
    let served = serve_master(alloc, family, number.max(1), &mut *input, output);
    Ok(finished(served))
}

/// Ends what is left of a new master's children, and gives its status.
fn finished<R: Processes + Files + Clock + Drop>(served: ServedMaster<OsFamily<R, Discard>>) -> u8
where
    <R::Started as OpenProcess>::Stdout: AsRawFd,
    <R::Started as OpenProcess>::Stdin: AsRawFd,
{
    let ServedMaster { status, family } = served;
    if let Some(mut family) = family {
        family.finish();
    }
    status
}

/// `child`: a worker that serves nothing.
pub fn child<I: Read, O: Write>(input: &mut I, output: &mut O) -> u8 {
    serve_worker(input, output)
}
