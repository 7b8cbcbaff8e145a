//! The pid file of a master that starts: it may have the number of another process that runs.
ghost use Rattle.std.specs.Prelude.{IfErr};
ghost use Rattle.faults.specs.Faults.{IsOfFile};
ghost use Rattle.master_programs.specs.Faults.{IsOfPidFile};

use faults::Fault;
use listener_set::FilePath;
use plain_text::read_count;
use std::fs;
use std::io::ErrorKind;
use std::rt::Files;

/// Refuses a start whose pid file has the number of another process that runs. The file of a process that has ended may be
/// taken over, and one that has no number.
pub fn check_pid_file<R: AllocGlobal + Files>(
    rt: &R,
    path: Option<&FilePath>,
    own: u32,
) -> Result<(), Fault>
    ensures { IfErr result (IsOfPidFile own) }
{
    let Some(path) = path else {
        return Ok(());
    };
    match number_in(rt, path)? {
        Some(number) => check_process(rt, number, own),
        None => Ok(()),
    }
}

/// Refuses a number that a process has which runs, and which is not the own one.
fn check_process<R: AllocGlobal + Files>(rt: &R, number: u32, own: u32) -> Result<(), Fault>
    ensures { IfErr result (IsOfPidFile own) }
{
    if number != own && runs(rt, number)? {
        return Err(Fault::Running(number));
    }
    Ok(())
}

/// The number that a pid file has, if there is one.
fn number_in<R: AllocGlobal + Files>(rt: &R, path: &FilePath) -> Result<Option<u32>, Fault>
    ensures { IfErr result IsOfFile }
{
    let Ok(name) = str::from_utf8(path.bytes()) else {
        return Ok(None);
    };
    let text = text_of(rt, name)?;
    Ok(read_count(text.as_slice().trim_ascii()))
}

/// Whether a process runs. One that has ended and was not waited for does not.
fn runs<R: AllocGlobal + Files>(rt: &R, number: u32) -> Result<bool, Fault>
    ensures { IfErr result IsOfFile }
{
    let path = format!(in rt.alloc(); "/proc/{number}/stat")?;
    let text = text_of(rt, path.as_str())?;
    Ok(is_of_running(text.as_slice()))
}

/// What a file has: nothing where there is none.
fn text_of<R: AllocGlobal + Files>(rt: &R, path: &str) -> Result<Vec<u8>, Fault>
    ensures { IfErr result IsOfFile }
{
    match fs::read(rt, path) {
        Ok(text) => Ok(text),
        Err(error) => match error.kind() {
            ErrorKind::NotFound => Ok(Vec::new(rt.alloc())),
            _ => Err(Fault::from(error)),
        },
    }
}

/// Whether the system says so of a process: behind its number and, in brackets, its name comes a letter for its state.
fn is_of_running(stat: &[u8]) -> bool {
    let Some(end) = stat.iter().rposition(|byte| *byte == b')') else {
        return false;
    };
    !matches!(stat[end..].get(2), None | Some(b'Z' | b'X' | b'x'))
}
