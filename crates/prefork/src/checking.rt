//! `check`: whether files would be read as configurations, as text or as JSON.
ghost use Rattle.std.specs.Prelude.{IfErr};
ghost use Rattle.faults.specs.Faults.{IsOfFile};

use crate::program::write;
use command_line::CheckOptions;
use explanations::check_file;
use faults::Fault;
use json_text::checks_json;
use std::alloc::AllocError;
use std::io::Write;
use std::rt::Files;

/// Writes a line for each file, in one write, or JSON for all of them; the status is 1 where one of them would not be read.
/// It fails where memory is refused, or a write: a file that cannot be read has its line.
#[inline(never)]
pub fn check<R: AllocGlobal + Files, O: Write>(
    rt: &R,
    options: &CheckOptions<'_>,
    output: &mut O,
) -> Result<u8, Fault>
    ensures { IfErr result IsOfFile }
{
    if options.json {
        return check_as_json(rt, options, output);
    }
    let mut status = 0;
    for path in &options.files {
        let mut line = Vec::new(rt.alloc());
        if !check_file(rt, path, &mut line)? {
            status = 1;
        }
        write(output, line.as_slice())?;
    }
    Ok(status)
}

/// The same as JSON.
fn check_as_json<R: AllocGlobal + Files, O: Write>(
    rt: &R,
    options: &CheckOptions<'_>,
    output: &mut O,
) -> Result<u8, Fault>
    ensures { IfErr result IsOfFile }
{
    let mut status = 0;
    let mut lines = Vec::new(rt.alloc());
    for path in &options.files {
        let mut line = Vec::new(rt.alloc());
        if !check_file(rt, path, &mut line)? {
            status = 1;
        }
        lines.push(line).map_err(AllocError::from)?;
    }
    let text = checks_json(rt.alloc(), options.files.as_slice(), lines.as_slice())?;
    write(output, text.as_slice())?;
    Ok(status)
}
