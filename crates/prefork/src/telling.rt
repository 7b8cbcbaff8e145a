//! Faults, told as JSON beside their line.
ghost use Rattle.std.specs.Prelude.{◌≡◌, IfErr};
ghost use Rattle.faults.specs.Faults.{IsOfFile};
ghost use Rattle.prefork.specs.Json.{asks_json, is_told_as_json};

use crate::program::write;
use command_line::Request;
use faults::Fault;
use json_text::fault_json;
use std::alloc::Global;
use std::io::Write;

/// Whether a request asks for JSON.
fn asks_json(request: &Request<'_>) -> bool
    ensures { result ≡ asks_json request.now }
{
    match request {
        Request::Enact(options) => options.start.json,
        Request::Plan(options) => options.start.json,
        Request::Explore(options) => options.start.json,
        Request::Certify(options) => options.start.json,
        Request::Check(options) => options.json,
        _ => false,
    }
}

/// Whether a fault of a request is told as JSON too. An invalid command line has no answer, and without memory none can be
/// made.
pub fn is_told_as_json(request: &Request<'_>, fault: &Fault) -> bool
    ensures { result ≡ is_told_as_json request.now fault.now }
{
    match fault {
        Fault::Usage | Fault::Memory => false,
        _ => asks_json(request),
    }
}

/// Writes a fault as JSON, where an answer would be.
pub fn tell_as_json<O: Write>(alloc: Global, fault: &Fault, output: &mut O) -> Result<(), Fault>
    ensures { IfErr result IsOfFile }
{
    let code = format!(in alloc; "{fault}")?;
    let text = fault_json(alloc, code.as_str())?;
    write(output, text.as_slice())
}
