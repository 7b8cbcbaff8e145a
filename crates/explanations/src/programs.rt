//! Programs that cannot be started: a fork of theirs is answered `again`, which does not say why.
use crate::places::tell_unread;
use command_line::SuperviseOptions;
use std::fs;
use std::fs::Metadata;
use std::io::Write;
use std::os::unix::fs::PermissionsExt;
use std::rt::Files;

/// The bits of a file that may be executed, by anyone.
const EXECUTABLE: u32 = 0o111;

/// Says why workers cannot be started, where the path of their program shows it. A name without a slash is looked up when
/// it is started, and nothing is said of it.
#[inline(never)]
pub fn tell_program<R: AllocGlobal + Files, E: Write>(
    rt: &R,
    options: &SuperviseOptions<'_>,
    errors: &mut E,
) {
    let Ok(config) = master_config::config_in(rt, options.from) else {
        return;
    };
    let path = match config.command.first() {
        Some(word) => word.as_str(),
        None => options.program,
    };
    if !path.contains('/') {
        return;
    }
    match fs::metadata(rt, path) {
        Ok(found) if is_executable(&found) => (),
        Ok(_) => {
            let _ = writeln!(
                errors,
                "prefork: the program of workers {path}: it is no file that may be executed"
            );
        }
        Err(error) => {
            let _ = write!(errors, "prefork: the program of workers {path}");
            tell_unread(error.kind(), errors);
        }
    }
}

fn is_executable(found: &Metadata) -> bool {
    found.is_file() && found.permissions().mode() & EXECUTABLE != 0
}
