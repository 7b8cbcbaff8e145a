//! What words ask of a master.
ghost use Rattle.std.specs.Prelude.{◌≡◌, IfOk, IfSome};
ghost use Rattle.std.specs.Option.{option_copied};
ghost use Rattle.service_state.specs.Targets.{IsTarget};
ghost use Rattle.control_words.specs.Words.{target_of, settings_for};

use crate::{Word, WordRefusal};
use listener_set::{Numbers, WORKER_LIMIT};
use service_state::Record;
use vocabulary::{Settings, Target};

/// The settings that a master with this record can take up.
fn settings_for<'a>(state: &Record, settings: Option<&'a Settings>) -> Result<Settings, WordRefusal>
    ensures { result ≡ settings_for state.now (option_copied settings.entry) }
{
    let settings = settings.ok_or(WordRefusal::NoConfig)?;
    if settings.pid == state.pid_path {
        Ok(*settings)
    } else {
        Err(WordRefusal::PidChanged)
    }
}

/// What a word asks of a master with this record, where `overdue` are the numbers of the overdue workers and `settings`
/// those of a new configuration; nothing where it changes no worker.
///
/// - TTIN asks for one worker more than is wanted, and is refused as W3 where 1024 are. TTOU asks for one less, and for
///   nothing where none is wanted. WINCH asks for none.
/// - HUP asks for the service of the settings, and USR2 for it by a new master. They are refused as W4 where there are no
///   settings, and as W5 where these name another pid file, for it does not change while a master runs.
/// - USR1 asks for a reopening, QUIT for a stop that lets requests finish, INT and TERM for a quick one.
/// - A tick asks for the overdue workers anew and for those that are missing. A beat is for the table of workers.
pub fn target_of(
    word: Word,
    state: &Record,
    overdue: &Numbers,
    settings: Option<&Settings>,
) -> Result<Option<Target>, WordRefusal>
    ensures exact { result ≡ target_of word state.now overdue.now (option_copied settings.entry) }
    ensures in_range { IfOk result (λ target. IfSome target IsTarget) }
{
    let wanted = state.wanted;
    match word {
        Word::Hup => Ok(Some(Target::Reload(settings_for(state, settings)?))),
        Word::Usr2 => Ok(Some(Target::Upgrade(settings_for(state, settings)?))),
        Word::Usr2Attended => Ok(Some(Target::Attended(settings_for(state, settings)?))),
        Word::Usr1 => Ok(Some(Target::Reopen)),
        Word::Quit => Ok(Some(Target::Stop { quick: false })),
        Word::Int | Word::Term => Ok(Some(Target::Stop { quick: true })),
        Word::Winch => Ok(Some(Target::Workers(0))),
        Word::Ttin if wanted < WORKER_LIMIT => Ok(Some(Target::Workers(wanted + 1))),
        Word::Ttin => Err(WordRefusal::AtMost),
        Word::Ttou => Ok(wanted.checked_sub(1).map(Target::Workers)),
        Word::Tick { .. } => Ok(Some(Target::Mend(*overdue))),
        Word::Beat { .. } => Ok(None),
    }
}
