//! Groups that are read one after another.
ghost use Rattle.std.specs.Prelude.{◌≡◌, []};
ghost use Rattle.handover_text.specs.Reading.{extended, can_begin};
ghost use Rattle.handover_text.specs.Reader.{groups_in};

use listener_set::{MOST_LISTENERS, WORKER_LIMIT};
use worker_groups::{Group, Groups, MOST_GROUPS};

/// The first group, where it keeps the rules of groups.
fn first(group: Group) -> Option<Groups>
    ensures { result ≡ extended [] group }
{
    let Group { addresses, workers } = group;
    if addresses == 0 || addresses > MOST_LISTENERS as u32 || workers > WORKER_LIMIT {
        return None;
    }
    Some(Groups::one(addresses, workers))
}

/// The groups with one more behind them, where it keeps the rules of groups.
pub(crate) fn extended(groups: Option<Groups>, group: Group) -> Option<Groups>
    ensures { result ≡ extended (groups_in groups) group }
{
    let Some(mut groups) = groups else {
        return first(group);
    };
    match groups.add(group) {
        Ok(()) => Some(groups),
        Err(_) => None,
    }
}

/// Whether a group of so many workers can begin behind the groups: its line passes no limit.
pub(crate) fn can_begin(groups: Option<Groups>, workers: u32) -> bool
    ensures { result ≡ can_begin (groups_in groups) workers }
{
    match groups {
        None => workers <= WORKER_LIMIT,
        Some(groups) => {
            groups.as_slice().len() < MOST_GROUPS && workers <= WORKER_LIMIT - groups.workers()
        }
    }
}
