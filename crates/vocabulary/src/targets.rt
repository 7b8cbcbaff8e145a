//! What a master is asked to become.
use crate::Settings;
use listener_set::Numbers;

/// What a master is asked to become.
#[derive(Clone, Copy, Debug)]
pub enum Target {
    /// So many workers, at most 1024.
    Workers(u32),
    /// All wanted workers, those of these numbers, which are overdue, started anew.
    Mend(Numbers),
    /// The service as it is, with each worker told to reopen its logs.
    Reopen,
    /// The service of these settings, by new workers of this master.
    Reload(Settings),
    /// The service of these settings, by a new master and its workers.
    Upgrade(Settings),
    /// The same, but the operator is asked twice: before the old workers quit, and once they are gone.
    Attended(Settings),
    /// No service. Requests in progress are finished first unless it is quick.
    Stop { quick: bool },
}
