//! What an edge knows.
use child_workers::Worker;
use master_listeners::Listeners;

/// A child that is a master.
#[derive(Clone, Copy, Debug)]
pub struct ChildMaster {
    pub image: u32,
    /// Its number in the family.
    pub id: u32,
}

/// What an edge knows.
#[derive(Drop)]
pub struct EdgeState {
    /// The image whose calls it makes itself.
    pub image: u32,
    /// Its own process number.
    pub pid: u32,
    /// Where it listens.
    pub listeners: Listeners,
    /// Its workers, upwards in number, and those of one number by their start.
    pub workers: Vec<Worker>,
    /// How many starts of workers there were, failed ones too.
    pub starts: u32,
    /// The master that it started.
    pub child: Option<ChildMaster>,
    /// Whether it took over from an older master.
    pub adopted: bool,
    /// Whether its own master has left.
    pub left: bool,
    /// The text of the handover.
    pub text: Vec<u8>,
}
