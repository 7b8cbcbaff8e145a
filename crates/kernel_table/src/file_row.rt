//! Files with a process number in them.
use listener_set::FilePath;

/// A file with a process number in it.
#[derive(Clone, Copy, Debug)]
pub struct FileRow {
    pub path: FilePath,
    pub owner: u32,
}
