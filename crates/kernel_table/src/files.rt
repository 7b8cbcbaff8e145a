//! Files and the process numbers in them.
ghost use Rattle.std.specs.Prelude.{◌≡◌, ◌+◌, ◌<◌, ◌≤◌, length, map, is_some, bytes_eq, vec_len, vec_capacity};
ghost use Rattle.definitions.specs.Table.{owner_at};
ghost use Rattle.definitions.specs.Calls.{with_file, without_file};
ghost use Rattle.kernel_table.specs.Seen.{seen_file};
ghost use Rattle.kernel_table.specs.Files.{rewritten};

use crate::FileRow;
use listener_set::FilePath;

/// The process number that the file at a path holds.
pub fn owner_at(files: &[FileRow], path: &FilePath) -> Option<u32>
    ensures { result ≡ owner_at path.now (map seen_file files.now) }
{
    for file in files {
        if is_at(file, path) {
            return Some(file.owner);
        }
    }
    None
}

fn is_at(file: &FileRow, path: &FilePath) -> bool
    ensures { result ≡ bytes_eq file.now.path path.now }
{
    file.path == *path
}

/// Gives the file at the path the owner; whether it was there.
fn rewrite(files: &mut [FileRow], path: &FilePath, owner: u32) -> bool
    ensures there { result ≡ is_some (owner_at path.now (map seen_file files.old)) }
    ensures rows { map seen_file files.new ≡ rewritten path.now owner (map seen_file files.old) }
    ensures len { length files.new ≡ length files.old }
{
    let found = files.iter().position(|file| is_at(file, path));
    if let Some(place) = found {
        files[place] = FileRow { path: *path, owner };
        return true;
    }
    false
}

/// The file at the path has the owner from then on.
pub fn write(files: &mut Vec<FileRow>, path: &FilePath, owner: u32)
    requires { vec_len files.old < vec_capacity files.old }
    ensures rows { map seen_file files.new.items ≡ with_file path.now owner (map seen_file files.old.items) }
    ensures len { vec_len files.new ≤ vec_len files.old + 1 }
    ensures capacity { vec_capacity files.old ≤ vec_capacity files.new }
{
    if !rewrite(files, path, owner) {
        files.push(FileRow { path: *path, owner }).unwrap();
    }
}

/// There is no file at the path from then on.
pub fn remove(files: &mut Vec<FileRow>, path: &FilePath)
    ensures rows { map seen_file files.new.items ≡ without_file path.now (map seen_file files.old.items) }
    ensures len { vec_len files.new ≤ vec_len files.old }
    ensures capacity { vec_capacity files.new ≡ vec_capacity files.old }
{
    files.retain(|file| !is_at(file, path));
}
