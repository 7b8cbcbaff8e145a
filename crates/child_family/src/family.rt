//! What a family of children can be asked, and what it tells of that.
ghost use Rattle.std.specs.Prelude.{List, Option, None};
ghost use Rattle.child_family.specs.Told.{Told, Tells, heard_of, started_child, said, heard, stopped_child, awaited_child, wrote_file, renamed_file, removed_file};

use crate::role::{Heard, Role, StartFault};
use listener_set::FilePath;
use plain_text::Line;

/// Children, by the numbers that `start` gave them, and the files of their master.
///
/// A family may tell its calls, as one in memory does; the processes of the system tell none.
pub trait Family {
    /// The calls that were made, the oldest first, where the family tells them.
    ghost told: { Self → Option (List Told) } = { λ _. None };

    /// Starts a child, and gives its number: one that no child of this family has then. The number of a child that was
    /// waited for may come again.
    fn start(&mut self, role: &Role) -> Result<u32, StartFault>
        ensures { Tells (told self.old) (told self.new) (started_child role.now result) };

    /// Says a line, without its newline, to a child; false where it could not be said.
    fn say(&mut self, id: u32, line: &[u8]) -> bool
        ensures { Tells (told self.old) (told self.new) (said id line.now result) };

    /// Hears the next line of a child, and waits for it.
    fn hear(&mut self, id: u32, line: &mut Line) -> Heard
        ensures { Tells (told self.old) (told self.new) (heard id (heard_of result line.new)) };

    /// Stops a child at once, and waits for its end.
    fn stop(&mut self, id: u32)
        ensures { Tells (told self.old) (told self.new) (stopped_child id) };

    /// Waits for the end of a child; false where it could not be waited for.
    fn gone(&mut self, id: u32) -> bool
        ensures { Tells (told self.old) (told self.new) (awaited_child id result) };

    /// Writes a file as a whole; false where it could not be written.
    fn write_file(&mut self, path: &FilePath, contents: &[u8]) -> bool
        ensures { Tells (told self.old) (told self.new) (wrote_file path.now contents.now result) };

    /// Renames a file; false where it could not be renamed.
    fn rename_file(&mut self, from: &FilePath, to: &FilePath) -> bool
        ensures { Tells (told self.old) (told self.new) (renamed_file from.now to.now result) };

    /// Removes a file; false where it could not be removed.
    fn remove_file(&mut self, path: &FilePath) -> bool
        ensures { Tells (told self.old) (told self.new) (removed_file path.now result) };
}
