//! The calls about pid files.
ghost use Rattle.std.specs.Prelude.{◌≡◌, IsTrue};
ghost use Rattle.call_replies.specs.Replies.{is_listed};
ghost use Rattle.vocabulary.specs.declared.calls.Call.TheVariants.{WritePid, MovePid, RemovePid};
ghost use Rattle.child_family.specs.Talk.{writes_file, renames_file, removes_file};
ghost use Rattle.child_family.specs.Lines.{pid_text};
ghost use Rattle.child_edge.specs.State.{state_of};
ghost use Rattle.child_edge.specs.Table.{answers, fine_or_fault};
ghost use Rattle.child_edge.specs.Turns.{GoesOn};

use crate::state::EdgeState;
use child_family::{Family, pid_text};
use listener_set::FilePath;
use vocabulary::Answer;

fn fine_or_fault(is_fine: bool) -> Answer
    ensures { result ≡ fine_or_fault is_fine }
{
    if is_fine {
        Answer::Fine
    } else {
        Answer::IoFault
    }
}

/// Writes the edge's process number to a file.
pub(crate) fn write_pid<F: Family>(family: &mut F, state: &EdgeState, path: &FilePath) -> Answer
    ensures turn { GoesOn (F.told family.old) (F.told family.new)
        (writes_file path.now (pid_text state.now.pid) (λ ok. answers (state_of state.now) (fine_or_fault ok))) (answers (state_of state.now) result) }
    ensures listed { IsTrue (is_listed (WritePid path.now) result) }
{
    let text = pid_text(state.pid);
    fine_or_fault(family.write_file(path, text.bytes()))
}

/// Renames a file.
pub(crate) fn move_pid<F: Family>(
    family: &mut F,
    state: &EdgeState,
    from: &FilePath,
    to: &FilePath,
) -> Answer
    ensures turn { GoesOn (F.told family.old) (F.told family.new)
        (renames_file from.now to.now (λ ok. answers (state_of state.now) (fine_or_fault ok))) (answers (state_of state.now) result) }
    ensures listed { IsTrue (is_listed (MovePid from.now to.now) result) }
{
    fine_or_fault(family.rename_file(from, to))
}

/// Removes a file.
pub(crate) fn remove_pid<F: Family>(family: &mut F, state: &EdgeState, path: &FilePath) -> Answer
    ensures turn { GoesOn (F.told family.old) (F.told family.new)
        (removes_file path.now (λ ok. answers (state_of state.now) (fine_or_fault ok))) (answers (state_of state.now) result) }
    ensures listed { IsTrue (is_listed (RemovePid path.now) result) }
{
    fine_or_fault(family.remove_file(path))
}
