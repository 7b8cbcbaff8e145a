//! Execution of a plan.
ghost use Rattle.std.specs.Prelude.{◌≡◌, ◌+◌, ◌≤◌, [], length};
ghost use Rattle.plan_walk.specs.Path.{KeepsPathLaw};
ghost use Rattle.rollback_plan.specs.Plans.{tree_under, length_of, note_of, sides_told};

use crate::{Calls, Course, Transcript, Turns};
use rollback_plan::Plan;
use vocabulary::{Entry, Report};

/// Makes the calls of a plan one after another, as their answers lead, and writes them down. Where both masters have a
/// part, they take turns as the list says, and after its end the new master goes on first.
///
/// It takes no memory of its own, and makes at most as many calls as the plan's longest path
/// has steps. The entries are a whole path of the plan and the report is theirs; or the plan has
/// no way on where a master is gone, and the report says Lost.
pub fn execute<C: Calls>(plan: &Plan, calls: &mut C, turns: &Turns, log: &mut Transcript) -> Report
    requires calls { length_of plan.now ≤ C.room calls.old }
    requires room { length_of plan.now ≤ log.old.room }
    requires empty { log.old.entries ≡ [] }
    ensures path_law { KeepsPathLaw (tree_under plan.now turns.now) (note_of plan.now) (sides_told plan.now) log.new.entries result }
    ensures follows { C.follows calls.old log.new.entries calls.new }
    ensures longest { length log.new.entries ≤ length_of plan.now }
    ensures room_left { C.room calls.old ≤ C.room calls.new + length log.new.entries }
{
    let mut course = Course::new(plan, turns);
    while let Some(due) = course.due() {
        let answer = calls.make(due.by, &due.call);
        let entry = Entry {
            by: due.by,
            call: due.call,
            answer,
        };
        log.push(&entry);
        course = course.after(&entry);
    }
    course.report()
}
