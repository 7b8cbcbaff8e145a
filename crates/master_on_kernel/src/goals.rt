//! The settings that the words of a transcript go over to.
ghost use Rattle.std.specs.Prelude.{IfOk, OnOk};
ghost use Rattle.master_on_kernel.specs.Goals.{AreGoals};

use faults::Fault;
use master_config::settings_in;
use std::rt::Files;
use vocabulary::Settings;

/// The settings of all files but the first, which were read already: those come first.
pub fn read_goals<R: AllocGlobal + Files>(
    rt: &R,
    first: Settings,
    files: &[&str],
) -> Result<Vec<Settings>, Fault>
    ensures { IfOk result (λ goals. AreGoals first goals.items) }
{
    let mut goals = Vec::new(rt.alloc());
    goals.reserve(1)?;
    goals.push_reserved(first);
    for file in files.get(1..).unwrap_or(&[]) {
        add_goal(rt, first, &mut goals, file)?;
    }
    Ok(goals)
}

/// Adds the settings of a file.
fn add_goal<R: AllocGlobal + Files>(
    rt: &R,
    first: Settings,
    goals: &mut Vec<Settings>,
    file: &str,
) -> Result<(), Fault>
    ensures { OnOk result (AreGoals first goals.old.items → AreGoals first goals.new.items) }
{
    let settings = settings_in(rt, Some(file), first)?;
    goals.reserve(1)?;
    goals.push_reserved(settings);
    Ok(())
}
