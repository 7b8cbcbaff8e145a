//! The plan of an upgrade.
ghost use Rattle.std.specs.Prelude.{◌≡◌, ◌≤◌, ◌↔◌, List, length, IfOk, IsErrOf, IsOkUnless, IsTrue};
ghost use Rattle.vocabulary.specs.declared.targets.Target.TheVariants as target;
ghost use Rattle.service_state.specs.Targets.{lacks_generation};
ghost use Rattle.definitions.specs.Master.{handover_for, sides_of, upgrade_generation};
ghost use Rattle.definitions.specs.Plans.{Turn, plan_tree};
ghost use Rattle.call_laws.specs.Lengths.{plan_length};
ghost use Rattle.handover_text.specs.Reading.{Hands};
ghost use Rattle.rollback_plan.specs.Plans.{tree_under, length_of, note_of, sides_told, text_of, trees_in};
ghost use Rattle.reload_planner.specs.Planning.{most_steps};
ghost use Rattle.upgrade_planner.specs.Trees.{asked_for};

use crate::drawing::add_upgrade;
use crate::upgrade::{Staff, Upgrade};
use handover_text::{Handover, write};
use listener_set::{Generation, Numbers};
use plan_pieces::listed;
use reload_planner::PlanRefusal;
use rollback_plan::{Draft, Plan};
use service_state::{Record, next_image};
use std::alloc::{AllocError, Global};
use vocabulary::{Settings, Target};
use worker_groups::Crew;

/// The most steps of an upgrade that are of no one worker: two settles and the old master's part, each of 8 rounds, an
/// open or a close of each of two times 64 addresses, and those of the masters and of the pid file.
const MOST_OTHERS: usize = 3 * (1 + 4 * 8) + 2 * 64 + 16;

/// The text that the new master is handed.
fn handed(
    alloc: Global,
    state: &Record,
    settings: &Settings,
    generation: Generation,
) -> Result<Vec<u8>, AllocError>
    requires { generation ≡ upgrade_generation state.now.generation }
    ensures { IfOk result (λ text. Hands text.items (handover_for state.now (target.Upgrade settings.now))) }
{
    let handover = Handover {
        old_pid: state.pid,
        generation,
        listeners: state.listeners,
        want: settings.listeners,
        groups: settings.groups,
        pid_file: state.pid_path,
    };
    write(alloc, &handover)
}

/// The target that is planned.
fn asked_for(settings: &Settings, attended: bool) -> Target
    ensures { result ≡ asked_for attended settings.now }
{
    if attended {
        Target::Attended(*settings)
    } else {
        Target::Upgrade(*settings)
    }
}

/// The plan of an upgrade to the next generation.
fn plan_to(
    alloc: Global,
    state: &Record,
    settings: &Settings,
    attended: bool,
    generation: Generation,
) -> Result<Plan, PlanRefusal>
    requires { generation ≡ upgrade_generation state.now.generation }
    ensures tree { IfOk result (λ plan. (turns : List Turn) → tree_under plan turns ≡ plan_tree state.now (asked_for attended settings.now) turns) }
    ensures longest { IfOk result (λ plan. length_of plan ≡ plan_length state.now (asked_for attended settings.now)) }
    ensures note { IfOk result (λ plan. note_of plan ≡ state.now.note) }
    ensures sides { IfOk result (λ plan. sides_told plan ≡ sides_of state.now (asked_for attended settings.now)) }
    ensures text { IfOk result (λ plan. Hands (text_of plan) (handover_for state.now (asked_for attended settings.now))) }
    ensures few { IfOk result (λ plan. length (trees_in plan) ≤ most_steps state.now (asked_for attended settings.now)) }
    ensures memory { IsOkUnless result PlanRefusal.Memory }
{
    let target = asked_for(settings, attended);
    let posts = state.posts_wanted(&target);
    let leaving = listed(alloc, &state.ready)?;
    let wanted = Numbers::below(settings.workers);
    let coming = listed(alloc, &wanted)?;
    let listening = state.listeners.addresses();
    let dropped = listening.only_in(&settings.listeners);
    let added = settings.listeners.only_in(&listening);
    let upgrade = Upgrade {
        attended,
        old: Staff {
            crew: state.crew(),
            numbers: state.ready,
        },
        leaving: &leaving,
        new: Staff {
            crew: Crew { generation, posts },
            numbers: wanted,
        },
        coming: &coming,
        workers: settings.workers,
        rounds: state.retries,
        path: state.pid_path,
        note: state.note,
        dropped: dropped.as_slice(),
        added: added.as_slice(),
    };
    let mut draft = Draft::with_room(alloc, 9 * leaving.len() + 2 * coming.len() + MOST_OTHERS)?;
    let drawn = add_upgrade(&mut draft, &upgrade)?;
    let text = handed(alloc, state, settings, generation)?;
    let sides = state.sides(&target);
    Ok(draft.finish_in_parts(drawn.first, &drawn.parts, state.note, &sides, text)?)
}

/// The plan of an upgrade, attended or not, where there is a next generation.
fn plan_next(
    alloc: Global,
    state: &Record,
    settings: &Settings,
    attended: bool,
) -> Result<Plan, PlanRefusal>
    ensures tree { IfOk result (λ plan. (turns : List Turn) → tree_under plan turns ≡ plan_tree state.now (asked_for attended settings.now) turns) }
    ensures longest { IfOk result (λ plan. length_of plan ≡ plan_length state.now (asked_for attended settings.now)) }
    ensures note { IfOk result (λ plan. note_of plan ≡ state.now.note) }
    ensures sides { IfOk result (λ plan. sides_told plan ≡ sides_of state.now (asked_for attended settings.now)) }
    ensures text { IfOk result (λ plan. Hands (text_of plan) (handover_for state.now (asked_for attended settings.now))) }
    ensures few { IfOk result (λ plan. length (trees_in plan) ≤ most_steps state.now (asked_for attended settings.now)) }
    ensures numbered { IsErrOf result PlanRefusal.NoGeneration ↔ IsTrue (lacks_generation state.now (asked_for attended settings.now)) }
    ensures not_large { IsErrOf result PlanRefusal.TooLarge → ⊥ }
    ensures planned_here { IsErrOf result PlanRefusal.Unplanned → ⊥ }
{
    match next_image(state.generation) {
        None => Err(PlanRefusal::NoGeneration),
        Some(generation) => plan_to(alloc, state, settings, attended, generation),
    }
}

/// Plans an upgrade of a running master to a new executable with these settings: what both masters do, and what they do
/// instead where a call fails or the new master is gone. The plan's text is what the new master is handed.
///
/// `NoGeneration` (P3) exactly where the number of the image or of the configuration is 4,294,967,295; it is found
/// before any memory is asked for. No plan is too large: its steps are bounded as those of the other targets are.
pub fn plan(alloc: Global, state: &Record, settings: &Settings) -> Result<Plan, PlanRefusal>
    ensures tree { IfOk result (λ plan. (turns : List Turn) → tree_under plan turns ≡ plan_tree state.now (target.Upgrade settings.now) turns) }
    ensures longest { IfOk result (λ plan. length_of plan ≡ plan_length state.now (target.Upgrade settings.now)) }
    ensures note { IfOk result (λ plan. note_of plan ≡ state.now.note) }
    ensures sides { IfOk result (λ plan. sides_told plan ≡ sides_of state.now (target.Upgrade settings.now)) }
    ensures text { IfOk result (λ plan. Hands (text_of plan) (handover_for state.now (target.Upgrade settings.now))) }
    ensures few { IfOk result (λ plan. length (trees_in plan) ≤ most_steps state.now (target.Upgrade settings.now)) }
    ensures numbered { IsErrOf result PlanRefusal.NoGeneration ↔ IsTrue (lacks_generation state.now (target.Upgrade settings.now)) }
    ensures not_large { IsErrOf result PlanRefusal.TooLarge → ⊥ }
    ensures planned_here { IsErrOf result PlanRefusal.Unplanned → ⊥ }
{
    plan_next(alloc, state, settings, false)
}

/// Plans the same upgrade with two questions to the operator, whether to go on or back: one once the new master's workers
/// are ready, before the old ones quit, and one once those are gone, before the old master leaves. On the way back from the
/// second the old workers are started again before the new master ends. The refusals are those of `plan`.
pub fn plan_attended(
    alloc: Global,
    state: &Record,
    settings: &Settings,
) -> Result<Plan, PlanRefusal>
    ensures tree { IfOk result (λ plan. (turns : List Turn) → tree_under plan turns ≡ plan_tree state.now (target.Attended settings.now) turns) }
    ensures longest { IfOk result (λ plan. length_of plan ≡ plan_length state.now (target.Attended settings.now)) }
    ensures note { IfOk result (λ plan. note_of plan ≡ state.now.note) }
    ensures sides { IfOk result (λ plan. sides_told plan ≡ sides_of state.now (target.Attended settings.now)) }
    ensures text { IfOk result (λ plan. Hands (text_of plan) (handover_for state.now (target.Attended settings.now))) }
    ensures few { IfOk result (λ plan. length (trees_in plan) ≤ most_steps state.now (target.Attended settings.now)) }
    ensures numbered { IsErrOf result PlanRefusal.NoGeneration ↔ IsTrue (lacks_generation state.now (target.Attended settings.now)) }
    ensures not_large { IsErrOf result PlanRefusal.TooLarge → ⊥ }
    ensures planned_here { IsErrOf result PlanRefusal.Unplanned → ⊥ }
{
    plan_next(alloc, state, settings, true)
}
