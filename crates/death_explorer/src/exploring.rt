//! The deaths in the runs of a target.
ghost use Rattle.std.specs.Prelude.{◌≡◌, ◌⊎◌, ◌≤◌, ◌∷◌, [], length, IfOk, IfErr, OnOk};
ghost use Rattle.handover_text.specs.Reading.{handed_by};
ghost use Rattle.definitions.specs.Claims.{is_leave_call};
ghost use Rattle.call_laws.specs.Pieces.{executing_at};
ghost use Rattle.plan_executor.specs.Naming.{listed};
ghost use Rattle.plan_executor.specs.declared.enactment.EnactRefusal.{EnactRefusal as Refusal};
ghost use Rattle.service_state.specs.Targets.{IsTarget};
ghost use Rattle.death_explorer.specs.Deaths.{left_by, deaths_at, deaths_met, deaths_of, deaths_by, counted, counted_all};
ghost use Rattle.death_explorer.specs.Survived.{IsRefusedQuiet, IsSurvived};

use crate::counts::{Death, DeathCounts};
use crate::leftovers::{are_held, copied, fewest_left, has_room, left_by};
use kernel_model::{Kernel, Moment, Pattern, Section, Turns};
use plan_executor::{EnactRefusal, enact, executing_after, heir_of, plan_of};
use plan_walk::Transcript;
use service_state::Record;
use std::alloc::{AllocError, Global};
use vocabulary::{Call, Settings, Target};

/// What is explored: the deaths in the runs of a target, from a kernel and what its master knows of itself, by each of these
/// orders of turns; and the settings that a master is started with then, on the sockets that somebody else was lent before.
#[derive(Clone, Copy)]
pub struct DeathSearch<'a> {
    pub kernel: &'a Kernel,
    pub state: &'a Record,
    pub target: &'a Target,
    pub orders: &'a [Turns],
    pub settings: &'a Settings,
}

/// The master that executes a plan, and the one that has yet to take over.
#[derive(Clone, Copy)]
struct Masters {
    executing: Option<u32>,
    heir: Option<u32>,
}

/// What a master is started with after a death: the settings, and the record whose master's sockets somebody else was lent.
#[derive(Clone, Copy)]
struct Restart<'a> {
    state: &'a Record,
    settings: &'a Settings,
}

/// A call of a run: the place of its order, and its number.
#[derive(Clone, Copy)]
struct CallPlace {
    order: usize,
    number: u32,
}

/// A run in which nothing goes wrong: the place of its order, the text that its calls are handed, its calls, and its masters
/// at first.
#[derive(Clone, Copy)]
struct QuietRun<'a> {
    order: usize,
    text: &'a [u8],
    log: &'a Transcript,
    image: u32,
    heir: Option<u32>,
}

fn is_leave(call: &Call) -> bool
    ensures { result ≡ is_leave_call call.now }
{
    matches!(call, Call::Leave)
}

/// Counts a death: the master of the image exits in this table, and another one is started on what is left.
fn count_death(
    restart: &Restart<'_>,
    kernel: &Kernel,
    death: Death,
    counts: &mut DeathCounts,
) -> Result<(), AllocError>
    ensures { OnOk result (counts.new ≡ counted restart.now.state.now restart.now.settings.now (left_by kernel.now.table death) counts.old) }
{
    let left = left_by(kernel, death.image)?;
    let settings = restart.settings;
    let addresses = settings.listeners.as_slice();
    counts.add_end(
        death,
        are_held(restart.state, addresses),
        has_room(&left, settings),
    )?;
    counts.add_least(death, fewest_left(&left, addresses));
    Ok(())
}

/// Counts the death of the master of an image, where there is one.
fn count_image(
    restart: &Restart<'_>,
    kernel: &Kernel,
    image: Option<u32>,
    place: CallPlace,
    counts: &mut DeathCounts,
) -> Result<(), AllocError>
    ensures { OnOk result (counts.new ≡ counted_all restart.now.state.now restart.now.settings.now (deaths_at place.order place.number kernel.now.table (listed image)) counts.old) }
{
    let Some(image) = image else {
        return Ok(());
    };
    let death = Death {
        order: place.order,
        number: place.number,
        image,
    };
    count_death(restart, kernel, death, counts)
}

/// Counts the deaths of the masters that execute at a call.
fn count_call(
    restart: &Restart<'_>,
    kernel: &Kernel,
    call: &Call,
    masters: Masters,
    place: CallPlace,
    counts: &mut DeathCounts,
) -> Result<(), AllocError>
    ensures { OnOk result (counts.new ≡ counted_all restart.now.state.now restart.now.settings.now (deaths_at place.order place.number kernel.now.table (executing_at call.now (listed masters.executing) (listed masters.heir))) counts.old) }
{
    count_image(restart, kernel, masters.executing, place, counts)?;
    if !is_leave(call) {
        return Ok(());
    }
    count_image(restart, kernel, masters.heir, place, counts)
}

/// Makes the calls of a run on a kernel, and counts the deaths of the masters that execute at each.
fn count_run(
    restart: &Restart<'_>,
    run: &QuietRun<'_>,
    kernel: &mut Kernel,
    counts: &mut DeathCounts,
) -> Result<(), AllocError>
    requires { length run.now.log.now.entries ≤ kernel.old.room }
    ensures { OnOk result (counts.new ≡ counted_all restart.now.state.now restart.now.settings.now (deaths_met (handed_by run.now.text.now) run.now.order (run.now.image ∷ []) (listed run.now.heir) 0 kernel.old.table run.now.log.now.entries) counts.old) }
{
    let heir = run.heir;
    let mut executing = Some(run.image);
    for number in 0..run.log.len() {
        let entry = run.log.get(number);
        let place = CallPlace {
            order: run.order,
            number: number as u32 + 1,
        };
        count_call(
            restart,
            kernel,
            &entry.call,
            Masters { executing, heir },
            place,
            counts,
        )?;
        let quiet = Moment {
            exits: &[],
            fate: None,
        };
        kernel.call(entry.by, &entry.call, run.text, &quiet);
        executing = executing_after(&entry.call, executing, heir);
    }
    Ok(())
}

/// A section with these turns in which nothing goes wrong.
fn quiet_section(alloc: Global, turns: &Turns) -> Result<Section, AllocError>
    ensures { IfOk result (λ section. section ≡ record { pattern = []; turns = turns.now }) }
{
    let mut copy = Turns::new(alloc);
    for place in 0..turns.len() {
        let Some(turn) = turns.get(place) else {
            return Err(AllocError);
        };
        copy.add(turn)?;
    }
    Ok(Section {
        pattern: Pattern::new(alloc),
        turns: copy,
    })
}

/// Counts the deaths in the run of an order.
fn explore_order(
    alloc: Global,
    search: &DeathSearch<'_>,
    order: usize,
    turns: &Turns,
    counts: &mut DeathCounts,
) -> Result<(), EnactRefusal>
    requires { IsTarget search.now.target.now }
    ensures counted { OnOk result (counts.new ≡ counted_all search.now.state.now search.now.settings.now (deaths_of search.now.state.now search.now.target.now order turns.now search.now.kernel.now.table) counts.old) }
    ensures refused { IfErr result (IsRefusedQuiet search.now) }
{
    let state = search.state;
    let section = quiet_section(alloc, turns)?;
    let mut enacting = copied(search.kernel, 0)?;
    let enacted = enact(alloc, &mut enacting, state, search.target, &section)?;
    let plan = plan_of(alloc, state, search.target)?;
    let mut kernel = copied(search.kernel, enacted.log.len() as u32)?;
    let run = QuietRun {
        order,
        text: plan.text(),
        log: &enacted.log,
        image: state.generation.image,
        heir: heir_of(state, search.target),
    };
    let restart = Restart {
        state,
        settings: search.settings,
    };
    count_run(&restart, &run, &mut kernel, counts)?;
    Ok(())
}

/// Counts the deaths in the runs of a target by these orders: at each call of each run, of each master that executes there,
/// what a master comes to that is started with the settings on what is left.
///
/// Somebody else's process was lent the sockets of the record's master before. Where it has each address of the settings so,
/// a master that is started takes over, whoever has died when, and one quiet tick heals if there is room for its workers.
/// A target is refused where `enact` refuses it though nothing goes wrong; what was counted until then stays.
pub fn explore_deaths(
    alloc: Global,
    search: &DeathSearch<'_>,
    counts: &mut DeathCounts,
) -> Result<(), EnactRefusal>
    requires { IsTarget search.now.target.now }
    ensures counted { OnOk result (counts.new ≡ counted_all search.now.state.now search.now.settings.now (deaths_by search.now.state.now search.now.target.now 0 search.now.orders.now search.now.kernel.now.table) counts.old) }
    ensures survived { IsSurvived search.now.settings.now search.now.kernel.now.table search.now.state.now search.now.target.now }
    ensures refused { IfErr result (IsRefusedQuiet search.now) }
{
    let orders = search.orders;
    for (order, turns) in orders.iter().enumerate() {
        explore_order(alloc, search, order, turns, counts)?;
    }
    Ok(())
}
