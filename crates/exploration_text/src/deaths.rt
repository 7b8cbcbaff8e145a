//! What starts after deaths come to, counted.
ghost use Rattle.std.specs.Prelude.{◌≡◌, ◌++◌, IfOk};
ghost use Rattle.exploration_text.specs.DeathsText.{run_of_death, first_run, ends_of_deaths, least_of_deaths, least_left, healed_text, lost_text, deaths_text};

use crate::summary::{write_end, write_least};
use death_explorer::{Death, DeathCounts, Deaths, LeastLeft};
use explorer::{Event, Least, Mishap, Tried};
use order_explorer::{Ends, OrderedLeast, OrderedRun};
use plan_turns::Turns;
use std::alloc::AllocError;
use vocabulary::Name;

/// The run in which the master exits.
fn run_of_death(death: &Death) -> OrderedRun
    ensures { result ≡ run_of_death death.now }
{
    let event = Event {
        number: death.number,
        mishap: Mishap::Exit(Name::Master(death.image), 0),
    };
    OrderedRun {
        order: death.order,
        tried: Tried::One(event),
    }
}

fn first_run(first: &Option<Death>) -> Option<OrderedRun>
    ensures { result ≡ first_run first.now }
{
    match first {
        Some(death) => Some(run_of_death(death)),
        None => None,
    }
}

fn ends_of_deaths(deaths: &Deaths) -> Ends
    ensures { result ≡ ends_of_deaths deaths.now }
{
    Ends {
        count: deaths.count,
        shortest: first_run(&deaths.first),
    }
}

/// The fewest Ready workers after a death, which are counted after the calls before it.
fn least_left(found: &LeastLeft) -> OrderedLeast
    ensures { result ≡ least_left found.now }
{
    let run = run_of_death(&found.death);
    OrderedLeast {
        order: run.order,
        least: Least {
            ready: found.ready,
            address: found.address,
            tried: run.tried,
            made: found.death.number.saturating_sub(1),
        },
    }
}

fn least_of_deaths(found: &Option<LeastLeft>) -> Option<OrderedLeast>
    ensures { result ≡ least_of_deaths found.now }
{
    match found {
        Some(found) => Some(least_left(found)),
        None => None,
    }
}

/// The deaths after which a start heals.
#[tactic(auto, unfolding(crate::specs::DeathsText::healed_text))]
fn write_healed(out: &mut Vec<u8>, orders: &[Turns], counts: &DeathCounts) -> Result<(), AllocError>
    ensures { IfOk result (λ _. out.new.items ≡ out.old.items ++ healed_text orders.now counts.now) }
{
    write_end(out, orders, b"healed", &ends_of_deaths(&counts.healed))
}

/// Those after which it does not.
#[tactic(auto, unfolding(crate::specs::DeathsText::lost_text))]
fn write_lost(out: &mut Vec<u8>, orders: &[Turns], counts: &DeathCounts) -> Result<(), AllocError>
    ensures { IfOk result (λ _. out.new.items ≡ out.old.items ++ lost_text orders.now counts.now) }
{
    write_end(out, orders, b"short", &ends_of_deaths(&counts.short))?;
    write_end(out, orders, b"closed", &ends_of_deaths(&counts.closed))
}

/// Appends what starts after the deaths in the runs of these orders come to: a line for each end, and one for the fewest
/// workers that an address had before a start. It fails only where memory is refused.
pub fn write_deaths(
    out: &mut Vec<u8>,
    orders: &[Turns],
    counts: &DeathCounts,
) -> Result<(), AllocError>
    ensures { IfOk result (λ _. out.new.items ≡ out.old.items ++ deaths_text orders.now counts.now) }
{
    write_healed(out, orders, counts)?;
    write_lost(out, orders, counts)?;
    write_least(out, orders, least_of_deaths(&counts.least))
}
