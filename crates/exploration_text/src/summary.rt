//! What runs ended in, counted.
ghost use Rattle.std.specs.Prelude.{◌≡◌, ◌≢◌, ◌++◌, [], codes, IfOk};
ghost use Rattle.exploration_text.specs.SummaryText.{tried_text, order_text, section_text, run_section, under_text, run_of_least, shortest_text, count_text, end_line, shortfall_line, full_text, degraded_text, ends_text, place_text, ready_text, least_line, run_of_most, living_text, call_text, most_line, extremes_text, tables_line, cut_text, summary_text};

use crate::events::write_event;
use explorer::{Least, Tried};
use order_explorer::{Ends, OrderedLeast, OrderedMost, OrderedRun, Totals};
use pattern_text::write_turns;
use plain_text::write_number;
use plan_turns::Turns;
use std::alloc::AllocError;

/// What parts the lines of a section that are on one line.
fn write_comma(out: &mut Vec<u8>) -> Result<(), AllocError>
    ensures { IfOk result (λ _. out.new.items ≡ out.old.items ++ codes ", ") }
{
    out.extend_from_slice(b", ")
}

/// The events of a run, on one line.
fn write_tried(out: &mut Vec<u8>, tried: &Tried) -> Result<(), AllocError>
    ensures { IfOk result (λ _. out.new.items ≡ out.old.items ++ tried_text tried.now) }
{
    match tried {
        Tried::Nothing => out.extend_from_slice(b"no event"),
        Tried::One(event) => write_event(out, event),
        Tried::Two(first, second) => {
            write_event(out, first)?;
            write_comma(out)?;
            write_event(out, second)
        }
    }
}

/// The turns of an order, which has some: their line without its newline.
#[tactic(auto, using(crate::proofs::Sections::turns_line))]
fn write_order(out: &mut Vec<u8>, turns: &Turns) -> Result<(), AllocError>
    requires { turns.now ≢ [] }
    ensures { IfOk result (λ _. out.new.items ≡ out.old.items ++ order_text turns.now) }
{
    write_turns(out, turns)?;
    let _newline = out.pop();
    Ok(())
}

/// The section of a run, on one line: its turns, where there are any, and its events.
#[tactic(auto, using(crate::proofs::Sections::without_turns, crate::proofs::Sections::turns_alone, crate::proofs::Sections::turns_with_one, crate::proofs::Sections::turns_with_two))]
fn write_section(out: &mut Vec<u8>, turns: &Turns, tried: &Tried) -> Result<(), AllocError>
    ensures { IfOk result (λ _. out.new.items ≡ out.old.items ++ section_text turns.now tried.now) }
{
    if turns.is_empty() {
        return write_tried(out, tried);
    }
    write_order(out, turns)?;
    match tried {
        Tried::Nothing => Ok(()),
        Tried::One(_) | Tried::Two(..) => {
            write_comma(out)?;
            write_tried(out, tried)
        }
    }
}

/// The section of a run, by the turns of its order.
#[tactic(auto, using(crate::proofs::Sections::section_of_order, crate::proofs::Sections::section_of_none))]
fn write_run_of(out: &mut Vec<u8>, orders: &[Turns], run: &OrderedRun) -> Result<(), AllocError>
    ensures { IfOk result (λ _. out.new.items ≡ out.old.items ++ run_section orders.now run.now) }
{
    match orders.get(run.order) {
        Some(turns) => write_section(out, turns, &run.tried),
        None => write_tried(out, &run.tried),
    }
}

/// In which run something is so.
#[tactic(auto, unfolding(crate::specs::SummaryText::under_text))]
fn write_under(out: &mut Vec<u8>, orders: &[Turns], run: &OrderedRun) -> Result<(), AllocError>
    ensures { IfOk result (λ _. out.new.items ≡ out.old.items ++ under_text orders.now run.now) }
{
    out.extend_from_slice(b" under ")?;
    write_run_of(out, orders, run)
}

fn write_shortest(
    out: &mut Vec<u8>,
    orders: &[Turns],
    shortest: Option<OrderedRun>,
) -> Result<(), AllocError>
    ensures { IfOk result (λ _. out.new.items ≡ out.old.items ++ shortest_text orders.now shortest) }
{
    match shortest {
        None => Ok(()),
        Some(run) => write_under(out, orders, &run),
    }
}

/// A number, after what it counts.
#[tactic(auto, unfolding(crate::specs::SummaryText::count_text))]
fn write_count(out: &mut Vec<u8>, name: &[u8], number: u64) -> Result<(), AllocError>
    ensures { IfOk result (λ _. out.new.items ≡ out.old.items ++ count_text name.now number) }
{
    out.extend_from_slice(name)?;
    out.extend_from_slice(b" ")?;
    write_number(out, number)
}

/// How many runs ended so, and in which of them fewest things went wrong.
#[tactic(auto, unfolding(crate::specs::SummaryText::end_line))]
pub(crate) fn write_end(
    out: &mut Vec<u8>,
    orders: &[Turns],
    name: &[u8],
    ends: &Ends,
) -> Result<(), AllocError>
    ensures { IfOk result (λ _. out.new.items ≡ out.old.items ++ end_line orders.now name.now ends.now) }
{
    write_count(out, name, ends.count)?;
    write_shortest(out, orders, ends.shortest)?;
    out.extend_from_slice(b"\n")
}

#[tactic(auto, unfolding(crate::specs::SummaryText::shortfall_line))]
fn write_shortfall(out: &mut Vec<u8>, shortfall: u64) -> Result<(), AllocError>
    ensures { IfOk result (λ _. out.new.items ≡ out.old.items ++ shortfall_line shortfall) }
{
    write_count(out, b"largest shortfall", shortfall)?;
    out.extend_from_slice(b"\n")
}

/// The runs after which all workers are there.
#[tactic(auto, unfolding(crate::specs::SummaryText::full_text))]
fn write_full(out: &mut Vec<u8>, orders: &[Turns], totals: &Totals) -> Result<(), AllocError>
    ensures { IfOk result (λ _. out.new.items ≡ out.old.items ++ full_text orders.now totals.now) }
{
    write_end(out, orders, b"done", &totals.done)?;
    write_end(out, orders, b"rolled-back", &totals.rolled_back)
}

/// Those after which some are lacking.
#[tactic(auto, unfolding(crate::specs::SummaryText::degraded_text))]
fn write_degraded(out: &mut Vec<u8>, orders: &[Turns], totals: &Totals) -> Result<(), AllocError>
    ensures { IfOk result (λ _. out.new.items ≡ out.old.items ++ degraded_text orders.now totals.now) }
{
    write_end(out, orders, b"degraded old", &totals.degraded_old)?;
    write_end(out, orders, b"degraded target", &totals.degraded_target)
}

#[tactic(auto, unfolding(crate::specs::SummaryText::ends_text))]
fn write_ends(out: &mut Vec<u8>, orders: &[Turns], totals: &Totals) -> Result<(), AllocError>
    ensures { IfOk result (λ _. out.new.items ≡ out.old.items ++ ends_text orders.now totals.now) }
{
    write_full(out, orders, totals)?;
    write_degraded(out, orders, totals)?;
    write_shortfall(out, totals.shortfall)
}

/// Which address had the fewest Ready workers, and after which call.
#[tactic(auto, unfolding(crate::specs::SummaryText::place_text))]
fn write_place(out: &mut Vec<u8>, least: &Least) -> Result<(), AllocError>
    ensures { IfOk result (λ _. out.new.items ≡ out.old.items ++ place_text least.now) }
{
    out.extend_from_slice(b" at ")?;
    out.extend_from_slice(least.address.bytes())?;
    write_count(out, b" after call", u64::from(least.made))
}

#[tactic(auto, unfolding(crate::specs::SummaryText::ready_text))]
fn write_ready(out: &mut Vec<u8>, ready: u32) -> Result<(), AllocError>
    ensures { IfOk result (λ _. out.new.items ≡ out.old.items ++ ready_text ready) }
{
    write_count(out, b"least ready", u64::from(ready))
}

/// The run of the fewest Ready workers.
fn run_of_least(found: &OrderedLeast) -> OrderedRun
    ensures { result ≡ run_of_least found.now }
{
    OrderedRun {
        order: found.order,
        tried: found.least.tried,
    }
}

/// The fewest Ready workers that an address had.
#[tactic(auto, unfolding(crate::specs::SummaryText::least_line))]
pub(crate) fn write_least(
    out: &mut Vec<u8>,
    orders: &[Turns],
    found: Option<OrderedLeast>,
) -> Result<(), AllocError>
    ensures { IfOk result (λ _. out.new.items ≡ out.old.items ++ least_line orders.now found) }
{
    let Some(found) = found else {
        return out.extend_from_slice(b"least ready none\n");
    };
    let run = run_of_least(&found);
    write_ready(out, found.least.ready)?;
    write_place(out, &found.least)?;
    write_under(out, orders, &run)?;
    out.extend_from_slice(b"\n")
}

/// The run in which most workers lived at once.
fn run_of_most(found: &OrderedMost) -> OrderedRun
    ensures { result ≡ run_of_most found.now }
{
    OrderedRun {
        order: found.order,
        tried: found.most.tried,
    }
}

#[tactic(auto, unfolding(crate::specs::SummaryText::living_text))]
fn write_living(out: &mut Vec<u8>, workers: u32) -> Result<(), AllocError>
    ensures { IfOk result (λ _. out.new.items ≡ out.old.items ++ living_text workers) }
{
    write_count(out, b"most workers", u64::from(workers))
}

#[tactic(auto, unfolding(crate::specs::SummaryText::call_text))]
fn write_call(out: &mut Vec<u8>, made: u32) -> Result<(), AllocError>
    ensures { IfOk result (λ _. out.new.items ≡ out.old.items ++ call_text made) }
{
    write_count(out, b" after call", u64::from(made))
}

/// The most workers that lived at once, after which call of which run.
#[tactic(auto, unfolding(crate::specs::SummaryText::most_line))]
fn write_most(
    out: &mut Vec<u8>,
    orders: &[Turns],
    found: Option<OrderedMost>,
) -> Result<(), AllocError>
    ensures { IfOk result (λ _. out.new.items ≡ out.old.items ++ most_line orders.now found) }
{
    let Some(most) = found else {
        return out.extend_from_slice(b"most workers none\n");
    };
    let at = run_of_most(&most);
    write_living(out, most.most.workers)?;
    write_call(out, most.most.made)?;
    write_under(out, orders, &at)?;
    out.extend_from_slice(b"\n")
}

/// The fewest Ready workers and the most that lived.
#[tactic(auto, unfolding(crate::specs::SummaryText::extremes_text))]
fn write_extremes(out: &mut Vec<u8>, orders: &[Turns], totals: &Totals) -> Result<(), AllocError>
    ensures { IfOk result (λ _. out.new.items ≡ out.old.items ++ extremes_text orders.now totals.now) }
{
    write_least(out, orders, totals.least)?;
    write_most(out, orders, totals.most)
}

#[tactic(auto, unfolding(crate::specs::SummaryText::tables_line))]
fn write_tables(out: &mut Vec<u8>, tables: u64) -> Result<(), AllocError>
    ensures { IfOk result (λ _. out.new.items ≡ out.old.items ++ tables_line tables) }
{
    write_count(out, b"tables", tables)?;
    out.extend_from_slice(b"\n")
}

fn write_cut(out: &mut Vec<u8>, is_cut: bool) -> Result<(), AllocError>
    ensures { IfOk result (λ _. out.new.items ≡ out.old.items ++ cut_text is_cut) }
{
    if is_cut {
        out.extend_from_slice(b"cut: there are more runs than the limit\n")?;
    }
    Ok(())
}

/// Appends what the runs of these orders ended in: a line for each kind of end, one for the largest shortfall, one for the fewest
/// workers that an address had, one for the most that lived at once, one for the number of tables, and one more where runs were
/// left out. It fails only where memory is refused.
pub fn write_summary(
    out: &mut Vec<u8>,
    orders: &[Turns],
    totals: &Totals,
    is_cut: bool,
) -> Result<(), AllocError>
    ensures { IfOk result (λ _. out.new.items ≡ out.old.items ++ summary_text orders.now totals.now is_cut) }
{
    write_ends(out, orders, totals)?;
    write_extremes(out, orders, totals)?;
    write_tables(out, totals.tables)?;
    write_cut(out, is_cut)
}
