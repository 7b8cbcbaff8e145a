//! `explore`: its runs, as they are listed and told.
ghost use Rattle.std.specs.Prelude.{◌≡◌, ◌↔◌, ◌-◌, Some, option_map, false, IfErr, OnOk};
ghost use Rattle.std.specs.Io.KnownBytes.{Appends};
ghost use Rattle.exploration_text.specs.RunText.{run_text};
ghost use Rattle.faults.specs.Faults.{IsOfFile};

use command_line::ExploreOptions;
use exploration_text::write_run;
use explorer::{Audience, Tried};
use faults::Fault;
use kernel_model::Turns;
use master_on_kernel::Explored;
use order_explorer::{ChosenOrders, OrderAudience, Totals};
use std::alloc::Global;
use std::io::Write;
use vocabulary::Report;

/// After how many runs it is told, where that is asked for, how many they are.
const TOLD_EACH: u64 = 10_000;

/// Who counts the runs that are left, and prints each where that is asked for.
#[derive(Drop)]
pub struct Listing<'a, O, E> {
    alloc: Global,
    output: &'a mut O,
    errors: &'a mut E,
    is_listing: bool,
    is_telling: bool,
    orders: &'a [Turns],
    order: usize,
    heard: u64,
    left: Option<u32>,
    fault: Option<Fault>,
}

impl<'a, O: Write, E: Write> Listing<'a, O, E> {
    /// Before the first run of the first of these orders.
    pub fn new(
        alloc: Global,
        output: &'a mut O,
        errors: &'a mut E,
        options: &ExploreOptions<'_>,
        orders: &'a [Turns],
    ) -> Self
        ensures limit { result.left ≡ options.now.limit }
        ensures list { result.is_listing ≡ options.now.list }
        ensures orders { result.orders.now ≡ orders.entry.now }
    {
        Listing {
            alloc,
            output,
            errors,
            is_listing: options.list,
            is_telling: options.progress,
            orders,
            order: 0,
            heard: 0,
            left: options.limit,
            fault: None,
        }
    }

    /// The write that failed, or the memory that was refused, while runs were printed.
    pub fn finish(self) -> Result<(), Fault> {
        match self.fault {
            Some(fault) => Err(fault),
            None => Ok(()),
        }
    }

    fn tell(&mut self) -> Result<(), Fault> {
        let line = format!(in self.alloc; "prefork: {} runs\n", self.heard)?;
        self.errors.write_all(line.as_bytes())?;
        self.errors.flush()?;
        Ok(())
    }
}

impl<O: Write, E: Write> Audience for Listing<'_, O, E> {
    fn wants_more(&self) -> bool
        ensures { (result ≡ false) ↔ (self.now.left ≡ Some 0) }
    {
        self.left != Some(0)
    }

    fn hear(&mut self, tried: &Tried, report: &Report) -> bool {
        self.left = after_one(self.left);
        self.heard = self.heard.saturating_add(1);
        if self.is_telling && self.heard % TOLD_EACH == 0 {
            // (who can't be told how far it is still gets the count)
            let _ = self.tell();
        }
        if !self.is_listing {
            return true;
        }
        let Some(turns) = self.orders.get(self.order) else {
            return true;
        };
        match list(self.alloc, &mut *self.output, turns, tried, report) {
            Ok(()) => true,
            Err(fault) => {
                self.fault = Some(fault);
                false
            }
        }
    }
}

impl<O: Write, E: Write> OrderAudience for Listing<'_, O, E> {
    fn begin_order(&mut self, order: usize)
        ensures { self.new.order ≡ order }
    {
        self.order = order;
    }
}

/// How many runs are left after one more, where there is a limit.
fn after_one(left: Option<u32>) -> Option<u32>
    ensures { result ≡ option_map (λ left. left - 1) left }
{
    match left {
        Some(left) => Some(left.saturating_sub(1)),
        None => None,
    }
}

/// Says how many orders there are, of how many calls of each master.
pub fn tell_orders<E: Write>(chosen: &ChosenOrders, errors: &mut E) {
    // (who can't be told how many there are still gets the counts)
    let _ = writeln!(
        errors,
        "prefork: orders {} old {} new {}",
        chosen.lists.len(),
        chosen.olds,
        chosen.news
    );
    let _ = errors.flush();
}

/// Says for people what the counts of runs show that is easily overlooked.
pub fn tell_findings<E: Write>(explored: &Explored, totals: &Totals, errors: &mut E) {
    if let Explored::Told(_) = explored {
        return;
    }
    if let Explored::Cut = explored {
        let _ = errors.write_all(b"  cut: the counts say nothing of the runs that are left\n");
    }
    if totals.done.count == 0 {
        let _ = errors.write_all(b"  done 0: no run was done\n");
    }
    if totals.least.is_some_and(|found| found.least.ready == 0) {
        let _ = errors.write_all(b"  least ready 0: an address that stays had no ready worker\n");
    }
}

/// Writes a run, as it is listed.
fn list<O: Write>(
    alloc: Global,
    output: &mut O,
    turns: &Turns,
    tried: &Tried,
    report: &Report,
) -> Result<(), Fault>
    ensures ok { OnOk result (Appends (O.contents output.old) (O.contents output.new) (run_text turns.now tried.now report.now)) }
    ensures err { IfErr result IsOfFile }
{
    let mut text = Vec::new(alloc);
    write_run(&mut text, turns, tried, report)?;
    output.write_all(text.as_slice())?;
    Ok(())
}
