//! A master on the modelled kernel, word by word.
ghost use Rattle.std.specs.Prelude.{◌≡◌, ◌⊎◌, ◌≤◌, ◌+◌, ◌++◌, ◌∷◌, [], List, length, Some, OnOk, OnErr, IfOk, IfErr};
ghost use Rattle.listener_set.specs.AddressText.{reading};
ghost use Rattle.kernel_pattern.specs.declared.section.Section.{Section as Decided};
ghost use Rattle.table_text.specs.TableText.{IsTextOf};
ghost use Rattle.word_runner.specs.declared.block.Block.{Block as Done};
ghost use Rattle.certifier.specs.Blocks.{AreTaken, StopsAtBlock};
ghost use Rattle.faults.specs.Faults.{IsDue};
ghost use Rattle.master_on_kernel.specs.Starts.{IsStarted, record_at};
ghost use Rattle.faults.specs.declared.fault.Fault.TheVariants.{Memory, Orders};
ghost use Rattle.service_state.specs.Targets.{IsTarget};
ghost use Rattle.master_on_kernel.specs.Explorations.{IsExplored, HasOrders};
ghost use Rattle.order_explorer.specs.Choosing.{IsChosen};
ghost use Rattle.master_on_kernel.specs.Rehearsals.{Held, IsOfHeld, IsRehearsed, IsShownOf, IsShownBy};

use crate::exploring::{Explored, Trials, count_runs};
use crate::start::{Start, silent_workers};
use certifier::{BlockMismatch, Mismatch, certify_beginning, certify_blocks};
use control_words::Word;
use faults::Fault;
use kernel_model::{Kernel, Section, Turns, WIDEST_LIMITS};
use listener_set::Address;
use order_explorer::{ChosenOrders, OrderAudience, OrderSearch, Totals, choose_orders};
use plan_executor::run_words;
use plan_walk::Transcript;
use service_state::Record;
use std::alloc::{AllocError, Global};
use table_text::table_text;
use turn_orders::OrdersRefusal;
use vocabulary::{Settings, Target};
use word_runner::{Asked, Block, Body, Standing, asked_by, note};

/// A running master on the modelled kernel.
#[derive(Drop)]
pub struct Rehearsal {
    /// Where it stands: the kernel that it runs on, what it knows of itself, and its workers.
    pub standing: Standing<Kernel>,
    /// The settings that HUP and USR2 go over to.
    pub next: Settings,
}

impl Rehearsal {
    /// Boots a master with its ready workers.
    #[inline(never)]
    pub fn start(alloc: Global, start: &Start) -> Result<Rehearsal, Fault>
        ensures ok { IfOk result (IsStarted start.now) }
        ensures err { IfErr result (IsDue (record_at start.now)) }
    {
        let record = start.record()?;
        // So the limits allow it.
        let addresses = start.settings.listeners.len();
        prove!(addresses <= 64);
        let kernel = Kernel::boot(alloc, &start.settings, start.running, WIDEST_LIMITS)?;
        let workers = silent_workers(alloc, &record)?;
        let standing = Standing {
            world: kernel,
            record: Some(record),
            workers,
        };
        Ok(Rehearsal {
            standing,
            next: start.next,
        })
    }

    /// Lets a foreign process hold an address.
    pub fn hold(&mut self, address: &str) -> Result<(), Fault>
        ensures ok { OnOk result (Held address.now self.old self.new) }
        ensures err { IfErr result (IsOfHeld (reading address.now) self.old.standing.world) }
        ensures kept { OnErr result (self.new ≡ self.old) }
    {
        let address = Address::read(address.as_bytes()).map_err(Fault::Address)?;
        self.standing.world.foreign(&address)?;
        Ok(())
    }

    /// Carries words out one after another, the i-th in the i-th section, and puts the block of
    /// each behind `blocks`. Where memory is wanted, the words before are done.
    pub fn act(
        &mut self,
        alloc: Global,
        words: &[Word],
        sections: &[Section],
        blocks: &mut Vec<Block>,
    ) -> Result<(), AllocError>
        ensures done { (done : List Done)
            × (blocks.new.items ≡ blocks.old.items ++ done)
            × IsRehearsed sections.now words.now self.old done self.new }
        ensures all { OnOk result (length blocks.new.items ≡ length blocks.old.items + length words.now) }
    {
        let next = self.next;
        run_words(
            alloc,
            &mut self.standing,
            words,
            sections,
            Some(&next),
            blocks,
        )
    }

    /// Compares blocks one after another, each from where the ones before it left things, and gives the sections that
    /// explain them, one for each. The first that is none of the master's is the mismatch. The goals are the settings that
    /// words go over to, one after another.
    pub fn certify(
        &mut self,
        alloc: Global,
        goals: &[Settings],
        blocks: &[Block],
    ) -> Result<Vec<Section>, BlockMismatch>
        ensures ok { IfOk result (λ sections. AreTaken goals.now blocks.now self.old.standing sections.items self.new.standing) }
        ensures err { IfErr result (λ e. StopsAtBlock goals.now blocks.now self.old.standing e.number e.why) }
        ensures next { self.new.next ≡ self.old.next }
    {
        certify_blocks(alloc, &mut self.standing, goals, blocks)
    }

    /// What a word comes to where its first calls are those of a log, as far as they begin a run of the master: the
    /// block of that run. It is carried out.
    pub fn go_on(
        &mut self,
        alloc: Global,
        word: Word,
        begun: &Transcript,
    ) -> Result<Option<Block>, AllocError>
        ensures { IfOk result (λ found. (block : Done) × (section : Decided)
            × (found ≡ Some block)
            × IsShownBy self.old word begun.now.entries section
            × IsRehearsed (section ∷ []) (word ∷ []) self.old (block ∷ []) self.new) }
    {
        let section = self.section_of(alloc, word, begun)?;
        let mut blocks = Vec::new(alloc);
        self.act(alloc, &[word], &[section], &mut blocks)?;
        Ok(blocks.pop())
    }

    /// The section that the first calls of a word show; a quiet one where they begin no run of the master.
    fn section_of(
        &self,
        alloc: Global,
        word: Word,
        begun: &Transcript,
    ) -> Result<Section, AllocError>
        ensures { IfOk result (IsShownBy self.now word begun.now.entries) }
    {
        let Some(record) = self.standing.record else {
            return Ok(Section::new(alloc));
        };
        let Asked::Act(target) = asked_by(word, &record, &self.standing.workers, Some(&self.next))
        else {
            return Ok(Section::new(alloc));
        };
        shown_of(alloc, &self.standing.world, &record, &target, begun)
    }

    /// All orders in which the two masters can make their calls where they carry a word out side by side, and the one without
    /// turns of any other word.
    pub fn orders(&self, alloc: Global, word: Word, pairs: bool) -> Result<ChosenOrders, Fault>
        ensures ok { IfOk result (HasOrders self.now word pairs) }
        ensures err { IfErr result (λ fault. (fault ≡ Orders) ⊎ (fault ≡ Memory)) }
    {
        let Some(record) = self.standing.record else {
            return no_turns(alloc);
        };
        let Asked::Act(target) = asked_by(word, &record, &self.standing.workers, Some(&self.next))
        else {
            return no_turns(alloc);
        };
        chosen(alloc, &record, &target, pairs)
    }

    /// Counts how a word ends by each order, under no event and under each event that this run meets and, where pairs are asked
    /// for, under each pair of these. The audience hears of each order and run.
    pub fn explore<A: OrderAudience>(
        &mut self,
        alloc: Global,
        word: Word,
        trials: &Trials<'_>,
        totals: &mut Totals,
        audience: &mut A,
    ) -> Result<Explored, AllocError>
        ensures { IfOk result (IsExplored self.old word trials.now.orders.now trials.now.pairs totals.old totals.new) }
    {
        let Some(record) = self.standing.record else {
            return Ok(Explored::Told(Body::Nothing));
        };
        match asked_by(word, &record, &self.standing.workers, Some(&self.next)) {
            Asked::Act(target) => {
                let search = OrderSearch {
                    kernel: &self.standing.world,
                    state: &record,
                    target: &target,
                    orders: trials.orders,
                    pairs: trials.pairs,
                };
                count_runs(alloc, &search, totals, audience)
            }
            Asked::Beat(heard) => Ok(Explored::Told(note(&mut self.standing.workers, heard))),
            Asked::Nothing => Ok(Explored::Told(Body::Nothing)),
            Asked::Refused(code) => Ok(Explored::Told(Body::Refused(code))),
        }
    }

    /// The table of processes, files and the service.
    pub fn state(&self) -> Result<Vec<u8>, AllocError>
        ensures { IfOk result (λ text. IsTextOf self.now.standing.world.table text.items) }
    {
        table_text(&self.standing.world)
    }
}

/// The one order without turns.
fn no_turns(alloc: Global) -> Result<ChosenOrders, Fault>
    ensures ok { IfOk result (λ chosen. chosen.lists.items ≡ [] ∷ []) }
    ensures err { IfErr result (λ fault. fault ≡ Memory) }
{
    Ok(ChosenOrders::only(alloc, Turns::new(alloc))?)
}

/// All orders of a target.
fn chosen(
    alloc: Global,
    state: &Record,
    target: &Target,
    pairs: bool,
) -> Result<ChosenOrders, Fault>
    requires { IsTarget target.now }
    ensures ok { IfOk result (IsChosen state.now target.now pairs) }
    ensures err { IfErr result (λ fault. (fault ≡ Orders) ⊎ (fault ≡ Memory)) }
{
    match choose_orders(alloc, state, target, pairs) {
        Ok(chosen) => Ok(chosen),
        Err(OrdersRefusal::Memory) => Err(Fault::Memory),
        Err(OrdersRefusal::TooMany) => Err(Fault::Orders),
    }
}

/// The section that calls show which begin a run of a target; a quiet one where they begin none.
fn shown_of(
    alloc: Global,
    kernel: &Kernel,
    state: &Record,
    target: &Target,
    begun: &Transcript,
) -> Result<Section, AllocError>
    requires { IsTarget target.now }
    ensures { IfOk result (IsShownOf kernel.now.table state.now target.now begun.now.entries) }
{
    match certify_beginning(alloc, kernel, state, target, begun) {
        Ok(section) => Ok(section),
        Err(Mismatch::Memory) => Err(AllocError),
        Err(Mismatch::Refused | Mismatch::Step(_) | Mismatch::Short | Mismatch::Report) => {
            Ok(Section::new(alloc))
        }
    }
}
