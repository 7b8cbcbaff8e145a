//! How plans end: a settle, and the ways back to one.
ghost use Rattle.std.specs.Prelude.{◌≡◌, ◌+◌, ◌*◌, ◌<◌, length, take, IfOk, IsErrOf, IsTrue, OnOk, OnErr};
ghost use Rattle.vocabulary.specs.declared.plans.Side.TheVariants.{Old};
ghost use Rattle.definitions.specs.Run.{Ends};
ghost use Rattle.definitions.specs.Plans as plans;
ghost use Rattle.call_laws.specs.Pieces as pieces;
ghost use Rattle.rollback_plan.specs.declared.draft.TheConstants.{MOST_STEPS};
ghost use Rattle.plan_steps.specs.Steps.{tree_among};
ghost use Rattle.rollback_plan.specs.Drafts.{is_plain};
ghost use Rattle.plan_steps.specs.Batches.{calls_of, size_of};
ghost use Rattle.rollback_plan.specs.Back.{told_back, quits_back, closes_back, AreMade};

use crate::{Batch, Draft, DraftRefusal, Errand, Next, Place, PlanEdge};
use listener_set::{Address, Generation, Numbers};
use vocabulary::{Actor, Call, End, Order, Reply, Side};
use worker_groups::Crew;

/// How a plan ends where nothing of the side is lacking.
fn full_end(side: Side) -> End
    ensures { result ≡ plans.full_end side }
{
    match side {
        Side::Old => End::RolledBack,
        Side::Target => End::Done,
    }
}

/// How a plan ends where something of the side is lacking.
fn short_end(side: Side) -> End
    ensures { result ≡ plans.short_end side }
{
    match side {
        Side::Old => End::ShortOld,
        Side::Target => End::ShortTarget,
    }
}

/// What a way back undoes.
#[derive(Clone, Copy)]
pub struct Undone<'a> {
    /// The generation of the numbers that were forked.
    pub generation: Generation,
    /// The numbers that were forked, in that order.
    pub forked: &'a [u32],
    /// The addresses that were opened, before the forks, in that order.
    pub opened: &'a [Address],
}

/// The ways back of one master, by how far it had come.
#[derive(Drop)]
pub struct WaysBack {
    /// The i-th way closes the first i addresses, the last of them first, and settles.
    pub opened: Vec<Place>,
    /// The i-th way quits the first i numbers, the last of them first, closes all addresses, and
    /// settles.
    pub forked: Vec<Place>,
}

impl Draft {
    ghost use Rattle.std.specs.Prelude.{ℕ};
    ghost use Rattle.rollback_plan.specs.Drafts.{trees_of, tree_at, splits_in, IsMade, Keeps, Grows};
    ghost use Rattle.rollback_plan.specs.Ways.{steps_back, AreWaysBack};

    /// Adds a settle: a census of the set and, where it lacks a number, a start of the lowest one
    /// that it lacks and the census again, at most so many rounds of starts. A refused call leaves
    /// the draft as it was.
    pub fn settle(
        &mut self,
        by: Actor,
        crew: &Crew,
        set: &Numbers,
        side: Side,
        rounds: u32,
    ) -> Result<Place, DraftRefusal>
        ensures made { IfOk result (λ place. IsMade self.new place (plans.settle by crew.now set.now side rounds)) }
        ensures count { OnOk result (length (trees_of self.new) ≡ length (trees_of self.old) + (1 + 4 * rounds)) }
        ensures keeps { Keeps self.old self.new }
        ensures err { OnErr result (trees_of self.new ≡ trees_of self.old) }
        ensures too_large { IsErrOf result DraftRefusal.TooLarge → MOST_STEPS < length (trees_of self.old) + (1 + 4 * rounds) }
    {
        let before = self.len();
        let settled = self.add_settle(by, crew, set, side, rounds);
        self.unless_refused(settled, before)
    }

    /// What was added to so many steps. Where it was refused, they alone are left.
    fn unless_refused<T: Drop>(
        &mut self,
        added: Result<T, DraftRefusal>,
        before: usize,
    ) -> Result<T, DraftRefusal>
        ensures same { result ≡ added }
        ensures ok { OnOk added (self.new ≡ self.old) }
        ensures err { OnErr added (trees_of self.new ≡ take before (trees_of self.old)) }
        ensures splits { (a : ℕ) (b : ℕ) → IsTrue (splits_in a b self.old) → IsTrue (splits_in a b self.new) }
    {
        if added.is_err() {
            self.shorten(before);
        }
        added
    }

    /// Adds a settle. A refused call may leave some steps of it.
    fn add_settle(
        &mut self,
        by: Actor,
        crew: &Crew,
        set: &Numbers,
        side: Side,
        rounds: u32,
    ) -> Result<Place, DraftRefusal>
        ensures made { IfOk result (λ place. IsMade self.new place (plans.settle by crew.now set.now side rounds)) }
        ensures grows { Grows self.old self.new result (1 + 4 * rounds) }
    {
        let (full, short) = (full_end(side), Next::Over(short_end(side)));
        let mut place = self.census(by, crew.generation, set, full, short)?;
        for _round in 0..rounds {
            let start = self.add_round(by, crew, place)?;
            place = self.census(by, crew.generation, set, full, Next::To(start))?;
        }
        Ok(place)
    }

    /// Adds a census that leads to an end where it is full.
    pub(crate) fn census(
        &mut self,
        by: Actor,
        generation: Generation,
        set: &Numbers,
        full: End,
        short: Next,
    ) -> Result<Place, DraftRefusal>
        requires { IsTrue (is_plain (length (trees_of self.old)) short) }
        ensures made { IfOk result (λ place. IsMade self.new place (pieces.census by generation set.now (pieces.census_edges (Ends full) (tree_among 0 (trees_of self.old) short)))) }
        ensures grows { Grows self.old self.new result 1 }
    {
        self.add(
            by,
            Order::Make(Call::Census(generation)),
            set,
            &[
                PlanEdge::over(&[Reply::Full], full),
                PlanEdge::new(&[Reply::Short], short),
            ],
        )
    }

    /// Adds the start of the lowest number that the last census lacked, before the rest. A refused
    /// call may leave some steps of it.
    pub(crate) fn add_round(
        &mut self,
        by: Actor,
        crew: &Crew,
        rest: Place,
    ) -> Result<Place, DraftRefusal>
        requires { rest.0 < length (trees_of self.old) }
        ensures made { IfOk result (λ place. IsMade self.new place (plans.round by crew.now (tree_at self.old rest))) }
        ensures grows { Grows self.old self.new result 3 }
    {
        let none = Numbers::none();
        let kill = self.add(
            by,
            Order::KillLacking(crew.generation),
            &none,
            &[PlanEdge::to(&[Reply::Fine], rest)],
        )?;
        let wait = self.add(
            by,
            Order::AwaitLacking(crew.generation),
            &none,
            &[
                PlanEdge::to(&[Reply::IsReady, Reply::Gone], rest),
                PlanEdge::to(&[Reply::Late], kill),
            ],
        )?;
        self.add(
            by,
            Order::ForkLacking(*crew),
            &none,
            &[
                PlanEdge::to(&[Reply::Forked], wait),
                PlanEdge::to(&[Reply::Again, Reply::NoMemory], rest),
            ],
        )
    }

    /// Adds the ways back of one master, which end in the settle of its old side: a census of the
    /// numbers that were ready, and at most so many rounds of starts. A refused call leaves the
    /// draft as it was.
    pub fn back(
        &mut self,
        by: Actor,
        undone: &Undone<'_>,
        crew: &Crew,
        ready: &Numbers,
        rounds: u32,
    ) -> Result<WaysBack, DraftRefusal>
        ensures opened { IfOk result (λ ways. AreMade self.new ways.opened.items (length undone.now.opened.now) (closes_back by undone.now.opened.now (plans.settle by crew.now ready.now Old rounds))) }
        ensures forked { IfOk result (λ ways. AreMade self.new ways.forked.items (length undone.now.forked.now) (quits_back by undone.now.generation undone.now.forked.now (closes_back by undone.now.opened.now (plans.settle by crew.now ready.now Old rounds) (length undone.now.opened.now)))) }
        ensures count { OnOk result (length (trees_of self.new) ≡ length (trees_of self.old) + steps_back undone.now rounds) }
        ensures keeps { Keeps self.old self.new }
        ensures err { OnErr result (trees_of self.new ≡ trees_of self.old) }
        ensures too_large { IsErrOf result DraftRefusal.TooLarge → MOST_STEPS < length (trees_of self.old) + steps_back undone.now rounds }
    {
        let before = self.len();
        let ways = self.add_back(by, undone, crew, ready, rounds);
        self.unless_refused(ways, before)
    }

    /// Adds the ways back of one master. A refused call may leave some steps of them.
    fn add_back(
        &mut self,
        by: Actor,
        undone: &Undone<'_>,
        crew: &Crew,
        ready: &Numbers,
        rounds: u32,
    ) -> Result<WaysBack, DraftRefusal>
        ensures made { IfOk result (λ ways. AreWaysBack self.new ways by undone.now (plans.settle by crew.now ready.now Old rounds)) }
        ensures grows { Grows self.old self.new result (steps_back undone.now rounds) }
    {
        let settled = self.add_settle(by, crew, ready, Side::Old, rounds)?;
        let opened = self.add_ways(by, &Batch::Closes(undone.opened), settled)?;
        let closed = opened[undone.opened.len()];
        let quits = Batch::Workers(Errand::Quit, undone.generation, undone.forked);
        let forked = self.add_ways(by, &quits, closed)?;
        Ok(WaysBack { opened, forked })
    }

    /// Adds these calls, each of which is only answered fine, before the rest. The i-th place that it gives is where the
    /// first i of them are made, the last of these first. A refused call may leave some of them.
    fn add_ways(
        &mut self,
        by: Actor,
        calls: &Batch<'_>,
        rest: Place,
    ) -> Result<Vec<Place>, DraftRefusal>
        requires { rest.0 < length (trees_of self.old) }
        ensures made { IfOk result (λ places. AreMade self.new places.items (size_of calls.now) (told_back by (calls_of calls.now) (tree_at self.old rest))) }
        ensures grows { Grows self.old self.new result (size_of calls.now) }
    {
        let mut places = Vec::new(*self.steps.allocator());
        let mut next = rest;
        places.push(next)?;
        for i in 0..calls.len() {
            next = self.call(by, calls.get(i), next)?;
            places.push(next)?;
        }
        Ok(places)
    }

    /// Adds a call that is only answered fine, before the rest.
    pub fn call(&mut self, by: Actor, call: Call, rest: Place) -> Result<Place, DraftRefusal>
        requires { rest.0 < length (trees_of self.old) }
        ensures made { IfOk result (λ place. IsMade self.new place (plans.does by call (plans.then_edge (tree_at self.old rest)))) }
        ensures count { OnOk result (length (trees_of self.new) ≡ length (trees_of self.old) + 1) }
        ensures keeps { Keeps self.old self.new }
        ensures err { OnErr result (trees_of self.new ≡ trees_of self.old) }
        ensures too_large { IsErrOf result DraftRefusal.TooLarge → MOST_STEPS < length (trees_of self.old) + 1 }
        ensures full { length (trees_of self.old) ≡ MOST_STEPS → IsErrOf result DraftRefusal.TooLarge }
    {
        self.add(
            by,
            Order::Make(call),
            &Numbers::none(),
            &[PlanEdge::to(&[Reply::Fine], rest)],
        )
    }
}
