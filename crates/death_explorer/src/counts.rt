//! Deaths, counted by what a start after them comes to.
ghost use Rattle.std.specs.Prelude.{◌≡◌, OnOk};
ghost use Rattle.death_explorer.specs.Counts.{first_of, one_more, no_deaths, nothing_counted, ended, least_with};

use listener_set::Address;
use std::alloc::AllocError;

/// A death: the place of the order of turns among the orders, from 0; the call before which the master exits, from 1; and
/// the image of that master.
#[derive(Clone, Copy, Debug)]
pub struct Death {
    pub order: usize,
    pub number: u32,
    pub image: u32,
}

/// How many deaths came to this, and the first of them.
#[derive(Clone, Copy, Debug)]
pub struct Deaths {
    pub count: u64,
    pub first: Option<Death>,
}

/// The fewest Ready workers that an address had once a master was dead, and which death it was.
#[derive(Clone, Copy, Debug)]
pub struct LeastLeft {
    pub ready: u32,
    pub address: Address,
    pub death: Death,
}

/// What was found of the deaths so far.
#[derive(Clone, Copy, Debug)]
pub struct DeathCounts {
    /// The keeper has all sockets, and there is room for all workers: a start and one quiet tick heal.
    pub healed: Deaths,
    /// The keeper has all sockets, and the process limit leaves no room for all workers.
    pub short: Deaths,
    /// The keeper lacks the socket of one of the addresses.
    pub closed: Deaths,
    /// The fewest workers that an address had before the start.
    pub least: Option<LeastLeft>,
}

fn first_of(first: Option<Death>, death: Death) -> Option<Death>
    ensures { result ≡ first_of first death }
{
    match first {
        Some(first) => Some(first),
        None => Some(death),
    }
}

impl Deaths {
    const fn none() -> Deaths
        ensures { result ≡ no_deaths }
    {
        Deaths {
            count: 0,
            first: None,
        }
    }

    fn add(&mut self, death: Death) -> Result<(), AllocError>
        ensures { OnOk result (self.new ≡ one_more death self.old) }
    {
        self.count = self.count.checked_add(1).ok_or(AllocError)?;
        self.first = first_of(self.first, death);
        Ok(())
    }
}

/// The fewer workers, and else the first.
fn least_with(
    death: Death,
    fewest: Option<(Address, u32)>,
    least: Option<LeastLeft>,
) -> Option<LeastLeft>
    ensures { result ≡ least_with death fewest least }
{
    let Some((address, ready)) = fewest else {
        return least;
    };
    match least {
        Some(least) if ready >= least.ready => Some(least),
        _ => Some(LeastLeft {
            ready,
            address,
            death,
        }),
    }
}

impl DeathCounts {
    /// No death.
    pub fn new() -> DeathCounts
        ensures { result ≡ nothing_counted }
    {
        DeathCounts {
            healed: Deaths::none(),
            short: Deaths::none(),
            closed: Deaths::none(),
            least: None,
        }
    }

    /// Counts what a start after a death comes to. Of 2^64 deaths that came to the same it would be out of memory.
    pub(crate) fn add_end(
        &mut self,
        death: Death,
        is_kept: bool,
        has_room: bool,
    ) -> Result<(), AllocError>
        ensures { OnOk result (self.new ≡ ended death is_kept has_room self.old) }
    {
        match (is_kept, has_room) {
            (false, _) => self.closed.add(death),
            (true, false) => self.short.add(death),
            (true, true) => self.healed.add(death),
        }
    }

    /// Takes the address that had the fewest workers after a death.
    pub(crate) fn add_least(&mut self, death: Death, fewest: Option<(Address, u32)>)
        ensures { self.new ≡ record self.old { least = least_with death fewest self.old.least } }
    {
        self.least = least_with(death, fewest, self.least);
    }
}
