//! Patterns: which moments of a run are not quiet.
ghost use Rattle.std.specs.Prelude.{◌≡◌, ◌==◌, ◌≤◌, ◌↔◌, nat_le, ℕ, [], length, map, IsTrue, if◌then◌else◌, IfOk, IfErr, OnOk, OnErr, slice_get};
ghost use Rattle.std.specs.Option.{option_map};
ghost use Rattle.std.specs.List.{position_or_len};
ghost use Rattle.std.specs.List.Sorted.{IsNonDecreasingBy};
ghost use Rattle.std.specs.List.{list_any};
ghost use Rattle.kernel_pattern.specs.Pattern.{moment_at, with_exit, with_fate, seen_entry, seen_moment, IsPattern, IsNameWithin, is_masters, names_master};
ghost use Rattle.kernel_pattern.specs.Events.{seen_event, IsListed, IsUnlisted};

use crate::moments::Moment;
use std::alloc::{AllocError, Global};
use std::marker::Model;
use vocabulary::{Fate, Name};

/// A moment that is not quiet.
#[derive(Drop)]
struct PatternEvent {
    number: u32,
    exits: Vec<Name>,
    fate: Option<Fate>,
}

impl PatternEvent {
    fn moment(&self) -> Moment<'_>
        ensures { seen_moment result ≡ (seen_event self.now).1 }
    {
        Moment {
            exits: &self.exits,
            fate: self.fate,
        }
    }

    fn names_master(&self) -> bool
        ensures { result ≡ list_any is_masters (seen_event self.now).1.exits }
    {
        self.exits.iter().any(is_masters)
    }
}

fn any_names_master(events: &[PatternEvent]) -> bool
    ensures { result ≡ list_any (λ e. list_any is_masters (seen_event e).1.exits) events.now }
{
    events.iter().any(PatternEvent::names_master)
}

fn is_masters(name: &Name) -> bool
    ensures { result ≡ is_masters name.now }
{
    match name {
        Name::Master(_) => true,
        Name::Worker(..) | Name::Draining(..) => false,
    }
}

/// What happens at each call of a run, counted from 1. It keeps the moments that are not quiet, in ascending numbers.
#[derive(Drop)]
pub struct Pattern {
    events: Vec<PatternEvent>,
}

impl Model for Pattern {
    ghost use Rattle.std.specs.Prelude.{ℕ, List, map};
    ghost use Rattle.definitions.specs.Run.{Moment};

    ghost Value = { List (ℕ × Moment) };

    ghost use Rattle.kernel_pattern.specs.Events.{seen_event};
    ghost use Rattle.kernel_pattern.specs.Pattern.{IsPattern};

    ghost view = { λ p. map seen_event p.events.items };

    ghost invariant = { λ p. IsPattern (map seen_event p.events.items) };
}

impl Pattern {
    /// The pattern whose moments are all quiet.
    pub fn new(alloc: Global) -> Self
        ensures { result ≡ [] }
    {
        Pattern {
            events: Vec::new(alloc),
        }
    }

    /// Adds an exit behind those of the n-th moment. A worker's number is at most 1023.
    pub fn add_exit(&mut self, n: u32, name: Name) -> Result<(), AllocError>
        requires number { 1 ≤ n }
        requires within { IsNameWithin name }
        ensures ok { OnOk result ((m : ℕ) → moment_at self.new m ≡ (if m == n then with_exit name (moment_at self.old n) else moment_at self.old m)) }
        ensures err { OnErr result (self.new ≡ self.old) }
    {
        match place_of(&self.events, n) {
            Ok(place) => {
                let event = &mut self.events[place];
                event.exits.push(name)?;
                Ok(())
            }
            Err(place) => {
                let mut exits = Vec::new(*self.events.allocator());
                exits.push(name)?;
                let event = PatternEvent {
                    number: n,
                    exits,
                    fate: None,
                };
                self.events.insert(place, event)?;
                Ok(())
            }
        }
    }

    /// Makes the call of the n-th moment fail so, in place of what was set before.
    pub fn set_fate(&mut self, n: u32, fate: Fate) -> Result<(), AllocError>
        requires { 1 ≤ n }
        ensures ok { OnOk result ((m : ℕ) → moment_at self.new m ≡ (if m == n then with_fate fate (moment_at self.old n) else moment_at self.old m)) }
        ensures err { OnErr result (self.new ≡ self.old) }
    {
        match place_of(&self.events, n) {
            Ok(place) => {
                let event = &mut self.events[place];
                event.fate = Some(fate);
                Ok(())
            }
            Err(place) => {
                let event = PatternEvent {
                    number: n,
                    exits: Vec::new(*self.events.allocator()),
                    fate: Some(fate),
                };
                self.events.insert(place, event)?;
                Ok(())
            }
        }
    }

    /// What happens at the n-th moment.
    pub fn moment(&self, n: u32) -> Moment<'_>
        ensures { seen_moment result ≡ moment_at self.now n }
    {
        match place_of(&self.events, n) {
            Ok(place) => self.events[place].moment(),
            Err(_) => Moment {
                exits: &[],
                fate: None,
            },
        }
    }

    /// How many moments are not quiet.
    pub fn len(&self) -> usize
        ensures count { result ≡ length self.now }
        ensures pattern { IsPattern self.now }
    {
        self.events.len()
    }

    /// Whether every moment is quiet.
    pub fn is_empty(&self) -> bool
        ensures { IsTrue result ↔ (self.now ≡ []) }
    {
        self.events.is_empty()
    }

    /// Whether a master exits at any moment.
    #[tactic(auto, using(crate::proofs::Patterns::any_seen))]
    pub fn names_master(&self) -> bool
        ensures { result ≡ names_master self.now }
    {
        any_names_master(&self.events)
    }

    /// The i-th moment that is not quiet, counted from 0, with its number. The numbers rise.
    pub fn entry(&self, i: usize) -> Option<(u32, Moment<'_>)>
        ensures { option_map seen_entry result ≡ slice_get self.now i }
    {
        let event = self.events.get(i)?;
        Some((event.number, event.moment()))
    }
}

/// Where the first moment with that number or a higher one stands.
fn first_from(events: &[PatternEvent], n: u32) -> usize
    requires { IsNonDecreasingBy (λ e. e.number) events.now }
    ensures place { result ≡ position_or_len (λ e. nat_le n e.number) events.now }
    ensures within { result ≤ length events.now }
{
    events.partition_point(|event| event.number < n)
}

/// The place of the event with that number, or else the place where it would stand.
fn place_of(events: &[PatternEvent], n: u32) -> Result<usize, usize>
    requires { IsPattern (map seen_event events.now) }
    ensures listed { IfOk result (IsListed events.now n) }
    ensures unlisted { IfErr result (IsUnlisted events.now n) }
    ensures within { IfErr result (λ place. place ≤ length events.now) }
{
    let place = first_from(events, n);
    if place < events.len() && events[place].number == n {
        Ok(place)
    } else {
        Err(place)
    }
}
