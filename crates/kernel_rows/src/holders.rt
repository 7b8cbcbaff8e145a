//! The processes of a table: a list out of which neighbours leave one after another, and none is moved for it.
ghost use Rattle.std.specs.Prelude.{◌≡◌, ◌<◌, ◌≤◌, ◌+◌, ◌++◌, ℕ, List, [], ◌∷◌, length, count_by, get_or, vec_len, vec_capacity, OnOk, IfOk};
ghost use Rattle.std.specs.List.{filter_map, remove, slice_get};
ghost use Rattle.std.specs.Option.{option_map};
ghost use Rattle.definitions.specs.Table.{is_active, is_worker};
ghost use Rattle.call_laws.specs.Pieces.{is_named};
ghost use Rattle.call_laws.specs.Pieces.{is_draining};
ghost use Rattle.definitions.specs.Calls.{first_changed};
ghost use Rattle.call_laws.specs.Pieces.{made_exited};
ghost use Rattle.std.specs.Bool.{then_some};
ghost use Rattle.kernel_rows.specs.Gaps.{outside, IsGap};
ghost use Rattle.kernel_rows.specs.Seen.{seen_holder, seen_rows};
ghost use Rattle.kernel_rows.specs.Edits.{edited, ChangesActive};
ghost use Rattle.kernel_rows.specs.Places.{IsActiveAt};
ghost use Rattle.kernel_rows.specs.declared.process.Holder.{Holder};

use crate::edits::Edit;
use crate::process::{Holder, Row, Stances, WorkerName};
use listener_set::{Address, DescriptorTable, Generation};
use std::alloc::AllocError;
use std::marker::Model;

/// Slots that stand for nobody: those from `start` on and before `end`.
#[derive(Clone, Copy)]
struct Gap {
    start: usize,
    end: usize,
}

/// No slot.
const NONE: Gap = Gap { start: 0, end: 0 };

/// Processes in their order. Contracts see the list of them, and beside it how many there is memory for.
///
/// Who leaves beside the one that left before it widens a gap in the slots, and moves nobody. Whoever leaves elsewhere,
/// and every other change, closes the gap first.
#[derive(Drop)]
pub struct Holders {
    slots: Vec<Holder>,
    gap: Gap,
}

impl Model for Holders {
    ghost use Rattle.std.specs.Prelude.{vec_len, vec_capacity};
    ghost use Rattle.kernel_rows.specs.HolderList.{HolderList};

    ghost Value = { HolderList };

    ghost use Rattle.kernel_rows.specs.Gaps.{outside, IsGap};

    ghost view = { λ h. record { items = outside h.gap h.slots.items; capacity = vec_capacity h.slots } };

    ghost invariant = { λ h. IsGap h.gap (vec_len h.slots) };
}

/// Closes the gap: those behind it move up.
fn close(slots: &mut Vec<Holder>, gap: &mut Gap)
    requires { IsGap gap.old (vec_len slots.old) }
    ensures items { slots.new.items ≡ outside gap.old slots.old.items }
    ensures gap { gap.new ≡ record { start = 0; end = 0 } }
    ensures len { vec_len slots.new ≤ vec_len slots.old }
    ensures capacity { vec_capacity slots.new ≡ vec_capacity slots.old }
{
    if gap.start < gap.end {
        let kept = slots.len() - (gap.end - gap.start);
        slots.copy_within(gap.end.., gap.start);
        slots.truncate(kept);
    }
    *gap = NONE;
}

fn edit_all(slots: &mut Vec<Holder>, addresses: &[Address], edit: &Edit)
    ensures rows { seen_rows addresses.now slots.new.items ≡ filter_map (edited addresses.now edit.now) (seen_rows addresses.now slots.old.items) }
    ensures len { vec_len slots.new ≤ vec_len slots.old }
    ensures capacity { vec_capacity slots.new ≡ vec_capacity slots.old }
{
    let stays = |holder: &mut Holder| -> bool
        ensures { then_some result (seen_holder addresses.entry.now holder.exit.now) ≡ edited addresses.entry.now edit.entry.now (seen_holder addresses.entry.now holder.entry.now) }
    { holder.edit(addresses, edit) };
    slots.retain_mut(stays);
}

/// Changes the only Starting or Ready worker of the name.
fn change_at(
    slots: &mut [Holder],
    addresses: &[Address],
    name: WorkerName,
    place: usize,
    edit: &Edit,
)
    requires there { IsActiveAt slots.old name place }
    requires alone { count_by (is_worker is_active name.parent name.generation name.nr) (seen_rows addresses.now slots.old) ≤ 1 }
    requires edit { ChangesActive name edit.now }
    ensures { seen_rows addresses.now slots.new ≡ filter_map (edited addresses.now edit.now) (seen_rows addresses.now slots.old) }
{
    let holder = &mut slots[place];
    let _ = holder.edit(addresses, edit);
}

fn exit_first_draining(slots: &mut [Holder], generation: Generation, nr: u32)
    ensures { (addresses : List (List ℕ)) → seen_rows addresses slots.new ≡ first_changed (is_named is_draining generation nr) made_exited (seen_rows addresses slots.old) }
{
    let first = slots.iter().position(|holder| holder
        .row
        .is_named(Stances::Draining, generation, nr));
    if let Some(place) = first {
        let holder = &mut slots[place];
        holder.exit();
    }
}

impl Holders {
    /// These processes.
    pub fn of(slots: Vec<Holder>) -> Self
        ensures { result ≡ record { items = slots.items; capacity = vec_capacity slots } }
    {
        Holders { slots, gap: NONE }
    }

    /// How many there are.
    pub fn len(&self) -> usize
        ensures { result ≡ length self.now.items }
    {
        self.slots.len() - (self.gap.end - self.gap.start)
    }

    /// The process at a place, counted from 0.
    pub fn get(&self, place: usize) -> Option<&Holder>
        ensures { option_map (λ h. h.now) result ≡ slice_get self.now.items place }
    {
        if place < self.gap.start {
            return self.slots.get(place);
        }
        let behind = &self.slots[self.gap.end..];
        behind.get(place - self.gap.start)
    }

    /// The process at a place where one is.
    pub fn at(&self, place: usize) -> &Holder
        requires { place < length self.now.items }
        ensures { (d : Holder) → result.now ≡ get_or self.now.items place d }
    {
        if place < self.gap.start {
            return &self.slots[place];
        }
        let behind = &self.slots[self.gap.end..];
        &behind[place - self.gap.start]
    }

    /// The processes in their order.
    pub fn iter(&self) -> HolderIter<'_>
        ensures { result ≡ self.now.items }
    {
        HolderIter {
            front: &self.slots[..self.gap.start],
            back: &self.slots[self.gap.end..],
        }
    }

    /// Puts a process with these holds at the end.
    pub fn push(&mut self, row: Row, holds: &DescriptorTable)
        requires { length self.old.items < self.old.capacity }
        ensures items { self.new.items ≡ self.old.items ++ (record { row = row; holds = holds.now }) ∷ [] }
        ensures len { length self.new.items ≡ length self.old.items + 1 }
        ensures capacity { self.old.capacity ≤ self.new.capacity }
    {
        close(&mut self.slots, &mut self.gap);
        self.slots.push(Holder { row, holds: *holds }).unwrap();
    }

    /// The process at a place leaves.
    pub fn remove(&mut self, place: usize)
        requires { place < length self.old.items }
        ensures items { self.new.items ≡ remove self.old.items place }
        ensures len { length self.new.items + 1 ≡ length self.old.items }
        ensures capacity { self.new.capacity ≡ self.old.capacity }
    {
        if place < self.gap.start && place + 1 == self.gap.start {
            self.gap.start = place;
            return;
        }
        if place == self.gap.start {
            self.gap.end += 1;
            return;
        }
        close(&mut self.slots, &mut self.gap);
        self.gap = Gap {
            start: place,
            end: place + 1,
        };
    }

    /// Changes all by an edit.
    pub fn edit(&mut self, addresses: &[Address], edit: &Edit)
        ensures rows { seen_rows addresses.now self.new.items ≡ filter_map (edited addresses.now edit.now) (seen_rows addresses.now self.old.items) }
        ensures len { length self.new.items ≤ length self.old.items }
        ensures capacity { self.new.capacity ≡ self.old.capacity }
    {
        close(&mut self.slots, &mut self.gap);
        edit_all(&mut self.slots, addresses, edit);
    }

    /// Changes the only Starting or Ready worker of the name, which is at the place.
    pub fn change_at(&mut self, addresses: &[Address], name: WorkerName, place: usize, edit: &Edit)
        requires there { IsActiveAt self.old.items name place }
        requires alone { count_by (is_worker is_active name.parent name.generation name.nr) (seen_rows addresses.now self.old.items) ≤ 1 }
        requires edit { ChangesActive name edit.now }
        ensures rows { seen_rows addresses.now self.new.items ≡ filter_map (edited addresses.now edit.now) (seen_rows addresses.now self.old.items) }
        ensures len { length self.new.items ≤ length self.old.items }
        ensures capacity { self.new.capacity ≡ self.old.capacity }
    {
        close(&mut self.slots, &mut self.gap);
        change_at(&mut self.slots, addresses, name, place, edit);
    }

    /// The first Draining worker of the name exits.
    pub fn exit_draining(&mut self, generation: Generation, nr: u32)
        ensures rows { (addresses : List (List ℕ)) → seen_rows addresses self.new.items ≡ first_changed (is_named is_draining generation nr) made_exited (seen_rows addresses self.old.items) }
        ensures len { length self.new.items ≤ length self.old.items }
        ensures capacity { self.new.capacity ≡ self.old.capacity }
    {
        close(&mut self.slots, &mut self.gap);
        exit_first_draining(&mut self.slots, generation, nr);
    }

    /// Takes memory for so many more.
    pub fn reserve(&mut self, more: usize) -> Result<(), AllocError>
        ensures same { self.new.items ≡ self.old.items }
        ensures room { OnOk result (length self.new.items + more ≤ self.new.capacity) }
        ensures capacity { self.old.capacity ≤ self.new.capacity }
    {
        close(&mut self.slots, &mut self.gap);
        self.slots.reserve(more)
    }

    /// The same processes in memory of their own, which is taken at once for so many more.
    pub fn copy(&self, more: usize) -> Result<Self, AllocError>
        ensures items { IfOk result (λ copy. copy.items ≡ self.now.items) }
        ensures room { IfOk result (λ copy. length copy.items + more ≤ copy.capacity) }
    {
        let room = self.len().checked_add(more).ok_or(AllocError)?;
        let mut slots = Vec::with_capacity(*self.slots.allocator(), room)?;
        slots.extend_from_slice(&self.slots[..self.gap.start])?;
        slots.extend_from_slice(&self.slots[self.gap.end..])?;
        Ok(Holders::of(slots))
    }
}

/// The processes that are still to come.
#[derive(Drop)]
pub struct HolderIter<'a> {
    front: &'a [Holder],
    back: &'a [Holder],
}

impl<'a> Model for HolderIter<'a> {
    ghost use Rattle.std.specs.Prelude.{List, ◌++◌};
    ghost use Rattle.kernel_rows.specs.declared.process.Holder.{Holder};

    ghost Value = { List Holder };

    ghost view = { λ s. s.front.now ++ s.back.now };
}

impl<'a> Iterator for HolderIter<'a> {
    type Item = &'a Holder;

    ghost use Rattle.std.specs.Iterator.{YieldsFirstRef, item_count};

    ghost next_gives = { YieldsFirstRef (λ s. s) };

    ghost remaining = { item_count (λ s. s) };

    fn next(&mut self) -> Option<&'a Holder> {
        if let Some((first, others)) = self.front.split_first() {
            self.front = others;
            return Some(first);
        }
        let (first, others) = self.back.split_first()?;
        self.back = others;
        Some(first)
    }
}
