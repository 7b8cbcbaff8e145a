//! The calls that were made, with their answers.
ghost use Rattle.std.specs.Prelude.{◌≡◌, ◌+◌, ◌≤◌, ◌<◌, ◌^◌, ◌++◌, ◌∷◌, [], IfOk, OnOk, OnErr, IsTrue, ◌↔◌, Some, length, slice_get};

use crate::slot::{Slot, WorkerEntry};
use listener_set::DescriptorSet;
use std::alloc::{AllocError, Global};
use std::marker::{Model, PhantomData};
use vocabulary::{Answer, Call, Entry};

/// Entries, with room for more that was found beforehand.
///
/// Contracts see the list of its entries, and beside it the room. The entry of a call that names a worker, as most
/// are, stands in its slot. Any other is kept whole, in room of its own: what of that is never used costs no memory.
#[derive(Drop)]
pub struct Transcript {
    slots: Vec<Slot>,
    whole: Vec<Entry>,
    room: u32,
    // Takes no room. The prover must be told of each type that an entry can have in it.
    held: PhantomData<DescriptorSet>,
}

impl Model for Transcript {
    ghost use Rattle.std.specs.Prelude.{◌≡◌, ◌≤◌, ◌<◌, ◌^◌, ◌+◌, true, vec_len, vec_capacity};
    ghost use Rattle.plan_walk.specs.Log.{Told};
    ghost use Rattle.plan_walk.specs.Slots.{entries_in, are_kept};

    ghost Value = { Told };

    ghost view = { λ t. record { entries = entries_in t.whole.items t.slots.items; room = t.room } };

    ghost invariant = { λ t. record {
      slots : vec_len t.slots + t.room ≤ vec_capacity t.slots;
      whole : vec_len t.whole + t.room ≤ vec_capacity t.whole;
      few : vec_len t.slots + t.room < 2 ^ 32;
      fewer : vec_len t.whole ≤ vec_len t.slots;
      kept : are_kept (vec_len t.whole) t.slots.items ≡ true;
    } };
}

impl Transcript {
    /// No entries, and room for so many. The only refusal is want of memory.
    pub fn with_room(alloc: Global, room: u32) -> Result<Transcript, AllocError>
        ensures { IfOk result (λ t. t ≡ record { entries = []; room = room }) }
    {
        Ok(Transcript {
            slots: Vec::with_capacity(alloc, room as usize)?,
            whole: Vec::with_capacity(alloc, room as usize)?,
            room,
            held: PhantomData,
        })
    }

    /// How many entries there are.
    pub fn len(&self) -> usize
        ensures count { result ≡ length self.now.entries }
        ensures few { result < 2 ^ 32 }
    {
        self.slots.len()
    }

    /// Whether there is none.
    pub fn is_empty(&self) -> bool
        ensures { IsTrue result ↔ (self.now.entries ≡ []) }
    {
        self.slots.is_empty()
    }

    /// For how many more entries there is room.
    pub fn room(&self) -> u32
        ensures { result ≡ self.now.room }
    {
        self.room
    }

    /// The entry at a place, counted from 0.
    pub fn get(&self, place: usize) -> Entry
        requires { place < length self.now.entries }
        ensures { slice_get self.now.entries place ≡ Some result }
    {
        match &self.slots[place] {
            Slot::Worker(kept) => kept.entry(),
            Slot::Whole(at) => self.whole[*at as usize],
        }
    }

    /// Puts an entry at the end. It takes no memory.
    pub fn push(&mut self, entry: &Entry)
        requires { 1 ≤ self.old.room }
        ensures entries { self.new.entries ≡ self.old.entries ++ entry.now ∷ [] }
        ensures room { self.new.room + 1 ≡ self.old.room }
    {
        self.room -= 1;
        match WorkerEntry::of(entry) {
            Some(kept) => self.slots.push_reserved(Slot::Worker(kept)),
            None => {
                let place = self.whole.len() as u32;
                let call: Call = entry.call;
                let answer: Answer = entry.answer;
                self.whole.push_reserved(Entry {
                    by: entry.by,
                    call,
                    answer,
                });
                self.slots.push_reserved(Slot::Whole(place));
            }
        }
    }

    /// Puts an entry at the end, and leaves as much room as there was. The only refusal is want of memory; a log that
    /// would have 2^32 entries or more, its room counted, wants it always.
    pub fn add(&mut self, entry: &Entry) -> Result<(), AllocError>
        ensures ok { OnOk result (self.new ≡ record { entries = self.old.entries ++ entry.now ∷ []; room = self.old.room }) }
        ensures err { OnErr result (self.new ≡ self.old) }
    {
        let room = self.room.checked_add(1).ok_or(AllocError)?;
        if self.len() + room as usize > u32::MAX as usize {
            return Err(AllocError);
        }
        self.slots.reserve(room as usize)?;
        self.whole.reserve(room as usize)?;
        self.room = room;
        self.push(entry);
        Ok(())
    }
}
