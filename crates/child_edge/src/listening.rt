//! The calls about listening: the edge's own descriptors.
ghost use Rattle.std.specs.Prelude.{◌≡◌, ◌∷◌, [], IsTrue};
ghost use Rattle.call_replies.specs.Replies.{is_listed};
ghost use Rattle.vocabulary.specs.declared.calls.Call.TheVariants.{OpenAt, CloseAt};
ghost use Rattle.child_edge.specs.State.{state_of};
ghost use Rattle.child_edge.specs.Table.{answers, opening, closing, descriptor_of, closed};
ghost use Rattle.child_edge.specs.Turns.{GoesOn};

use crate::each::say_each;
use crate::state::EdgeState;
use child_family::{Family, close_line};
use child_workers::Who;
use listener_set::{Address, ListenerSet, MOST_DESCRIPTORS};
use master_listeners::Listeners;
use vocabulary::{Answer, Listener};

/// The descriptor of an address; 0 where it is not listened on.
fn descriptor_of(listeners: &[Listener], address: &Address) -> u32
    ensures { result ≡ descriptor_of address.now listeners.now }
{
    for listener in listeners {
        if listener.address == *address {
            return listener.descriptor;
        }
    }
    0
}

/// Opens an address at the lowest free descriptor of 3 to 66. It asks no child.
pub(crate) fn open(state: &mut EdgeState, address: &Address) -> Answer
    ensures turn { opening (state_of state.old) address.now ≡ answers (state_of state.new) result }
    ensures listed { IsTrue (is_listed (OpenAt address.now) result) }
    ensures workers { state.new.workers ≡ state.old.workers }
{
    if state.listeners.holds(address) {
        return Answer::InUse;
    }
    if state.listeners.as_slice().len() >= MOST_DESCRIPTORS {
        return Answer::TooMany;
    }
    state.listeners.open(address);
    Answer::Opened(descriptor_of(state.listeners.as_slice(), address))
}

fn single(address: &Address) -> ListenerSet
    ensures { result ≡ address.now ∷ [] }
{
    let mut set = ListenerSet::new();
    let _ = set.add(address);
    set
}

/// The listeners without an address.
fn closed(listeners: &Listeners, address: &Address) -> Listeners
    ensures { result ≡ closed address.now listeners.now }
{
    let one = single(address);
    let others = listeners.addresses().only_in(&one);
    listeners.kept(&others)
}

/// Closes an address, and tells the workers that were not told to quit.
pub(crate) fn close<F: Family>(family: &mut F, state: &mut EdgeState, address: &Address) -> Answer
    ensures turn { GoesOn (F.told family.old) (F.told family.new) (closing (state_of state.old) address.now) (answers (state_of state.new) result) }
    ensures listed { IsTrue (is_listed (CloseAt address.now) result) }
    ensures workers { state.new.workers ≡ state.old.workers }
{
    say_each(
        family,
        &state.workers,
        Who::Serving,
        close_line(address).bytes(),
    );
    state.listeners = closed(&state.listeners, address);
    Answer::Fine
}
