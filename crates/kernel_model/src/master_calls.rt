//! Calls that start, ask for and end masters.
ghost use Rattle.std.specs.Prelude.{◌≡◌};
ghost use Rattle.definitions.specs.Table.{live_master};
ghost use Rattle.call_laws.specs.Pieces.{spawned};
ghost use Rattle.call_laws.specs.Pieces.{adopted};
ghost use Rattle.definitions.specs.Calls.{suits};
ghost use Rattle.call_laws.specs.Pieces.{asked_alive};
ghost use Rattle.call_laws.specs.Pieces.{departed, terminated};
ghost use Rattle.handover_text.specs.Reading.{handed_by};
ghost use Rattle.kernel_rows.specs.Holds.{seen_holds};
ghost use Rattle.kernel_rows.specs.Seen.{seen_caller};
ghost use Rattle.kernel_table.specs.Seen.{seen};
ghost use Rattle.kernel_table.specs.Room.{GrowsByOne, HasRoomFor, IsKept};

use crate::listening::are_listeners;
use kernel_rows::{Caller, Edit};
use kernel_table::Store;
use vocabulary::Answer;

/// A new master with the caller's holds, unless a master of the image is there or the process limit is reached.
pub fn spawn(store: &mut Store, caller: &Caller, image: u32) -> Answer
    requires { HasRoomFor 1 store.old }
    ensures outcome { record { answer = result; table = seen store.new } ≡ spawned (seen_caller store.old.addresses.items caller.now) image (seen store.old) }
    ensures grows { GrowsByOne store.old store.new }
{
    if store.has_master(image) {
        return Answer::Again;
    }
    if !store.has_process_room() {
        return Answer::Again;
    }
    store.add_master(caller.number, image, caller.holds);
    Answer::Spawned
}

/// Whether the text is a handover to the caller's image, with exactly the caller's descriptors and addresses.
fn is_suitable(store: &Store, image: u32, caller: &Caller, text: &[u8]) -> bool
    ensures { result ≡ suits (handed_by text.now) image (seen_holds store.now.addresses.items caller.now.holds) }
{
    match handover_text::read(text) {
        Ok(handover) => {
            handover.generation.image == image
                && are_listeners(
                    &store.addresses,
                    &caller.holds,
                    handover.listeners.as_slice(),
                )
        }
        Err(_) => false,
    }
}

/// Adopted where the text is a handover to the caller's image, with exactly the caller's descriptors and addresses.
pub fn adopt(store: &Store, image: u32, caller: &Caller, text: &[u8]) -> Answer
    ensures { record { answer = result; table = seen store.now } ≡ adopted (handed_by text.now) image (seen_caller store.now.addresses.items caller.now) (seen store.now) }
{
    if is_suitable(store, image, caller, text) {
        Answer::Adopted
    } else {
        Answer::Refused
    }
}

/// Whether the image's master lives. Where it does not, its exited row leaves.
pub fn ask_alive(store: &mut Store, image: u32) -> Answer
    ensures outcome { record { answer = result; table = seen store.new } ≡ asked_alive (live_master image (seen store.old).rows) image (seen store.old) }
    ensures grows { GrowsByOne store.old store.new }
{
    if let Some(_) = store.live_master(image) {
        return Answer::IsAlive;
    }
    store.edit(&Edit::ReapMaster(image));
    Answer::Gone
}

/// The caller leaves, with its workers; a master whose parent it was gets parent 1.
pub fn leave(store: &mut Store, caller: &Caller) -> Answer
    ensures outcome { record { answer = result; table = seen store.new } ≡ departed (seen_caller store.old.addresses.items caller.now) (seen store.old) }
    ensures grows { GrowsByOne store.old store.new }
{
    store.edit(&Edit::ExitMaster(caller.number, false));
    Answer::Fine
}

/// The master of the image leaves, live or exited, with its workers.
pub fn terminate(store: &mut Store, image: u32) -> Answer
    requires { IsKept (seen store.old) }
    ensures outcome { record { answer = result; table = seen store.new } ≡ terminated image (seen store.old) }
    ensures grows { GrowsByOne store.old store.new }
{
    let master = store.master_number(image);
    store.edit(&Edit::Terminate(image, master));
    Answer::Fine
}
