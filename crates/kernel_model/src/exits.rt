//! Exits: processes that end before a call.
ghost use Rattle.std.specs.Prelude.{◌≡◌};
ghost use Rattle.definitions.specs.Table.{live_master};
ghost use Rattle.call_laws.specs.Pieces.{with_rows};
ghost use Rattle.definitions.specs.Calls.{exited, after_exits};
ghost use Rattle.call_laws.specs.Pieces.{caller_exits};
ghost use Rattle.kernel_table.specs.Seen.{seen};
ghost use Rattle.kernel_table.specs.Room.{EditsRows, IsKept};

use kernel_rows::Edit;
use kernel_table::Store;
use vocabulary::Name;

/// The live master of the image exits, with its workers. Its row stays, exited, where its parent is a live master.
fn exit_master(store: &mut Store, image: u32)
    requires { IsKept (seen store.old) }
    ensures table { seen store.new ≡ with_rows (seen store.old) (caller_exits (live_master image (seen store.old).rows) (seen store.old).rows) }
    ensures room { EditsRows store.old store.new }
{
    if let Some(master) = store.live_master(image) {
        let stays = store.has_live_master(master.parent);
        store.edit(&Edit::ExitMaster(master.number, stays));
    }
}

fn exit(store: &mut Store, name: Name)
    requires { IsKept (seen store.old) }
    ensures table { seen store.new ≡ with_rows (seen store.old) (exited name (seen store.old).rows) }
    ensures room { EditsRows store.old store.new }
{
    match name {
        Name::Worker(generation, nr) => store.edit(&Edit::ExitWorker(generation, nr)),
        Name::Draining(generation, nr) => store.exit_draining(generation, nr),
        Name::Master(image) => exit_master(store, image),
    }
}

/// The exits of a moment, one after another.
pub fn exit_all(store: &mut Store, names: &[Name])
    requires { IsKept (seen store.old) }
    ensures table { seen store.new ≡ after_exits names.now (seen store.old) }
    ensures room { EditsRows store.old store.new }
{
    for name in names {
        exit(store, *name);
    }
}
