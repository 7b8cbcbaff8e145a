//! Whether a record is true of the modelled kernel.
ghost use Rattle.std.specs.Prelude.{◌↔◌, IsTrue, map};
ghost use Rattle.listener_set.specs.Numbers.{IsRising, RisesFrom};
ghost use Rattle.definitions.specs.Master.{Agrees, IsRecord};

use kernel_agreement::{Running, agrees_with};
use kernel_model::Kernel;
use service_state::Record;

/// Whether the kernel runs what the record says: one master, with the record's image, process number and listeners;
/// of its workers none is starting, and the ready ones are exactly the record's, of its generation, each holding what
/// its group has of what the master holds; and the pid files are as the note says.
pub fn agrees(state: &Record, kernel: &Kernel) -> bool
    ensures agrees { IsTrue result ↔ Agrees kernel.now.table state.now }
    ensures in_range { IsRecord state.now }
    ensures rising { IsRising state.now.ready }
    ensures descriptors { RisesFrom 3 (map (λ l. l.descriptor) state.now.listeners) }
{
    // Only a reading of the set tells that its numbers rise.
    let _ = state.ready.lowest();
    let claim = Running {
        listeners: state.listeners.as_slice(),
        crew: state.crew(),
        ready: state.ready,
        pid_path: state.pid_path,
        note: state.note,
        pid: state.pid,
    };
    agrees_with(kernel, &claim)
}
