//! Why a supervisor ends before its input does.
ghost use Rattle.std.specs.Prelude.{◌≡◌};
ghost use Rattle.master_on_children.specs.Faults.{fault_code};

use std::alloc::AllocError;
use std::io::{Error as IoError, ErrorKind};
use thiserror::Error;

/// Why a supervisor ends before its input does.
#[derive(Clone, Copy, Debug, PartialEq, Eq, Error)]
pub enum SupervisorFault {
    /// Memory was refused.
    #[error("memory")]
    Memory,
    /// A line could not be read, a block could not be written, or the pid file could not be written.
    #[error("file")]
    File,
}

impl SupervisorFault {
    /// The word that is printed of the fault.
    pub fn code(&self) -> &'static str
        ensures { result.now ≡ fault_code self.now }
    {
        match self {
            SupervisorFault::Memory => "memory",
            SupervisorFault::File => "file",
        }
    }
}

/// Why no further line is acted on.
#[derive(Clone, Copy, Debug, PartialEq, Eq)]
pub(crate) enum Halt {
    /// A word wanted memory. All blocks up to there are told.
    Short,
    /// A line could not be read, or a block could not be told.
    Fault(SupervisorFault),
}

impl From<SupervisorFault> for Halt {
    ghost use Rattle.std.specs.Prelude.{◌≡◌};
    ghost use Rattle.master_on_children.specs.declared.fault.Halt.TheVariants.{Fault};

    ghost from_gives = { λ fault halt. halt ≡ Fault fault };

    fn from(fault: SupervisorFault) -> Halt {
        Halt::Fault(fault)
    }
}

impl From<AllocError> for Halt {
    ghost use Rattle.std.specs.Prelude.{◌≡◌};
    ghost use Rattle.master_on_children.specs.declared.fault.Halt.TheVariants.{Fault};
    ghost use Rattle.master_on_children.specs.declared.fault.SupervisorFault.TheVariants.{Memory};

    ghost from_gives = { λ _ halt. halt ≡ Fault Memory };

    fn from(error: AllocError) -> Halt {
        Halt::Fault(SupervisorFault::from(error))
    }
}

impl From<IoError> for Halt {
    ghost use Rattle.std.specs.IoError.{error_kind};
    ghost use Rattle.master_on_children.specs.Faults.{IsFaultOfKind};

    ghost from_gives = { λ error halt. IsFaultOfKind (error_kind error) halt };

    fn from(error: IoError) -> Halt {
        Halt::Fault(SupervisorFault::from(error))
    }
}

/// To who started the supervisor, want of memory is that.
impl From<Halt> for SupervisorFault {
    ghost use Rattle.std.specs.Prelude.{◌≡◌};
    ghost use Rattle.master_on_children.specs.Faults.{supervisor_fault};

    ghost from_gives = { λ halt fault. fault ≡ supervisor_fault halt };

    fn from(halt: Halt) -> SupervisorFault {
        match halt {
            Halt::Short => SupervisorFault::Memory,
            Halt::Fault(fault) => fault,
        }
    }
}

impl From<AllocError> for SupervisorFault {
    ghost use Rattle.std.specs.Prelude.{◌≡◌};
    ghost use Rattle.master_on_children.specs.declared.fault.SupervisorFault.TheVariants.{Memory};

    ghost from_gives = { λ _ fault. fault ≡ Memory };

    fn from(_error: AllocError) -> SupervisorFault {
        SupervisorFault::Memory
    }
}

/// Want of memory, which may fail a read or a write too, or else a fault of a file.
impl From<IoError> for SupervisorFault {
    ghost use Rattle.std.specs.IoError.{error_kind};
    ghost use Rattle.master_on_children.specs.Faults.{IsOfKind};

    ghost from_gives = { λ error fault. IsOfKind (error_kind error) fault };

    fn from(error: IoError) -> SupervisorFault {
        match error.kind() {
            ErrorKind::OutOfMemory => SupervisorFault::Memory,
            _ => SupervisorFault::File,
        }
    }
}
