//! Faults of the program: a line on standard error and a status.
ghost use Rattle.std.specs.Prelude.{◌≡◌, Some};
ghost use Rattle.std.specs.IoError.{error_kind};
ghost use Rattle.faults.specs.Faults.{command_fault, config_fault, boot_fault, foreign_fault, pattern_fault, transcript_fault, block_fault, IsOfKind, fault_text, fault_status};
ghost use Rattle.faults.specs.declared.fault.Fault.TheVariants.{Memory};

use command_line::Refusal;
use control_words::WordRefusal;
use kernel_model::{BootRefusal, ForeignRefusal};
use lines_text::TextRefusal;
use listener_set::AddressRefusal;
use master_config::ConfigRefusal;
use mismatches::Mismatch;
use std::alloc::AllocError;
use std::io::{ErrorKind, Write};
use std::{fmt, io};

/// Why the program stops before its work is done.
#[derive(Debug, Drop)]
pub enum Fault {
    /// The command line asks for nothing that there is.
    Usage,
    /// The word with this number, from 1, is refused.
    Word(usize, WordRefusal),
    /// A configuration file is refused.
    Config(ConfigRefusal),
    /// The kernel can't be started like this.
    Boot(BootRefusal),
    /// The address that the foreign process is to hold is none.
    Address(AddressRefusal),
    /// The foreign process can't be added: the master holds the address itself, or no number is left.
    Foreign(ForeignRefusal),
    /// The patterns on standard input are refused.
    Pattern(TextRefusal),
    /// The blocks on standard input are refused.
    Transcript(TextRefusal),
    /// The block with this number, from 1, is not what the master would have done.
    Certify(usize, Mismatch),
    /// The code that is to be explained is none.
    Code,
    /// An upgrade has more orders of turns than are explored.
    Orders,
    /// Another process runs whose number the pid file has: this one.
    Running(u32),
    /// A read or a write failed.
    File,
    /// Memory was refused.
    Memory,
}

impl Fault {
    /// Want of memory, or the fault of the blocks.
    pub fn of_transcript(refusal: TextRefusal) -> Fault
        ensures { result ≡ transcript_fault refusal }
    {
        match refusal {
            TextRefusal::Memory => Self::Memory,
            refusal => Fault::Transcript(refusal),
        }
    }

    /// Want of memory, or the fault of the block with this number, from 1.
    pub fn of_block(number: usize, mismatch: Mismatch) -> Fault
        ensures { result ≡ block_fault number mismatch }
    {
        match mismatch {
            Mismatch::Memory => Fault::Memory,
            mismatch => Fault::Certify(number, mismatch),
        }
    }

    /// Writes the fault's line, and gives the exit status of the program.
    pub fn tell<E: Write>(&self, errors: &mut E) -> u8
        ensures { result ≡ fault_status self.now }
    {
        // There is nobody left to tell where standard error is closed too.
        let _ = writeln!(errors, "prefork: {self}");
        match self {
            Fault::Usage | Fault::Word(..) | Fault::Code | Fault::Orders => 2,
            Fault::Certify(..) => 5,
            _ => 1,
        }
    }
}

/// Printed as what is refused, with the code.
impl fmt::Display for Fault {
    ghost output = { λ fault. Some (fault_text fault) };

    fn fmt<W: fmt::Write>(&self, f: &mut fmt::Formatter<W>) -> fmt::Result {
        match self {
            Fault::Usage => write!(f, "{}", Refusal::Usage.code()),
            Fault::Word(number, refusal) => write!(f, "word {number} {}", refusal.code()),
            Fault::Config(refusal) => write!(f, "config {refusal}"),
            Fault::Boot(refusal) => write!(f, "boot {}", refusal.code()),
            Fault::Address(refusal) => write!(f, "held {}", refusal.code()),
            Fault::Foreign(refusal) => write!(f, "held {}", refusal.code()),
            Fault::Pattern(refusal) => write!(f, "pattern {refusal}"),
            Fault::Transcript(refusal) => write!(f, "transcript {refusal}"),
            Fault::Certify(number, mismatch) => write!(f, "certify {number} {mismatch}"),
            Fault::Code => write!(f, "code"),
            Fault::Orders => write!(f, "orders"),
            Fault::Running(number) => write!(f, "running {number}"),
            Fault::File => write!(f, "file"),
            Fault::Memory => write!(f, "memory"),
        }
    }
}

/// Want of memory, or the fault of the command line.
impl From<Refusal> for Fault {
    ghost from_gives = { λ refusal fault. fault ≡ command_fault refusal };

    fn from(refusal: Refusal) -> Fault {
        match refusal {
            Refusal::Memory => Fault::Memory,
            Refusal::Usage => Fault::Usage,
        }
    }
}

/// Want of memory, a file that can't be read, or the fault of a configuration.
impl From<ConfigRefusal> for Fault {
    ghost from_gives = { λ refusal fault. fault ≡ config_fault refusal };

    fn from(refusal: ConfigRefusal) -> Fault {
        match refusal {
            ConfigRefusal::Memory => Fault::Memory,
            ConfigRefusal::Unreadable => Fault::File,
            refusal => Fault::Config(refusal),
        }
    }
}

/// Want of memory, or the fault of a start.
impl From<BootRefusal> for Fault {
    ghost from_gives = { λ refusal fault. fault ≡ boot_fault refusal };

    fn from(refusal: BootRefusal) -> Fault {
        match refusal {
            BootRefusal::Memory => Fault::Memory,
            BootRefusal::BadLimits => Fault::Boot(refusal),
        }
    }
}

/// Want of memory, or the fault of a foreign process.
impl From<ForeignRefusal> for Fault {
    ghost from_gives = { λ refusal fault. fault ≡ foreign_fault refusal };

    fn from(refusal: ForeignRefusal) -> Fault {
        match refusal {
            ForeignRefusal::Memory => Fault::Memory,
            refusal => Fault::Foreign(refusal),
        }
    }
}

/// Want of memory, or the fault of the patterns.
impl From<TextRefusal> for Fault {
    ghost from_gives = { λ refusal fault. fault ≡ pattern_fault refusal };

    fn from(refusal: TextRefusal) -> Fault {
        match refusal {
            TextRefusal::Memory => Fault::Memory,
            refusal => Fault::Pattern(refusal),
        }
    }
}

impl From<AllocError> for Fault {
    ghost from_gives = { λ _ fault. fault ≡ Memory };

    fn from(_error: AllocError) -> Fault {
        Fault::Memory
    }
}

/// Every failed read, write and argument comes through here. Want of memory is asked for first,
/// since it comes as an error of input or output too.
impl From<io::Error> for Fault {
    ghost from_gives = { λ error fault. IsOfKind (error_kind error) fault };

    fn from(error: io::Error) -> Fault {
        match error.kind() {
            ErrorKind::OutOfMemory => Fault::Memory,
            _ => Fault::File,
        }
    }
}
