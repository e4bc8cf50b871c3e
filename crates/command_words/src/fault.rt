ghost use Rattle.std.specs.Prelude.{◌≡◌, ◌↔◌};
ghost use Rattle.clap.specs.Words.{kind_of};
ghost use Rattle.clap.specs.declared.error.kind.ErrorKind.TheVariants as kinds;
ghost use Rattle.command_words.specs.declared.fault.WordsFault.TheVariants as faults;

use clap::Error;
use clap::error::ErrorKind;
use mesh_base::memory;
use std::alloc::AllocError;

/// Why the words give no command.
#[derive(Clone, Copy, Debug, PartialEq, Eq)]
pub enum WordsFault {
    /// The words are no valid command line.
    Usage,
    Memory,
}

impl From<memory::Memory> for WordsFault {
    ghost from_gives = { λ _ e. e ≡ faults.Memory };

    fn from(_e: memory::Memory) -> WordsFault {
        WordsFault::Memory
    }
}

impl From<AllocError> for WordsFault {
    ghost from_gives = { λ _ e. e ≡ faults.Memory };

    fn from(_e: AllocError) -> WordsFault {
        WordsFault::Memory
    }
}

impl From<Error> for WordsFault {
    ghost from_gives = { λ error fault. (fault ≡ faults.Memory) ↔ (kind_of error ≡ kinds.OutOfMemory) };

    fn from(error: Error) -> WordsFault {
        match error.kind() {
            ErrorKind::OutOfMemory => WordsFault::Memory,
            _ => WordsFault::Usage,
        }
    }
}
