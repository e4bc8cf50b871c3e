ghost use Rattle.std.specs.Prelude.{◌≡◌};
ghost use Rattle.proto_wire.specs.declared.fault.WireFault.TheVariants.{Memory};

use mesh_base::memory;
use std::alloc::{AllocError, AllocFailed};

/// The error of reading or writing. `at` is the number of bytes of the message before the record.
#[derive(Clone, Copy, Debug, PartialEq, Eq)]
pub enum WireFault {
    Memory,
    /// The bytes end inside the record.
    Truncated { at: u64 },
    /// The field number is not from 1 to 536870911, or the wire type is not 0, 1, 2 or 5.
    BadTag { at: u64 },
    /// A varint does not end within ten bytes, or does not fit into 64 bits.
    LongVarint { at: u64 },
    /// The first byte of a frame, which is 0 for an uncompressed message, is not 0.
    Compressed,
    /// The message of a frame is longer than the limit.
    TooLong { len: u32 },
}

impl From<memory::Memory> for WireFault {
    ghost from_gives = { λ _ e. e ≡ Memory };

    fn from(_e: memory::Memory) -> WireFault {
        WireFault::Memory
    }
}

impl From<AllocError> for WireFault {
    ghost from_gives = { λ _ e. e ≡ Memory };

    fn from(_e: AllocError) -> WireFault {
        WireFault::Memory
    }
}

impl<T: Drop> From<AllocFailed<T>> for WireFault {
    ghost from_gives = { λ _ e. e ≡ Memory };

    fn from(_e: AllocFailed<T>) -> WireFault {
        WireFault::Memory
    }
}
