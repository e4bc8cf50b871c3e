ghost use Rattle.std.specs.Prelude.{◌≡◌};
ghost use Rattle.proxy_proto.specs.declared.fault.ProtoFault.TheVariants.{Memory};

use mesh_base::memory;
use proto_wire::fault::WireFault;
use std::alloc::{AllocError, AllocFailed};

/// Why bytes are no valid message. `field` is the number of a field in the message type that has
/// it, which may be a nested one.
#[derive(Clone, Copy, Debug, PartialEq, Eq)]
pub enum ProtoFault {
    Memory,
    /// A record cannot be read. The offset counts bytes from the start of the innermost message.
    /// The fault is never out of memory, and never one of frames.
    Wire(WireFault),
    /// A field or a choice occurs more often than it may, or the key of a map occurs twice.
    Repeated { field: u32 },
    WrongWire { field: u32 },
    NotUtf8 { field: u32 },
    Range { field: u32 },
    Absent { field: u32 },
    /// No member of the choice is present.
    NoChoice,
    /// The path of a request is no target, or one that the method does not accept.
    BadAuthority,
    /// The workload of a request is no `namespace:pod`.
    BadWorkload,
}

impl From<memory::Memory> for ProtoFault {
    ghost from_gives = { λ _ e. e ≡ Memory };

    fn from(_e: memory::Memory) -> ProtoFault {
        ProtoFault::Memory
    }
}

impl From<AllocError> for ProtoFault {
    ghost from_gives = { λ _ e. e ≡ Memory };

    fn from(_e: AllocError) -> ProtoFault {
        ProtoFault::Memory
    }
}

impl<T: Drop> From<AllocFailed<T>> for ProtoFault {
    ghost from_gives = { λ _ e. e ≡ Memory };

    fn from(_e: AllocFailed<T>) -> ProtoFault {
        ProtoFault::Memory
    }
}
