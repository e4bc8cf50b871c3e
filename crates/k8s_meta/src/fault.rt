ghost use Rattle.std.specs.Prelude.{◌≡◌};
ghost use Rattle.k8s_meta.specs.declared.fault.ReadFault.TheVariants.{Memory};

use mesh_base::copied::Copied;
use mesh_base::memory;
use mesh_base::text::Text;
use std::alloc::{AllocError, AllocFailed, Global};

/// The reason why a value of the right type is not accepted.
#[derive(Clone, Copy, Debug, PartialEq, Eq)]
pub enum What {
    Address,
    Network,
    Range,
    Choice,
    Duration,
    Quantity,
    Method,
    Shape,
    TwoReferences,
}

/// The first error of an object, in the order of the member tables, with the path of the member.
#[derive(Debug, Drop)]
pub enum ReadFault {
    Memory,
    Missing { path: Text },
    WrongType { path: Text },
    BadName { path: Text },
    BadValue { path: Text, what: What },
}

impl Copied for ReadFault {
    fn copy(&self, _alloc: Global) -> Result<ReadFault, memory::Memory> {
        match self {
            ReadFault::Memory => Ok(ReadFault::Memory),
            ReadFault::Missing { path } => Ok(ReadFault::Missing { path: path.copy()? }),
            ReadFault::WrongType { path } => Ok(ReadFault::WrongType { path: path.copy()? }),
            ReadFault::BadName { path } => Ok(ReadFault::BadName { path: path.copy()? }),
            ReadFault::BadValue { path, what } => Ok(ReadFault::BadValue {
                path: path.copy()?,
                what: *what,
            }),
        }
    }
}

impl From<memory::Memory> for ReadFault {
    ghost from_gives = { λ _ e. e ≡ Memory };

    fn from(_e: memory::Memory) -> ReadFault {
        ReadFault::Memory
    }
}

impl From<AllocError> for ReadFault {
    ghost from_gives = { λ _ e. e ≡ Memory };

    fn from(_e: AllocError) -> ReadFault {
        ReadFault::Memory
    }
}

impl<T: Drop> From<AllocFailed<T>> for ReadFault {
    ghost from_gives = { λ _ e. e ≡ Memory };

    fn from(_e: AllocFailed<T>) -> ReadFault {
        ReadFault::Memory
    }
}
