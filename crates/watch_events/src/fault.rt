ghost use Rattle.std.specs.Prelude.{◌≡◌};
ghost use Rattle.watch_events.specs.Reading.{object_fault, query_fault};

use crate::line::LineFault;
use k8s_meta::fault::ReadFault;

/// Returns the fault of a line whose object, or whose list, has this fault.
pub fn object_fault(fault: ReadFault) -> LineFault
    ensures { result ≡ object_fault fault }
{
    match fault {
        ReadFault::Memory => LineFault::Memory,
        fault => LineFault::Object(fault),
    }
}

/// Returns the fault of a control line whose member has this fault.
pub fn query_fault(fault: ReadFault) -> LineFault
    ensures { result ≡ query_fault fault }
{
    match fault {
        ReadFault::Memory => LineFault::Memory,
        ReadFault::Missing { path } => LineFault::BadQuery { path },
        ReadFault::WrongType { path } => LineFault::BadQuery { path },
        ReadFault::BadName { path } => LineFault::BadQuery { path },
        ReadFault::BadValue { path, .. } => LineFault::BadQuery { path },
    }
}
