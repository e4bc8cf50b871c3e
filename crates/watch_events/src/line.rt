ghost use Rattle.std.specs.Prelude.{◌≡◌};
ghost use Rattle.watch_events.specs.declared.line.LineFault.TheVariants.{Memory};

use crate::event::Event;
use k8s_meta::fault::ReadFault;
use mesh_base::memory;
use mesh_base::sub_id::SubId;
use mesh_base::text::Text;
use view_types::query::Query;
use view_types::request::Request;

/// The contents of a line.
#[derive(Drop)]
pub enum Line {
    /// Only spaces, tabs and carriage returns, or nothing.
    Blank,
    Event(Event),
    /// Opens a subscription to the query.
    Subscribe { id: SubId, query: Query },
    /// Ends the subscription.
    Cancel { id: SubId },
    /// Sends the subscriber what has changed in its view.
    Drain { id: SubId },
    /// Requests the verdict on the request.
    Simulate(Request),
    /// Ends the program.
    Stop,
}

/// Why a line cannot be read.
#[derive(Debug, Drop)]
pub enum LineFault {
    Memory,
    /// It is longer than the limit.
    TooLong,
    NotJson,
    /// It is neither a control line nor a watch event nor a list.
    NoForm,
    /// The type of a watch event is not one of the five.
    UnknownType,
    /// The watch has failed at its source.
    ErrorEvent,
    /// No supported kind has this name in this API group.
    UnknownKind,
    /// The object, or the list of objects, has a fault.
    Object(ReadFault),
    /// The item of a list at this index has the key of an earlier one.
    RepeatedItem { place: u64 },
    /// The member of a control line is absent, or its value is not accepted there.
    BadQuery { path: Text },
}

impl From<memory::Memory> for LineFault {
    ghost from_gives = { λ _ e. e ≡ Memory };

    fn from(_e: memory::Memory) -> LineFault {
        LineFault::Memory
    }
}
