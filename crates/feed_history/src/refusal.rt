ghost use Rattle.std.specs.Prelude.{◌≡◌, Some};
ghost use Rattle.feed_history.specs.declared.refusal.HubFault.TheVariants.{Memory};
ghost use Rattle.feed_history.specs.RefusalText.{hub_fault_text, refusal_text};

use mesh_base::memory;
use request_sim::fault::SimFault;
use std::fmt;
use watch_events::line::LineFault;

/// Why a call on the objects and subscriptions changed nothing.
#[derive(Clone, Copy, Debug, PartialEq, Eq)]
pub enum HubFault {
    Memory,
    /// The object's key is new, and the limit on objects is reached. `held` is the number of
    /// objects held.
    Full { held: u32 },
    /// The limit on live subscriptions is reached. `live` is their number.
    TooManySubs { live: u32 },
    /// The id is not above `last`, the greatest accepted id.
    IdOrder { last: u32 },
    /// No subscription is live under the id.
    NoSuchId { id: u32 },
    /// A message is longer than the limit; `bytes` is its length. Its subscription has ended.
    Oversize { bytes: u64 },
}

/// No subscription is live under the id.
#[derive(Clone, Copy, Debug, PartialEq, Eq)]
pub struct NoSuchId;

impl From<memory::Memory> for HubFault {
    ghost from_gives = { λ _ e. e ≡ Memory };

    fn from(_e: memory::Memory) -> HubFault {
        HubFault::Memory
    }
}

/// Why a line is refused.
#[derive(Debug, Drop)]
pub enum Refusal {
    /// It cannot be read.
    Line(LineFault),
    /// Its effect on the objects and subscriptions is refused.
    Hub(HubFault),
    /// It has no place in this program.
    NotHere,
    /// It would replace an object that another kind's lines stand for. For a command that keeps
    /// such objects.
    Reserved,
    /// It simulates a request, and met a regular expression that is refused.
    Sim(SimFault),
    /// It met a regular expression that is refused, in the condition of a profile's route; `place`
    /// is that of the route. For a command that looks up routes of a profile.
    Profile { place: u64 },
}

impl fmt::Display for HubFault {
    ghost output = { λ fault. Some (hub_fault_text fault) };

    fn fmt<W: fmt::Write>(&self, f: &mut fmt::Formatter<W>) -> fmt::Result {
        match *self {
            HubFault::Memory => Ok(()),
            HubFault::Full { held } => write!(f, "Full {held}"),
            HubFault::TooManySubs { live } => write!(f, "TooManySubs {live}"),
            HubFault::IdOrder { last } => write!(f, "IdOrder {last}"),
            HubFault::NoSuchId { id } => write!(f, "NoSuchId {id}"),
            HubFault::Oversize { .. } => Ok(()),
        }
    }
}

impl fmt::Display for Refusal {
    ghost output = { λ refusal. Some (refusal_text refusal) };

    fn fmt<W: fmt::Write>(&self, f: &mut fmt::Formatter<W>) -> fmt::Result {
        match self {
            Refusal::Line(fault) => write!(f, "{fault}"),
            Refusal::Hub(fault) => {
                let fault = *fault;
                write!(f, "{fault}")
            }
            Refusal::NotHere => write!(f, "NotHere"),
            Refusal::Reserved => write!(f, "Reserved"),
            Refusal::Sim(SimFault::Memory) => Ok(()),
            Refusal::Sim(SimFault::Pattern { route, rule, item }) => {
                let route = route.as_str();
                let (rule, item) = (*rule, *item);
                write!(f, "Pattern {route} {rule} {item}")
            }
            Refusal::Profile { place } => {
                let place = *place;
                write!(f, "Pattern profile {place}")
            }
        }
    }
}
