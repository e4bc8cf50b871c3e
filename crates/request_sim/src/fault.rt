ghost use Rattle.std.specs.Prelude.{◌≡◌};
ghost use Rattle.request_sim.specs.declared.fault.SimFault.TheVariants.{Memory};

use mesh_base::memory;
use mesh_base::text::OwnedText;

/// Why a simulation has no verdict.
#[derive(Debug, Drop)]
pub enum SimFault {
    Memory,
    /// A regular expression was refused. It is in a match of a route that is attached to the Server
    /// of the port.
    Pattern {
        /// The route, as `namespace/name`.
        route: OwnedText,
        /// The index of the rule, from 0.
        rule: u64,
        /// The index of the match in the rule, from 0.
        item: u64,
    },
}

impl From<memory::Memory> for SimFault {
    ghost from_gives = { λ _ e. e ≡ Memory };

    fn from(_e: memory::Memory) -> SimFault {
        SimFault::Memory
    }
}
