ghost use Rattle.std.specs.Prelude.{◌≡◌};
ghost use Rattle.watch_events.specs.declared.line.LineFault.TheVariants as faults;
ghost use Rattle.grpc_feed.specs.declared.fault.GrpcFault.TheVariants.{Line};

use mesh_base::memory;
use watch_events::line::LineFault;

/// Why a line of a feed with GRPCRoutes is refused unread.
#[derive(Debug, Drop)]
pub enum GrpcFault {
    /// It cannot be read.
    Line(LineFault),
    /// It is about an HTTPRoute with a name of a lowered GRPCRoute.
    Reserved,
}

impl From<memory::Memory> for GrpcFault {
    ghost from_gives = { λ _ e. e ≡ Line faults.Memory };

    fn from(_e: memory::Memory) -> GrpcFault {
        GrpcFault::Line(LineFault::Memory)
    }
}
