// A relay over the lines of an input.
ghost use Rattle.std.specs.Prelude.{◌≡◌, ◌≢◌, ◌≤◌, ◌<◌, ℕ, List, length, Some};
ghost use Rattle.mesh_outside.specs.Causes.{Rose, Unrisen};
ghost use Rattle.line_run.specs.Run.{OnEnd, OnStop, TookLimit, IsAnswered, IsTooLong};
ghost use Rattle.view_relay.specs.Headline.{WritesRelayed, WritesRelayedFront};

use crate::relay::Relay;
use crate::relaying::Relaying;
use line_run::{Status, run_lines};
use mesh_base::copied::Copied;
use mesh_base::limits::Limits;
use mesh_outside::{Sink, Source};
use std::alloc::Global;
use view_types::config::Config;

/// Reads the lines of a relay to the end, and writes the output of each, or why it is refused, and
/// at the end what each live client is sent.
pub fn relay_file<S: Source, K: Sink>(
    alloc: Global,
    config: &Config,
    limits: &Limits,
    input: &mut S,
    out: &mut K,
) -> Status
    requires { 1 ≤ limits.now.frame_addrs }

    // If all lines were read, what was written is the defined output, and the status says whether a
    // line was refused.
    ensures output { OnEnd result (WritesRelayed config.now limits.now (S.left input.old)
        (K.held out.old) (K.held out.new)) }

    // If the run ends early, what was written is a prefix of the defined output.
    ensures front { OnStop result (WritesRelayedFront config.now limits.now (S.left input.old)
        (K.held out.old) (K.held out.new)) }

    // The cause of each status.
    ensures read { result ≡ Status.ReadFault → Rose (S.faults input.old) (S.faults input.new) }
    ensures write { result ≡ Status.WriteFault → Rose (K.faults out.old) (K.faults out.new) }
    ensures long { result ≡ Status.InputTooLong → TookLimit limits.now.input (S.left input.old) }
    ensures complete { Unrisen (S.faults input.old) (S.faults input.new)
        → Unrisen (K.faults out.old) (K.faults out.new)
        → (bytes : List ℕ) → S.left input.old ≡ Some bytes → length bytes < limits.now.input
        → IsAnswered result }
    ensures too_long { Unrisen (S.faults input.old) (S.faults input.new)
        → Unrisen (K.faults out.old) (K.faults out.new)
        → (bytes : List ℕ) → S.left input.old ≡ Some bytes → limits.now.input ≤ length bytes
        → IsTooLong result }
    ensures usage { result ≢ Status.Usage }

    // The counts of faults never decrease, and each new fault has its status.
    ensures read_later { S.faults input.old ≤ S.faults input.new }
    ensures write_later { K.faults out.old ≤ K.faults out.new }
    ensures read_told { result ≢ Status.ReadFault → S.faults input.new ≡ S.faults input.old }
    ensures write_told { result ≢ Status.WriteFault → K.faults out.new ≡ K.faults out.old }
{
    let Ok(config) = config.copy(alloc) else {
        return Status::Memory;
    };
    let Ok(relay) = Relay::new(alloc, config, *limits) else {
        return Status::Memory;
    };
    let mut machine = Relaying { alloc, relay };
    run_lines(alloc, *limits, &mut machine, input, out)
}
