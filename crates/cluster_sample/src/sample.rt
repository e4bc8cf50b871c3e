ghost use Rattle.std.specs.Prelude.{◌≡◌, ◌≢◌, ◌≤◌, ◌<◌, length, Some};
ghost use Rattle.mesh_outside.specs.Causes.{Rose, Unrisen};
ghost use Rattle.line_run.specs.Run.{OnEnd, OnStop, IsAnswered, IsTooLong};
ghost use Rattle.gen_cluster.specs.Generated.{generated};
ghost use Rattle.replay_core.specs.Headline.{StandsAtEnd};
ghost use Rattle.feed_history.specs.KnownPatterns.{known_over};
ghost use Rattle.cluster_sample.specs.Headline.{WritesSample, WritesSampleFront};

use crate::counting::write_counts;
use crate::counts::count_lines;
use gen_cluster::cluster::generate;
use line_run::Status;
use mesh_base::limits::Limits;
use mesh_hub::machine::Machine;
use mesh_outside::{Patterns, Sink, SinkFault, SureSink, SureSource};
use replay_core::replay::replay;
use std::alloc::Global;
use view_types::config::Config;

/// Replays the lines of the generated cluster of n Services, and writes one line with counts of
/// them and of the output: refused lines, frames, the bytes of the frames with the five bytes
/// before each message, and verdicts.
pub fn sample<H: Machine, K: Sink, P: Patterns>(
    alloc: Global,
    hub: &mut H,
    config: &Config,
    limits: &Limits,
    n: u32,
    out: &mut K,
    patterns: &mut P,
) -> Status
    requires { 1 ≤ limits.now.frame_addrs }

    // If all lines were replayed, the counts of the replay's output were written, and the status
    // says whether a line was refused.
    ensures output { OnEnd result (WritesSample config.now limits.now
        (known_over P.Patterns patterns.old patterns.new)
        (H.state hub.old) (H.replies hub.old) (H.replies hub.new) n (K.held out.old)
        (K.held out.new)) }

    // If the run ends early, nothing was written, or a prefix of the counts.
    ensures front { OnStop result (WritesSampleFront config.now limits.now
        (known_over P.Patterns patterns.old patterns.new)
        (H.state hub.old) (H.replies hub.old) (H.replies hub.new) n (K.held out.old)
        (K.held out.new)) }

    // The machine's state is then that at the end of the lines.
    ensures state { OnEnd result (λ refused.
        StandsAtEnd config.now limits.now (H.state hub.old) (H.state hub.new)
        (Some (generated n))) }

    // The counts of faults and refusals never decrease, and each new fault has its status.
    ensures later { P.refusals patterns.old ≤ P.refusals patterns.new }
    ensures write_later { K.faults out.old ≤ K.faults out.new }
    ensures write_told { result ≢ Status.WriteFault → K.faults out.new ≡ K.faults out.old }

    // The cause of each status.
    ensures read { result ≢ Status.ReadFault }
    ensures write { result ≡ Status.WriteFault → Rose (K.faults out.old) (K.faults out.new) }
    ensures long { result ≡ Status.InputTooLong → limits.now.input ≤ length (generated n) }
    ensures complete { Unrisen (K.faults out.old) (K.faults out.new)
        → length (generated n) < limits.now.input → IsAnswered result }
    ensures too_long { Unrisen (K.faults out.old) (K.faults out.new)
        → limits.now.input ≤ length (generated n) → IsTooLong result }
    ensures usage { result ≢ Status.Usage }
{
    let Ok(lines) = generate(alloc, n) else {
        return Status::Memory;
    };
    let mut input = SureSource {
        bytes: lines.as_slice(),
    };
    let mut written = SureSink {
        bytes: Vec::new(alloc),
    };
    let status = replay(
        alloc,
        hub,
        config,
        limits,
        &mut input,
        &mut written,
        patterns,
    );
    match status {
        Status::Done | Status::SomeRefused => {
            let count = count_lines(lines.as_slice());
            match write_counts(alloc, limits, n, count, &written.bytes, out) {
                Ok(()) => status,
                Err(SinkFault::Failed) => Status::WriteFault,
                Err(SinkFault::Memory) => Status::Memory,
            }
        }
        stopped => stopped,
    }
}
