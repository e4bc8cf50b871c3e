ghost use Rattle.std.specs.Prelude.{◌≡◌, ◌≢◌, ◌≤◌, ◌<◌, ℕ, List, length, Some};
ghost use Rattle.mesh_outside.specs.Causes.{Rose, Unrisen};
ghost use Rattle.line_run.specs.Run.{OnEnd, OnStop, TookLimit, IsAnswered, IsTooLong};
ghost use Rattle.replay_core.specs.Headline.{RefusesSome, StandsAtEnd, WritesFront, WritesOutput, WritesPlain, WritesSaid, WritesSaidFront};
ghost use Rattle.feed_history.specs.KnownPatterns.{known_over};

use crate::replaying::Replaying;
use feed_step::frames::FrameWriter;
use feed_step::reader::Plain;
use feed_step::run::Run;
use line_run::{Status, run_lines};
use mesh_base::copied::Copied;
use mesh_base::limits::Limits;
use mesh_base::list::List;
use mesh_base::steps::Steps;
use mesh_hub::machine::Machine;
use mesh_outside::{Patterns, Sink, Source};
use std::alloc::Global;
use view_types::config::Config;

/// Replays a recorded feed: reads its lines to the end and writes the output of each, or why it is
/// refused, and at the end what each live subscription is sent.
pub fn replay<H: Machine, S: Source, K: Sink, P: Patterns>(
    alloc: Global,
    hub: &mut H,
    config: &Config,
    limits: &Limits,
    input: &mut S,
    out: &mut K,
    patterns: &mut P,
) -> Status
    requires { 1 ≤ limits.now.frame_addrs }

    // If all lines were read, what was written is the defined output, each length in it is below 2
    // ^ 64, and the status says whether a line was refused.
    ensures output { OnEnd result (WritesOutput config.now limits.now
        (known_over P.Patterns patterns.old patterns.new)
        (H.state hub.old) (S.left input.old) (K.held out.old) (K.held out.new)) }

    // If no pattern was refused, no simulation met a refused one.
    ensures quiet { OnEnd result (WritesPlain config.now limits.now
        (known_over P.Patterns patterns.old patterns.new)
        (H.state hub.old) (S.left input.old) (K.held out.old) (K.held out.new)) }

    // If the run ends early, what was written is a prefix of the defined output.
    ensures front { OnStop result (WritesFront config.now limits.now
        (known_over P.Patterns patterns.old patterns.new)
        (H.state hub.old) (S.left input.old) (K.held out.old) (K.held out.new)) }

    // Whether a line was refused does not depend on what patterns match.
    ensures refused { OnEnd result (RefusesSome config.now limits.now
        (known_over P.Patterns patterns.old patterns.new)
        (H.state hub.old) (S.left input.old)) }

    // The machine's state is then that at the end of the input.
    ensures state { OnEnd result (λ refused.
        StandsAtEnd config.now limits.now (H.state hub.old) (H.state hub.new) (S.left input.old)) }

    // If the machine's replies are known, what was written is defined by the lines and the replies.
    ensures said { OnEnd result (WritesSaid config.now limits.now (H.replies hub.old)
        (H.replies hub.new) (S.left input.old) (K.held out.old) (K.held out.new)) }

    // If the run ends early, what was written is a prefix of that.
    ensures said_front { OnStop result (WritesSaidFront config.now limits.now (H.replies hub.old)
        (H.replies hub.new) (S.left input.old) (K.held out.old) (K.held out.new)) }

    // The counts of faults never decrease, and each new fault has its status.
    ensures read_later { S.faults input.old ≤ S.faults input.new }
    ensures write_later { K.faults out.old ≤ K.faults out.new }
    ensures read_told { result ≢ Status.ReadFault → S.faults input.new ≡ S.faults input.old }
    ensures write_told { result ≢ Status.WriteFault → K.faults out.new ≡ K.faults out.old }
    ensures later { P.refusals patterns.old ≤ P.refusals patterns.new }

    // The cause of each status.
    ensures read { result ≡ Status.ReadFault → Rose (S.faults input.old) (S.faults input.new) }
    ensures write { result ≡ Status.WriteFault → Rose (K.faults out.old) (K.faults out.new) }
    ensures long { result ≡ Status.InputTooLong → TookLimit limits.now.input (S.left input.old) }
    ensures complete { Unrisen (S.faults input.old) (S.faults input.new)
        → Unrisen (K.faults out.old) (K.faults out.new)
        → (bytes : List ℕ) → S.left input.old ≡ Some bytes → length bytes < limits.now.input
        → IsAnswered result }
    ensures too_long { Unrisen (S.faults input.old) (S.faults input.new)
        → Unrisen (K.faults out.old) (K.faults out.new)
        → (bytes : List ℕ) → S.left input.old ≡ Some bytes → limits.now.input ≤ length bytes
        → IsTooLong result }
    ensures usage { result ≢ Status.Usage }
{
    let Ok(copy) = config.copy(alloc) else {
        return Status::Memory;
    };
    let Ok(()) = hub.begin(copy, *limits) else {
        return Status::Memory;
    };
    let mut reader = Plain { config };
    let mut writer = FrameWriter::new(alloc);
    let mut live = List::new(alloc);
    let mut steps = Steps::<()>::new();
    let run = Run {
        reader: &mut reader,
        writer: &mut writer,
        hub,
        patterns,
        live: &mut live,
        steps: &mut steps,
    };
    let mut machine = Replaying {
        run,
        limits: *limits,
        sent: 0,
    };
    run_lines(alloc, *limits, &mut machine, input, out)
}
