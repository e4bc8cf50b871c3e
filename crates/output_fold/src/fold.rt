ghost use Rattle.std.specs.Prelude.{◌≡◌, ◌≢◌, ◌≤◌, ◌<◌, ℕ, List, length, Some};
ghost use Rattle.mesh_outside.specs.Causes.{Rose, Unrisen};
ghost use Rattle.line_run.specs.Run.{OnEnd, OnStop, TookLimit, IsAnswered, IsTooLong};
ghost use Rattle.output_fold.specs.Headline.{WritesFolded, WritesFoldedFront};

use crate::folding::Folding;
use line_run::{Status, run_lines};
use mesh_base::limits::Limits;
use mesh_base::sub_id::SubId;
use mesh_outside::{Sink, Source};
use std::alloc::Global;
use view_fold::folding::Fold;
use view_types::query::Method;

/// Reads the lines that `replay` wrote, and writes the `view` lines that bring a subscriber without
/// a view to the view that the frames of the id give. If a line cannot be read, it writes why the
/// first such line is refused, and no view; it reads the lines after that one, and ignores them.
pub fn fold_file<S: Source, K: Sink>(
    alloc: Global,
    method: Method,
    id: SubId,
    limits: &Limits,
    input: &mut S,
    out: &mut K,
) -> Status
    requires { 1 ≤ limits.now.frame_addrs }

    // If all lines were read, what was written is the defined output, and the status says whether a
    // line could not be read.
    ensures output { OnEnd result (WritesFolded method id.0 limits.now (S.left input.old)
        (K.held out.old) (K.held out.new)) }

    // If the run ends early, what was written is a prefix of the defined output.
    ensures front { OnStop result (WritesFoldedFront method id.0 limits.now (S.left input.old)
        (K.held out.old) (K.held out.new)) }

    // The cause of each status.
    ensures read { result ≡ Status.ReadFault → Rose (S.faults input.old) (S.faults input.new) }
    ensures write { result ≡ Status.WriteFault → Rose (K.faults out.old) (K.faults out.new) }
    ensures long { result ≡ Status.InputTooLong → TookLimit limits.now.input (S.left input.old) }
    ensures complete { Unrisen (S.faults input.old) (S.faults input.new)
        → Unrisen (K.faults out.old) (K.faults out.new)
        → (bytes : List ℕ) → S.left input.old ≡ Some bytes → length bytes < limits.now.input
        → IsAnswered result }
    ensures too_long { Unrisen (S.faults input.old) (S.faults input.new)
        → Unrisen (K.faults out.old) (K.faults out.new)
        → (bytes : List ℕ) → S.left input.old ≡ Some bytes → limits.now.input ≤ length bytes
        → IsTooLong result }
    ensures usage { result ≢ Status.Usage }

    // The counts of faults never decrease, and each new fault has its status.
    ensures read_later { S.faults input.old ≤ S.faults input.new }
    ensures write_later { K.faults out.old ≤ K.faults out.new }
    ensures read_told { result ≢ Status.ReadFault → S.faults input.new ≡ S.faults input.old }
    ensures write_told { result ≢ Status.WriteFault → K.faults out.new ≡ K.faults out.old }
{
    let mut machine = Folding {
        alloc,
        method,
        id,
        limits: *limits,
        fold: Fold::new(),
        failed: false,
    };
    run_lines(alloc, *limits, &mut machine, input, out)
}
