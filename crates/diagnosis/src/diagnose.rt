ghost use Rattle.std.specs.Prelude.{◌≡◌, ◌≢◌, ◌≤◌, ◌<◌, ℕ, List, length, Some};
ghost use Rattle.mesh_outside.specs.Causes.{Rose, Unrisen};
ghost use Rattle.line_run.specs.Run.{OnEnd, OnStop, TookLimit, IsAnswered, IsTooLong};
ghost use Rattle.diagnosis.specs.Headline.{WritesDiagnosed, WritesDiagnosedFront};

use crate::diagnosing::Diagnosing;
use line_run::{Status, run_lines};
use mesh_base::limits::Limits;
use mesh_base::sub_id::SubId;
use mesh_outside::{Sink, Source};
use object_store::store::Store;
use std::alloc::Global;
use view_types::config::Config;
use view_types::query::Query;

/// Reads a recorded feed to its end and writes why each refused line is refused, and then `view`
/// lines with this id: the messages that bring a subscriber without a view to the view of the query
/// over the objects then held.
pub fn diagnose<S: Source, K: Sink>(
    alloc: Global,
    config: &Config,
    limits: &Limits,
    id: SubId,
    query: &Query,
    input: &mut S,
    out: &mut K,
) -> Status
    requires { 1 ≤ limits.now.frame_addrs }

    // At the end of the input, what was written is the defined output, and the status says whether
    // a line was refused.
    ensures output { OnEnd result (WritesDiagnosed config.now limits.now id.0 query.now
        (S.left input.old) (K.held out.old) (K.held out.new)) }

    // If the run ends early, what was written is a prefix of the defined output.
    ensures front { OnStop result (WritesDiagnosedFront config.now limits.now id.0 query.now
        (S.left input.old) (K.held out.old) (K.held out.new)) }

    // The cause of each status.
    ensures read { result ≡ Status.ReadFault → Rose (S.faults input.old) (S.faults input.new) }
    ensures write { result ≡ Status.WriteFault → Rose (K.faults out.old) (K.faults out.new) }
    ensures long { result ≡ Status.InputTooLong → TookLimit limits.now.input (S.left input.old) }
    ensures complete { Unrisen (S.faults input.old) (S.faults input.new)
        → Unrisen (K.faults out.old) (K.faults out.new)
        → (bytes : List ℕ) → S.left input.old ≡ Some bytes → length bytes < limits.now.input
        → IsAnswered result }
    ensures too_long { Unrisen (S.faults input.old) (S.faults input.new)
        → Unrisen (K.faults out.old) (K.faults out.new)
        → (bytes : List ℕ) → S.left input.old ≡ Some bytes → limits.now.input ≤ length bytes
        → IsTooLong result }
    ensures usage { result ≢ Status.Usage }

    // The counts of faults never decrease, and each new fault has its status.
    ensures read_later { S.faults input.old ≤ S.faults input.new }
    ensures write_later { K.faults out.old ≤ K.faults out.new }
    ensures read_told { result ≢ Status.ReadFault → S.faults input.new ≡ S.faults input.old }
    ensures write_told { result ≢ Status.WriteFault → K.faults out.new ≡ K.faults out.old }
{
    let mut machine = Diagnosing {
        alloc,
        config,
        limits: *limits,
        id,
        query,
        store: Store::new(alloc, limits.objects),
    };
    run_lines(alloc, *limits, &mut machine, input, out)
}
