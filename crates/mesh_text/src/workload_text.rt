ghost use Rattle.mesh_text.specs.Answers.{Answers};
ghost use Rattle.mesh_text.specs.Workloads.{workload_of};

use crate::name::name_text;
use crate::target_text::TargetFault;
use k8s_meta::names::is_name;
use mesh_base::pieces::cut;
use mesh_base::text::Text;
use std::alloc::Global;

/// Parses `namespace:pod`. Returns the namespace and the name, which have the bytes and the length
/// of a name. Any other string is `Bad`.
#[tactic(auto, using(crate::proofs::Pieces::workload_more), unfolding(crate::specs::Workloads::workload_of))]
pub fn read_workload(alloc: Global, text: &[u8]) -> Result<(Text, Text), TargetFault>
    ensures { Answers (workload_of text.now) result }
{
    let Some((ns, pod)) = cut(text, b':') else {
        return Err(TargetFault::Bad);
    };
    if cut(pod, b':').is_some() {
        return Err(TargetFault::Bad);
    }
    if !is_name(ns) || !is_name(pod) {
        return Err(TargetFault::Bad);
    }
    Ok((name_text(alloc, ns)?, name_text(alloc, pod)?))
}
