ghost use Rattle.mesh_hub.specs.Calls.{CallsAreHistories};

/// States that after any calls on a new hub, in any order, its state is that after some history, so
/// that the laws of histories apply to it.
#[tactic(auto, using(crate::proofs::Calls::calls_are_histories))]
pub fn calls_are_histories()
    ensures { CallsAreHistories }
{}
