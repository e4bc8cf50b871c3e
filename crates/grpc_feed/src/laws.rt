ghost use Rattle.grpc_feed.specs.Laws.{ListsByKey};

/// Ensures that a list sets the keys that it is about to its items, and changes no other key.
#[tactic(auto, using(crate::proofs::ByKey::lists_by_key))]
pub fn lists_by_key()
    ensures { ListsByKey }
{}
