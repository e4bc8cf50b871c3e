ghost use Rattle.route_match.specs.Matching.{BestIsFirst, CandidatesAreThoseThatHold};

/// A match is in the list of candidates exactly if its route, its rule and the match itself exist
/// and it holds. Its merit is its own, and the list is in the order of the indexes.
pub fn candidates_are_those_that_hold()
    ensures { CandidatesAreThoseThatHold }
{}

/// The best match is the first of the best of those that hold.
pub fn best_is_first()
    ensures { BestIsFirst }
{}
