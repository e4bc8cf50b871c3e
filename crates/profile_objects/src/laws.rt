ghost use Rattle.profile_objects.specs.Laws.{ProfilesAreLawful, RequestsAreTheirTable, ResponsesAreTheirTable};

/// A match is read as its table defines, with the matches in it read as matches. No other reading
/// has this property.
#[tactic(auto, using(crate::proofs::Tables::request_is, crate::proofs::Tables::response_is))]
pub fn matches_are_their_tables()
    ensures requests { RequestsAreTheirTable }
    ensures responses { ResponsesAreTheirTable }
{}

/// Each profile that is read is lawful.
#[tactic(auto, using(crate::proofs::Lawfully::profile_gives))]
pub fn profiles_are_lawful()
    ensures { ProfilesAreLawful }
{}
