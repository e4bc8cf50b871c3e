ghost use Rattle.route_objects.specs.Laws.{BackendsAreLawful, HeaderFiltersAreLawful, NameMatchesAreLawful, ParentsAreLawful, RoutesAreLawful};

/// Each route that is read is lawful.
#[tactic(auto, using(crate::proofs::Lawfully::route_gives))]
pub fn routes_are_lawful()
    ensures { RoutesAreLawful }
{}

/// So are the parts that routes of other kinds have, too.
#[tactic(auto, using(crate::proofs::ParentLaw::parents, crate::proofs::Parts::backend_gives, crate::proofs::Parts::name_match_gives, crate::proofs::Parts::headers_gives))]
pub fn parts_are_lawful()
    ensures parents { ParentsAreLawful }
    ensures backends { BackendsAreLawful }
    ensures names { NameMatchesAreLawful }
    ensures headers { HeaderFiltersAreLawful }
{}
