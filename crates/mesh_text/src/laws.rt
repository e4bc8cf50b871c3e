ghost use Rattle.mesh_text.specs.FullNames.{EachFullNameLeadsToItsService};

/// A Service whose names have no dot is reached at port 80 by its full name.
pub fn full_names_lead()
    ensures { EachFullNameLeadsToItsService }
{}
