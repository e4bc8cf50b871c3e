ghost use Rattle.view_rules.specs.Laws.{EndpointsAreOrderly, FirstRowsAreFirst, PairsAreGiven, PodsAreTheLeast, RowsAreOfTheLeast, SameAuthzDecides, SameOutboundDecides, SameProfileDecides, SameRowDecides, SameServerDecides, ServicesAreTheLeast, SlicesByName, ViewsAreOrderly};
ghost use Rattle.view_rules.specs.RowLaws.{RowOfSaysOfThePod, RowsSayOfTheirPods};

/// A pair of address and port is in a view exactly if some place yields it.
pub fn pairs_are_given()
    ensures { PairsAreGiven }
{}

/// Rows are in order of address and port, each pair once, by the first row of the pair.
pub fn first_rows_are_first()
    ensures { FirstRowsAreFirst }
{}

/// The slices of a Service are in the order of their names, so that the first place is the least.
pub fn slices_by_name()
    ensures { SlicesByName }
{}

/// The rows of each view are in order, and a Service that does not exist has none.
pub fn endpoints_are_orderly()
    ensures { EndpointsAreOrderly }
{}

/// The rows of each view that is sent by rows are in order.
pub fn views_are_orderly()
    ensures { ViewsAreOrderly }
{}

/// The row of an address and port comes from the least place that yields it: by slice name,
/// endpoint, address and port.
pub fn rows_are_of_the_least()
    ensures { RowsAreOfTheLeast }
{}

/// Each row of a view of a Service has the address and port of its least place, and holds exactly
/// what the Pod adds that the endpoint targets, if it is held. The same is true of a row for the
/// Pod at an address.
pub fn rows_say_of_their_pods()
    ensures endpoints { RowsSayOfTheirPods }
    ensures of_pod { RowOfSaysOfThePod }
{}

/// The Service and the Pod of an address are the least by namespace and name of those held that
/// have it; there is none exactly if none has it.
pub fn addresses_lead_to_the_least()
    ensures services { ServicesAreTheLeast }
    ensures pods { PodsAreTheLeast }
{}

/// The test of two rows is true exactly if they are equal.
pub fn same_row_decides()
    ensures { SameRowDecides }
{}

/// The test of two profiles is true exactly if they are equal.
pub fn same_profile_decides()
    ensures { SameProfileDecides }
{}

/// The test of two authorizations is true exactly if they are equal.
pub fn same_authz_decides()
    ensures { SameAuthzDecides }
{}

/// The test of two inbound views is true exactly if they are equal.
pub fn same_server_decides()
    ensures { SameServerDecides }
{}

/// The test of two outbound views is true exactly if they are equal.
pub fn same_outbound_decides()
    ensures { SameOutboundDecides }
{}
