ghost use Rattle.view_rules.specs.PolicyLaws.{MissingDecides, RouteOrderIsTotal, RoutesAreInOrder, RowsAreInOrder, RowsAreOfThoseThatApply, SelectsDecides, ServersAreTheLeast, StringsAreInOrder};

/// The test of a selector is true exactly if it selects the labels.
pub fn selects_decides()
    ensures { SelectsDecides }
{}

/// A port of a Pod has the Server with the least name of those of the namespace that select the Pod
/// and the port; there is none exactly if none does.
pub fn servers_are_the_least()
    ensures { ServersAreTheLeast }
{}

/// A row of authorizations is in a view exactly if it is that of an object that is held and
/// applies.
pub fn rows_are_of_those_that_apply()
    ensures { RowsAreOfThoseThatApply }
{}

/// Rows of authorizations are in order of kind and name, both of a Server and of a route.
pub fn rows_are_in_order()
    ensures { RowsAreInOrder }
{}

/// Identities and suffixes are those of the list, in byte order, each once.
pub fn strings_are_in_order()
    ensures { StringsAreInOrder }
{}

/// The routes of a view are in order of creation time, name and group, and are exactly those that
/// are held and attached. No two of them compare as equal.
pub fn routes_are_in_order()
    ensures order { RouteOrderIsTotal }
    ensures routes { RoutesAreInOrder }
{}

/// A backend is marked missing exactly if it is not a Service that is held and not ExternalName.
pub fn missing_decides()
    ensures { MissingDecides }
{}
