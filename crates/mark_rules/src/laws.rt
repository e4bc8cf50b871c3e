ghost use Rattle.mesh_base.specs.declared.key.Kind.TheVariants as kind;
ghost use Rattle.view_types.specs.declared.authn.RefKind.TheVariants as ref;
ghost use Rattle.mark_rules.specs.MarkLookups.{AuthzByMarks, FoundAtKeys, KeysByMark, KeysStay, PodsByMark, RouteAuthzByMark, ServerRoutesByMark, ServersByMark, ServiceRoutesByMark, ServicesByMark, SlicesByMark};
ghost use Rattle.mark_rules.specs.Changes.{AllAreCovered, PutLeads, TakenLeads};
ghost use Rattle.mark_rules.specs.ServerMatches.{FirstIsChosen, MatchesStay};
ghost use Rattle.mark_rules.specs.Laws.{AuthzStays, EndpointsStay, MarksAreOrdered, MarksStandOnce, OutboundStays, ProfilesStay, QueriesAskByRows, QueriesStay, RoutesStay, ServersStay, ViewsAreJoined, ViewsStay};

/// The order of marks is total, and equal marks are the same mark.
pub fn marks_are_ordered()
    ensures { MarksAreOrdered }
{}

/// The marks of a list of objects ascend strictly, and are exactly those of its objects.
pub fn marks_stand_once()
    ensures once { MarksStandOnce }
    ensures all { AllAreCovered }
{}

/// Putting an object changes the map by its marks and those of the object that it replaces.
/// Removing a key changes it by the marks of the object that was held.
pub fn changes_lead()
    ensures put { PutLeads }
    ensures taken { TakenLeads }
{}

/// An endpoint row that reads no mark of a change is the same after it, and reads the same.
pub fn endpoints_stay()
    ensures { EndpointsStay }
{}

/// The same holds for the profile row of a target.
pub fn profiles_stay()
    ensures { ProfilesStay }
{}

/// The same holds for the Server row of a port.
pub fn servers_stay()
    ensures { ServersStay }
{}

/// The same holds for the route row of a Server.
pub fn routes_stay()
    ensures { RoutesStay }
{}

/// The same holds for the authorization row of a Server or of a route.
pub fn authz_stays()
    ensures { AuthzStays }
{}

/// The same holds for the outbound row of a target.
pub fn outbound_stays()
    ensures { OutboundStays }
{}

/// The view of a query is joined from its rows.
pub fn views_are_joined()
    ensures { ViewsAreJoined }
{}

/// A query reads a mark of a change exactly if one of its rows does. If none does, its rows and its
/// view are the same after the change.
pub fn views_stay()
    ensures due { QueriesAskByRows }
    ensures rows { QueriesStay }
    ensures view { ViewsStay }
{}

/// The keys of a mark ascend and are exactly those of the objects with it, which are stored under
/// these keys. They are the same after a change without the mark.
pub fn keys_by_mark()
    ensures keys { KeysByMark }
    ensures found { FoundAtKeys }
    ensures stay { KeysStay }
{}

/// The objects that a row is made from are among those with the marks that it reads.
pub fn rows_by_marks()
    ensures slices { SlicesByMark }
    ensures servers { ServersByMark }
    ensures server_routes { ServerRoutesByMark }
    ensures service_routes { ServiceRoutesByMark }
    ensures authz { AuthzByMarks }
    ensures linkerd_authz { RouteAuthzByMark kind.LinkerdRoute ref.LinkerdRoute }
    ensures gateway_authz { RouteAuthzByMark kind.GatewayRoute ref.GatewayRoute }
{}

/// The Service and the Pod of an address are the objects at the first key of its mark.
pub fn addresses_by_mark()
    ensures services { ServicesByMark }
    ensures pods { PodsByMark }
{}

/// The first name among the Servers that match a port is that of the chosen Server. A Server whose
/// own mark is not of a change matches after it if and only if it did before.
pub fn matching_servers()
    ensures first { FirstIsChosen }
    ensures stay { MatchesStay }
{}
