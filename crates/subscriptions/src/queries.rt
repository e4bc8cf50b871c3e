// What a query requests.
ghost use Rattle.std.specs.Prelude.{◌≡◌, IfOk, is_some};
ghost use Rattle.view_rules.specs.Views.{as_asked};
ghost use Rattle.subscriptions.specs.Live.{endpoint_key};

use mark_rules::keys::EndpointKey;
use mesh_base::memory::Memory;
use view_types::query::Query;
use view_types::view::View;

/// Returns the key of the endpoints that a query requests, or None if it is not for endpoints.
pub fn endpoint_key(query: &Query) -> Result<Option<EndpointKey>, Memory>
    ensures { IfOk result (λ key. key ≡ endpoint_key query.now) }
{
    match query {
        Query::Get { ns, name, port, .. } => Ok(Some(EndpointKey {
            ns: ns.copy()?,
            name: name.copy()?,
            port: *port,
        })),
        _ => Ok(None),
    }
}

/// Whether a query is for endpoints.
pub fn is_for_endpoints(query: &Query) -> bool
    ensures { result ≡ is_some (endpoint_key query.now) }
{
    match query {
        Query::Get { .. } => true,
        _ => false,
    }
}

/// Converts a kept view to the form in which the query's method sends it.
pub fn as_asked(query: &Query, view: View) -> View
    ensures { result ≡ as_asked query.now view }
{
    match query {
        Query::PortRows { .. } => view.by_rows(),
        _ => view,
    }
}
