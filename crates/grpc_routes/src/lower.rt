ghost use Rattle.std.specs.Prelude.{◌≡◌, IfOk, None, Some};
ghost use Rattle.grpc_routes.specs.Lowered.{call_path, lowered, lowered_match, lowered_name, lowered_path, lowered_rule, method_pattern, parts_pattern, service_path};

use crate::route::{GrpcMatch, GrpcRoute, GrpcRule};
use k8s_meta::meta::Meta;
use mesh_base::copied::Copied;
use mesh_base::key::Kind;
use mesh_base::list::List;
use mesh_base::memory::Memory;
use mesh_base::text::Text;
use std::alloc::Global;
use view_types::route::{HttpMatch, PathMatch, Route, Rule};

/// Returns the HTTPRoute of gateway.networking.k8s.io that a GRPCRoute is lowered to.
pub fn lower(alloc: Global, route: &GrpcRoute) -> Result<Route, Memory>
    ensures { IfOk result (λ made. made ≡ lowered route.now) }
{
    let mut rules = List::new(alloc);
    for rule in route.rules.as_slice() {
        rules.add(lower_rule(alloc, rule)?)?;
    }
    Ok(Route {
        kind: Kind::GatewayRoute,
        meta: Meta {
            ns: route.meta.ns.copy()?,
            name: lowered_name(alloc, route.meta.name.as_str())?,
            labels: route.meta.labels.copy(alloc)?,
            notes: route.meta.notes.copy(alloc)?,
            created: route.meta.created.copy(alloc)?,
        },
        parents: route.parents.copy(alloc)?,
        hosts: route.hosts.copy(alloc)?,
        rules,
    })
}

/// Returns the name of the HTTPRoute that a GRPCRoute of this name is lowered to.
pub fn lowered_name(alloc: Global, name: &str) -> Result<Text, Memory>
    ensures { IfOk result (λ made. made ≡ lowered_name name.now) }
{
    let mut text = String::from_str(alloc, name)?;
    text.push_str(".grpc")?;
    Text::from_string(text)
}

fn lower_rule(alloc: Global, rule: &GrpcRule) -> Result<Rule, Memory>
    ensures { IfOk result (λ made. made ≡ lowered_rule rule.now) }
{
    let mut matches = List::new(alloc);
    for item in rule.matches.as_slice() {
        matches.add(lower_match(alloc, item)?)?;
    }
    Ok(Rule {
        matches,
        filters: rule.filters.copy(alloc)?,
        backends: rule.backends.copy(alloc)?,
        request_timeout: None,
        backend_timeout: None,
    })
}

fn lower_match(alloc: Global, item: &GrpcMatch) -> Result<HttpMatch, Memory>
    ensures { IfOk result (λ made. made ≡ lowered_match item.now) }
{
    Ok(HttpMatch {
        path: lowered_path(alloc, item)?,
        headers: item.headers.copy(alloc)?,
        query: List::new(alloc),
        method: Some(Text::from_str(alloc, "POST")?),
    })
}

fn lowered_path(alloc: Global, item: &GrpcMatch) -> Result<PathMatch, Memory>
    ensures { IfOk result (λ made.
        made ≡ lowered_path item.now.service item.now.method item.now.regex) }
{
    match &item.service {
        Some(service) => match &item.method {
            Some(method) => path_of_both(alloc, service.as_str(), method.as_str(), item.regex),
            None => path_of_service(alloc, service.as_str(), item.regex),
        },
        None => match &item.method {
            Some(method) => path_of_method(alloc, method.as_str(), item.regex),
            None => Ok(PathMatch::Prefix(Text::from_str(alloc, "/")?)),
        },
    }
}

fn path_of_both(
    alloc: Global,
    service: &str,
    method: &str,
    regex: bool,
) -> Result<PathMatch, Memory>
    ensures { IfOk result (λ made. made ≡ lowered_path (Some service.now) (Some method.now) regex) }
{
    if regex {
        Ok(PathMatch::Regex(parts_pattern(alloc, service, method)?))
    } else {
        Ok(PathMatch::Exact(call_path(alloc, service, method)?))
    }
}

fn path_of_service(alloc: Global, service: &str, regex: bool) -> Result<PathMatch, Memory>
    ensures { IfOk result (λ made. made ≡ lowered_path (Some service.now) None regex) }
{
    if regex {
        Ok(PathMatch::Regex(parts_pattern(alloc, service, ANY_NAME)?))
    } else {
        Ok(PathMatch::Prefix(service_path(alloc, service)?))
    }
}

fn path_of_method(alloc: Global, method: &str, regex: bool) -> Result<PathMatch, Memory>
    ensures { IfOk result (λ made. made ≡ lowered_path None (Some method.now) regex) }
{
    if regex {
        Ok(PathMatch::Regex(parts_pattern(alloc, ANY_NAME, method)?))
    } else {
        Ok(PathMatch::Regex(method_pattern(alloc, method)?))
    }
}

/// A regular expression for any name.
const ANY_NAME: &str = "[^/]+";

fn call_path(alloc: Global, service: &str, method: &str) -> Result<Text, Memory>
    ensures { IfOk result (λ made. made ≡ call_path service.now method.now) }
{
    let mut path = String::from_str(alloc, "/")?;
    path.push_str(service)?;
    path.push_str("/")?;
    path.push_str(method)?;
    Text::from_string(path)
}

fn service_path(alloc: Global, service: &str) -> Result<Text, Memory>
    ensures { IfOk result (λ made. made ≡ service_path service.now) }
{
    let mut path = String::from_str(alloc, "/")?;
    path.push_str(service)?;
    Text::from_string(path)
}

fn method_pattern(alloc: Global, method: &str) -> Result<Text, Memory>
    ensures { IfOk result (λ made. made ≡ method_pattern method.now) }
{
    let mut pattern = String::from_str(alloc, "/[^/]+/")?;
    pattern.push_str(method)?;
    Text::from_string(pattern)
}

fn parts_pattern(alloc: Global, service: &str, method: &str) -> Result<Text, Memory>
    ensures { IfOk result (λ made. made ≡ parts_pattern service.now method.now) }
{
    let mut pattern = String::from_str(alloc, "/(?:")?;
    pattern.push_str(service)?;
    pattern.push_str(")/(?:")?;
    pattern.push_str(method)?;
    pattern.push_str(")")?;
    Text::from_string(pattern)
}
