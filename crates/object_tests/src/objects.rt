use crate::told::{put_line, put_lines, told};
use k8s_core::pod::read_pod;
use k8s_core::service::read_service;
use k8s_core::slice::read_slice;
use k8s_meta::fault::ReadFault;
use k8s_meta::meta::read_meta;
use mesh_base::boxed::Boxed;
use mesh_base::key::Kind;
use policy_objects::authn::{read_mesh_authn, read_net_authn};
use policy_objects::authz_policy::read_authz_policy;
use policy_objects::server::read_server;
use policy_objects::server_authz::read_server_authz;
use profile_objects::profile::read_profile;
use route_objects::route::read_route;
use row_file::TrialFault;
use serde_json::Value;
use std::alloc::Global;
use view_types::object::Object;

/// The object that is read, if there is such a kind.
pub fn read_object(alloc: Global, kind: &str, value: &Value) -> Result<Option<Object>, ReadFault> {
    let at = "object";
    Ok(Some(match kind {
        "Pod" => Object::Pod(Boxed::new(alloc, read_pod(alloc, value, at)?)?),
        "Service" => Object::Service(Boxed::new(alloc, read_service(alloc, value, at)?)?),
        "EndpointSlice" => {
            Object::EndpointSlice(Boxed::new(alloc, read_slice(alloc, value, at)?)?)
        }
        "ServiceProfile" => {
            Object::ServiceProfile(Boxed::new(alloc, read_profile(alloc, value, at)?)?)
        }
        "Server" => Object::Server(Boxed::new(alloc, read_server(alloc, value, at)?)?),
        "ServerAuthorization" => {
            Object::ServerAuthorization(Boxed::new(alloc, read_server_authz(alloc, value, at)?)?)
        }
        "AuthorizationPolicy" => {
            Object::AuthorizationPolicy(Boxed::new(alloc, read_authz_policy(alloc, value, at)?)?)
        }
        "MeshTLSAuthentication" => {
            Object::MeshTLSAuthentication(Boxed::new(alloc, read_mesh_authn(alloc, value, at)?)?)
        }
        "NetworkAuthentication" => {
            Object::NetworkAuthentication(Boxed::new(alloc, read_net_authn(alloc, value, at)?)?)
        }
        "LinkerdRoute" => {
            let route = read_route(alloc, Kind::LinkerdRoute, value, at)?;
            Object::LinkerdRoute(Boxed::new(alloc, route)?)
        }
        "GatewayRoute" => {
            let route = read_route(alloc, Kind::GatewayRoute, value, at)?;
            Object::GatewayRoute(Boxed::new(alloc, route)?)
        }
        _ => return Ok(None),
    }))
}

/// What is read of a JSON text, or the fault.
fn reading(alloc: Global, kind: &str, text: &str) -> Result<String, TrialFault> {
    let Ok(value) = Value::from_str(alloc, text) else {
        return Err(TrialFault::new("no JSON"));
    };
    if kind == "Meta" {
        return match read_meta(alloc, &value, "object") {
            Ok(meta) => told(alloc, &meta),
            Err(fault) => told(alloc, &fault),
        };
    }
    match read_object(alloc, kind, &value) {
        Ok(Some(object)) => told(alloc, &object),
        Ok(None) => Err(TrialFault::new("no kind has this name")),
        Err(fault) => told(alloc, &fault),
    }
}

/// Reads the input as one object.
pub fn object(alloc: Global, kind: &str, input: &str, out: &mut String) -> Result<(), TrialFault> {
    put_lines(out, reading(alloc, kind, input)?.as_str())
}

/// Reads each line of the input as an object.
pub fn objects(alloc: Global, kind: &str, input: &str, out: &mut String) -> Result<(), TrialFault> {
    for line in input.lines() {
        put_line(out, reading(alloc, kind, line)?.as_str())?;
    }
    Ok(())
}
