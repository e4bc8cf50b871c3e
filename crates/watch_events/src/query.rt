ghost use Rattle.std.specs.Prelude.{◌≡◌, IfOk, Ok, option_and_then};
ghost use Rattle.k8s_meta.specs.Spots.{Reads, ◌·◌, seen};
ghost use Rattle.k8s_meta.specs.Words.{default};
ghost use Rattle.k8s_meta.specs.declared.key.Key.TheVariants as keys;
ghost use Rattle.mesh_text.specs.Targets.{target_of};
ghost use Rattle.mesh_text.specs.Workloads.{workload_of};
ghost use Rattle.view_types.specs.Ports.{query_by_rows, query_whole};
ghost use Rattle.watch_events.specs.Queries.{context_at, get_at, no_context, policy_at, port_at, profile_at, service_port, service_port_at, target_at, traffic_at, workload_at};

use k8s_meta::fault::{ReadFault, What};
use k8s_meta::key::Key;
use k8s_meta::place::Place;
use k8s_meta::reader::Reader;
use k8s_meta::words::PORT;
use mesh_base::memory::Memory;
use mesh_base::text::Text;
use mesh_text::target_text::{TargetFault, read_target};
use mesh_text::token::read_context;
use mesh_text::workload_text::read_workload;
use std::alloc::Global;
use view_types::config::Config;
use view_types::query::{Context, PodPort, Query, Target};

/// A port of a Service.
#[derive(Drop)]
pub struct ServicePort {
    pub ns: Text,
    pub name: Text,
    pub port: u16,
}

/// Parses a target. None if the string is not one.
fn target_of(alloc: Global, config: &Config, text: &str) -> Result<Option<Target>, Memory>
    ensures { IfOk result (λ target. target ≡ target_of config.now text.now) }
{
    match read_target(alloc, text.as_bytes(), config) {
        Ok(target) => Ok(Some(target)),
        Err(TargetFault::Bad) => Ok(None),
        Err(TargetFault::Memory) => Err(Memory),
    }
}

/// Parses a workload: the namespace and the name of a Pod. None if the string is not one.
fn workload_of(alloc: Global, text: &str) -> Result<Option<(Text, Text)>, Memory>
    ensures { IfOk result (λ pod. pod ≡ workload_of text.now) }
{
    match read_workload(alloc, text.as_bytes()) {
        Ok(pod) => Ok(Some(pod)),
        Err(TargetFault::Bad) => Ok(None),
        Err(TargetFault::Memory) => Err(Memory),
    }
}

fn service_port(target: Option<Target>) -> Option<ServicePort>
    ensures { result ≡ option_and_then service_port target }
{
    match target {
        Some(Target::Service { ns, name, port }) => Some(ServicePort { ns, name, port }),
        _ => None,
    }
}

/// Any target.
#[derive(Clone, Copy)]
pub struct AnyTarget<'c> {
    pub config: &'c Config,
}

impl Reader for AnyTarget<'_> {
    type Made = Target;

    ghost reading = { λ reader. target_at reader.config.now };

    #[tactic(auto, unfolding(k8s_meta::specs::Spots::then, crate::specs::Queries::target_at))]
    fn read<'a>(&self, place: &'a Place<'a>) -> Result<Target, ReadFault> {
        let text = place.text()?;
        place.valid(What::Choice, target_of(place.alloc(), self.config, text)?)
    }
}

/// A target that is a port of a Service.
#[derive(Clone, Copy)]
struct ServiceTarget<'c> {
    config: &'c Config,
}

impl Reader for ServiceTarget<'_> {
    type Made = ServicePort;

    ghost reading = { λ reader. service_port_at reader.config.now };

    #[tactic(auto, unfolding(k8s_meta::specs::Spots::then, crate::specs::Queries::service_port_at))]
    fn read<'a>(&self, place: &'a Place<'a>) -> Result<ServicePort, ReadFault> {
        let text = place.text()?;
        let target = target_of(place.alloc(), self.config, text)?;
        place.valid(What::Choice, service_port(target))
    }
}

/// A Pod.
#[derive(Clone, Copy)]
pub struct Workload;

impl Reader for Workload {
    type Made = (Text, Text);

    ghost reading = { λ _. workload_at };

    #[tactic(auto, unfolding(k8s_meta::specs::Spots::then, crate::specs::Queries::workload_at))]
    fn read<'a>(&self, place: &'a Place<'a>) -> Result<(Text, Text), ReadFault> {
        let text = place.text()?;
        place.valid(What::Choice, workload_of(place.alloc(), text)?)
    }
}

/// What a client declares about itself.
#[derive(Clone, Copy)]
pub struct ContextToken;

impl Reader for ContextToken {
    type Made = Context;

    ghost reading = { λ _. context_at };

    #[tactic(auto, unfolding(k8s_meta::specs::Spots::then, crate::specs::Queries::context_at))]
    fn read<'a>(&self, place: &'a Place<'a>) -> Result<Context, ReadFault> {
        let text = place.text()?;
        Ok(read_context(place.alloc(), text.as_bytes())?)
    }
}

/// Reads what the client of a query declares about itself, if anything.
fn read_client<'a>(query: &'a Place<'a>) -> Result<Context, ReadFault>
    ensures { Reads result (default no_context context_at ((seen query.now) · keys.Token)) }
{
    let none = Context {
        ns: None,
        node: None,
    };
    query.default(Key::Token, &ContextToken, none)
}

/// Reads a query for the profile of a target.
#[tactic(auto, unfolding(k8s_meta::specs::Spots::then, crate::specs::Queries::profile_at))]
pub fn read_profile<'a>(config: &Config, query: &'a Place<'a>) -> Result<Query, ReadFault>
    ensures { Reads result (profile_at config.now (seen query.now)) }
{
    let target = query.required(Key::Path, &AnyTarget { config })?;
    let ctx = read_client(query)?;
    Ok(Query::Profile { target, ctx })
}

/// Reads a query for the endpoints of a port of a Service.
#[tactic(auto, unfolding(k8s_meta::specs::Spots::then, crate::specs::Queries::get_at))]
pub fn read_get<'a>(config: &Config, query: &'a Place<'a>) -> Result<Query, ReadFault>
    ensures { Reads result (get_at config.now (seen query.now)) }
{
    let target = query.required(Key::Path, &ServiceTarget { config })?;
    let ctx = read_client(query)?;
    Ok(Query::Get {
        ns: target.ns,
        name: target.name,
        port: target.port,
        ctx,
    })
}

/// Reads a port of a Pod.
#[tactic(auto, unfolding(k8s_meta::specs::Spots::then, crate::specs::Queries::port_at))]
fn port_at<'a>(query: &'a Place<'a>) -> Result<PodPort, ReadFault>
    ensures { Reads result (port_at (seen query.now)) }
{
    let (ns, pod) = query.required(Key::Workload, &Workload)?;
    let port = query.required(Key::Port, &PORT)?;
    Ok(PodPort { ns, pod, port })
}

/// Reads a query for the policy of a port of a Pod.
#[tactic(auto, unfolding(k8s_meta::specs::Spots::then, crate::specs::Queries::policy_at))]
pub fn read_port<'a>(query: &'a Place<'a>) -> Result<Query, ReadFault>
    ensures { Reads result (policy_at query_whole (seen query.now)) }
{
    let port = port_at(query)?;
    Ok(port.whole())
}

/// Reads the same query with messages that carry what changes.
#[tactic(auto, unfolding(k8s_meta::specs::Spots::then, crate::specs::Queries::policy_at))]
pub fn read_port_rows<'a>(query: &'a Place<'a>) -> Result<Query, ReadFault>
    ensures { Reads result (policy_at query_by_rows (seen query.now)) }
{
    let port = port_at(query)?;
    Ok(port.by_rows())
}

/// Reads a query for the destination of traffic to a target.
#[tactic(auto, unfolding(k8s_meta::specs::Spots::then, crate::specs::Queries::traffic_at))]
pub fn read_traffic<'a>(config: &Config, query: &'a Place<'a>) -> Result<Query, ReadFault>
    ensures { Reads result (traffic_at config.now (seen query.now)) }
{
    let target = query.required(Key::Path, &AnyTarget { config })?;
    Ok(Query::Traffic { target })
}
