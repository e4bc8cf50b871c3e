ghost use Rattle.std.specs.Prelude.{◌≡◌, IfOk, None, Some};
ghost use Rattle.std.specs.Option.{option_copied};
ghost use Rattle.view_rules.specs.PodRows.{labels_of, row_of};
ghost use Rattle.view_scratch.specs.Parts.{endpoint_of, mesh_of, row_at, row_with};

use k8s_meta::ports::Ports;
use mesh_base::copied::Copied;
use mesh_base::labels::Labels;
use mesh_base::memory::Memory;
use mesh_base::text::Text;
use mesh_text::mesh::{identity_of, is_meshed, opaque_ports};
use net_cidr::ip::Ip;
use std::alloc::Global;
use view_types::config::Config;
use view_types::endpoint::EndpointRow;
use view_types::pod::Pod;

/// The weight of an endpoint.
const WEIGHT: u32 = 10_000;

/// The port at which proxies accept tunnelled connections.
const TUNNEL_PORT: u16 = 4143;

/// The part of the rows of an endpoint that is the same for each address and port.
#[derive(Drop)]
pub(crate) struct Endpoint {
    labels: Labels,
    mesh: Option<Mesh>,
}

/// The part for a meshed Pod.
#[derive(Drop)]
pub(crate) struct Mesh {
    identity: Text,
    opaque: Ports,
}

impl Endpoint {
    /// Creates the endpoint of a Pod, or of an address and port alone.
    pub(crate) fn of(alloc: Global, config: &Config, pod: Option<&Pod>) -> Result<Endpoint, Memory>
        ensures { IfOk result (λ endpoint.
            endpoint ≡ endpoint_of config.now (option_copied pod.entry)) }
    {
        match pod {
            Some(pod) => Endpoint::of_pod(alloc, config, pod),
            None => Ok(Endpoint {
                labels: Labels::new(alloc),
                mesh: None,
            }),
        }
    }

    fn of_pod(alloc: Global, config: &Config, pod: &Pod) -> Result<Endpoint, Memory>
        ensures { IfOk result (λ endpoint. endpoint ≡ endpoint_of config.now (Some pod.now)) }
    {
        Ok(Endpoint {
            labels: labels_of(alloc, pod)?,
            mesh: mesh_of(alloc, config, pod)?,
        })
    }

    /// Returns its row for an address and port.
    pub(crate) fn row_at(&self, alloc: Global, ip: Ip, port: u16) -> Result<EndpointRow, Memory>
        ensures { IfOk result (λ row. row ≡ row_at self.now ip port) }
    {
        let labels = self.labels.copy(alloc)?;
        match &self.mesh {
            Some(mesh) => meshed_row(mesh, labels, ip, port),
            None => Ok(plain_row(labels, ip, port)),
        }
    }
}

/// Returns the row of an endpoint for an address and port, with its Pod if it has one.
#[tactic(auto, using(crate::proofs::Rows::rows_of_parts))]
pub(crate) fn row_of(
    alloc: Global,
    config: &Config,
    pod: Option<&Pod>,
    ip: Ip,
    port: u16,
) -> Result<EndpointRow, Memory>
    ensures { IfOk result (λ row. row ≡ row_of config.now (option_copied pod.entry) ip port) }
{
    let endpoint = Endpoint::of(alloc, config, pod)?;
    endpoint.row_at(alloc, ip, port)
}

fn labels_of(alloc: Global, pod: &Pod) -> Result<Labels, Memory>
    ensures { IfOk result (λ labels. labels ≡ labels_of pod.now) }
{
    let mut labels = Labels::new(alloc);
    labels.put(Text::from_str(alloc, "pod")?, pod.meta.name.copy()?)?;
    labels.put(
        Text::from_str(alloc, "serviceaccount")?,
        pod.account.copy()?,
    )?;
    Ok(labels)
}

fn mesh_of(alloc: Global, config: &Config, pod: &Pod) -> Result<Option<Mesh>, Memory>
    ensures { IfOk result (λ mesh. mesh ≡ mesh_of config.now pod.now) }
{
    if is_meshed(config, &pod.meta) {
        return Ok(Some(Mesh {
            identity: identity_of(alloc, config, &pod.meta.ns, &pod.account)?,
            opaque: opaque_ports(alloc, &pod.meta)?,
        }));
    }
    Ok(None)
}

fn meshed_row(mesh: &Mesh, labels: Labels, ip: Ip, port: u16) -> Result<EndpointRow, Memory>
    ensures { IfOk result (λ row. row ≡ row_with (Some mesh.now) labels ip port) }
{
    Ok(EndpointRow {
        ip,
        port,
        weight: WEIGHT,
        labels,
        identity: Some(mesh.identity.copy()?),
        tunnel: Some(TUNNEL_PORT),
        h2: !mesh.opaque.holds(port),
    })
}

fn plain_row(labels: Labels, ip: Ip, port: u16) -> EndpointRow
    ensures { result ≡ row_with None labels ip port }
{
    EndpointRow {
        ip,
        port,
        weight: WEIGHT,
        labels,
        identity: None,
        tunnel: None,
        h2: false,
    }
}
