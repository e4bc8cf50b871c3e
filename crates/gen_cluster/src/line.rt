// Each function writes one line: for the number i, for the id of a subscription, or for both.
ghost use Rattle.std.specs.Prelude.{◌≡◌, ◌++◌, OnOk};
ghost use Rattle.gen_cluster.specs.Generated.{service_line, pod_line, slice_line, server_line, get_line, watch_line, simulate_line, drain_line, delete_line};

use crate::shown::{Address, MeshLabel};
use mesh_base::list::List;
use mesh_base::memory::Memory;
use std::alloc::Global;

#[tactic(auto, unfolding(crate::specs::Generated::service_line))]
pub(crate) fn push_service(alloc: Global, i: u32, out: &mut List<u8>) -> Result<(), Memory>
    ensures { OnOk result (out.new ≡ out.old ++ service_line i) }
{
    let text = format!(in alloc;
        "{{\"type\":\"ADDED\",\"object\":{{\"apiVersion\":\"v1\",\"kind\":\"Service\",\"metadata\":{{\"name\":\"s{i}\",\"namespace\":\"app\"}},\"spec\":{{\"ports\":[{{\"name\":\"http\",\"port\":80}}]}}}}}}\n"
    )?;
    out.extend_from_slice(text.as_bytes())
}

#[tactic(auto, unfolding(crate::specs::Generated::pod_line))]
pub(crate) fn push_pod(alloc: Global, i: u32, out: &mut List<u8>) -> Result<(), Memory>
    ensures { OnOk result (out.new ≡ out.old ++ pod_line i) }
{
    let mesh = MeshLabel(i);
    let address = Address(i);
    let text = format!(in alloc;
        "{{\"type\":\"ADDED\",\"object\":{{\"apiVersion\":\"v1\",\"kind\":\"Pod\",\"metadata\":{{\"name\":\"p{i}\",\"namespace\":\"app\",\"labels\":{{\"app\":\"s{i}\"{mesh}}}}},\"spec\":{{\"containers\":[{{\"ports\":[{{\"name\":\"http\",\"containerPort\":8080}}]}}]}},\"status\":{{\"podIP\":\"{address}\"}}}}}}\n"
    )?;
    out.extend_from_slice(text.as_bytes())
}

#[tactic(auto, unfolding(crate::specs::Generated::slice_line))]
pub(crate) fn push_slice(alloc: Global, i: u32, out: &mut List<u8>) -> Result<(), Memory>
    ensures { OnOk result (out.new ≡ out.old ++ slice_line i) }
{
    let address = Address(i);
    let text = format!(in alloc;
        "{{\"type\":\"ADDED\",\"object\":{{\"apiVersion\":\"discovery.k8s.io/v1\",\"kind\":\"EndpointSlice\",\"metadata\":{{\"name\":\"s{i}-a\",\"namespace\":\"app\",\"labels\":{{\"kubernetes.io/service-name\":\"s{i}\"}}}},\"addressType\":\"IPv4\",\"endpoints\":[{{\"addresses\":[\"{address}\"],\"targetRef\":{{\"kind\":\"Pod\",\"name\":\"p{i}\",\"namespace\":\"app\"}}}}],\"ports\":[{{\"name\":\"http\",\"port\":8080}}]}}}}\n"
    )?;
    out.extend_from_slice(text.as_bytes())
}

#[tactic(auto, unfolding(crate::specs::Generated::server_line))]
pub(crate) fn push_server(alloc: Global, i: u32, out: &mut List<u8>) -> Result<(), Memory>
    ensures { OnOk result (out.new ≡ out.old ++ server_line i) }
{
    let text = format!(in alloc;
        "{{\"type\":\"ADDED\",\"object\":{{\"apiVersion\":\"policy.linkerd.io/v1beta3\",\"kind\":\"Server\",\"metadata\":{{\"name\":\"v{i}\",\"namespace\":\"app\"}},\"spec\":{{\"podSelector\":{{\"matchLabels\":{{\"app\":\"s{i}\"}}}},\"port\":8080}}}}}}\n"
    )?;
    out.extend_from_slice(text.as_bytes())
}

#[tactic(auto, unfolding(crate::specs::Generated::get_line))]
pub(crate) fn push_get(alloc: Global, id: u64, i: u32, out: &mut List<u8>) -> Result<(), Memory>
    ensures { OnOk result (out.new ≡ out.old ++ get_line id i) }
{
    let text = format!(in alloc;
        "{{\"control\":\"subscribe\",\"id\":{id},\"query\":{{\"method\":\"Get\",\"path\":\"s{i}.app.svc.cluster.local:80\"}}}}\n"
    )?;
    out.extend_from_slice(text.as_bytes())
}

#[tactic(auto, unfolding(crate::specs::Generated::watch_line))]
pub(crate) fn push_watch(alloc: Global, id: u64, i: u32, out: &mut List<u8>) -> Result<(), Memory>
    ensures { OnOk result (out.new ≡ out.old ++ watch_line id i) }
{
    let text = format!(in alloc;
        "{{\"control\":\"subscribe\",\"id\":{id},\"query\":{{\"method\":\"WatchPort\",\"workload\":\"app:p{i}\",\"port\":8080}}}}\n"
    )?;
    out.extend_from_slice(text.as_bytes())
}

#[tactic(auto, unfolding(crate::specs::Generated::simulate_line))]
pub(crate) fn push_simulate(alloc: Global, i: u32, out: &mut List<u8>) -> Result<(), Memory>
    ensures { OnOk result (out.new ≡ out.old ++ simulate_line i) }
{
    let text = format!(in alloc;
        "{{\"control\":\"simulate\",\"workload\":\"app:p{i}\",\"port\":8080,\"client\":\"10.0.0.9\"}}\n"
    )?;
    out.extend_from_slice(text.as_bytes())
}

#[tactic(auto, unfolding(crate::specs::Generated::drain_line))]
pub(crate) fn push_drain(alloc: Global, id: u64, out: &mut List<u8>) -> Result<(), Memory>
    ensures { OnOk result (out.new ≡ out.old ++ drain_line id) }
{
    let text = format!(in alloc; "{{\"control\":\"drain\",\"id\":{id}}}\n")?;
    out.extend_from_slice(text.as_bytes())
}

#[tactic(auto, unfolding(crate::specs::Generated::delete_line))]
pub(crate) fn push_delete(alloc: Global, i: u32, out: &mut List<u8>) -> Result<(), Memory>
    ensures { OnOk result (out.new ≡ out.old ++ delete_line i) }
{
    let text = format!(in alloc;
        "{{\"type\":\"DELETED\",\"object\":{{\"apiVersion\":\"discovery.k8s.io/v1\",\"kind\":\"EndpointSlice\",\"metadata\":{{\"name\":\"s{i}-a\",\"namespace\":\"app\"}}}}}}\n"
    )?;
    out.extend_from_slice(text.as_bytes())
}
