ghost use Rattle.std.specs.Prelude.{◌≡◌, ◌≤◌, ◌+◌, false, IfOk, if◌then◌else◌, is_some, option_and_then};
ghost use Rattle.std.specs.FinMap.{get};
ghost use Rattle.std.specs.Option.{option_copied};
ghost use Rattle.view_types.specs.declared.mark.Mark.TheVariants.{IpPod, IpService};
ghost use Rattle.view_rules.specs.Profiles.{pod_at, service_at};
ghost use Rattle.mark_rules.specs.Reads.{count_at};

use crate::pod::pod_found;
use crate::service::service_found;
use mark_rules::laws::addresses_by_mark;
use mesh_base::key::ObjKey;
use mesh_base::memory::Memory;
use mesh_base::steps::Steps;
use net_cidr::ip::Ip;
use object_store::store::Store;
use policy_rows::by_mark::check_going;
use view_types::object::Object;
use view_types::pod::Pod;
use view_types::service::Service;

/// Returns the least Service, by namespace and name, with this cluster IP.
pub fn service_at<'a, L>(
    store: &'a Store,
    ip: Ip,
    steps: &mut Steps<L>,
) -> Result<Option<&'a Service>, Memory>
    ensures value { IfOk result (λ service.
        option_copied service ≡ service_at store.now.objects ip) }
    ensures steps { steps.new ≤ steps.old + count_at store.now.objects (IpService ip) }
{
    addresses_by_mark();
    check_going(store)?;
    store.stand_at_keys();
    Ok(service_found(object_at(store, store.service_at(ip), steps)))
}

/// Returns the least Pod, by namespace and name, that has this address of its own and has not
/// ended.
pub fn pod_at<'a, L>(
    store: &'a Store,
    ip: Ip,
    steps: &mut Steps<L>,
) -> Result<Option<&'a Pod>, Memory>
    ensures value { IfOk result (λ pod. option_copied pod ≡ pod_at store.now.objects ip) }
    ensures steps { steps.new ≤ steps.old + count_at store.now.objects (IpPod ip) }
{
    addresses_by_mark();
    check_going(store)?;
    store.stand_at_keys();
    Ok(pod_found(object_at(store, store.pod_at(ip), steps)))
}

/// Returns the object under the first key of an address, if there is one.
#[tactic(auto, using(object_store::proofs::Counts::copied_some))]
fn object_at<'a, L>(
    store: &'a Store,
    first: Option<&ObjKey>,
    steps: &mut Steps<L>,
) -> Option<&'a Object>
    ensures value { option_copied result
        ≡ option_and_then (get store.now.objects) (option_copied first.entry) }
    ensures steps { steps.new ≤ steps.old + (if is_some (option_copied first.entry) then 1 else 0) }
{
    match first {
        Some(key) => store.get(key, steps),
        None => None,
    }
}
