ghost use Rattle.std.specs.Prelude.{◌≡◌, ◌++◌, flat_map, IfOk, OnOk};
ghost use Rattle.std.specs.List.{filter};
ghost use Rattle.gen_cluster.specs.Generated.{below, delete_line, drain_line, generated, get_id, is_divisible_by, object_lines, simulate_line, subscribe_lines, watch_id};

use crate::line::{
    push_delete, push_drain, push_get, push_pod, push_server, push_service, push_simulate,
    push_slice, push_watch,
};
use mesh_base::list::List;
use mesh_base::memory::Memory;
use std::alloc::Global;

fn push_objects_of(alloc: Global, i: u32, out: &mut List<u8>) -> Result<(), Memory>
    ensures { OnOk result (out.new ≡ out.old ++ object_lines i) }
{
    push_service(alloc, i, out)?;
    push_pod(alloc, i, out)?;
    push_slice(alloc, i, out)?;
    push_server(alloc, i, out)
}

#[tactic(auto, using(crate::proofs::Below::lines_more))]
fn push_objects(alloc: Global, n: u32, out: &mut List<u8>) -> Result<(), Memory>
    ensures { OnOk result (out.new ≡ out.old ++ flat_map object_lines (below n)) }
{
    for i in 0..n {
        push_objects_of(alloc, i, out)?;
    }
    Ok(())
}

// The subscription to the endpoints of a Service.
fn get_id(i: u32) -> u64
    ensures { result ≡ get_id i }
{
    2 * u64::from(i) + 1
}

// The subscription to the policy of a Pod's port.
fn watch_id(i: u32) -> u64
    ensures { result ≡ watch_id i }
{
    2 * u64::from(i) + 2
}

fn push_subscriptions_of(alloc: Global, i: u32, out: &mut List<u8>) -> Result<(), Memory>
    ensures { OnOk result (out.new ≡ out.old ++ subscribe_lines i) }
{
    push_get(alloc, get_id(i), i, out)?;
    push_watch(alloc, watch_id(i), i, out)
}

#[tactic(auto, using(crate::proofs::Below::lines_more))]
fn push_subscriptions(alloc: Global, n: u32, out: &mut List<u8>) -> Result<(), Memory>
    ensures { OnOk result (out.new ≡ out.old ++ flat_map subscribe_lines (below n)) }
{
    for i in 0..n {
        push_subscriptions_of(alloc, i, out)?;
    }
    Ok(())
}

// To every fourth Pod.
#[tactic(auto, using(crate::proofs::Below::chosen_more, crate::proofs::Below::chosen_same))]
fn push_simulations(alloc: Global, n: u32, out: &mut List<u8>) -> Result<(), Memory>
    ensures { OnOk result
        (out.new ≡ out.old ++ flat_map simulate_line (filter (is_divisible_by 4) (below n))) }
{
    for i in 0..n {
        if i % 4 == 0 {
            push_simulate(alloc, i, out)?;
        }
    }
    Ok(())
}

#[tactic(auto, using(crate::proofs::Below::lines_more))]
fn push_drains(alloc: Global, n: u32, out: &mut List<u8>) -> Result<(), Memory>
    ensures { OnOk result (out.new ≡ out.old ++ flat_map (λ i. drain_line (get_id i)) (below n)) }
{
    for i in 0..n {
        push_drain(alloc, get_id(i), out)?;
    }
    Ok(())
}

// Of every fifth slice.
#[tactic(auto, using(crate::proofs::Below::chosen_more, crate::proofs::Below::chosen_same))]
fn push_deletions(alloc: Global, n: u32, out: &mut List<u8>) -> Result<(), Memory>
    ensures { OnOk result
        (out.new ≡ out.old ++ flat_map delete_line (filter (is_divisible_by 5) (below n))) }
{
    for i in 0..n {
        if i % 5 == 0 {
            push_delete(alloc, i, out)?;
        }
    }
    Ok(())
}

/// Generates the lines of a cluster of n Services, each with one Pod, one EndpointSlice and one
/// Server; then two subscriptions for each, some simulated requests, drains, and deletions of some
/// slices.
pub fn generate(alloc: Global, n: u32) -> Result<List<u8>, Memory>
    ensures { IfOk result (λ lines. lines ≡ generated n) }
{
    let mut out = List::new(alloc);
    push_objects(alloc, n, &mut out)?;
    push_subscriptions(alloc, n, &mut out)?;
    push_simulations(alloc, n, &mut out)?;
    push_drains(alloc, n, &mut out)?;
    push_deletions(alloc, n, &mut out)?;
    Ok(out)
}
