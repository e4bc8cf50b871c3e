ghost use Rattle.std.specs.Prelude.{◌≡◌, ◌++◌, option_to_list, IfOk, OnOk};
ghost use Rattle.std.specs.BTreeSet.{contains};
ghost use Rattle.k8s_core.specs.SeenIps.{AreSeen};
ghost use Rattle.k8s_core.specs.Addresses.{add_once, cluster_ip, has, is_no_address, once};
ghost use Rattle.k8s_meta.specs.Spots.{Reads, seen};

use k8s_meta::fault::ReadFault;
use k8s_meta::place::Place;
use k8s_meta::reader::Reader;
use k8s_meta::words::Address;
use mesh_base::list::List;
use mesh_base::memory::Memory;
use net_cidr::ip::Ip;
use std::alloc::Global;
use std::collections::BTreeSet;

/// An address of a Service. The empty string and `None` are no address.
pub struct ClusterIp;

impl Reader for ClusterIp {
    type Made = Option<Ip>;

    ghost reading = { λ _. cluster_ip };

    #[tactic(auto, unfolding(k8s_meta::specs::Spots::then, crate::specs::Addresses::cluster_ip, k8s_meta::specs::Words::unless))]
    fn read<'a>(&self, place: &'a Place<'a>) -> Result<Option<Ip>, ReadFault> {
        let text = place.text()?;
        if is_no_address(text) {
            return Ok(None);
        }
        let ip = Address.read(place)?;
        Ok(Some(ip))
    }
}

fn is_no_address(text: &str) -> bool
    ensures { result ≡ is_no_address text.now }
{
    text.is_empty() || text == "None"
}

/// Returns each address once, in the order of first occurrence.
pub fn once(alloc: Global, first: Option<Ip>, others: List<Ip>) -> Result<List<Ip>, Memory>
    ensures { IfOk result (λ all. all ≡ once (option_to_list first ++ others)) }
{
    let mut seen = BTreeSet::new(alloc);
    let mut all = List::new(alloc);
    if let Some(ip) = first {
        add_once(&mut seen, &mut all, ip)?;
    }
    for ip in others.as_slice() {
        add_once(&mut seen, &mut all, *ip)?;
    }
    Ok(all)
}

fn add_once(seen: &mut BTreeSet<Ip>, all: &mut List<Ip>, ip: Ip) -> Result<(), Memory>
    requires { AreSeen seen.old all.old }
    ensures all { OnOk result (all.new ≡ add_once all.old ip) }
    ensures seen { OnOk result (AreSeen seen.new all.new) }
{
    if seen.insert(ip)? {
        all.add(ip)?;
    }
    Ok(())
}
