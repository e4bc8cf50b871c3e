// The keys of the Servers that may select a Pod, by the labels that they require.
ghost use Rattle.std.specs.Prelude.{◌≡◌, ◌≤◌, false, IfOk, IfSome, length, map};
ghost use Rattle.std.specs.List.{sum_by};
ghost use Rattle.server_index.specs.Requiring.{HaveServers};

use mesh_base::key::ObjKey;
use mesh_base::memory::Memory;
use mesh_base::text::Text;
use object_store::store::Store;
use std::alloc::Global;

/// Returns lists that contain the keys of all Servers of the namespace that may select a Pod with
/// these labels. None if they have more than `most` keys in total, with duplicates, or if there are
/// not fewer labels than that.
pub(crate) fn required_lists<'a>(
    alloc: Global,
    store: &'a Store,
    ns: &Text,
    labels: &[(Text, Text)],
    most: usize,
) -> Result<Option<Vec<&'a [ObjKey]>>, Memory>
    requires { store.now.spent ≡ false }
    ensures servers { IfOk result (λ found. IfSome found (λ lists. HaveServers store.now.objects
        ns.now labels.now (map (λ l. l.now) lists.items))) }
    ensures few { IfOk result (λ found. IfSome found (λ lists.
        sum_by length (map (λ l. l.now) lists.items) ≤ most)) }
{
    if labels.len() >= most {
        return Ok(None);
    }
    let mut lists = Vec::new(alloc);
    let of_any = store.servers_requiring(ns, ns);
    if of_any.len() > most {
        return Ok(None);
    }
    let mut left = most - of_any.len();
    lists.push(of_any)?;
    for label in labels {
        let keys = store.servers_requiring(ns, &label.1);
        if keys.len() > left {
            return Ok(None);
        }
        left -= keys.len();
        lists.push(keys)?;
    }
    Ok(Some(lists))
}
