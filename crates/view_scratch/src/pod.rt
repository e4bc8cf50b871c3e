ghost use Rattle.std.specs.Prelude.{◌≡◌, ◌≤◌, ◌+◌};
ghost use Rattle.std.specs.FinMap.{get};
ghost use Rattle.std.specs.Option.{option_copied};
ghost use Rattle.view_types.specs.declared.mark.Mark.TheVariants.{Obj};
ghost use Rattle.view_rules.specs.PodRows.{as_pod, pod_found, pod_held, pod_key};
ghost use Rattle.mark_rules.specs.Reads.{cost, count_at, target_marks};

use mesh_base::key::Kind;
use mesh_base::steps::Steps;
use mesh_base::text::Text;
use object_store::store::Store;
use view_types::object::Object;
use view_types::pod::Pod;

/// Returns the Pod that an endpoint targets, by its namespace and name, if it is held.
pub(crate) fn pod_held<'a, L>(
    store: &'a Store,
    target: &Option<(Text, Text)>,
    steps: &mut Steps<L>,
) -> Option<&'a Pod>
    ensures value { option_copied result ≡ pod_held store.now.objects target.now }
    ensures steps { steps.new ≤ steps.old + cost store.now.objects (target_marks target.now) }
{
    match target {
        Some((ns, name)) => pod_named(store, ns, name, steps),
        None => None,
    }
}

/// Returns the Pod of the namespace and name, if it is held.
pub fn pod_named<'a, L>(
    store: &'a Store,
    ns: &Text,
    name: &Text,
    steps: &mut Steps<L>,
) -> Option<&'a Pod>
    ensures value { option_copied result
        ≡ pod_found (get store.now.objects (pod_key ns.now name.now)) }
    ensures steps { steps.new ≤ steps.old
        + count_at store.now.objects (Obj (pod_key ns.now name.now)) }
{
    pod_found(store.find(Kind::Pod, ns, name, steps))
}

pub(crate) fn pod_found(found: Option<&Object>) -> Option<&Pod>
    ensures { option_copied result ≡ pod_found (option_copied found.entry) }
{
    match found {
        Some(object) => as_pod(object),
        None => None,
    }
}

fn as_pod(object: &Object) -> Option<&Pod>
    ensures { option_copied result ≡ as_pod object.now }
{
    match object {
        Object::Pod(boxed) => Some(boxed.get()),
        _ => None,
    }
}
