ghost use Rattle.std.specs.Prelude.{◌≡◌, ◌≤◌, ◌+◌};
ghost use Rattle.std.specs.Option.{option_copied};
ghost use Rattle.view_types.specs.declared.mark.Mark.TheVariants.{Obj};
ghost use Rattle.view_rules.specs.Policies.{mesh_authn_found, mesh_authn_held, mesh_authn_key, net_authn_found, net_authn_held, net_authn_key};
ghost use Rattle.mark_rules.specs.Reads.{count_at};

use mesh_base::key::Kind;
use mesh_base::steps::Steps;
use mesh_base::text::Text;
use object_store::store::Store;
use view_types::authn::{MeshAuthn, NetAuthn};
use view_types::object::Object;

/// Returns the MeshTLSAuthentication of the namespace and name, if it is held.
pub fn mesh_authn_held<'a, L>(
    store: &'a Store,
    ns: &Text,
    name: &Text,
    steps: &mut Steps<L>,
) -> Option<&'a MeshAuthn>
    ensures value { option_copied result ≡ mesh_authn_held store.now.objects ns.now name.now }
    ensures steps { steps.new ≤ steps.old
        + count_at store.now.objects (Obj (mesh_authn_key ns.now name.now)) }
{
    mesh_authn_found(store.find(Kind::MeshTLSAuthentication, ns, name, steps))
}

fn mesh_authn_found(found: Option<&Object>) -> Option<&MeshAuthn>
    ensures { option_copied result ≡ mesh_authn_found (option_copied found.entry) }
{
    match found {
        Some(Object::MeshTLSAuthentication(authn)) => Some(authn.get()),
        _ => None,
    }
}

/// Returns the NetworkAuthentication of the namespace and name, if it is held.
pub fn net_authn_held<'a, L>(
    store: &'a Store,
    ns: &Text,
    name: &Text,
    steps: &mut Steps<L>,
) -> Option<&'a NetAuthn>
    ensures value { option_copied result ≡ net_authn_held store.now.objects ns.now name.now }
    ensures steps { steps.new ≤ steps.old
        + count_at store.now.objects (Obj (net_authn_key ns.now name.now)) }
{
    net_authn_found(store.find(Kind::NetworkAuthentication, ns, name, steps))
}

fn net_authn_found(found: Option<&Object>) -> Option<&NetAuthn>
    ensures { option_copied result ≡ net_authn_found (option_copied found.entry) }
{
    match found {
        Some(Object::NetworkAuthentication(authn)) => Some(authn.get()),
        _ => None,
    }
}
