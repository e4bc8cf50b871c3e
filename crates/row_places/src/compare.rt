// The order of keys.
ghost use Rattle.std.specs.Prelude.{◌≡◌};
ghost use Rattle.view_rules.specs.AuthzOrder.{authz_cmp};
ghost use Rattle.view_rules.specs.Endpoints.{pair_cmp};

use mesh_base::text::Text;
use net_cidr::ip::{Ip, compare_ips};
use std::cmp::Ordering;
use view_types::server_view::AuthzKind;

/// By address, and then by port.
pub(crate) fn compare_pairs(a: &(Ip, u16), b: &(Ip, u16)) -> Ordering
    ensures { result ≡ pair_cmp a.now b.now }
{
    match compare_ips(a.0, b.0) {
        Ordering::Equal => a.1.cmp(&b.1),
        other => other,
    }
}

/// By kind, and then by name.
pub(crate) fn compare_authz(
    kind: AuthzKind,
    name: &Text,
    other_kind: AuthzKind,
    other_name: &Text,
) -> Ordering
    ensures { result ≡ authz_cmp (kind, name.now) (other_kind, other_name.now) }
{
    match kind.number().cmp(&other_kind.number()) {
        Ordering::Equal => name.cmp(other_name),
        unequal => unequal,
    }
}
