// Rows of views by key.
ghost use Rattle.std.specs.Prelude.{◌≡◌, Bool, List as TheList, IfOk};
ghost use Rattle.std.specs.Bool.{Decides};
ghost use Rattle.std.specs.Cmp.{IsTotalOrder};
ghost use Rattle.std.specs.FinMap.{IsAntisymmetric};
ghost use Rattle.std.specs.declared.cmp.Ordering.{Ordering as TheOrdering};
ghost use Rattle.view_types.specs.declared.message.Message.{Message as TheMessage};
ghost use Rattle.view_types.specs.declared.message.Message.TheVariants.{Add, Remove, AuthzPut, AuthzGone};
ghost use Rattle.view_rules.specs.AuthzOrder.{authz_cmp, authz_key};
ghost use Rattle.view_rules.specs.Endpoints.{pair_cmp, pair_of};
ghost use Rattle.view_rules.specs.Same.{same_row};
ghost use Rattle.view_rules.specs.SamePolicies.{same_authz};
ghost use Rattle.view_rules.proofs.AuthzKeys.{authz_exact, authz_total};
ghost use Rattle.view_rules.proofs.Pairs.{pairs_exact, pairs_total};
ghost use Rattle.view_rules.proofs.SamePolicies.{authz_decides};
ghost use Rattle.view_rules.proofs.SameRow.{row_decides};

use crate::compare::{compare_authz, compare_pairs};
use mesh_base::copied::Copied;
use mesh_base::list::List;
use mesh_base::memory::Memory;
use mesh_base::same::Same;
use mesh_base::text::Text;
use net_cidr::ip::Ip;
use std::alloc::Global;
use std::cmp::Ordering;
use view_types::endpoint::EndpointRow;
use view_types::message::Message;
use view_types::server_view::{AuthzKind, AuthzRow};

/// A row of a view with at most one row per key. Messages carry the rows that are new or have
/// changed, and the keys that no longer have a row.
pub trait KeyedRow: Sized + Copied + Same {
    type Key: Drop;

    /// The key of a row.
    ghost key_of: { Self → Self.Key };

    /// The order of keys.
    ghost cmp: { Self.Key → Self.Key → TheOrdering };

    /// Whether two rows are the same.
    ghost same: { Self → Self → Bool };

    /// The message with rows that are new or have changed.
    ghost put: { TheList Self → TheMessage };

    /// The message with keys that no longer have a row.
    ghost gone: { TheList Self.Key → TheMessage };

    fn key(&self) -> Result<Self::Key, Memory>
        ensures { IfOk result (λ key. key ≡ key_of self.now) };

    fn compare(&self, other: &Self) -> Ordering
        ensures { result ≡ cmp (key_of self.now) (key_of other.now) };

    fn compare_to(&self, key: &Self::Key) -> Ordering
        ensures { result ≡ cmp (key_of self.now) key.now };

    fn compare_keys(key: &Self::Key, other: &Self::Key) -> Ordering
        ensures { result ≡ cmp key.now other.now };

    fn put_message(rows: List<Self>) -> Message
        ensures { result ≡ put rows };

    fn gone_message(keys: List<Self::Key>) -> Message
        ensures { result ≡ gone keys };

    ghost total: { IsTotalOrder cmp };

    /// No two different keys compare as equal.
    ghost exact: { IsAntisymmetric cmp };

    /// Two rows are the same if and only if they are equal.
    ghost decides: { (r s : Self) → Decides (same r s) (r ≡ s) };
}

/// By address and port.
impl KeyedRow for EndpointRow {
    type Key = (Ip, u16);

    ghost key_of = { pair_of };

    ghost cmp = { pair_cmp };

    ghost same = { same_row };

    ghost put = { Add };

    ghost gone = { Remove };

    fn key(&self) -> Result<(Ip, u16), Memory> {
        Ok((self.ip, self.port))
    }

    fn compare(&self, other: &EndpointRow) -> Ordering {
        compare_pairs(&(self.ip, self.port), &(other.ip, other.port))
    }

    fn compare_to(&self, pair: &(Ip, u16)) -> Ordering {
        compare_pairs(&(self.ip, self.port), pair)
    }

    fn compare_keys(pair: &(Ip, u16), other: &(Ip, u16)) -> Ordering {
        compare_pairs(pair, other)
    }

    fn put_message(rows: List<EndpointRow>) -> Message
        ensures { result ≡ Add rows }
    {
        Message::Add(rows)
    }

    fn gone_message(pairs: List<(Ip, u16)>) -> Message
        ensures { result ≡ Remove pairs }
    {
        Message::Remove(pairs)
    }

    ghost total = { pairs_total };

    ghost exact = { pairs_exact };

    ghost decides = { row_decides };
}

/// By kind and name.
impl KeyedRow for AuthzRow {
    type Key = (AuthzKind, Text);

    ghost key_of = { authz_key };

    ghost cmp = { authz_cmp };

    ghost same = { same_authz };

    ghost put = { AuthzPut };

    ghost gone = { AuthzGone };

    fn key(&self) -> Result<(AuthzKind, Text), Memory> {
        Ok((self.kind, self.name.copy()?))
    }

    fn compare(&self, other: &AuthzRow) -> Ordering {
        compare_authz(self.kind, &self.name, other.kind, &other.name)
    }

    fn compare_to(&self, key: &(AuthzKind, Text)) -> Ordering {
        compare_authz(self.kind, &self.name, key.0, &key.1)
    }

    fn compare_keys(key: &(AuthzKind, Text), other: &(AuthzKind, Text)) -> Ordering {
        compare_authz(key.0, &key.1, other.0, &other.1)
    }

    fn put_message(rows: List<AuthzRow>) -> Message
        ensures { result ≡ AuthzPut rows }
    {
        Message::AuthzPut(rows)
    }

    fn gone_message(keys: List<(AuthzKind, Text)>) -> Message
        ensures { result ≡ AuthzGone keys }
    {
        Message::AuthzGone(keys)
    }

    ghost total = { authz_total };

    ghost exact = { authz_exact };

    ghost decides = { authz_decides };
}
