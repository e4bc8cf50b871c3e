//! The streams of all keys.
ghost use Rattle.std.specs.Prelude.{◌≡◌, ◌||◌, ℕ, IfOk, OnOk, Some, false, nat_eq, true};
ghost use Rattle.std.specs.List.{IsDistinct, list_any};
ghost use Rattle.key_streams.specs.Streams.{has_stream};
ghost use Rattle.view_diff.specs.Earlier.{IsByAddress};
ghost use Rattle.std.specs.Ordering.{eq_by_cmp};
ghost use Rattle.row_table.specs.IndexRows.{has_key};
ghost use Rattle.endpoint_index.specs.Told.{notes_at};
ghost use Rattle.shared_endpoints.specs.ByKey.{JoinsAt, LeavesAt, key_cmp, streams_at};
ghost use Rattle.shared_endpoints.specs.Sharing.{Changed, ChangesAt, HasOneAt, LeftAt, has_at};

use bytes::Bytes;
use endpoint_index::index::EndpointIndex;
use key_streams::streams::KeyStreams;
use mark_rules::keys::EndpointKey;
use mesh_base::list::List;
use mesh_base::memory::Memory;
use net_cidr::ip::Ip;
use std::alloc::Global;
use std::collections::BTreeMap;
use view_types::endpoint::EndpointRow;

/// The streams of each key that has any.
pub(crate) type StreamsByKey = BTreeMap<EndpointKey, KeyStreams<List<Bytes>>>;

/// Opens a stream under an id that has none. The key must have streams.
pub(crate) fn open_at(by_key: &mut StreamsByKey, key: &EndpointKey, id: u64) -> Result<(), Memory>
    ensures { OnOk result (JoinsAt id key.now by_key.old by_key.new) }
{
    match by_key.get_mut(key) {
        Some(streams) => streams.join(id),
        None => Ok(()),
    }
}

/// Closes the stream of an id of the key. Returns whether it was the key's last stream.
pub(crate) fn close_at(by_key: &mut StreamsByKey, key: &EndpointKey, id: u64) -> bool
    ensures left { LeavesAt id key.now by_key.old by_key.new }
    ensures last { result ≡ true
        → (n : ℕ) → has_at (streams_at by_key.new key.now) n ≡ false }
    ensures more { result ≡ false → HasOneAt (streams_at by_key.new key.now) }
{
    match by_key.get_mut(key) {
        Some(streams) => leave_streams(streams, id),
        None => false,
    }
}

fn leave_streams(streams: &mut KeyStreams<List<Bytes>>, id: u64) -> bool
    ensures left { LeftAt id (Some streams.old) (Some streams.new) }
    ensures last { result ≡ true → (n : ℕ) → has_stream streams.new n ≡ false }
    ensures more { result ≡ false → HasOneAt (Some streams.new) }
{
    streams.leave(id);
    streams.is_empty()
}

/// Updates the streams of these keys after a change of the index. Each key occurs once. Returns the
/// ids of the streams.
pub(crate) fn change_all(
    alloc: Global,
    index: &EndpointIndex,
    keys: &[EndpointKey],
    by_key: &mut StreamsByKey,
) -> Result<List<u64>, Memory>
    requires { IsDistinct (eq_by_cmp key_cmp) keys.now }
    ensures changed { OnOk result (ChangesAt key_cmp (has_key key_cmp keys.now)
        (notes_at index.now) (streams_at by_key.old) (streams_at by_key.new)) }
    ensures ids { IfOk result (λ ids. (n : ℕ) → list_any (nat_eq n) ids
        ≡ list_any (λ key. has_at (streams_at by_key.old key) n) keys.now) }
{
    let mut ids = List::new(alloc);
    for key in keys {
        change_at(index, key, by_key, &mut ids)?;
    }
    Ok(ids)
}

fn change_at(
    index: &EndpointIndex,
    key: &EndpointKey,
    by_key: &mut StreamsByKey,
    ids: &mut List<u64>,
) -> Result<(), Memory>
    ensures changed { OnOk result (ChangesAt key_cmp (λ k. eq_by_cmp key_cmp k key.now)
        (notes_at index.now) (streams_at by_key.old) (streams_at by_key.new)) }
    ensures ids { OnOk result ((n : ℕ) → list_any (nat_eq n) ids.new
        ≡ (list_any (nat_eq n) ids.old || has_at (streams_at by_key.old key.now) n)) }
{
    match by_key.get_mut(key) {
        Some(streams) => change_streams(index.before(key), streams, ids),
        None => Ok(()),
    }
}

// Updates streams after a change of their rows, and appends their ids to the list.
fn change_streams(
    before: &[(Ip, u16, Option<EndpointRow>)],
    streams: &mut KeyStreams<List<Bytes>>,
    ids: &mut List<u64>,
) -> Result<(), Memory>
    requires { IsByAddress before.now }
    ensures changed { OnOk result (Changed before.now streams.old streams.new) }
    ensures ids { OnOk result ((n : ℕ) → list_any (nat_eq n) ids.new
        ≡ (list_any (nat_eq n) ids.old || has_stream streams.old n)) }
{
    streams.change(before)?;
    streams.add_ids(ids)
}
