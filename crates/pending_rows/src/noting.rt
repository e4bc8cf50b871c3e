ghost use Rattle.std.specs.Prelude.{◌≡◌, ◌<◌, ◌≤◌, ◌+◌, IfOk, IfErr};
ghost use Rattle.std.specs.Vec.{vec_capacity, vec_len};
ghost use Rattle.mesh_base.specs.Places.{IsHit, IsGap};
ghost use Rattle.view_diff.specs.Earlier.{address};
ghost use Rattle.view_rules.specs.Endpoints.{pair_cmp};
ghost use Rattle.pending_rows.specs.Pending.{AreKeyed, AreOwn, IsOwn, note_one, with_notes, pending_of};

use mesh_base::copied::Copied;
use mesh_base::memory::Memory;
use net_cidr::ip::{Ip, compare_ips};
use std::alloc::Global;
use std::cmp::Ordering;
use view_types::endpoint::EndpointRow;

type Stood = (Ip, u16, Option<EndpointRow>);

pub fn copied(alloc: Global, before: &[Stood]) -> Result<Vec<Stood>, Memory>
    ensures { IfOk result (λ copy. copy.items ≡ before.now) }
{
    let mut copy = Vec::new(alloc);
    for stood in before {
        copy.push((stood.0, stood.1, stood.2.copy(alloc)?))?;
    }
    Ok(copy)
}

/// Notes each address that is not noted yet. There must be room for all of them.
pub fn note_each(pending: &mut Vec<Stood>, before: Vec<Stood>)
    requires keyed { AreKeyed pending.old.items }
    requires own { AreOwn pending.old.items }
    requires owns { AreOwn before.items }
    requires room { vec_len pending.old + vec_len before ≤ vec_capacity pending.old }
    ensures notes { pending_of pending.new.items
        ≡ with_notes before.items (pending_of pending.old.items) }
    ensures keyed { AreKeyed pending.new.items }
    ensures own { AreOwn pending.new.items }
{
    for stood in before {
        note_one(pending, stood);
    }
}

/// Notes an address, unless it is noted already. There must be room for it.
fn note_one(pending: &mut Vec<Stood>, stood: Stood)
    requires keyed { AreKeyed pending.old.items }
    requires own { AreOwn pending.old.items }
    requires owns { IsOwn stood }
    requires room { vec_len pending.old < vec_capacity pending.old }
    ensures notes { pending_of pending.new.items ≡ note_one stood (pending_of pending.old.items) }
    ensures keyed { AreKeyed pending.new.items }
    ensures own { AreOwn pending.new.items }
    ensures more { vec_len pending.new ≤ vec_len pending.old + 1 }
    ensures room { vec_capacity pending.old ≤ vec_capacity pending.new }
{
    match place(pending.as_slice(), &(stood.0, stood.1)) {
        Ok(_) => {}
        Err(at) => {
            let Ok(()) = pending.insert(at, stood) else {
                return;
            };
        }
    }
}

/// Returns the index at which an address is noted, or as an error the index at which it would be
/// inserted.
fn place(pending: &[Stood], pair: &(Ip, u16)) -> Result<usize, usize>
    requires { AreKeyed pending.now }
    ensures hit { IfOk result (IsHit (λ s. pair_cmp (address s) pair.now) pending.now) }
    ensures gap { IfErr result (IsGap (λ s. pair_cmp (address s) pair.now) pending.now) }
{
    pending.binary_search_by(|stood| compare(stood, pair))
}

fn compare(stood: &Stood, pair: &(Ip, u16)) -> Ordering
    ensures { result ≡ pair_cmp (address stood.now) pair.now }
{
    match compare_ips(stood.0, pair.0) {
        Ordering::Equal => stood.1.cmp(&pair.1),
        other => other,
    }
}
