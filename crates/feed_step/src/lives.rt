ghost use Rattle.std.specs.Prelude.{◌≡◌, ◌<◌, ◌+◌, ◌^◌, ◌==◌, IfSome, MatchOption, length, slice_get};
ghost use Rattle.std.specs.List.{position_from};
ghost use Rattle.feed_history.specs.Ids.{StandsAt, ended, in_place};

use mesh_base::list::List;
use std::alloc::Global;
use std::mem;

fn first_of(ids: &[u32], id: u32) -> Option<usize>
    ensures { result ≡ position_from (λ other. other == id) 0 ids.now }
{
    ids.iter().position(|other| *other == id)
}

// Returns the index of an id.
fn place_of(ids: &[u32], id: u32) -> Option<usize>
    ensures { MatchOption result (in_place (λ other. other) id ended ids.now ≡ ids.now)
        (StandsAt (λ other. other) id ids.now) }
{
    first_of(ids, id)
}

/// Removes an id from the live ids, each of which occurs once.
pub(crate) fn take_out(alloc: Global, live: &mut List<u32>, id: u32)
    ensures { live.new ≡ in_place (λ other. other) id ended live.old }
{
    if let Some(at) = place_of(live.as_slice(), id) {
        let mut ids = mem::replace(live, List::new(alloc)).into_vec();
        ids.remove(at);
        *live = List::from_vec(ids);
    }
}

/// Returns the id at a place.
pub(crate) fn id_at(ids: &[u32], place: usize) -> Option<u32>
    ensures value { result ≡ slice_get ids.now place }
    ensures within { IfSome result (λ id. place < length ids.now) }
    ensures fits { IfSome result (λ id. place + 1 < 2 ^ 64) }
{
    match ids.get(place) {
        Some(id) => Some(*id),
        None => None,
    }
}
