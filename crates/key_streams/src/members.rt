//! The group of each id.
ghost use Rattle.std.specs.Prelude.{◌≡◌, ◌||◌, ℕ, None, OnErr, OnOk, Some, is_some, nat_eq, true};
ghost use Rattle.std.specs.BTreeMap.{IsUnchanged};
ghost use Rattle.std.specs.List.{list_any};
ghost use Rattle.key_streams.specs.Members.{SetsMember, group_of};

use mesh_base::list::List;
use mesh_base::memory::Memory;
use std::collections::BTreeMap;

pub fn number_of(members: &BTreeMap<u64, u64>, id: u64) -> Option<u64>
    ensures { result ≡ group_of members.now id }
{
    members.get(&id).copied()
}

/// Sets the group of an id.
pub fn put(members: &mut BTreeMap<u64, u64>, id: u64, number: u64) -> Result<(), Memory>
    ensures put { OnOk result (SetsMember id (Some number) members.old members.new) }
    ensures err { OnErr result (IsUnchanged members.old members.new) }
{
    members.insert(id, number)?;
    Ok(())
}

/// Changes the group of an id that has one.
pub fn change(members: &mut BTreeMap<u64, u64>, id: u64, number: u64)
    requires { is_some (group_of members.old id) ≡ true }
    ensures { SetsMember id (Some number) members.old members.new }
{
    match members.get_mut(&id) {
        Some(place) => *place = number,
        None => {}
    }
}

/// Removes the id, and returns the group that it had.
pub fn take(members: &mut BTreeMap<u64, u64>, id: u64) -> Option<u64>
    ensures value { result ≡ group_of members.old id }
    ensures gone { SetsMember id None members.old members.new }
{
    members.remove(&id)
}

/// Appends all ids to the list.
pub fn add_ids(members: &BTreeMap<u64, u64>, ids: &mut List<u64>) -> Result<(), Memory>
    ensures { OnOk result ((n : ℕ) → list_any (nat_eq n) ids.new
        ≡ (list_any (nat_eq n) ids.old || is_some (group_of members.now n))) }
{
    for id in members.keys() {
        ids.add(*id)?;
    }
    Ok(())
}
