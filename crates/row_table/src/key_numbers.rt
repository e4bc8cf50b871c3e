// The number and the users of each key that has users.
ghost use Rattle.std.specs.Prelude.{◌≡◌, Some, None, IfOk, OnOk, is_some, option_map};
ghost use Rattle.std.specs.Option.{option_copied};
ghost use Rattle.row_table.specs.KeyNumbers.{PutsAt, TakesOne, TakesUser, one_more, used_at};

use mesh_base::memory::Memory;
use std::alloc::Global;
use std::collections::HashMap;
use std::hash::{BuildHasherDefault, FoldHasher, Hash};

/// The number and the users of a key.
#[derive(Drop)]
pub struct UsedKey {
    /// The number of the key's row.
    pub number: u64,
    pub users: u64,
}

/// The keys that have users, in a hash map. Nothing depends on the order of the map.
#[derive(Drop)]
pub struct KeyNumbers<K: Ord + Hash> {
    by_hash: HashMap<K, UsedKey, BuildHasherDefault<FoldHasher>, Global>,
}

impl<K: Ord + Hash + Drop> KeyNumbers<K> {
    /// Returns a map without keys.
    pub fn new(alloc: Global) -> KeyNumbers<K>
        ensures { (key : K) → used_at K.cmp result key ≡ None }
    {
        KeyNumbers {
            by_hash: HashMap::new(alloc),
        }
    }

    /// Returns the number and the users of a key that has users.
    pub fn get(&self, key: &K) -> Option<&UsedKey>
        ensures { option_copied result ≡ used_at K.cmp self.now key.now }
    {
        self.by_hash.get(key)
    }

    /// Inserts the key with this number and one user.
    pub fn insert(&mut self, key: K, number: u64) -> Result<(), Memory>
        ensures { OnOk result (PutsAt K.cmp key (Some (record { number = number; users = 1 }))
            (used_at K.cmp self.old) (used_at K.cmp self.new)) }
    {
        self.by_hash.insert(key, UsedKey { number, users: 1 })?;
        Ok(())
    }

    /// Removes the key.
    pub fn remove(&mut self, key: &K)
        ensures { PutsAt K.cmp key.now None (used_at K.cmp self.old) (used_at K.cmp self.new) }
    {
        self.by_hash.remove(key);
    }

    /// Adds a user to the key, if it has users. Returns whether it has.
    pub fn add_user(&mut self, key: &K) -> Result<bool, Memory>
        ensures there { IfOk result (λ there. there ≡ is_some (used_at K.cmp self.old key.now)) }
        ensures put { OnOk result (PutsAt K.cmp key.now
            (option_map one_more (used_at K.cmp self.old key.now)) (used_at K.cmp self.old)
            (used_at K.cmp self.new)) }
    {
        match self.by_hash.get_mut(key) {
            Some(at) => {
                add_to(at)?;
                Ok(true)
            }
            None => Ok(false),
        }
    }

    /// Removes a user of the key. For the last user it only returns the number of the key.
    pub fn take_user(&mut self, key: &K) -> Option<u64>
        ensures { TakesUser K.cmp key.now self.old result self.new }
    {
        match self.by_hash.get_mut(key) {
            Some(at) => take_from(at),
            None => None,
        }
    }
}

fn add_to(at: &mut UsedKey) -> Result<(), Memory>
    ensures { OnOk result (at.new ≡ one_more at.old) }
{
    at.users = at.users.checked_add(1).ok_or(Memory)?;
    Ok(())
}

fn take_from(at: &mut UsedKey) -> Option<u64>
    ensures { TakesOne at.old result at.new }
{
    if at.users > 1 {
        at.users -= 1;
        return None;
    }
    Some(at.number)
}
