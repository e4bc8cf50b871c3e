ghost use Rattle.std.specs.Prelude.{◌≤◌};

use crate::by_key::{StreamsByKey, change_all, close_at, open_at};
use crate::frames::drain;
use bytes::Bytes;
use endpoint_index::index::EndpointIndex;
use endpoint_streams::streams::EndpointStreams;
use feed_history::refusal::HubFault;
use key_streams::streams::KeyStreams;
use mark_rules::keys::EndpointKey;
use mark_rules::laws::endpoints_stay;
use mesh_base::copied::Copied;
use mesh_base::limits::Limits;
use mesh_base::list::List;
use mesh_base::memory::Memory;
use mesh_base::steps::Steps;
use object_store::change::Change;
use object_store::store::Store;
use row_table::row_index::RowIndex;
use std::alloc::Global;
use std::collections::BTreeMap;
use view_rules::laws::endpoints_are_orderly;
use view_types::config::Config;
use view_types::endpoint::EndpointView;

/// The streams of endpoints. The streams of a key share its endpoints, and subscribers that were
/// last shown the same endpoints share frames.
#[derive(Drop)]
pub struct SharedEndpoints {
    /// The endpoints by key. A key that has streams counts as one user.
    index: EndpointIndex,
    by_key: StreamsByKey,
    /// The key of each stream.
    by_id: BTreeMap<u64, EndpointKey>,
    limits: Limits,
    alloc: Global,
    ghost some_addresses: { 1 ≤ limits.frame_addrs },
}

impl SharedEndpoints {
    ghost use Rattle.std.specs.Prelude.{◌≡◌, ◌≤◌, ◌+◌, ℕ, IfOk, None, OnErr, OnOk, Some, is_some, true};
    ghost use Rattle.view_types.specs.Objects.{ObjectMap};
    ghost use Rattle.view_types.specs.declared.config.Config.{Config as TheConfig};
    ghost use Rattle.mark_rules.specs.Reads.{cost, endpoint_reads};
    ghost use Rattle.mark_rules.specs.declared.keys.EndpointKey.{EndpointKey as TheKey};
    ghost use Rattle.mesh_base.specs.declared.limits.Limits.{Limits as TheLimits};
    ghost use Rattle.row_views.specs.Ids.{SetsAt};
    ghost use Rattle.shared_endpoints.specs.ByKey.{key_cmp, streams_at};
    ghost use Rattle.shared_endpoints.specs.Sharing.{OthersHaveOne};
    ghost use Rattle.shared_endpoints.specs.Standing.{AllHaveOne, HasOneUser, Stands, key_of_id, shown_to_id};

    /// Creates an empty set of streams. The limits apply to their messages.
    pub fn new(alloc: Global, config: &Config, limits: &Limits) -> Result<SharedEndpoints, Memory>
        requires { 1 ≤ limits.now.frame_addrs }
        ensures keys { IfOk result (λ shared. (id : ℕ)
            → ⟦<SharedEndpoints as EndpointStreams>⟧.key_of shared id ≡ None) }
        ensures stands { IfOk result (λ shared. (held : ObjectMap)
            → ⟦<SharedEndpoints as EndpointStreams>⟧.stands shared config.now limits.now held) }
    {
        Ok(SharedEndpoints {
            index: EndpointIndex::new(alloc, config)?,
            by_key: BTreeMap::new(alloc),
            by_id: BTreeMap::new(alloc),
            limits: *limits,
            alloc,
        })
    }

    /// States that a key has one user of its endpoints while a stream of it is open, and none
    /// otherwise.
    pub fn keys_have_one_user(&self)
        ensures { (config : TheConfig) (limits : TheLimits) (held : ObjectMap)
            → ⟦<SharedEndpoints as EndpointStreams>⟧.stands self.now config limits held
            → (key : TheKey) → HasOneUser self.now key }
    {}

    // Adds an empty entry for the streams of a key, if it has none.
    fn enter<L>(
        &mut self,
        store: &Store,
        key: &EndpointKey,
        steps: &mut Steps<L>,
    ) -> Result<(), Memory>
        ensures there { OnOk result (is_some (streams_at self.new.by_key key.now) ≡ true) }
        ensures others { AllHaveOne self.old.by_key
            → OnOk result (OthersHaveOne key_cmp key.now (streams_at self.new.by_key)) }
        ensures keys { self.new.by_id ≡ self.old.by_id }
        ensures stands { OnOk result ((config : TheConfig) (limits : TheLimits)
            → Stands config limits store.now.objects self.old
            → Stands config limits store.now.objects self.new) }
        ensures shown { OnOk result ((config : TheConfig) (limits : TheLimits)
            → Stands config limits store.now.objects self.old
            → (id : ℕ) → shown_to_id self.new id ≡ shown_to_id self.old id) }
        ensures steps { steps.new ≤ steps.old
            + cost store.now.objects (endpoint_reads store.now.objects key.now) }
    {
        if self.by_key.contains_key(key) {
            return Ok(());
        }
        let streams = KeyStreams::new(self.alloc)?;
        let own = key.copy(self.alloc)?;
        self.index.enter(store, key.copy(self.alloc)?, steps)?;
        self.by_key.insert(own, streams)?;
        Ok(())
    }

    // Opens a stream under an id that has none. The key must have an entry.
    fn add(&mut self, id: u64, key: EndpointKey) -> Result<(), Memory>
        requires free { key_of_id self.old id ≡ None }
        requires there { is_some (streams_at self.old.by_key key) ≡ true }
        ensures keys { OnOk result
            (SetsAt id (Some key) (key_of_id self.old) (key_of_id self.new)) }
        ensures stands { OnOk result ((config : TheConfig) (limits : TheLimits) (held : ObjectMap)
            → Stands config limits held self.old → Stands config limits held self.new) }
        ensures each { OthersHaveOne key_cmp key (streams_at self.old.by_key)
            → OnOk result (AllHaveOne self.new.by_key) }
        ensures shown { OnOk result ((config : TheConfig) (limits : TheLimits) (held : ObjectMap)
            → Stands config limits held self.old
            → SetsAt id None (shown_to_id self.old) (shown_to_id self.new)) }
        ensures kept { OnErr result ((n : ℕ) → key_of_id self.new n ≡ key_of_id self.old n) }
    {
        open_at(&mut self.by_key, &key, id)?;
        self.by_id.insert(id, key)?;
        Ok(())
    }
}

impl EndpointStreams for SharedEndpoints {
    ghost use Rattle.std.specs.Prelude.{None};
    ghost use Rattle.std.proofs.Math.Logic.{∥∥₁_prop};
    ghost use Rattle.shared_endpoints.specs.InUse.{all_in_use, row_users};
    ghost use Rattle.shared_endpoints.specs.Standing.{StandsExactly, key_of_id, shown_to_id};

    ghost key_of = { key_of_id };

    ghost shown_to = { shown_to_id };

    ghost stands = { λ s config limits held. ∥ StandsExactly config limits held s ∥₁ };

    ghost users = { row_users };

    ghost in_use = { λ s config limits held stands. all_in_use config limits held s stands };

    ghost unique = { λ s config limits held. ∥∥₁_prop };

    fn open<L>(
        &mut self,
        store: &Store,
        id: u64,
        key: EndpointKey,
        steps: &mut Steps<L>,
    ) -> Result<(), Memory> {
        self.enter(store, &key, steps)?;
        self.add(id, key)
    }

    fn close(&mut self, id: u64) {
        let Some(key) = self.by_id.remove(&id) else {
            return;
        };
        if close_at(&mut self.by_key, &key, id) {
            self.by_key.remove(&key);
            self.index.leave(&key);
        }
    }

    fn follow<L>(
        &mut self,
        store: &Store,
        change: &Change,
        steps: &mut Steps<L>,
    ) -> Result<List<u64>, Memory> {
        endpoints_stay();
        endpoints_are_orderly();
        let keys = self.index.follow_change(store, change, steps)?;
        change_all(self.alloc, &self.index, keys.as_slice(), &mut self.by_key)
    }

    fn drain(&mut self, id: u64) -> Result<List<Bytes>, HubFault> {
        endpoints_are_orderly();
        let Some(key) = self.by_id.get(&id) else {
            return Ok(List::new(self.alloc));
        };
        let Some(now) = self.index.row(key) else {
            return Ok(List::new(self.alloc));
        };
        match self.by_key.get_mut(key) {
            Some(streams) => drain(self.alloc, streams, id, now, &self.limits),
            None => Ok(List::new(self.alloc)),
        }
    }

    fn endpoints(&self, id: u64) -> Option<&EndpointView> {
        match self.by_id.get(&id) {
            Some(key) => self.index.row(key),
            None => None,
        }
    }
}
