// The Servers of a change, each looked up once for all rows.
ghost use Rattle.std.specs.Prelude.{◌≡◌, ◌≤◌, ◌+◌, Some, IsTrue, IfOk, OnOk, is_some};
ghost use Rattle.std.specs.FinMap.{get};
ghost use Rattle.std.specs.Option.{option_copied};
ghost use Rattle.view_types.specs.Objects.{ObjectMap};
ghost use Rattle.view_rules.specs.Servers.{server_found};
ghost use Rattle.server_index.specs.Matches.{AreRight, noted_at, server_in};

use mesh_base::copied::Copied;
use mesh_base::key::ObjKey;
use mesh_base::memory::Memory;
use mesh_base::steps::Steps;
use object_store::store::Store;
use policy_rows::server::server_found;
use std::alloc::Global;
use std::collections::BTreeMap;
use view_types::server::ServerSpec;

/// The Servers under keys after a change.
#[derive(Drop)]
pub struct ServerNotes {
    by_key: BTreeMap<ObjKey, Option<ServerSpec>>,
    alloc: Global,
}

impl ServerNotes {
    /// Creates notes of no key.
    pub(crate) fn new(alloc: Global) -> ServerNotes
        ensures { (held : ObjectMap) → AreRight held result }
    {
        ServerNotes {
            by_key: BTreeMap::new(alloc),
            alloc,
        }
    }

    /// Looks up the Server under the key, unless it is noted.
    pub(crate) fn note<L>(
        &mut self,
        store: &Store,
        key: &ObjKey,
        steps: &mut Steps<L>,
    ) -> Result<(), Memory>
        ensures right { OnOk result (AreRight store.now.objects self.old
            → AreRight store.now.objects self.new) }
        ensures there { OnOk result (AreRight store.now.objects self.old
            → noted_at self.new key.now ≡ Some (server_found (get store.now.objects key.now))) }
        ensures steps { steps.new ≤ steps.old + 1 }
        ensures once { IsTrue (is_some (noted_at self.old key.now)) → steps.new ≡ steps.old }
    {
        if self.by_key.contains_key(key) {
            return Ok(());
        }
        let server = copied(self.alloc, server_at(store, key, steps))?;
        self.by_key.insert(key.copy(self.alloc)?, server)?;
        Ok(())
    }

    pub(crate) fn alloc(&self) -> Global {
        self.alloc
    }

    /// Whether it is noted what is under the key.
    pub(crate) fn has(&self, key: &ObjKey) -> bool
        ensures { result ≡ is_some (noted_at self.now key.now) }
    {
        self.by_key.contains_key(key)
    }

    /// Returns the Server that is noted under the key.
    pub(crate) fn of(&self, key: &ObjKey) -> Option<&ServerSpec>
        ensures { option_copied result ≡ server_in (noted_at self.now key.now) }
    {
        match self.by_key.get(key) {
            Some(Some(server)) => Some(server),
            _ => None,
        }
    }
}

/// Returns the Server under the key.
pub(crate) fn server_at<'a, L>(
    store: &'a Store,
    key: &ObjKey,
    steps: &mut Steps<L>,
) -> Option<&'a ServerSpec>
    ensures value { option_copied result ≡ server_found (get store.now.objects key.now) }
    ensures steps { steps.new ≤ steps.old + 1 }
{
    server_found(store.get(key, steps))
}

fn copied(alloc: Global, server: Option<&ServerSpec>) -> Result<Option<ServerSpec>, Memory>
    ensures { IfOk result (λ copy. copy ≡ option_copied server.entry) }
{
    match server {
        Some(server) => Ok(Some(server.copy(alloc)?)),
        None => Ok(None),
    }
}
