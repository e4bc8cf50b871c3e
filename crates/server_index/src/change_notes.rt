// What the rows that follow one change share.
ghost use Rattle.std.specs.Prelude.{◌≡◌, ◌++◌, ◌||◌, [], ◌∷◌, false, true, List, IfOk, IfSome, IsTrue, OnOk};
ghost use Rattle.std.specs.FinMap.{get};
ghost use Rattle.std.specs.List.{list_any};
ghost use Rattle.view_types.specs.Objects.{ObjectMap};
ghost use Rattle.view_types.specs.declared.mark.Mark.{Mark};
ghost use Rattle.view_types.specs.declared.mark.Mark.TheVariants.{Obj};
ghost use Rattle.view_rules.specs.Servers.{server_found};
ghost use Rattle.server_index.specs.Concerned.{AreListed, concern_of, is_concerned, stirs};
ghost use Rattle.server_index.specs.Matches.{AreRight};
ghost use Rattle.server_index.specs.Noting.{NotesHold};
ghost use Rattle.server_index.specs.declared.name_filter.NameFilter.{NameFilter};

use crate::concerns::{Concern, any_concerns, concern_of};
use crate::name_filter::NameFilter;
use crate::notes::ServerNotes;
use mesh_base::key::{Kind, ObjKey};
use mesh_base::memory::Memory;
use std::alloc::Global;
use view_types::mark::Mark;

/// The Servers of a change that were looked up, and the ports that the change concerns.
#[derive(Drop)]
pub struct ChangeNotes {
    pub(crate) servers: ServerNotes,
    /// None if these may be all ports.
    concerns: Option<Vec<Concern>>,
    /// Whether the ports were sought.
    sought: bool,
}

impl ChangeNotes {
    /// Creates notes on a change that no row has followed yet.
    pub(crate) fn new(alloc: Global) -> ChangeNotes
        ensures { (held : ObjectMap) (changed : List Mark) → NotesHold held changed result }
    {
        ChangeNotes {
            servers: ServerNotes::new(alloc),
            concerns: None,
            sought: false,
        }
    }

    /// Whether the change doesn't concern a port whose Servers have these names, and whose Pod has
    /// labels with these values.
    pub(crate) fn passes_over(&self, names: &NameFilter, values: &NameFilter) -> bool
        ensures { IsTrue result → (held : ObjectMap) (changed : List Mark)
            → NotesHold held changed self.now
            → list_any (stirs held names.now values.now) changed ≡ false }
    {
        match &self.concerns {
            Some(listed) => !any_concerns(listed.as_slice(), names, values),
            None => false,
        }
    }

    /// Lists the ports that a change with these marks concerns, once.
    pub(crate) fn list(&mut self, changed: &[Mark]) -> Result<(), Memory>
        ensures { OnOk result ((held : ObjectMap) → NotesHold held changed.now self.old
            → NotesHold held changed.now self.new) }
    {
        if self.sought {
            return Ok(());
        }
        self.sought = true;
        self.concerns = concerns_of(&self.servers, changed)?;
        Ok(())
    }
}

/// Returns the ports that a change with these marks concerns, if it leaves all Pods unchanged and
/// its Servers are all noted.
fn concerns_of(notes: &ServerNotes, changed: &[Mark]) -> Result<Option<Vec<Concern>>, Memory>
    ensures { IfOk result (λ found. IfSome found (λ listed. (held : ObjectMap)
        → AreRight held notes.now → AreListed held changed.now listed.items)) }
{
    let mut listed = Vec::new(notes.alloc());
    for mark in changed {
        if !add_mark(notes, mark, &mut listed)? {
            return Ok(None);
        }
    }
    Ok(Some(listed))
}

/// Adds the ports that a mark of the change concerns. Returns whether they are known.
fn add_mark(notes: &ServerNotes, mark: &Mark, listed: &mut Vec<Concern>) -> Result<bool, Memory>
    ensures { IfOk result (λ known. known ≡ true → (held : ObjectMap) → AreRight held notes.now
        → (names values : NameFilter) → list_any (is_concerned names values) listed.new.items
        ≡ (list_any (is_concerned names values) listed.old.items
        || stirs held names values mark.now)) }
{
    match mark {
        Mark::Obj(key) => add_key(notes, key, listed),
        _ => Ok(true),
    }
}

fn add_key(notes: &ServerNotes, key: &ObjKey, listed: &mut Vec<Concern>) -> Result<bool, Memory>
    ensures { IfOk result (λ known. known ≡ true → (held : ObjectMap) → AreRight held notes.now
        → (names values : NameFilter) → list_any (is_concerned names values) listed.new.items
        ≡ (list_any (is_concerned names values) listed.old.items
        || stirs held names values (Obj key.now))) }
{
    match key.kind {
        Kind::Pod => Ok(false),
        Kind::Server => add_server(notes, key, listed),
        _ => Ok(true),
    }
}

fn add_server(notes: &ServerNotes, key: &ObjKey, listed: &mut Vec<Concern>) -> Result<bool, Memory>
    ensures { IfOk result (λ known. known ≡ true → (held : ObjectMap) → AreRight held notes.now
        → listed.new.items
        ≡ listed.old.items ++ concern_of key.now (server_found (get held key.now)) ∷ []) }
{
    if !notes.has(key) {
        return Ok(false);
    }
    listed.push(concern_of(key, notes.of(key)))?;
    Ok(true)
}
