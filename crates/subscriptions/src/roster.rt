// The live subscriptions, and which of them are due.
ghost use Rattle.std.specs.Prelude.{◌≡◌, ◌<◌, ◌^◌, ◌&&◌, ◌||◌, ◌++◌, ◌∷◌, [], ℕ, nat_eq, not, true, None, OnErr, OnOk, is_some, length, Some, option_map};
ghost use Rattle.std.specs.Option.{option_copied};
ghost use Rattle.view_types.specs.Objects.{ObjectMap};
ghost use Rattle.view_types.specs.declared.config.Config.{Config};
ghost use Rattle.view_rules.specs.Fold.{IsOrderlyIfShown};
ghost use Rattle.feed_history.specs.Ids.{ended, in_place};
ghost use Rattle.mark_graph.specs.RowMarks.{has_row};
ghost use Rattle.subscriptions.specs.DueIds.{Rises, is_among};
ghost use Rattle.subscriptions.specs.Live.{AreBelow, IdsRise, PutsAt, id_of, key_at, showing, shown_in_place, sub_at};
ghost use Rattle.subscriptions.specs.Standing.{AreLive, IsShownNow, MakesDue, Stands, new_sub};

use crate::boxed_view::BoxedView;
use crate::due_list::DueList;
use crate::live::{Subscription, Subscriptions};
use mesh_base::memory::Memory;
use mesh_base::sub_id::SubId;
use std::alloc::Global;
use view_types::query::Query;

/// The live subscriptions, and the ids of those that are due.
#[derive(Drop)]
pub struct Roster {
    subs: Subscriptions,
    due: DueList,
}

impl Roster {
    /// Creates an empty roster.
    pub fn new(alloc: Global) -> Roster
        ensures subs { result.subs ≡ [] }
        ensures due { result.due ≡ [] }
        ensures stands { (config : Config) (held : ObjectMap) → Stands config held result }
    {
        Roster {
            subs: Subscriptions::new(alloc),
            due: DueList::new(alloc),
        }
    }

    /// Returns the number of live subscriptions.
    pub fn len(&self) -> usize
        ensures { result ≡ length self.now.subs }
    {
        self.subs.len()
    }

    /// States that the ids are in ascending order.
    pub fn stand_in_order(&self)
        ensures { IdsRise self.now.subs }
    {
        self.subs.stand_in_order();
    }

    /// Returns the subscription under the id.
    pub fn get(&self, id: SubId) -> Option<&Subscription>
        ensures { option_copied result ≡ sub_at id.0 self.now.subs }
    {
        self.subs.get(id.0 as u64)
    }

    /// Returns the ids that are due, in ascending order.
    pub fn due(&self) -> &[SubId]
        ensures value { result.now ≡ self.now.due }
        ensures rise { Rises self.now.due }
    {
        self.due.as_slice()
    }

    /// Whether the id is due.
    pub fn is_due(&self, id: SubId) -> bool
        ensures { result ≡ is_among id.0 self.now.due }
    {
        self.due.has(id)
    }

    /// Adds a subscription, which is due. Its id must be above all others.
    pub fn add(&mut self, id: SubId, query: Query) -> Result<(), Memory>
        requires { AreBelow id.0 self.old.subs }
        ensures subs { OnOk result (self.new.subs ≡ self.old.subs ++ new_sub id query ∷ []) }
        ensures at { OnOk result
            (PutsAt id.0 (Some (new_sub id query)) self.old.subs self.new.subs) }
        ensures due { OnOk result ((n : ℕ)
            → is_among n self.new.due ≡ (nat_eq n id.0 || is_among n self.old.due)) }
        ensures stands { OnOk result ((config : Config) (held : ObjectMap)
            → Stands config held self.old → Stands config held self.new) }
        ensures err { OnErr result (self.new.subs ≡ self.old.subs) }
    {
        self.due.put(id)?;
        self.subs.add(Subscription::new(id, query))?;
        Ok(())
    }

    /// Removes the subscription under the id. Returns whether there was one.
    pub fn end(&mut self, id: SubId) -> bool
        ensures there { result ≡ is_some (sub_at id.0 self.old.subs) }
        ensures subs { self.new.subs ≡ in_place id_of id.0 ended self.old.subs }
        ensures at { PutsAt id.0 None self.old.subs self.new.subs }
        ensures due { (n : ℕ)
            → is_among n self.new.due ≡ (not (nat_eq n id.0) && is_among n self.old.due) }
        ensures stands { (config : Config) (held : ObjectMap)
            → Stands config held self.old → Stands config held self.new }
    {
        self.due.take(id);
        self.subs.end(id.0 as u64)
    }

    /// Records that the subscriber under the id was shown the view. The id is no longer due.
    pub fn show(&mut self, id: SubId, view: BoxedView)
        requires { IsOrderlyIfShown (Some view) }
        ensures subs { self.new.subs ≡ in_place id_of id.0 (shown_in_place view) self.old.subs }
        ensures at { PutsAt id.0 (option_map (showing view) (sub_at id.0 self.old.subs))
            self.old.subs self.new.subs }
        ensures due { (n : ℕ)
            → is_among n self.new.due ≡ (not (nat_eq n id.0) && is_among n self.old.due) }
        ensures stands { (config : Config) (held : ObjectMap)
            → IsShownNow config held view (sub_at id.0 self.old.subs)
            → Stands config held self.old → Stands config held self.new }
    {
        self.due.take(id);
        self.subs.show(id.0 as u64, view);
    }

    /// Records that the subscriber under the id was shown its endpoints. The id is no longer due.
    pub fn show_endpoints(&mut self, id: SubId)
        ensures subs { self.new.subs ≡ self.old.subs }
        ensures due { (n : ℕ)
            → is_among n self.new.due ≡ (not (nat_eq n id.0) && is_among n self.old.due) }
        ensures stands { (config : Config) (held : ObjectMap)
            → is_some (key_at id.0 self.old.subs) ≡ true
            → Stands config held self.old → Stands config held self.new }
    {
        self.due.take(id);
    }

    /// Makes these ids due. They must be live; otherwise it is not known which ids are due. While
    /// they ascend, each is looked for first beside the one before it.
    pub fn make_due(&mut self, ids: &[u64]) -> Result<(), Memory>
        ensures subs { self.new.subs ≡ self.old.subs }
        ensures due { OnOk result (AreLive ids.now self.old
            → MakesDue (λ id. has_row id ids.now) self.old self.new) }
    {
        self.subs.stand_in_range();
        let mut near = 0;
        for id in ids {
            near = self.make_one_due(*id, near)?;
        }
        Ok(())
    }

    // Makes the id due, unless it is out of the range of ids. The index `near` of the list is tried
    // first. Returns the index for the next id.
    fn make_one_due(&mut self, id: u64, near: usize) -> Result<usize, Memory>
        ensures subs { self.new.subs ≡ self.old.subs }
        ensures due { OnOk result (id < 2 ^ 32 → MakesDue (λ n. nat_eq n id) self.old self.new) }
    {
        let Ok(number) = u32::try_from(id) else {
            return Ok(near);
        };
        Ok(self.due.put_near(SubId(number), near)?)
    }
}
