// The live subscriptions by their ids.
ghost use Rattle.std.specs.Prelude.{◌≡◌, ◌<◌, ◌^◌, ◌++◌, ◌∷◌, [], None, Some, OnOk, OnErr, is_some, length, option_map};
ghost use Rattle.std.specs.Option.{option_copied};
ghost use Rattle.view_rules.specs.Fold.{IsOrderlyIfShown};
ghost use Rattle.feed_history.specs.Ids.{ended, in_place};
ghost use Rattle.subscriptions.specs.ById.{ShowsAt};
ghost use Rattle.subscriptions.specs.Live.{AreBelow, IdsRise, PutsAt, id_of, shown_in_place, showing, sub_at};

use crate::boxed_view::BoxedView;
use chunked_map::map::ChunkedMap;
use mesh_base::memory::Memory;
use mesh_base::sub_id::SubId;
use std::alloc::Global;
use std::marker::Model;
use view_types::query::Query;
use view_types::view::View;

/// A live subscription.
#[derive(Drop)]
pub struct Subscription {
    pub id: SubId,
    pub query: Query,
    /// The view that the subscriber was last shown, with its rows in order; None before the first
    /// drain. For endpoints it is None, since the stream of the subscription knows what was shown.
    shown: Option<BoxedView>,
}

impl Model for Subscription {
    ghost use Rattle.std.specs.Coded.{codes};
    ghost use Rattle.view_rules.specs.Fold.{IsOrderlyIfShown};
    ghost use Rattle.view_types.specs.contracts.query.Query as the_query;
    ghost use Rattle.view_types.specs.contracts.view.View as the_view;
    ghost use Rattle.subscriptions.specs.Live.{LiveSubscription};

    ghost Value = { LiveSubscription };

    ghost coded = { Prim.hlevel (codes, the_query.the_row.coded, the_view.the_row.coded) };

    ghost view = { λ sub. record { id = sub.id; query = sub.query; shown = sub.shown } };

    ghost invariant = { λ sub. IsOrderlyIfShown sub.shown };
}

impl Subscription {
    /// Creates a subscription that was not drained yet.
    pub fn new(id: SubId, query: Query) -> Subscription
        ensures { result ≡ record { id = id; query = query; shown = None } }
    {
        Subscription {
            id,
            query,
            shown: None,
        }
    }

    // Returns the number of the id, which is below 2 ^ 32.
    fn number(&self) -> u64
        ensures value { result ≡ id_of self.now }
        ensures range { result < 2 ^ 32 }
    {
        self.id.0 as u64
    }

    /// Returns the view that the subscriber was last shown.
    pub fn shown(&self) -> Option<&View>
        ensures value { option_copied result ≡ self.now.shown }
        ensures orderly { IsOrderlyIfShown self.now.shown }
    {
        match &self.shown {
            Some(view) => Some(view.get()),
            None => None,
        }
    }

    // Records that the subscriber was shown the view.
    fn show(&mut self, view: BoxedView)
        requires { IsOrderlyIfShown (Some view) }
        ensures { self.new ≡ showing view self.old }
    {
        self.shown = Some(view);
    }
}

/// The live subscriptions by id. Contracts see them as a list in ascending order of the ids.
#[derive(Drop)]
pub struct Subscriptions {
    by_id: ChunkedMap<u64, Subscription>,
}

impl Model for Subscriptions {
    ghost use Rattle.std.specs.Coded.{codes};
    ghost use Rattle.std.specs.Prelude.{List};
    ghost use Rattle.std.specs.BTreeMap.{values};
    ghost use Rattle.view_types.specs.contracts.query.Query as the_query;
    ghost use Rattle.view_types.specs.contracts.view.View as the_view;
    ghost use Rattle.subscriptions.specs.Live.{LiveSubscription};
    ghost use Rattle.subscriptions.specs.ById.{AreByIds};

    ghost Value = { List LiveSubscription };

    ghost coded = { Prim.hlevel (codes, the_query.the_row.coded, the_view.the_row.coded) };

    ghost view = { λ s. values s.by_id };

    ghost invariant = { λ s. AreByIds s.by_id.entries };
}

impl Subscriptions {
    pub fn new(alloc: Global) -> Subscriptions
        ensures { result ≡ [] }
    {
        Subscriptions {
            by_id: ChunkedMap::new(alloc),
        }
    }

    /// Returns the number of live subscriptions.
    pub fn len(&self) -> usize
        ensures { result ≡ length self.now }
    {
        self.by_id.len()
    }

    /// States that the ids are in ascending order.
    pub fn stand_in_order(&self)
        ensures { IdsRise self.now }
    {
        let _len = self.by_id.len();
    }

    /// States that the ids are below 2 ^ 32.
    pub fn stand_in_range(&self)
        ensures { AreBelow (2 ^ 32) self.now }
    {
        let _len = self.by_id.len();
    }

    /// Returns the subscription under the id.
    pub fn get(&self, id: u64) -> Option<&Subscription>
        ensures { option_copied result ≡ sub_at id self.now }
    {
        self.by_id.get(&id)
    }

    /// Adds a subscription. Its id must be above all others.
    pub fn add(&mut self, sub: Subscription) -> Result<(), Memory>
        requires { AreBelow (id_of sub) self.old }
        ensures ok { OnOk result (self.new ≡ self.old ++ sub ∷ []) }
        ensures at { OnOk result (PutsAt (id_of sub) (Some sub) self.old self.new) }
        ensures err { OnErr result (self.new ≡ self.old) }
    {
        self.by_id.insert(sub.number(), sub)?;
        Ok(())
    }

    /// Removes the subscription under the id. Returns whether there was one.
    pub fn end(&mut self, id: u64) -> bool
        ensures there { result ≡ is_some (sub_at id self.old) }
        ensures gone { self.new ≡ in_place id_of id ended self.old }
        ensures at { PutsAt id None self.old self.new }
    {
        self.by_id.remove(&id).is_some()
    }

    /// Records that the subscriber under the id was shown the view.
    pub fn show(&mut self, id: u64, view: BoxedView)
        requires { IsOrderlyIfShown (Some view) }
        ensures shown { self.new ≡ in_place id_of id (shown_in_place view) self.old }
        ensures at { PutsAt id (option_map (showing view) (sub_at id self.old)) self.old self.new }
    {
        show_at(&mut self.by_id, id, view);
    }
}

fn show_at(by_id: &mut ChunkedMap<u64, Subscription>, id: u64, view: BoxedView)
    requires { IsOrderlyIfShown (Some view) }
    ensures { ShowsAt id view by_id.old by_id.new }
{
    match by_id.get_mut(&id) {
        Some(sub) => sub.show(view),
        None => {}
    }
}
