// The live subscriptions, with the streams of those to endpoints and the kept views of the others.
ghost use Rattle.std.specs.Prelude.{◌≡◌, ◌≤◌, ◌+◌, ◌&&◌, ◌||◌, ◌++◌, ◌∷◌, [], ℕ, nat_eq, not, true, None, IfOk, OnErr, OnOk, is_some, length, option_map, Some};
ghost use Rattle.std.specs.Option.{option_copied};
ghost use Rattle.mesh_base.specs.declared.limits.Limits.{Limits};
ghost use Rattle.view_types.specs.Objects.{AtKeys, ObjectMap};
ghost use Rattle.view_types.specs.declared.config.Config.{Config};
ghost use Rattle.view_types.specs.declared.query.Query.{Query as TheQuery};
ghost use Rattle.view_rules.specs.Batch.{batch};
ghost use Rattle.view_rules.specs.Fold.{IsOrderlyIfShown};
ghost use Rattle.view_rules.specs.PolicyLaws.{AreLawful};
ghost use Rattle.view_rules.specs.Views.{as_asked, view_of};
ghost use Rattle.feed_history.specs.Drains.{IsOrMemory, frames_within};
ghost use Rattle.feed_history.specs.Ids.{ended, in_place};
ghost use Rattle.watch_events.specs.declared.event.Event.{Event};
ghost use Rattle.mark_rules.specs.Rows.{rows};
ghost use Rattle.row_views.specs.Costs.{FollowsWithin, cost_of};
ghost use Rattle.row_views.specs.Ids.{SetsAt};
ghost use Rattle.row_views.specs.InUse.{AreInUse};
ghost use Rattle.endpoint_streams.specs.Streams.{endpoints_at};
ghost use Rattle.subscriptions.specs.Costs.{stream_cost};
ghost use Rattle.subscriptions.specs.DueIds.{Rises, is_among};
ghost use Rattle.subscriptions.specs.Live.{AreBelow, Covers, LiveSubscription, endpoint_key, id_of, key_at, query_at, shown_in_place, sub_at, subs_of};
ghost use Rattle.subscriptions.specs.Standing.{AllFollow, AllStand, IsAfter, IsShownNow, OpensAt, new_sub};

use crate::boxed_view::BoxedView;
use crate::live::Subscription;
use crate::queries::{as_asked, endpoint_key};
use crate::roster::Roster;
use bytes::Bytes;
use endpoint_streams::streams::EndpointStreams;
use event_laws::laws::untouched_queries_stay;
use feed_history::refusal::HubFault;
use mark_rules::laws::endpoints_stay;
use mesh_base::list::List;
use mesh_base::memory::Memory;
use mesh_base::steps::Steps;
use mesh_base::sub_id::SubId;
use object_store::change::Change;
use object_store::store::Store;
use row_views::query_views::QueryViews;
use std::alloc::Global;
use view_types::endpoint::EndpointView;
use view_types::query::Query;
use view_types::view::View;

/// The live subscriptions, some of which are due. Those to endpoints have a stream each; the others
/// share kept views.
#[derive(Drop)]
pub struct Subscribers<E: EndpointStreams, V: QueryViews> {
    live: Roster,
    endpoints: E,
    views: V,
}

impl<E: EndpointStreams, V: QueryViews> Subscribers<E, V> {
    /// Creates an empty set of subscriptions. It must be given no open stream and no kept view.
    pub fn new(alloc: Global, endpoints: E, views: V) -> Subscribers<E, V>
        requires closed { (id : ℕ) → E.key_of endpoints id ≡ None }
        requires unkept { (id : ℕ) → V.query_of views id ≡ None }
        ensures subs { result.live.subs ≡ [] }
        ensures due { result.live.due ≡ [] }
        ensures stands { (config : Config) (limits : Limits) (held : ObjectMap)
            → E.stands endpoints config limits held → V.stands views config held
            → AllStand E.key_of E.shown_to E.stands V.kept_query V.query_of V.stands
            config limits held result }
    {
        Subscribers {
            live: Roster::new(alloc),
            endpoints,
            views,
        }
    }

    /// Returns the kept views of the subscriptions that are not to endpoints.
    pub fn views(&self) -> &V
        ensures { result.now ≡ self.now.views }
    {
        &self.views
    }

    /// Returns the number of live subscriptions.
    pub fn len(&self) -> usize
        ensures { result ≡ length self.now.live.subs }
    {
        self.live.len()
    }

    /// Returns the subscription under the id. For endpoints, the stream knows what the subscriber
    /// was shown.
    pub fn get(&self, id: SubId) -> Option<&Subscription>
        ensures { option_copied result ≡ sub_at id.0 self.now.live.subs }
    {
        self.live.get(id)
    }

    /// Returns the ids that are due, in ascending order.
    pub fn due(&self) -> &[SubId]
        ensures value { result.now ≡ self.now.live.due }
        ensures rise { Rises self.now.live.due }
    {
        self.live.due()
    }

    /// Whether the id is due.
    pub fn is_due(&self, id: SubId) -> bool
        ensures { result ≡ is_among id.0 self.now.live.due }
    {
        self.live.is_due(id)
    }

    /// States that the rows that have users, in the indexes of endpoints and of other views
    /// together, are exactly those of the queries of the live subscriptions.
    pub fn rows_in_use_are_those_of_queries(&self)
        ensures { (config : Config) (limits : Limits) (held : ObjectMap) → Covers V.kept_query
            → AllStand E.key_of E.shown_to E.stands V.kept_query V.query_of V.stands
            config limits held self.now
            → AreInUse config held (λ id. query_at id self.now.live.subs)
            (λ key. E.users self.now.endpoints key + V.users self.now.views key) }
    {}

    /// Adds a subscription, which is due. Its id must be above all others.
    pub fn add<L>(
        &mut self,
        store: &Store,
        id: SubId,
        query: Query,
        steps: &mut Steps<L>,
    ) -> Result<(), Memory>
        requires below { AreBelow id.0 self.old.live.subs }
        requires free { E.key_of self.old.endpoints id.0 ≡ None }
        requires unkept { V.query_of self.old.views id.0 ≡ None }
        ensures subs { OnOk result
            (self.new.live.subs ≡ self.old.live.subs ++ new_sub id query ∷ []) }
        ensures due { OnOk result ((n : ℕ)
            → is_among n self.new.live.due ≡ (nat_eq n id.0 || is_among n self.old.live.due)) }
        ensures shown { OnOk result ((config : Config) (limits : Limits)
            → E.stands self.old.endpoints config limits store.now.objects
            → subs_of (E.shown_to self.new.endpoints) self.new.live.subs
            ≡ subs_of (E.shown_to self.old.endpoints) self.old.live.subs ++ new_sub id query ∷ []) }
        ensures stands { OnOk result ((config : Config) (limits : Limits)
            → AllStand E.key_of E.shown_to E.stands V.kept_query V.query_of V.stands
            config limits store.now.objects self.old
            → AllStand E.key_of E.shown_to E.stands V.kept_query V.query_of V.stands
            config limits store.now.objects self.new) }
        ensures steps { (config : Config) (limits : Limits) → Covers V.kept_query
            → AllStand E.key_of E.shown_to E.stands V.kept_query V.query_of V.stands
            config limits store.now.objects self.old → steps.new ≤ steps.old
            + cost_of config store.now.objects (rows config store.now.objects query) }
        ensures err { OnErr result (self.new.live.subs ≡ self.old.live.subs) }
    {
        open_stream(&mut self.endpoints, store, id, &query, steps)?;
        self.views.open(store, id.0 as u64, &query, steps)?;
        self.live.add(id, query)?;
        Ok(())
    }

    /// Removes the subscription under the id. Returns whether there was one. It does not allocate.
    pub fn end(&mut self, id: SubId) -> bool
        ensures there { result ≡ is_some (sub_at id.0 self.old.live.subs) }
        ensures subs { self.new.live.subs ≡ in_place id_of id.0 ended self.old.live.subs }
        ensures due { (n : ℕ)
            → is_among n self.new.live.due ≡ (not (nat_eq n id.0) && is_among n self.old.live.due) }
        ensures shown { (config : Config) (limits : Limits) (held : ObjectMap)
            → E.stands self.old.endpoints config limits held
            → subs_of (E.shown_to self.new.endpoints) self.new.live.subs
            ≡ in_place id_of id.0 ended
            (subs_of (E.shown_to self.old.endpoints) self.old.live.subs) }
        ensures stands { (config : Config) (limits : Limits) (held : ObjectMap)
            → AllStand E.key_of E.shown_to E.stands V.kept_query V.query_of V.stands
            config limits held self.old
            → AllStand E.key_of E.shown_to E.stands V.kept_query V.query_of V.stands
            config limits held self.new }
    {
        self.endpoints.close(id.0 as u64);
        self.views.close(id.0 as u64);
        self.live.end(id)
    }

    /// Returns a copy of the kept view of the subscription under the id. For endpoints, and for an
    /// id without a subscription, it returns None.
    pub fn view(&self, id: SubId) -> Result<Option<View>, Memory>
        ensures { IfOk result (λ view. (config : Config) (limits : Limits)
            (held : ObjectMap) → AtKeys held → AreLawful held → Covers V.kept_query
            → AllStand E.key_of E.shown_to E.stands V.kept_query V.query_of V.stands
            config limits held self.now
            → (query : TheQuery) → query_at id.0 self.now.live.subs ≡ Some query
            → endpoint_key query ≡ None → view ≡ Some (view_of config held query)) }
    {
        match self.live.get(id) {
            Some(sub) => Ok(told(&sub.query, self.views.view(id.0 as u64)?)),
            None => Ok(None),
        }
    }

    /// Returns the current endpoints of the subscription under the id. For other views, and for an
    /// id without a subscription, it returns None. It does not allocate.
    pub fn endpoints(&self, id: SubId) -> Option<&EndpointView>
        ensures { (config : Config) (limits : Limits) (held : ObjectMap)
            → AllStand E.key_of E.shown_to E.stands V.kept_query V.query_of V.stands
            config limits held self.now
            → option_copied result ≡ endpoints_at config held (key_at id.0 self.now.live.subs) }
    {
        self.endpoints.endpoints(id.0 as u64)
    }

    /// Records that the subscriber under the id was shown the view, which is not of endpoints. The
    /// id is no longer due.
    pub fn show(&mut self, id: SubId, view: BoxedView)
        requires orderly { IsOrderlyIfShown (Some view) }
        requires other { key_at id.0 self.old.live.subs ≡ None }
        ensures subs { self.new.live.subs
            ≡ in_place id_of id.0 (shown_in_place view) self.old.live.subs }
        ensures due { (n : ℕ)
            → is_among n self.new.live.due ≡ (not (nat_eq n id.0) && is_among n self.old.live.due) }
        ensures shown { subs_of (E.shown_to self.new.endpoints) self.new.live.subs
            ≡ in_place id_of id.0 (shown_in_place view)
            (subs_of (E.shown_to self.old.endpoints) self.old.live.subs) }
        ensures stands { (config : Config) (limits : Limits) (held : ObjectMap)
            → IsShownNow config held view (sub_at id.0 self.old.live.subs)
            → AllStand E.key_of E.shown_to E.stands V.kept_query V.query_of V.stands
            config limits held self.old
            → AllStand E.key_of E.shown_to E.stands V.kept_query V.query_of V.stands
            config limits held self.new }
    {
        self.live.show(id, view);
    }

    /// Returns the frames that bring the subscriber of the id from the endpoints that it was last
    /// shown to the current ones. The id is no longer due. Returns `Oversize`, with the length of
    /// the first such message, if a message is longer than the limit. After an error, what
    /// subscribers were shown is as before.
    pub fn drain(&mut self, id: SubId) -> Result<List<Bytes>, HubFault>
        requires standing { (config : Config) × (limits : Limits) × (held : ObjectMap)
            × E.stands self.old.endpoints config limits held }
        requires streamed { is_some (key_at id.0 self.old.live.subs) ≡ true }
        ensures frames { (config : Config) (limits : Limits) (held : ObjectMap)
            → AllStand E.key_of E.shown_to E.stands V.kept_query V.query_of V.stands
            config limits held self.old
            → (sub : LiveSubscription)
            → sub_at id.0 (subs_of (E.shown_to self.old.endpoints) self.old.live.subs) ≡ Some sub
            → IsOrMemory (frames_within limits.message
            (batch sub.shown (view_of config held sub.query) limits)) result }
        ensures due { OnOk result ((n : ℕ) → is_among n self.new.live.due
            ≡ (not (nat_eq n id.0) && is_among n self.old.live.due)) }
        ensures shown { OnOk result ((config : Config) (limits : Limits) (held : ObjectMap)
            → AllStand E.key_of E.shown_to E.stands V.kept_query V.query_of V.stands
            config limits held self.old
            → (sub : LiveSubscription)
            → sub_at id.0 (subs_of (E.shown_to self.old.endpoints) self.old.live.subs) ≡ Some sub
            → subs_of (E.shown_to self.new.endpoints) self.new.live.subs
            ≡ in_place id_of id.0 (shown_in_place (view_of config held sub.query))
            (subs_of (E.shown_to self.old.endpoints) self.old.live.subs)) }
        ensures subs { self.new.live.subs ≡ self.old.live.subs }
        ensures stands { (config : Config) (limits : Limits) (held : ObjectMap)
            → AllStand E.key_of E.shown_to E.stands V.kept_query V.query_of V.stands
            config limits held self.old
            → AllStand E.key_of E.shown_to E.stands V.kept_query V.query_of V.stands
            config limits held self.new }
        ensures undue { OnErr result (self.new.live.due ≡ self.old.live.due) }
        ensures kept { OnErr result (subs_of (E.shown_to self.new.endpoints) self.new.live.subs
            ≡ subs_of (E.shown_to self.old.endpoints) self.old.live.subs) }
    {
        self.live.stand_in_order();
        match self.endpoints.drain(id.0 as u64) {
            Ok(frames) => {
                self.live.show_endpoints(id);
                Ok(frames)
            }
            Err(fault) => Err(fault),
        }
    }

    /// Makes those subscriptions due whose queries read a mark of this change of the store, which
    /// must be that of an event.
    pub fn follow<L>(
        &mut self,
        store: &Store,
        change: &Change,
        steps: &mut Steps<L>,
    ) -> Result<(), Memory>
        ensures subs { self.new.live.subs ≡ self.old.live.subs }
        ensures follows { OnOk result ((config : Config) (limits : Limits)
            (before : ObjectMap) (event : Event) → Covers V.kept_query
            → IsAfter before store.now.objects change.now.marks event
            → AllStand E.key_of E.shown_to E.stands V.kept_query V.query_of V.stands
            config limits before self.old
            → AllFollow E.key_of E.shown_to E.stands V.kept_query V.query_of V.stands
            config limits before event self.old self.new) }
        ensures steps { OnOk result ((config : Config) (limits : Limits)
            (before : ObjectMap) (event : Event) → Covers V.kept_query
            → IsAfter before store.now.objects change.now.marks event
            → AllStand E.key_of E.shown_to E.stands V.kept_query V.query_of V.stands
            config limits before self.old
            → FollowsWithin config change.now.marks before store.now.objects
            (λ id. query_at id self.old.live.subs) steps.old steps.new) }
    {
        endpoints_stay();
        untouched_queries_stay();
        let viewed = self.views.follow(store, change, steps)?;
        let streamed = self.endpoints.follow(store, change, steps)?;
        self.live.make_due(viewed.as_slice())?;
        self.live.make_due(streamed.as_slice())?;
        Ok(())
    }
}

// Converts a kept view, if there is one, to the form in which the query's method sends it.
fn told(query: &Query, view: Option<View>) -> Option<View>
    ensures { result ≡ option_map (as_asked query.now) view }
{
    match view {
        Some(view) => Some(as_asked(query, view)),
        None => None,
    }
}

// Opens a stream, if the subscription is to endpoints.
fn open_stream<E: EndpointStreams, L>(
    endpoints: &mut E,
    store: &Store,
    id: SubId,
    query: &Query,
    steps: &mut Steps<L>,
) -> Result<(), Memory>
    requires { E.key_of endpoints.old id.0 ≡ None }
    ensures keys { OnOk result
        (SetsAt id.0 (endpoint_key query.now) (E.key_of endpoints.old) (E.key_of endpoints.new)) }
    ensures shown { OnOk result ((config : Config) (limits : Limits)
        → E.stands endpoints.old config limits store.now.objects
        → OpensAt id.0 (endpoint_key query.now) (E.shown_to endpoints.old)
        (E.shown_to endpoints.new)) }
    ensures stands { OnOk result ((config : Config) (limits : Limits)
        → E.stands endpoints.old config limits store.now.objects
        → E.stands endpoints.new config limits store.now.objects) }
    ensures steps { steps.new ≤ steps.old
        + stream_cost store.now.objects (endpoint_key query.now) }
{
    match endpoint_key(query)? {
        Some(key) => endpoints.open(store, id.0 as u64, key, steps),
        None => Ok(()),
    }
}
