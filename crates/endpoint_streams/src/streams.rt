ghost use Rattle.std.specs.Prelude.{◌≡◌, ◌≤◌, ◌+◌, ℕ, List, Option, Some, None, IfOk, OnErr, OnOk, option_map};
ghost use Rattle.std.specs.Option.{option_copied};
ghost use Rattle.view_types.specs.Objects.{ObjectMap};
ghost use Rattle.view_types.specs.declared.config.Config.{Config};
ghost use Rattle.view_types.specs.declared.endpoint.EndpointView.{EndpointView as TheEndpoints};
ghost use Rattle.mark_graph.specs.RowMarks.{has_row};
ghost use Rattle.mark_rules.specs.Changes.{Leads};
ghost use Rattle.mark_rules.specs.Reads.{cost, endpoint_reads};
ghost use Rattle.mark_rules.specs.declared.keys.EndpointKey.{EndpointKey as TheKey};
ghost use Rattle.mark_rules.specs.declared.keys.RowKey.{RowKey};
ghost use Rattle.mesh_base.specs.declared.limits.Limits.{Limits};
ghost use Rattle.feed_history.specs.Drains.{IsOrMemory};
ghost use Rattle.row_views.specs.Ids.{Keeps, SetsAt};
ghost use Rattle.row_views.specs.Costs.{FollowsWithin};
ghost use Rattle.row_views.specs.InUse.{AreInUse};
ghost use Rattle.endpoint_streams.specs.Streams.{endpoints_at, frames_to, is_met, query_for};

use bytes::Bytes;
use feed_history::refusal::HubFault;
use mark_rules::keys::EndpointKey;
use mesh_base::list::List;
use mesh_base::memory::Memory;
use mesh_base::steps::Steps;
use object_store::change::Change;
use object_store::store::Store;
use view_types::endpoint::EndpointView;

/// The streams of endpoints that subscribers are sent, each under the id of its subscription. After
/// `Memory` nothing is known of what was shown, but the keys of the streams stay.
pub trait EndpointStreams: Drop {
    /// The key of each open stream.
    ghost key_of: { Self → ℕ → Option TheKey };

    /// The endpoints that the subscriber of a stream was last shown; None if it was shown none.
    ghost shown_to: { Self → ℕ → Option TheEndpoints };

    /// The streams represent the endpoints over these objects, in frames within these limits.
    ghost stands: { Self → Config → Limits → ObjectMap → Type 0 };

    /// How many users the row of a key has in the index of endpoints. Rows of other kinds have
    /// none.
    ghost users: { Self → RowKey → ℕ };

    /// Opens a stream under an id that has none. Its subscriber was shown nothing yet.
    fn open<L>(
        &mut self,
        store: &Store,
        id: u64,
        key: EndpointKey,
        steps: &mut Steps<L>,
    ) -> Result<(), Memory>
        requires free { key_of self.old id ≡ None }
        ensures keys { OnOk result (SetsAt id (Some key) (key_of self.old) (key_of self.new)) }
        ensures shown { OnOk result ((config : Config) (limits : Limits)
            → stands self.old config limits store.now.objects
            → SetsAt id None (shown_to self.old) (shown_to self.new)) }
        ensures stands { OnOk result ((config : Config) (limits : Limits)
            → stands self.old config limits store.now.objects
            → stands self.new config limits store.now.objects) }
        ensures steps { steps.new ≤ steps.old
            + cost store.now.objects (endpoint_reads store.now.objects key) }
        ensures kept { OnErr result (Keeps (key_of self.old) (key_of self.new)) };

    /// Closes the stream of an id, if it has one. It does not allocate.
    fn close(&mut self, id: u64)
        ensures keys { SetsAt id None (key_of self.old) (key_of self.new) }
        ensures shown { (config : Config) (limits : Limits) (held : ObjectMap)
            → stands self.old config limits held
            → SetsAt id None (shown_to self.old) (shown_to self.new) }
        ensures stands { (config : Config) (limits : Limits) (held : ObjectMap)
            → stands self.old config limits held → stands self.new config limits held };

    /// Updates the streams after a change of the store. Returns the ids of those whose endpoints
    /// read a mark of the change. What subscribers were shown stays as it was.
    fn follow<L>(
        &mut self,
        store: &Store,
        change: &Change,
        steps: &mut Steps<L>,
    ) -> Result<List<u64>, Memory>
        ensures touched { IfOk result (λ ids. (config : Config) (limits : Limits)
            (held : ObjectMap) → stands self.old config limits held
            → Leads change.now.marks held store.now.objects
            → (id : ℕ) → has_row id ids ≡ is_met held change.now.marks (key_of self.old id)) }
        ensures shown { OnOk result ((config : Config) (limits : Limits) (held : ObjectMap)
            → stands self.old config limits held
            → Leads change.now.marks held store.now.objects
            → Keeps (shown_to self.old) (shown_to self.new)) }
        ensures stands { OnOk result ((config : Config) (limits : Limits) (held : ObjectMap)
            → stands self.old config limits held
            → Leads change.now.marks held store.now.objects
            → stands self.new config limits store.now.objects) }
        ensures steps { OnOk result ((config : Config) (limits : Limits) (held : ObjectMap)
            → stands self.old config limits held
            → Leads change.now.marks held store.now.objects
            → FollowsWithin config change.now.marks held store.now.objects
            (λ id. option_map query_for (key_of self.old id)) steps.old steps.new) }
        ensures keys { Keeps (key_of self.old) (key_of self.new) };

    /// Returns the frames that bring the subscriber of an id from the endpoints that it was last
    /// shown to the current ones. Returns `Oversize`, with the length of the first such message, if
    /// a message is longer than the limit. After an error, what subscribers were shown is as
    /// before.
    fn drain(&mut self, id: u64) -> Result<List<Bytes>, HubFault>
        requires standing { (config : Config) × (limits : Limits) × (held : ObjectMap)
            × stands self.old config limits held }
        ensures frames { (config : Config) (limits : Limits) (held : ObjectMap)
            → stands self.old config limits held → IsOrMemory (frames_to limits
            (shown_to self.old id) (endpoints_at config held (key_of self.old id))) result }
        ensures shown { OnOk result ((config : Config) (limits : Limits) (held : ObjectMap)
            → stands self.old config limits held
            → SetsAt id (endpoints_at config held (key_of self.old id)) (shown_to self.old)
            (shown_to self.new)) }
        ensures kept { OnErr result (Keeps (shown_to self.old) (shown_to self.new)) }
        ensures stands { (config : Config) (limits : Limits) (held : ObjectMap)
            → stands self.old config limits held → stands self.new config limits held }
        ensures keys { Keeps (key_of self.old) (key_of self.new) };

    /// Returns the current endpoints of the stream of an id, if it has one. It does not allocate.
    fn endpoints(&self, id: u64) -> Option<&EndpointView>
        ensures { (config : Config) (limits : Limits) (held : ObjectMap)
            → stands self.now config limits held
            → option_copied result ≡ endpoints_at config held (key_of self.now id) };

    /// States that the rows that have users are exactly those of the keys of the open streams.
    ghost in_use: { (streams : Self) (config : Config) (limits : Limits) (held : ObjectMap)
        → stands streams config limits held
        → AreInUse config held (λ id. option_map query_for (key_of streams id)) (users streams) };

    /// States that `stands` is a proposition, so that a field of a struct may have it as its type.
    ghost unique: { (streams : Self) (config : Config) (limits : Limits) (held : ObjectMap)
        → IsProp (stands streams config limits held) };
}
