// A carried stream.
ghost use Rattle.std.specs.Prelude.{◌≡◌, None, OnErr, OnOk};
ghost use Rattle.std.specs.Option.{option_copied};
ghost use Rattle.view_rules.specs.Fold.{IsOrderlyIfShown};
ghost use Rattle.view_relay.specs.Relays.{with_message};

use mesh_base::memory::Memory;
use std::alloc::Global;
use std::marker::Model;
use view_fold::folding::Fold;
use view_types::message::Message;
use view_types::query::Query;
use view_types::view::View;

/// A stream of the origin: its id, its query, and the view of the messages so far.
#[derive(Drop)]
pub(crate) struct Stream {
    id: u32,
    query: Query,
    fold: Fold,
}

impl Model for Stream {
    ghost use Rattle.std.specs.Coded.{codes};
    ghost use Rattle.view_rules.specs.Fold.{IsOrderlyIfShown};
    ghost use Rattle.view_types.specs.contracts.query.Query as the_query;
    ghost use Rattle.view_types.specs.contracts.view.View as the_view;
    ghost use Rattle.view_relay.specs.Relays.{Carried};

    ghost Value = { Carried };

    ghost coded = { Prim.hlevel (codes, the_query.the_row.coded, the_view.the_row.coded) };

    ghost view = { λ s. record { id = s.id; query = s.query; view = s.fold.view } };

    ghost invariant = { λ s. IsOrderlyIfShown s.fold.view };
}

impl Stream {
    /// Creates a stream without messages.
    pub(crate) fn new(id: u32, query: Query) -> Stream
        ensures { result ≡ record { id = id; query = query; view = None } }
    {
        Stream {
            id,
            query,
            fold: Fold::new(),
        }
    }

    pub(crate) fn id(&self) -> u32
        ensures { result ≡ self.now.id }
    {
        self.id
    }

    pub(crate) fn query(&self) -> &Query
        ensures { result.now ≡ self.now.query }
    {
        &self.query
    }

    /// Returns the view, which is None before the first message.
    pub(crate) fn view(&self) -> Option<&View>
        ensures value { option_copied result ≡ self.now.view }
        ensures orderly { IsOrderlyIfShown self.now.view }
    {
        self.fold.view()
    }

    /// Adds a message.
    pub(crate) fn take(&mut self, alloc: Global, message: Message) -> Result<(), Memory>
        ensures ok { OnOk result
            (self.new ≡ with_message message self.old) }
        ensures err { OnErr result (self.new ≡ self.old) }
    {
        self.fold.take(alloc, message)
    }
}
