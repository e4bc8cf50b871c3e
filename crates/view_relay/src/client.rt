// A client.
ghost use Rattle.std.specs.Prelude.{◌≡◌, None, Some};
ghost use Rattle.std.specs.Option.{option_copied};
ghost use Rattle.view_rules.specs.Fold.{IsOrderlyIfShown};

use std::marker::Model;
use view_types::view::View;

/// A client: the place of its stream, and the view that its last drain showed it.
#[derive(Drop)]
pub(crate) struct Client {
    stream: usize,
    shown: Option<View>,
}

impl Model for Client {
    ghost use Rattle.std.specs.Coded.{codes};
    ghost use Rattle.view_rules.specs.Fold.{IsOrderlyIfShown};
    ghost use Rattle.view_types.specs.contracts.view.View as the_view;
    ghost use Rattle.view_relay.specs.Relays.{Served};

    ghost Value = { Served };

    ghost coded = { Prim.hlevel (codes, the_view.the_row.coded) };

    ghost view = { λ c. record { stream = c.stream; shown = c.shown } };

    ghost invariant = { λ c. IsOrderlyIfShown c.shown };
}

impl Client {
    /// Creates a client of the stream that was shown nothing.
    pub(crate) fn new(stream: usize) -> Client
        ensures { result ≡ record { stream = stream; shown = None } }
    {
        Client {
            stream,
            shown: None,
        }
    }

    /// Creates a client of the stream that was shown the view.
    pub(crate) fn showing(stream: usize, view: View) -> Client
        requires { IsOrderlyIfShown (Some view) }
        ensures { result ≡ record { stream = stream; shown = Some view } }
    {
        Client {
            stream,
            shown: Some(view),
        }
    }

    pub(crate) fn stream(&self) -> usize
        ensures { result ≡ self.now.stream }
    {
        self.stream
    }

    /// Returns the view that the client was last shown.
    pub(crate) fn shown(&self) -> Option<&View>
        ensures value { option_copied result ≡ self.now.shown }
        ensures orderly { IsOrderlyIfShown self.now.shown }
    {
        self.shown.as_ref()
    }
}
