ghost use Rattle.std.specs.Prelude.{◌≡◌, None, Some, IfOk, OnOk, OnErr};
ghost use Rattle.std.specs.Option.{option_copied};
ghost use Rattle.mesh_base.specs.Keyed.{IsKeyed};
ghost use Rattle.view_rules.specs.AuthzOrder.{authz_cmp, authz_key};
ghost use Rattle.view_rules.specs.Endpoints.{no_endpoints, pair_cmp, pair_of};
ghost use Rattle.view_rules.specs.Fold.{authz_of, put_authz, seen, seen_port, shown_after, take_authz, with_authz, with_rows, without_pairs};
ghost use Rattle.view_types.specs.declared.view.View.TheVariants.{Endpoints, ServerRows};
ghost use Rattle.view_fold.specs.Rise.{RowsRise, RowsRise-prop};

use crate::rows::{put_rows, take_out};
use mesh_base::list::List;
use mesh_base::memory::Memory;
use mesh_base::text::Text;
use net_cidr::ip::Ip;
use std::alloc::Global;
use std::mem;
use view_types::endpoint::{EndpointRow, EndpointView};
use view_types::message::Message;
use view_types::server_view::{AuthzKind, AuthzRow, ServerView};
use view_types::view::View;

/// The view that a subscriber has after the messages so far.
#[derive(Drop)]
pub struct Fold {
    pub(crate) view: Option<View>,
    ghost rows_rise: { RowsRise view } by { RowsRise-prop view },
}

impl Fold {
    /// Creates a fold of no messages, which has no view yet.
    pub fn new() -> Fold
        ensures { result.view ≡ None }
    {
        Fold { view: None }
    }

    /// Applies one more message. If memory runs out, the view stays as it was.
    pub fn take(&mut self, alloc: Global, message: Message) -> Result<(), Memory>
        ensures ok { OnOk result (self.new.view ≡ Some (shown_after self.old.view message)) }
        ensures err { OnErr result (self.new ≡ self.old) }
    {
        match message {
            Message::Add(rows) => self.add(alloc, rows)?,
            Message::Remove(pairs) => self.remove(alloc, pairs)?,
            Message::NoEndpoints(exists) => {
                let rows = List::new(alloc);
                self.view = Some(View::Endpoints(EndpointView { exists, rows }));
            }
            Message::Profile(view) => self.view = Some(View::Profile(view)),
            Message::Server(view) => self.view = Some(View::Server(view)),
            Message::Outbound(view) => self.view = Some(View::Outbound(view)),
            Message::Whole(view) => self.show_whole(alloc, view)?,
            Message::AuthzPut(rows) => self.put_authz(alloc, rows)?,
            Message::AuthzGone(keys) => self.take_authz(alloc, keys)?,
        }
        Ok(())
    }

    fn add(&mut self, alloc: Global, rows: List<EndpointRow>) -> Result<(), Memory>
        ensures ok { OnOk result (self.new.view
            ≡ Some (Endpoints (with_rows rows (seen self.old.view)))) }
        ensures err { OnErr result (self.new ≡ self.old) }
    {
        if let Some(View::Endpoints(view)) = &mut self.view {
            return add_rows(alloc, view, rows);
        }
        let mut view = no_endpoints(alloc);
        add_rows(alloc, &mut view, rows)?;
        self.view = Some(View::Endpoints(view));
        Ok(())
    }

    fn remove(&mut self, alloc: Global, pairs: List<(Ip, u16)>) -> Result<(), Memory>
        ensures ok { OnOk result (self.new.view
            ≡ Some (Endpoints (without_pairs pairs (seen self.old.view)))) }
        ensures err { OnErr result (self.new ≡ self.old) }
    {
        if let Some(View::Endpoints(view)) = &mut self.view {
            return take_out(alloc, &mut view.rows, pairs);
        }
        let mut view = no_endpoints(alloc);
        take_out(alloc, &mut view.rows, pairs)?;
        self.view = Some(View::Endpoints(view));
        Ok(())
    }

    fn show_whole(&mut self, alloc: Global, view: ServerView) -> Result<(), Memory>
        ensures ok { OnOk result (self.new.view
            ≡ Some (ServerRows (with_authz (λ authz. authz) view))) }
        ensures err { OnErr result (self.new ≡ self.old) }
    {
        self.view = Some(View::ServerRows(in_order(alloc, view)?));
        Ok(())
    }

    fn put_authz(&mut self, alloc: Global, rows: List<AuthzRow>) -> Result<(), Memory>
        ensures ok { OnOk result (self.new.view
            ≡ Some (ServerRows (with_authz (put_authz rows) (seen_port self.old.view)))) }
        ensures err { OnErr result (self.new ≡ self.old) }
    {
        if let Some(View::ServerRows(view)) = &mut self.view {
            return put_into(alloc, view, rows);
        }
        self.view = Some(View::ServerRows(ServerView::Absent));
        Ok(())
    }

    fn take_authz(&mut self, alloc: Global, keys: List<(AuthzKind, Text)>) -> Result<(), Memory>
        ensures ok { OnOk result (self.new.view
            ≡ Some (ServerRows (with_authz (take_authz keys) (seen_port self.old.view)))) }
        ensures err { OnErr result (self.new ≡ self.old) }
    {
        if let Some(View::ServerRows(view)) = &mut self.view {
            return take_from(alloc, view, keys);
        }
        self.view = Some(View::ServerRows(ServerView::Absent));
        Ok(())
    }

    /// The view after the messages so far. It is None before the first message.
    pub fn view(&self) -> Option<&View>
        ensures { option_copied result ≡ self.now.view }
    {
        self.view.as_ref()
    }
}

fn no_endpoints(alloc: Global) -> EndpointView
    ensures { result ≡ no_endpoints }
{
    EndpointView {
        exists: false,
        rows: List::new(alloc),
    }
}

fn add_rows(alloc: Global, view: &mut EndpointView, rows: List<EndpointRow>) -> Result<(), Memory>
    requires { IsKeyed pair_cmp pair_of (λ row. row) view.old.rows }
    ensures ok { OnOk result (view.new ≡ with_rows rows view.old) }
    ensures err { OnErr result (view.new ≡ view.old) }
{
    put_rows(alloc, &mut view.rows, rows)?;
    view.exists = true;
    Ok(())
}

/// Sorts the authorizations of a Server. Of those with the same kind and name the last is kept.
fn in_order(alloc: Global, view: ServerView) -> Result<ServerView, Memory>
    ensures { IfOk result (λ sorted. sorted ≡ with_authz (λ authz. authz) view) }
{
    match view {
        ServerView::Absent => Ok(ServerView::Absent),
        ServerView::Present(row) => {
            let mut row = row;
            let rows = mem::replace(&mut row.authz, List::new(alloc));
            put_rows(alloc, &mut row.authz, rows)?;
            Ok(ServerView::Present(row))
        }
    }
}

fn put_into(alloc: Global, view: &mut ServerView, rows: List<AuthzRow>) -> Result<(), Memory>
    requires { IsKeyed authz_cmp authz_key (λ row. row) (authz_of view.old) }
    ensures ok { OnOk result (view.new ≡ with_authz (put_authz rows) view.old) }
    ensures err { OnErr result (view.new ≡ view.old) }
{
    match view {
        ServerView::Absent => Ok(()),
        ServerView::Present(row) => put_rows(alloc, &mut row.authz, rows),
    }
}

fn take_from(
    alloc: Global,
    view: &mut ServerView,
    keys: List<(AuthzKind, Text)>,
) -> Result<(), Memory>
    requires { IsKeyed authz_cmp authz_key (λ row. row) (authz_of view.old) }
    ensures ok { OnOk result (view.new ≡ with_authz (take_authz keys) view.old) }
    ensures err { OnErr result (view.new ≡ view.old) }
{
    match view {
        ServerView::Absent => Ok(()),
        ServerView::Present(row) => take_out(alloc, &mut row.authz, keys),
    }
}
