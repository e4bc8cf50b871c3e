ghost use Rattle.batch_laws.specs.Laws.{AuthzIsCut, AuthzKeysAreCut, BatchesFold, MessagesFold, PairsAreCut, RowsAreCut, SameViewSendsNothing};

use view_rules::laws::{
    same_authz_decides, same_outbound_decides, same_profile_decides, same_row_decides,
    same_server_decides,
};

/// States that each message that adds rows has as many rows as the limit, except that the last may
/// have fewer.
pub fn rows_are_cut()
    ensures { RowsAreCut }
{}

/// States the same for the messages that remove addresses.
pub fn pairs_are_cut()
    ensures { PairsAreCut }
{}

/// States the same for the messages that add authorizations, and for those that remove kinds and
/// names.
pub fn authorizations_are_cut()
    ensures rows { AuthzIsCut }
    ensures keys { AuthzKeysAreCut }
{}

/// States that folding the messages of a batch over the old view, or over none, gives the new view,
/// whatever the two views are.
pub fn batches_fold()
    ensures { BatchesFold }
{}

/// States that whatever objects were held when the view of a query was last shown, and whatever
/// objects are held now, folding the messages of the query over the old view gives the new one, if
/// each object is held under its own key.
pub fn messages_fold()
    ensures { MessagesFold }
{}

/// States that the batch from a view to itself is empty.
pub fn same_view_sends_nothing()
    ensures { SameViewSendsNothing }
{
    same_row_decides();
    same_profile_decides();
    same_authz_decides();
    same_server_decides();
    same_outbound_decides();
}
