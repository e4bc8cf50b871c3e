// The first of two lists of rows that admits a client.
ghost use Rattle.std.specs.Prelude.{◌≡◌, if◌then◌else◌};
ghost use Rattle.std.specs.Option.{option_copied};
ghost use Rattle.std.specs.Ordering.{is_gt};
ghost use Rattle.view_rules.specs.AuthzOrder.{authz_cmp, authz_key};
ghost use Rattle.request_sim.specs.Decision.{first_admitting, lesser};

use crate::admits::first_admitting;
use row_places::keyed::KeyedRow;
use view_types::request::Request;
use view_types::server_view::AuthzRow;

/// Returns the first row of the two lists, by kind and name, that admits the client.
pub(crate) fn first_of_either<'a>(
    rows: &'a [AuthzRow],
    more: &'a [AuthzRow],
    request: &Request,
) -> Option<&'a AuthzRow>
    ensures { option_copied result
        ≡ lesser (first_admitting request.now rows.now) (first_admitting request.now more.now) }
{
    match (
        first_admitting(rows, request),
        first_admitting(more, request),
    ) {
        (Some(row), Some(other)) => Some(lesser_row(row, other)),
        (Some(row), None) => Some(row),
        (None, other) => other,
    }
}

fn lesser_row<'a>(row: &'a AuthzRow, other: &'a AuthzRow) -> &'a AuthzRow
    ensures { result.now ≡ (if is_gt (authz_cmp (authz_key row.now) (authz_key other.now))
        then other.now else row.now) }
{
    if row.compare(other).is_gt() {
        other
    } else {
        row
    }
}
