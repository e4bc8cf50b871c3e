ghost use Rattle.request_rules.specs.Laws.{BlockHoldsDecides, FirstRowsShowTheLeast, NoWorkloadWhereNoPod, NotFoundWhereNoMatchHolds, RowsAdmitAsTheirObjects, RowsShowTheirMatches, VerdictsNameTheirDecider};

use route_match::laws::{best_is_first, candidates_are_those_that_hold};

/// States that the test of a block of networks is true exactly if the block contains the address.
pub fn block_holds_decides()
    ensures { BlockHoldsDecides }
{}

/// States that a row of a view admits a client exactly if the authorization that it shows does.
pub fn rows_admit_as_their_objects()
    ensures { RowsAdmitAsTheirObjects }
{}

/// States that the first row that admits a client shows the least authorization that applies and
/// admits it; if no row admits it, no authorization does.
pub fn first_rows_show_the_least()
    ensures { FirstRowsShowTheLeast }
{}

/// States that the rows of a Server's routes have the hostnames and matches of the routes, in the
/// same places.
pub fn rows_show_their_matches()
    ensures { RowsShowTheirMatches }
{}

/// States that an allowed client is admitted by the named authorization; or by none, and then as
/// the named probe or by the named policy. A denied client is admitted by none of these.
pub fn verdicts_name_their_decider()
    ensures { VerdictsNameTheirDecider }
{}

/// States that the verdict is `NoWorkload` exactly if the Pod is not held.
pub fn no_workload_where_no_pod()
    ensures { NoWorkloadWhereNoPod }
{}

/// States that the verdict is `NotFound` exactly if routes are used for the request and none of
/// their matches holds.
pub fn not_found_where_no_match_holds()
    ensures { NotFoundWhereNoMatchHolds }
{
    candidates_are_those_that_hold();
    best_is_first();
}
