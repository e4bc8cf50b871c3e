// Laws on the calls of a server, from its first turn to its last, and on why it closes links.
ghost use Rattle.serve_core.specs.CloseCauses.{EachCloseHasItsCause};
ghost use Rattle.serve_core.specs.Laws.{DueIsByPlaces, EachFailureCloses, OthersStay, OutboxesHoldOneOf, SendsWhatIsDue, WaitsForNoneThatIsOwed};

use event_laws::laws::untouched_queries_stay;
use history_laws::laws::{held_are_lawful, held_at_their_keys, replays_read_lawfully};
use serve_rules::laws::{
    due, erasure, failures_close, outboxes_hold_one, places, what_is_owed_is_work,
};

/// States that what a server writes on a link is the beginning of what the link is due: the answers
/// to its lines, and the frames of its drains. If the link is open after whole turns, its outbox is
/// the rest.
pub fn what_is_due_is_sent()
    ensures { SendsWhatIsDue }
{
    due();
}

/// States that what a link that is no feed is due depends only on the lines fed, on its request and
/// on the places of its drains.
pub fn due_by_places()
    ensures { DueIsByPlaces }
{
    places();
}

/// States that a link that is no feed changes nothing of what any other link is sent, whatever it
/// does, unless a limit is reached.
pub fn a_link_left_out_changes_nothing_else()
    ensures { OthersStay }
{
    erasure();
}

/// States that an outbox has the rest of one batch, or of the answers to one read.
pub fn each_outbox_holds_one()
    ensures { OutboxesHoldOneOf }
{
    outboxes_hold_one();
}

/// States that no poll waits while a link has bytes that may be written.
pub fn no_poll_waits_for_what_is_owed()
    ensures { WaitsForNoneThatIsOwed }
{
    what_is_owed_is_work();
    untouched_queries_stay();
    replays_read_lawfully();
    held_are_lawful();
    held_at_their_keys();
}

/// States that a link whose read or write fails is closed by the next call.
pub fn each_failure_closes()
    ensures { EachFailureCloses }
{
    failures_close();
}

/// States that at each point of a turn where a link may be closed, it is closed exactly for the
/// causes of that point, by the next call.
pub fn each_close_has_its_cause()
    ensures { EachCloseHasItsCause }
{}
