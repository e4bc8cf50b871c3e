ghost use Rattle.event_laws.specs.Laws.{EventsKeepLawful, EventsLead, UntouchedQueriesStay};

use mark_rules::laws::{changes_lead, marks_stand_once, views_stay};
use object_store::laws::{put_by_key, relist_leads, relisted_by_key, taken_by_key};

/// States that the marks of an event account for the change of the objects: they are those of the
/// objects that it replaces, removes or adds.
pub fn events_lead()
    ensures { EventsLead }
{
    marks_stand_once();
    changes_lead();
    relist_leads();
}

/// States that after a lawful event each object held is lawful, if each was before it.
pub fn events_keep_lawful()
    ensures { EventsKeepLawful }
{
    put_by_key();
    taken_by_key();
    relisted_by_key();
}

/// States that a query that reads no mark of an event has the same view after it, and reads the
/// same marks.
pub fn untouched_queries_stay()
    ensures { UntouchedQueriesStay }
{
    events_lead();
    events_keep_lawful();
    views_stay();
}
