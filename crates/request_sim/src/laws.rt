ghost use Rattle.request_sim.specs.Faults.{DecisionsAreVerdicts};

use request_rules::laws::{rows_admit_as_their_objects, rows_show_their_matches};

/// States that the decision on an inbound view is the verdict of the written policy over any
/// objects that have this view.
pub fn decisions_are_verdicts()
    ensures { DecisionsAreVerdicts }
{
    rows_admit_as_their_objects();
    rows_show_their_matches();
}
