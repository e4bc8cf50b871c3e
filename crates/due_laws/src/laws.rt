ghost use Rattle.feed_history.specs.Lawful.{ReadsLawfully};
ghost use Rattle.feed_history.specs.Program.{Program};
ghost use Rattle.due_laws.specs.Calls.{CallsAreDueHistories};
ghost use Rattle.due_laws.specs.Laws.{DueAfterRows, DueAreLive, NeverDrainedAreDue, OnlyDueAreOwed, OnlyDueAreSent};

use batch_laws::laws::same_view_sends_nothing;
use event_laws::laws::untouched_queries_stay;
use history_laws::laws::{
    held_are_lawful, held_at_their_keys, last_drain_decides_shown, last_line_decides_live,
};

/// States how each accepted line changes which ids are due: a subscription adds its id, a drain and
/// a cancellation remove theirs, and an event adds those whose query read one of its marks before
/// it. No other line changes it.
pub fn due_after_lines()
    ensures { (program : Program) → DueAfterRows program }
{
    last_line_decides_live();
}

/// States that an id that is due is live.
pub fn due_are_live()
    ensures { (program : Program) → DueAreLive program }
{}

/// States that a live subscription that is not due is owed nothing: its view is the one at its last
/// drain.
pub fn only_due_are_owed()
    ensures { (program : Program) → ReadsLawfully program → OnlyDueAreOwed program }
{
    held_are_lawful();
    held_at_their_keys();
    last_line_decides_live();
    last_drain_decides_shown();
    untouched_queries_stay();
}

/// States that a live subscription that was never drained is due.
pub fn never_drained_are_due()
    ensures { (program : Program) → ReadsLawfully program → NeverDrainedAreDue program }
{
    only_due_are_owed();
}

/// States that a drain of an id that is not due sends nothing.
pub fn only_due_are_sent()
    ensures { (program : Program) → ReadsLawfully program → OnlyDueAreSent program }
{
    only_due_are_owed();
    same_view_sends_nothing();
}

/// States that after any lawful calls on a new hub, in any order, the ids that are due are those of
/// the history that gives this hub.
pub fn calls_are_due_histories()
    ensures { CallsAreDueHistories }
{
    last_line_decides_live();
    due_after_lines();
    due_are_live();
}
