ghost use Rattle.mesh_base.specs.declared.limits.Limits.{Limits};
ghost use Rattle.route_match.specs.Matching.{Pat};
ghost use Rattle.view_types.specs.Defaults.{usual_config};
ghost use Rattle.view_types.specs.declared.config.Config.{Config};
ghost use Rattle.feed_history.specs.Lawful.{HeldAreLawful, HeldAtKeys, QueriesAreLawful, ReadsLawfully};
ghost use Rattle.feed_history.specs.Live.{LastIsGreatest, LastLineDecidesLive, LiveIdsAscend};
ghost use Rattle.feed_history.specs.LookBack.{LastEventDecidesHeld, RefusedChangesNothing};
ghost use Rattle.feed_history.specs.Program.{Program, replay_of};
ghost use Rattle.feed_history.specs.Sendable.{IsLawfulConfig, MessagesAreSendable, MessagesReadBack};
ghost use Rattle.feed_history.specs.Deliveries.{DrainWritesWhatIsSent, EndFoldsToView, EndWritesWhatIsSent, FoldsToLastShown, FoldsToView, FoldsToWhatWasShown, SameObjectsSameView};
ghost use Rattle.feed_history.specs.Simulating.{MarksChangeNothing, SimulationsChangeNothing, UnrisenMarksNone, VerdictsArePolicys};
ghost use Rattle.feed_history.specs.LastDrain.{LastDrainDecidesShown};

use batch_laws::laws::messages_fold;
use watch_events::laws::lines_are_lawful;

/// States that the contents of the lines that a replay reads are lawful.
pub fn replays_read_lawfully()
    ensures { (config : Config) (limits : Limits) (pat : Pat)
        → ReadsLawfully (replay_of config limits pat) }
{
    lines_are_lawful();
}

/// States that the last accepted line about a key decides what is held under it.
pub fn last_event_decides_held()
    ensures { (program : Program) → ReadsLawfully program → LastEventDecidesHeld program }
{}

/// States that a refused line changes neither the objects held nor the live subscriptions nor the
/// effect of any later line.
pub fn refused_changes_nothing()
    ensures { (program : Program) → RefusedChangesNothing program }
{}

/// States that the last accepted line about an id decides which query is live under it.
pub fn last_line_decides_live()
    ensures { (program : Program) → LastLineDecidesLive program }
{}

/// States that live ids ascend.
pub fn live_ids_ascend()
    ensures { (program : Program) → LiveIdsAscend program }
{}

/// States that the greatest accepted id is the greatest of the ids of all accepted subscriptions.
pub fn the_last_id_is_the_greatest()
    ensures { (program : Program) → LastIsGreatest program }
{}

/// States that the objects held when a subscription was last drained are those held at the row of
/// its last accepted drain.
pub fn last_drain_decides_shown()
    ensures { (program : Program) → LastDrainDecidesShown program }
{}

/// States that each object that is held is as its reader returns it.
pub fn held_are_lawful()
    ensures { (program : Program) → ReadsLawfully program → HeldAreLawful program }
{}

/// States that each object is held under its own key.
pub fn held_at_their_keys()
    ensures { (program : Program) → HeldAtKeys program }
{}

/// States that each live query is as its reader returns it.
pub fn queries_are_lawful()
    ensures { (program : Program) → ReadsLawfully program → QueriesAreLawful program }
{}

/// States that the strings of the default configuration are UTF-8.
pub fn usual_config_is_lawful()
    ensures { IsLawfulConfig usual_config }
{}

/// States that each message that is sent can be read back: its numbers fit their types and its
/// strings are UTF-8.
pub fn messages_are_sendable()
    ensures { (program : Program) → ReadsLawfully program → MessagesAreSendable program }
{}

/// States that the encoding of each message that is sent is read back as the message.
pub fn messages_read_back()
    ensures { (program : Program) → ReadsLawfully program → MessagesReadBack program }
{}

/// States that folding what a live subscriber was sent gives the view over the objects held when it
/// was last drained.
pub fn what_is_sent_folds_to_the_last_shown()
    ensures { (program : Program) → FoldsToLastShown program }
{
    messages_fold();
}

/// States that folding what a subscriber was sent, live or not, gives the view that its last drain
/// showed it.
pub fn what_is_sent_folds_to_what_was_shown()
    ensures { (program : Program) → FoldsToWhatWasShown program }
{
    messages_fold();
}

/// States that whenever a live subscriber is owed nothing, folding what it was sent gives the view
/// defined by filters over the objects then held.
pub fn what_is_sent_folds_to_the_view()
    ensures { (program : Program) → FoldsToView program }
{
    messages_fold();
}

/// States the same at the end of the input, where each live subscription is drained.
pub fn at_the_end_it_folds_to_the_view()
    ensures { (program : Program) → EndFoldsToView program }
{
    messages_fold();
}

/// States that after inputs that give the same objects, a query has the same view.
pub fn same_objects_same_view()
    ensures { (program : Program) → SameObjectsSameView program }
{
    messages_fold();
}

/// States that a drain writes the frames of what it sends.
pub fn a_drain_writes_what_is_sent()
    ensures { (program : Program) → DrainWritesWhatIsSent program }
{}

/// States the same for the end of the input.
pub fn the_end_writes_what_is_sent()
    ensures { (program : Program) → EndWritesWhatIsSent program }
{}

/// States that the effect of lines does not depend on which simulations met a refused pattern.
pub fn marks_change_nothing()
    ensures { (program : Program) → MarksChangeNothing program }
{}

/// States that if the count of refused patterns did not rise, no simulation met one.
pub fn unrisen_marks_none()
    ensures { UnrisenMarksNone }
{}

/// States that a line that simulates a request does not change the state.
pub fn simulations_change_nothing()
    ensures { (program : Program) → SimulationsChangeNothing program }
{}

/// States that the verdict that is written for a simulated request is that of the written policy
/// over the objects then held.
pub fn verdicts_are_the_written_policys()
    ensures { (program : Program) → VerdictsArePolicys program }
{}
