ghost use Rattle.std.specs.Prelude.{◌≡◌, ℕ, List, Some};
ghost use Rattle.mesh_base.specs.declared.limits.Limits.{Limits};
ghost use Rattle.route_match.specs.Matching.{Pat};
ghost use Rattle.view_types.specs.declared.config.Config.{Config};
ghost use Rattle.feed_history.specs.Program.{Program, replay_of};
ghost use Rattle.feed_history.specs.Sendable.{IsLawfulConfig};
ghost use Rattle.command_words.specs.Commands.{command_in};
ghost use Rattle.command_words.specs.Configured.{ConfigIs};
ghost use Rattle.command_words.specs.declared.command.Command.{Command};
ghost use Rattle.output_laws.specs.Agreement.{FoldAgrees};
ghost use Rattle.output_laws.specs.Diagnoses.{FoldAgreesWithDiagnosis, ReplayAgreesWithDiagnosis};
ghost use Rattle.output_laws.specs.SameObjects.{FoldAgreesWith, SameEventsSameObjects};

use history_laws::laws::{
    at_the_end_it_folds_to_the_view, held_are_lawful, held_at_their_keys, marks_change_nothing,
    messages_are_sendable, messages_read_back, replays_read_lawfully,
};

/// States that a fold of a replay's output writes the lines of the view over the objects held at
/// the end.
pub fn frames_and_objects_agree()
    ensures { (config : Config) (limits : Limits) (pat : Pat)
        → FoldAgrees (replay_of config limits pat) }
{
    at_the_end_it_folds_to_the_view();
    messages_read_back();
    messages_are_sendable();
    held_are_lawful();
    held_at_their_keys();
    replays_read_lawfully();
}

/// States that programs that apply the same events of the same rows hold the same objects.
pub fn same_events_same_objects()
    ensures { (one other : Program) → SameEventsSameObjects one other }
{}

/// States that a fold of a replay's output agrees with the view shown by a program that applies the
/// events of the same input.
pub fn a_fold_agrees_with_what_is_shown()
    ensures { (config : Config) (limits : Limits) (pat : Pat) (other : Program)
        → FoldAgreesWith (replay_of config limits pat) other }
{
    frames_and_objects_agree();
}

/// States that the configuration of a command line is lawful, as `messages_are_sendable` requires.
#[tactic(auto, using(crate::proofs::Configurations::words_are_lawful))]
pub fn words_give_lawful_configurations()
    ensures { (words : List (List ℕ)) (command : Command) → command_in words ≡ Some command
        → ConfigIs IsLawfulConfig command }
{}

/// States that a fold of a replay's output writes what a diagnosis of its input writes after its
/// refused lines.
pub fn frames_and_a_diagnosis_agree()
    ensures { (config : Config) (limits : Limits) (pat : Pat)
        → FoldAgreesWithDiagnosis config limits pat }
{
    frames_and_objects_agree();
}

/// States the same for what a replay has written.
pub fn a_replay_and_a_diagnosis_agree()
    ensures { (config : Config) (limits : Limits) (pat : Pat)
        → ReplayAgreesWithDiagnosis config limits pat }
{
    frames_and_a_diagnosis_agree();
    marks_change_nothing();
}
