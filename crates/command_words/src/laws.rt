//! Laws on the definitions.
ghost use Rattle.std.specs.Prelude.{◌≡◌, ℕ, List, [], ◌∷◌, IsSome, None, Some, codes, true};
ghost use Rattle.view_types.specs.Defaults.{usual_config};
ghost use Rattle.view_types.specs.declared.query.Method.TheVariants as methods;
ghost use Rattle.command_words.specs.Apps.{are_accepted};
ghost use Rattle.command_words.specs.Commands.{command_in};
ghost use Rattle.command_words.specs.Written.{fold_words, repeated_words};
ghost use Rattle.command_words.specs.declared.command.Command.TheVariants as commands;

/// States that words are a command only if clap accepts them.
pub fn commands_are_accepted()
    ensures { (words : List (List ℕ)) → IsSome (command_in words) → are_accepted words ≡ true }
{}

/// States that the word `replay` alone is a command, with the default configuration.
#[tactic(auto, using(crate::proofs::Written::replay_is_usual))]
pub fn replay_alone_is_usual()
    ensures { command_in (codes "replay" ∷ []) ≡ Some (commands.Replay usual_config) }
{}

/// States that `fold --id 7 --method=Get` is a command.
#[tactic(auto, using(crate::proofs::Written::fold_is_asked))]
pub fn fold_accepts_options()
    ensures { command_in fold_words ≡ Some (commands.Fold (record { 0 = 7 }) methods.Get) }
{}

/// States that `replay --default-policy=deny --default-policy=deny` is no command, though both
/// values are the same.
#[tactic(auto, using(crate::proofs::Written::repeated_is_none))]
pub fn repeated_options_are_none()
    ensures { command_in repeated_words ≡ None }
{}
