ghost use Rattle.std.specs.Prelude.{◌≡◌, Err, IfOk, None, Some, map};
ghost use Rattle.std.specs.Option.{option_copied};
ghost use Rattle.clap.specs.Words.{app_of, with_rule};
ghost use Rattle.command_words.specs.Apps.{app_for, matched, option_rule, plain, with_options, word_rule};
ghost use Rattle.command_words.specs.Arguments.{argument_text, rows_in, text_at};
ghost use Rattle.command_words.specs.declared.argument.Argument.TheVariants as arguments;

use crate::argument::Argument;
use crate::command::Name;
use crate::fault::WordsFault;
use clap::{Arg, ArgAction, ArgMatches, Command};
use std::alloc::{AllocError, Global};

const SETTINGS: [Argument; 5] = [
    Argument::ClusterDomain,
    Argument::TrustDomain,
    Argument::ControlPlaneNamespace,
    Argument::ClusterNetworks,
    Argument::DefaultPolicy,
];

const SUBSCRIPTION: [Argument; 2] = [Argument::Id, Argument::Method];

const QUERY: [Argument; 4] = [
    Argument::Path,
    Argument::Workload,
    Argument::Port,
    Argument::Token,
];

fn with_option<'a>(
    alloc: Global,
    command: Command<'a>,
    argument: Argument,
) -> Result<Command<'a>, AllocError>
    ensures { IfOk result (λ c. app_of c
        ≡ with_rule (app_of command.entry) (option_rule (argument_text argument))) }
{
    let name = argument.text();
    let option = Arg::new(alloc, name).long(name).action(ArgAction::Set);
    command.arg(option)
}

#[tactic(auto, using(crate::proofs::Tables::with_options_none))]
fn with_options<'a>(
    alloc: Global,
    command: Command<'a>,
    options: &[Argument],
) -> Result<Command<'a>, AllocError>
    ensures { IfOk result (λ c. app_of c ≡ with_options (app_of command.entry) options.now) }
{
    let mut made = command;
    for argument in options {
        made = with_option(alloc, made, *argument)?;
    }
    Ok(made)
}

fn plain<'a>(alloc: Global, name: &'a str) -> Command<'a>
    ensures { app_of result ≡ plain name.entry.now }
{
    Command::new(alloc, name)
        .no_binary_name(true)
        .disable_help_flag(true)
        .disable_version_flag(true)
}

fn with_number<'a>(alloc: Global, command: Command<'a>) -> Result<Command<'a>, AllocError>
    ensures { IfOk result (λ c. app_of c
        ≡ with_rule (app_of command.entry) (word_rule (argument_text arguments.Number))) }
{
    let number = Arg::new(alloc, Argument::Number.text()).action(ArgAction::Set);
    command.arg(number)
}

#[tactic(auto, unfolding(crate::specs::Apps::app_for))]
fn command_for<'a>(alloc: Global, name: Name) -> Result<Command<'a>, AllocError>
    ensures { IfOk result (λ c. app_of c ≡ app_for name) }
{
    match name {
        Name::Replay => with_options(alloc, plain(alloc, "replay"), &SETTINGS),
        Name::Diagnose => {
            let command = with_options(alloc, plain(alloc, "diagnose"), &SUBSCRIPTION)?;
            let command = with_options(alloc, command, &QUERY)?;
            with_options(alloc, command, &SETTINGS)
        }
        Name::Fold => with_options(alloc, plain(alloc, "fold"), &SUBSCRIPTION),
        Name::Sample => {
            let command = with_number(alloc, plain(alloc, "sample"))?;
            with_options(alloc, command, &SETTINGS)
        }
        Name::Serve => {
            let command = with_option(alloc, plain(alloc, "serve"), Argument::Bind)?;
            with_options(alloc, command, &SETTINGS)
        }
    }
}

/// Returns clap's matches of the words after a command's name.
pub(crate) fn parse<'a>(
    alloc: Global,
    name: Name,
    words: &'a [&'a str],
) -> Result<ArgMatches<'a>, WordsFault>
    ensures found { IfOk result (λ m. matched name (map (λ w. w.now) words.entry.now)
        ≡ Some (rows_in m)) }
    ensures refused { result ≡ Err WordsFault.Usage
        → matched name (map (λ w. w.now) words.entry.now) ≡ None }
{
    let command = command_for(alloc, name)?;
    Ok(command.try_get_matches_from(words)?)
}

/// Returns the value that is given for an argument.
pub(crate) fn given<'a>(matches: &ArgMatches<'a>, argument: Argument) -> Option<&'a str>
    ensures { option_copied result ≡ text_at argument (rows_in matches.now) }
{
    matches.get_str(argument.text())
}
