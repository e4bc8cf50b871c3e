ghost use Rattle.command_words.specs.Arguments.{rows_in};
ghost use Rattle.command_words.specs.Commands.{command_of, diagnose_in, fold_in, id_in, replay_in, sample_in, serve_in};
ghost use Rattle.command_words.specs.Gives.{Gives};

use crate::argument::Argument;
use crate::config::read_config;
use crate::fault::WordsFault;
use crate::query::read_query;
use crate::socket::read_socket;
use crate::value::{read_method, read_number_at};
use clap::ArgMatches;
use mesh_base::sub_id::SubId;
use mesh_base::text::Text;
use std::alloc::Global;
use view_types::config::Config;
use view_types::query::{Method, Query};

/// A command with its arguments.
#[derive(Drop)]
pub enum Command {
    Replay(Config),
    Diagnose {
        id: SubId,
        query: Query,
        config: Config,
    },
    Fold {
        id: SubId,
        method: Method,
    },
    /// `n` is at most 1000.
    Sample {
        n: u32,
        config: Config,
    },
    /// `address` is the IP address and port to listen on, for example `127.0.0.1:8086` or
    /// `[::1]:8086`.
    Serve {
        address: Text,
        config: Config,
    },
}

/// The name of a command.
#[derive(Clone, Copy)]
pub(crate) enum Name {
    Replay,
    Diagnose,
    Fold,
    Sample,
    Serve,
}

#[tactic(auto, unfolding(crate::specs::Gives::then, crate::specs::Commands::id_in))]
fn read_id<'a>(matches: &ArgMatches<'a>) -> Result<SubId, WordsFault>
    ensures { Gives result (id_in (rows_in matches.now)) }
{
    let id = read_number_at(matches, Argument::Id, 0, 4_294_967_295)?;
    Ok(SubId(id as u32))
}

#[tactic(auto, unfolding(crate::specs::Gives::then, crate::specs::Commands::replay_in))]
fn read_replay<'a>(alloc: Global, matches: &ArgMatches<'a>) -> Result<Command, WordsFault>
    ensures { Gives result (replay_in (rows_in matches.now)) }
{
    let config = read_config(alloc, matches)?;
    Ok(Command::Replay(config))
}

#[tactic(auto, unfolding(crate::specs::Gives::then, crate::specs::Commands::diagnose_in))]
fn read_diagnose<'a>(alloc: Global, matches: &ArgMatches<'a>) -> Result<Command, WordsFault>
    ensures { Gives result (diagnose_in (rows_in matches.now)) }
{
    let id = read_id(matches)?;
    let method = read_method(matches)?;
    let config = read_config(alloc, matches)?;
    let query = read_query(alloc, &config, method, matches)?;
    Ok(Command::Diagnose { id, query, config })
}

#[tactic(auto, unfolding(crate::specs::Gives::then, crate::specs::Commands::fold_in))]
fn read_fold<'a>(matches: &ArgMatches<'a>) -> Result<Command, WordsFault>
    ensures { Gives result (fold_in (rows_in matches.now)) }
{
    let id = read_id(matches)?;
    let method = read_method(matches)?;
    Ok(Command::Fold { id, method })
}

#[tactic(auto, unfolding(crate::specs::Gives::then, crate::specs::Commands::sample_in))]
fn read_sample<'a>(alloc: Global, matches: &ArgMatches<'a>) -> Result<Command, WordsFault>
    ensures { Gives result (sample_in (rows_in matches.now)) }
{
    let n = read_number_at(matches, Argument::Number, 0, 1000)?;
    let config = read_config(alloc, matches)?;
    Ok(Command::Sample {
        n: n as u32,
        config,
    })
}

#[tactic(auto, unfolding(crate::specs::Gives::then, crate::specs::Commands::serve_in))]
fn read_serve<'a>(alloc: Global, matches: &ArgMatches<'a>) -> Result<Command, WordsFault>
    ensures { Gives result (serve_in (rows_in matches.now)) }
{
    let address = read_socket(alloc, matches)?;
    let config = read_config(alloc, matches)?;
    Ok(Command::Serve { address, config })
}

/// Returns the command of this name, with the values of its matched arguments.
#[tactic(auto, unfolding(crate::specs::Commands::command_of))]
pub(crate) fn read_command<'a>(
    alloc: Global,
    name: Name,
    matches: &ArgMatches<'a>,
) -> Result<Command, WordsFault>
    ensures { Gives result (command_of name (rows_in matches.now)) }
{
    match name {
        Name::Replay => read_replay(alloc, matches),
        Name::Diagnose => read_diagnose(alloc, matches),
        Name::Fold => read_fold(matches),
        Name::Sample => read_sample(alloc, matches),
        Name::Serve => read_serve(alloc, matches),
    }
}
