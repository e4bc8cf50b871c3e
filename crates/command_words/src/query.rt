ghost use Rattle.std.specs.Prelude.{◌≡◌, [], IfOk, unwrap_or};
ghost use Rattle.mesh_text.specs.Workloads.{workload_of};
ghost use Rattle.command_words.specs.Arguments.{rows_in, text_at};
ghost use Rattle.command_words.specs.Diagnosed.{context_in, get_of, port_in, query_in, target_in};
ghost use Rattle.command_words.specs.Gives.{Gives, needed};
ghost use Rattle.command_words.specs.declared.argument.Argument.TheVariants as arguments;

use crate::argument::Argument;
use crate::fault::WordsFault;
use crate::parse::given;
use crate::value::read_number_at;
use clap::ArgMatches;
use mesh_base::memory::Memory;
use mesh_base::text::Text;
use mesh_text::target_text::{TargetFault, read_target};
use mesh_text::token::read_context;
use mesh_text::workload_text::read_workload;
use std::alloc::Global;
use view_types::config::Config;
use view_types::query::{Context, Method, PodPort, Query, Target};

fn target_at<'a>(
    alloc: Global,
    config: &Config,
    matches: &ArgMatches<'a>,
) -> Result<Target, WordsFault>
    ensures { Gives result (target_in config.now (rows_in matches.now)) }
{
    let Some(text) = given(matches, Argument::Path) else {
        return Err(WordsFault::Usage);
    };
    match read_target(alloc, text.as_bytes(), config) {
        Ok(target) => Ok(target),
        Err(TargetFault::Bad) => Err(WordsFault::Usage),
        Err(TargetFault::Memory) => Err(WordsFault::Memory),
    }
}

fn pod_at<'a>(alloc: Global, matches: &ArgMatches<'a>) -> Result<(Text, Text), WordsFault>
    ensures { Gives result (needed workload_of (text_at arguments.Workload (rows_in matches.now))) }
{
    let Some(text) = given(matches, Argument::Workload) else {
        return Err(WordsFault::Usage);
    };
    match read_workload(alloc, text.as_bytes()) {
        Ok(pod) => Ok(pod),
        Err(TargetFault::Bad) => Err(WordsFault::Usage),
        Err(TargetFault::Memory) => Err(WordsFault::Memory),
    }
}

fn token_at<'a>(matches: &ArgMatches<'a>) -> &'a str
    ensures { result.now ≡ unwrap_or (text_at arguments.Token (rows_in matches.now)) [] }
{
    match given(matches, Argument::Token) {
        Some(token) => token,
        None => "",
    }
}

/// Reads the client's context from the context token. Without a token the context is empty.
#[tactic(auto, unfolding(crate::specs::Diagnosed::context_in))]
fn context_at<'a>(alloc: Global, matches: &ArgMatches<'a>) -> Result<Context, Memory>
    ensures { IfOk result (λ ctx. ctx ≡ context_in (rows_in matches.now)) }
{
    read_context(alloc, token_at(matches).as_bytes())
}

fn get_of(target: Target, ctx: Context) -> Result<Query, WordsFault>
    ensures { Gives result (get_of ctx target) }
{
    match target {
        Target::Service { ns, name, port } => Ok(Query::Get {
            ns,
            name,
            port,
            ctx,
        }),
        Target::Address { .. } => Err(WordsFault::Usage),
    }
}

#[tactic(auto, unfolding(crate::specs::Gives::then, crate::specs::Diagnosed::port_in))]
fn port_at<'a>(alloc: Global, matches: &ArgMatches<'a>) -> Result<PodPort, WordsFault>
    ensures { Gives result (port_in (rows_in matches.now)) }
{
    let (ns, pod) = pod_at(alloc, matches)?;
    let port = read_number_at(matches, Argument::Port, 1, 65535)?;
    Ok(PodPort {
        ns,
        pod,
        port: port as u16,
    })
}

/// Reads the query from the method and its options.
#[tactic(auto, unfolding(crate::specs::Gives::then, crate::specs::Diagnosed::query_in))]
pub(crate) fn read_query<'a>(
    alloc: Global,
    config: &Config,
    method: Method,
    matches: &ArgMatches<'a>,
) -> Result<Query, WordsFault>
    ensures { Gives result (query_in config.now (rows_in matches.now) method) }
{
    match method {
        Method::Get => get_of(
            target_at(alloc, config, matches)?,
            context_at(alloc, matches)?,
        ),
        Method::GetProfile => Ok(Query::Profile {
            target: target_at(alloc, config, matches)?,
            ctx: context_at(alloc, matches)?,
        }),
        Method::WatchPort => Ok(port_at(alloc, matches)?.whole()),
        Method::Watch => Ok(Query::Traffic {
            target: target_at(alloc, config, matches)?,
        }),
        Method::WatchPort2 => Ok(port_at(alloc, matches)?.by_rows()),
    }
}
