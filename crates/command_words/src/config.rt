ghost use Rattle.net_cidr.specs.Network.{net_of};
ghost use Rattle.mesh_text.specs.PolicyWords.{policy_of};
ghost use Rattle.command_words.specs.Arguments.{rows_in, text_at};
ghost use Rattle.command_words.specs.declared.argument.Argument.TheVariants as arguments;
ghost use Rattle.command_words.specs.Gives.{Gives, defaulted};
ghost use Rattle.command_words.specs.Settings.{config_in, named, nets_of};

use crate::argument::Argument;
use crate::fault::WordsFault;
use crate::parse::given;
use clap::ArgMatches;
use k8s_meta::choice::Word;
use k8s_meta::names::is_name;
use mesh_base::list::List;
use mesh_base::pieces::cut;
use mesh_base::text::Text;
use mesh_text::policy_word::PolicyWord;
use net_cidr::net::{Net, read_net};
use std::alloc::Global;
use view_types::config::Config;
use view_types::policy::Policy;

fn read_name(alloc: Global, text: &str) -> Result<Text, WordsFault>
    ensures { Gives result (named text.now) }
{
    if !is_name(text.as_bytes()) {
        return Err(WordsFault::Usage);
    }
    Ok(Text::from_str(alloc, text)?)
}

fn name_at<'a>(
    alloc: Global,
    matches: &ArgMatches<'a>,
    argument: Argument,
    usual: Text,
) -> Result<Text, WordsFault>
    ensures { Gives result (defaulted usual named (text_at argument (rows_in matches.now))) }
{
    match given(matches, argument) {
        Some(text) => read_name(alloc, text),
        None => Ok(usual),
    }
}

fn read_one_net(text: &[u8]) -> Result<Net, WordsFault>
    ensures { Gives result (net_of text.now) }
{
    match read_net(text) {
        Some(net) => Ok(net),
        None => Err(WordsFault::Usage),
    }
}

/// Reads networks separated by commas.
#[tactic(auto, using(crate::proofs::Nets::start_is, crate::proofs::Nets::loop_none, crate::proofs::Nets::loop_more, crate::proofs::Nets::last_none, crate::proofs::Nets::last_some))]
fn read_nets(alloc: Global, text: &[u8]) -> Result<List<Net>, WordsFault>
    ensures { Gives result (nets_of text.now) }
{
    let mut nets = List::new(alloc);
    let mut rest = text;
    while let Some((piece, after)) = cut(rest, b',') {
        nets.add(read_one_net(piece)?)?;
        rest = after;
    }
    nets.add(read_one_net(rest)?)?;
    Ok(nets)
}

fn nets_at<'a>(
    alloc: Global,
    matches: &ArgMatches<'a>,
    usual: List<Net>,
) -> Result<List<Net>, WordsFault>
    ensures { Gives result (defaulted usual nets_of (text_at arguments.ClusterNetworks
        (rows_in matches.now))) }
{
    match given(matches, Argument::ClusterNetworks) {
        Some(text) => read_nets(alloc, text.as_bytes()),
        None => Ok(usual),
    }
}

fn read_policy(text: &str) -> Result<Policy, WordsFault>
    ensures { Gives result (policy_of text.now) }
{
    match PolicyWord.meaning_of(text) {
        Some(policy) => Ok(policy),
        None => Err(WordsFault::Usage),
    }
}

fn policy_at<'a>(matches: &ArgMatches<'a>, usual: Policy) -> Result<Policy, WordsFault>
    ensures { Gives result (defaulted usual policy_of (text_at arguments.DefaultPolicy
        (rows_in matches.now))) }
{
    match given(matches, Argument::DefaultPolicy) {
        Some(text) => read_policy(text),
        None => Ok(usual),
    }
}

/// Returns the default configuration, with the settings that are given.
#[tactic(auto, unfolding(crate::specs::Gives::then, crate::specs::Settings::config_in))]
pub(crate) fn read_config<'a>(alloc: Global, matches: &ArgMatches<'a>) -> Result<Config, WordsFault>
    ensures { Gives result (config_in (rows_in matches.now)) }
{
    let usual = Config::usual(alloc)?;
    let Config {
        cluster_domain,
        trust_domain,
        control_ns,
        cluster_nets,
        default_policy,
    } = usual;
    let cluster_domain = name_at(alloc, matches, Argument::ClusterDomain, cluster_domain)?;
    let trust_domain = name_at(alloc, matches, Argument::TrustDomain, trust_domain)?;
    let control_ns = name_at(alloc, matches, Argument::ControlPlaneNamespace, control_ns)?;
    let cluster_nets = nets_at(alloc, matches, cluster_nets)?;
    let default_policy = policy_at(matches, default_policy)?;
    Ok(Config {
        cluster_domain,
        trust_domain,
        control_ns,
        cluster_nets,
        default_policy,
    })
}
