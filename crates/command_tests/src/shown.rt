// The command that words give, as text: its values, and each setting that is not the default.
use command_words::command::Command;
use command_words::fault::WordsFault;
use command_words::words::read_words;
use mesh_base::text::Text;
use net_cidr::ip::Ip;
use net_cidr::net::Net;
use row_file::TrialFault;
use std::alloc::Global;
use view_types::config::Config;
use view_types::policy::Policy;
use view_types::query::{Context, Method, Query, Target};

// `10.0.0.0/8,100.64.0.0/10,172.16.0.0/12,192.168.0.0/16`, as `nets_text` writes them.
const USUAL_NETS: &str = "4:a000000/8,4:64400000/10,4:ac100000/12,4:c0a80000/16";

// Splits a line into words at single blanks. `''` is the empty word.
fn words_of(alloc: Global, line: &str) -> Result<Vec<Text>, TrialFault> {
    let mut words = Vec::new(alloc);
    if line.is_empty() {
        return Ok(words);
    }
    for word in line.split(' ') {
        let word = if word == "''" { "" } else { word };
        words.push(Text::from_str(alloc, word)?)?;
    }
    Ok(words)
}

// Writes an address as its family and the digits of its number.
fn ip_text(alloc: Global, ip: Ip) -> Result<String, TrialFault> {
    Ok(match ip {
        Ip::V4(number) => format!(in alloc; "4:{number:x}")?,
        Ip::V6(number) => format!(in alloc; "6:{number:x}")?,
    })
}

fn nets_text(alloc: Global, nets: &[Net]) -> Result<String, TrialFault> {
    let mut text = String::new(alloc);
    for net in nets {
        if !text.is_empty() {
            text.push_str(",")?;
        }
        let base = ip_text(alloc, net.base)?;
        let bits = net.bits;
        write!(text, "{base}/{bits}")?;
    }
    Ok(text)
}

fn policy_text(policy: Policy) -> &'static str {
    match policy {
        Policy::AllUnauthenticated => "all-unauthenticated",
        Policy::AllAuthenticated => "all-authenticated",
        Policy::ClusterUnauthenticated => "cluster-unauthenticated",
        Policy::ClusterAuthenticated => "cluster-authenticated",
        Policy::Deny => "deny",
        Policy::Audit => "audit",
    }
}

fn method_text(method: Method) -> &'static str {
    match method {
        Method::Get => "Get",
        Method::GetProfile => "GetProfile",
        Method::WatchPort => "WatchPort",
        Method::Watch => "Watch",
        Method::WatchPort2 => "WatchPort2",
    }
}

// Appends a setting, unless it is the default.
fn add_setting(
    text: &mut String,
    name: &str,
    default: &str,
    value: &str,
) -> Result<(), TrialFault> {
    if value != default {
        write!(text, " {name}={value}")?;
    }
    Ok(())
}

fn settings(alloc: Global, config: &Config) -> Result<String, TrialFault> {
    let mut text = String::new(alloc);
    let domain = config.cluster_domain.as_str();
    add_setting(&mut text, "cluster-domain", "cluster.local", domain)?;
    let domain = config.trust_domain.as_str();
    add_setting(&mut text, "trust-domain", "cluster.local", domain)?;
    let ns = config.control_ns.as_str();
    add_setting(&mut text, "control-plane-namespace", "linkerd", ns)?;
    let nets = nets_text(alloc, config.cluster_nets.as_slice())?;
    add_setting(&mut text, "cluster-networks", USUAL_NETS, &nets)?;
    let policy = policy_text(config.default_policy);
    add_setting(&mut text, "default-policy", "all-unauthenticated", policy)?;
    Ok(text)
}

fn target_text(alloc: Global, target: &Target) -> Result<String, TrialFault> {
    match target {
        Target::Service { ns, name, port } => {
            let ns = ns.as_str();
            let name = name.as_str();
            Ok(format!(in alloc; "{ns}/{name}:{port}")?)
        }
        Target::Address { ip, port } => {
            let ip = ip_text(alloc, ip.get())?;
            Ok(format!(in alloc; "{ip}:{port}")?)
        }
    }
}

fn member(alloc: Global, name: &str, value: &Option<Text>) -> Result<String, TrialFault> {
    match value {
        Some(value) => {
            let value = value.as_str();
            Ok(format!(in alloc; " {name}={value}")?)
        }
        None => Ok(String::new(alloc)),
    }
}

fn context_text(alloc: Global, ctx: &Context) -> Result<String, TrialFault> {
    let ns = member(alloc, "ns", &ctx.ns)?;
    let node = member(alloc, "node", &ctx.node)?;
    Ok(format!(in alloc; "{ns}{node}")?)
}

fn query_text(alloc: Global, query: &Query) -> Result<String, TrialFault> {
    match query {
        Query::Get {
            ns,
            name,
            port,
            ctx,
        } => {
            let ns = ns.as_str();
            let name = name.as_str();
            let ctx = context_text(alloc, ctx)?;
            Ok(format!(in alloc; "Get {ns}/{name}:{port}{ctx}")?)
        }
        Query::Profile { target, ctx } => {
            let target = target_text(alloc, target)?;
            let ctx = context_text(alloc, ctx)?;
            Ok(format!(in alloc; "GetProfile {target}{ctx}")?)
        }
        Query::Port { ns, pod, port } => {
            let ns = ns.as_str();
            let pod = pod.as_str();
            Ok(format!(in alloc; "WatchPort {ns}:{pod}:{port}")?)
        }
        Query::Traffic { target } => {
            let target = target_text(alloc, target)?;
            Ok(format!(in alloc; "Watch {target}")?)
        }
        Query::PortRows { ns, pod, port } => {
            let ns = ns.as_str();
            let pod = pod.as_str();
            Ok(format!(in alloc; "WatchPort2 {ns}:{pod}:{port}")?)
        }
    }
}

fn command_text(alloc: Global, command: &Command) -> Result<String, TrialFault> {
    match command {
        Command::Replay(config) => {
            let settings = settings(alloc, config)?;
            Ok(format!(in alloc; "replay{settings}")?)
        }
        Command::Diagnose { id, query, config } => {
            let id = id.0;
            let query = query_text(alloc, query)?;
            let settings = settings(alloc, config)?;
            Ok(format!(in alloc; "diagnose {id} {query}{settings}")?)
        }
        Command::Fold { id, method } => {
            let id = id.0;
            let method = method_text(*method);
            Ok(format!(in alloc; "fold {id} {method}")?)
        }
        Command::Sample { n, config } => {
            let settings = settings(alloc, config)?;
            Ok(format!(in alloc; "sample {n}{settings}")?)
        }
        Command::Serve { address, config } => {
            let address = address.as_str();
            let settings = settings(alloc, config)?;
            Ok(format!(in alloc; "serve {address}{settings}")?)
        }
    }
}

/// Returns the command that the words of a line give, as text.
pub fn shown(alloc: Global, line: &str) -> Result<String, TrialFault> {
    let words = words_of(alloc, line)?;
    match read_words(alloc, &words) {
        Ok(command) => command_text(alloc, &command),
        Err(WordsFault::Usage) => Ok(String::from_str(alloc, "usage")?),
        Err(WordsFault::Memory) => Ok(String::from_str(alloc, "memory")?),
    }
}
