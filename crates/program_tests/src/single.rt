// A run of `top` over an input and an output in memory.
ghost use Rattle.std.specs.Prelude.{◌≤◌};

use crate::endpoints::push_frame;
use crate::scripts;
use crate::settings::{Machines, Settings};
use command_run::top::{Outcome, top};
use line_run::Status;
use mesh_base::limits::Limits;
use mesh_base::list::List;
use mesh_base::text::Text;
use mesh_hub::hub::Hub;
use mesh_hub::machine::Machine;
use mesh_outside::{MemSink, MemSource};
use regex_patterns::RegexPatterns;
use row_file::TrialFault;
use serve_config::ServeConfig;
use std::alloc::Global;
use view_types::config::Config;
use view_types::policy::Policy;

// An input and an output, and how the run over them ended.
#[derive(Drop)]
struct Ran {
    outcome: Outcome,
    input: MemSource,
    out: MemSink,
}

// Splits words at spaces. An empty line has no words.
fn words_of(alloc: Global, line: &str) -> Result<Vec<Text>, TrialFault> {
    let mut words = Vec::new(alloc);
    if line.is_empty() {
        return Ok(words);
    }
    for word in line.split(' ') {
        words.push(Text::from_str(alloc, word)?)?;
    }
    Ok(words)
}

// Returns the list of one number, or of none.
fn numbers(alloc: Global, number: u64) -> Result<List<u64>, TrialFault> {
    let mut numbers = List::new(alloc);
    if number > 0 {
        numbers.add(number)?;
    }
    Ok(numbers)
}

fn run_by<M: Machine>(
    alloc: Global,
    machine: &mut M,
    settings: &Settings,
    words: &[Text],
    input: &str,
) -> Result<Ran, TrialFault>
    requires { 1 ≤ settings.now.limits.frame_addrs }
{
    let mut input = MemSource::of(alloc, input.as_bytes().to_vec(alloc)?);
    input.fails = numbers(alloc, settings.fail_read)?;
    let mut out = MemSink::new(alloc);
    out.fails = numbers(alloc, settings.fail_write)?;
    let outcome = top(
        alloc,
        words,
        &settings.limits,
        machine,
        &mut input,
        &mut out,
        &mut RegexPatterns::new(alloc),
    );
    Ok(Ran {
        outcome,
        input,
        out,
    })
}

fn run_once(
    alloc: Global,
    settings: &Settings,
    command: &str,
    input: &str,
) -> Result<Ran, TrialFault>
    requires { 1 ≤ settings.now.limits.frame_addrs }
{
    let words = words_of(alloc, command)?;
    let words = words.as_slice();
    match settings.machine {
        Machines::Hub => {
            let mut hub = Hub::new(alloc, Config::usual(alloc)?, Limits::usual())?;
            run_by(alloc, &mut hub, settings, words, input)
        }
        Machines::Verdict => {
            run_by(alloc, &mut scripts::verdict(alloc)?, settings, words, input)
        }
        Machines::Frames => run_by(alloc, &mut scripts::frames(alloc)?, settings, words, input),
    }
}

// Appends the configuration of a server.
fn push_server(out: &mut String, server: &ServeConfig, limits: &Limits) -> Result<(), TrialFault> {
    let address = server.address.as_str();
    let config = &server.config;
    let domain = config.cluster_domain.as_str();
    let trust = config.trust_domain.as_str();
    let control = config.control_ns.as_str();
    let networks = config.cluster_nets.len();
    let policy = if config.default_policy == Policy::Deny {
        "deny"
    } else {
        "another"
    };
    write!(
        out,
        "serve {address}\ncluster domain {domain}\ntrust domain {trust}\n"
    )?;
    write!(
        out,
        "control plane namespace {control}\ncluster networks {networks}\n"
    )?;
    write!(out, "default policy {policy}\n")?;
    if server.limits == *limits {
        out.push_str("limits of the call\n")?;
    }
    Ok(())
}

fn push_written(out: &mut String, settings: &Settings, written: &str) -> Result<(), TrialFault> {
    if !settings.endpoints {
        out.push_str(written)?;
        return Ok(());
    }
    for line in written.split_terminator('\n') {
        push_frame(out, line)?;
    }
    Ok(())
}

/// Makes a run, and appends its output.
pub fn push_run(
    alloc: Global,
    settings: &Settings,
    command: &str,
    input: &str,
    out: &mut String,
) -> Result<(), TrialFault>
    requires { 1 ≤ settings.now.limits.frame_addrs }
{
    let ran = run_once(alloc, settings, command, input)?;
    push_written(out, settings, str::from_utf8(ran.out.bytes.as_slice())?)?;
    match &ran.outcome {
        Outcome::Ended(Status::Done) => {}
        Outcome::Ended(status) => write!(out, "status {status:?}\n")?,
        Outcome::Serve(server) => push_server(out, server, &settings.limits)?,
    }
    if settings.reads {
        let reads = ran.input.calls;
        write!(out, "reads {reads}\n")?;
    }
    if settings.writes {
        let writes = ran.out.calls;
        write!(out, "writes {writes}\n")?;
    }
    Ok(())
}

// Whether a run in which the call of the settings fails ends with the status of that fault and has
// written a beginning of the whole output, or, if there is no such call, ends with the whole
// output.
fn is_front(ran: &Ran, fault: Status, whole: &[u8]) -> bool {
    let Outcome::Ended(status) = &ran.outcome else {
        return false;
    };
    let written = ran.out.bytes.as_slice();
    if ran.input.count > 0 || ran.out.count > 0 {
        return *status == fault && whole.starts_with(written);
    }
    *status == Status::Done && whole == written
}

/// Makes a run without faults and appends its output, and then one for each of the first reads and
/// writes, which fails.
pub fn push_front_runs(
    alloc: Global,
    settings: &Settings,
    command: &str,
    input: &str,
    out: &mut String,
) -> Result<(), TrialFault>
    requires { 1 ≤ settings.now.limits.frame_addrs }
{
    let ran = run_once(alloc, settings, command, input)?;
    let whole = ran.out.bytes.as_slice();
    out.push_str(str::from_utf8(whole)?)?;
    for call in 0..settings.fail_each {
        let number = call.saturating_add(1);
        let mut failing = *settings;
        failing.fail_read = number;
        let failed = run_once(alloc, &failing, command, input)?;
        if !is_front(&failed, Status::ReadFault, whole) {
            write!(out, "no front where read {number} fails\n")?;
        }
        failing.fail_read = 0;
        failing.fail_write = number;
        let failed = run_once(alloc, &failing, command, input)?;
        if !is_front(&failed, Status::WriteFault, whole) {
            write!(out, "no front where write {number} fails\n")?;
        }
    }
    Ok(())
}
