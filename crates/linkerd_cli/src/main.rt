//! The program: the destination and policy controllers of a Linkerd 2 control plane, over a
//! recorded feed or over links.
//!
//! Depends on command_run for the commands, on serve_core for a server, on mesh_outside for
//! standard input and output, on mio_edge for sockets, on regex_patterns for the regular
//! expressions of routes, and on run_report and link_report for what is written to standard error.
//! `main` passes the words of the command line to `command_run::top::top`, whose contract is that
//! of the program. If they ask for a server, `main` runs it with `serve_core::serve::serve_top`.
#![tactic(auto)]

ghost use Rattle.std.specs.Prelude.{◌≤◌};
ghost use Rattle.command_run.specs.Outcome.{ServesBy};

mod exit;
mod reader;
mod serve;

use crate::exit::exit_code;
use crate::reader::Reader;
use crate::serve::serve;
use command_run::top::{Outcome, top};
use command_run::words::words_of;
use line_run::Status;
use link_report::LinkScreen;
use mesh_base::key::Kind;
use mesh_base::limits::Limits;
use mesh_base::memory::Memory;
use mesh_base::text::Text;
use mesh_hub::hub::Hub;
use mesh_outside::{ReadSource, WriteSink};
use regex_patterns::RegexPatterns;
use run_report::{
    Command, CommandLine, ErrorKeeper, HeldObjects, InputTally, LastError, OutputTally, Progress,
    Report, Run, StartTime, WrongWords,
};
use std::alloc::Global;
use std::io::{IsTerminal, Stderr};
use std::process::ExitCode;
use std::{io, mem};
use view_types::config::Config;

// Creates a hub without objects and subscriptions, under the default configuration and limits.
fn new_hub(alloc: Global) -> Result<Hub, Memory> {
    Hub::new(alloc, Config::usual(alloc)?, Limits::usual())
}

// The terminal for the progress of a run. There is none if the input is typed at a terminal, which
// then shows the typed lines.
fn screen(rt: &HostRuntime) -> Option<Stderr> {
    if rt.stdin().is_terminal() || !rt.stderr().is_terminal() {
        return None;
    }
    Some(rt.stderr())
}

fn progress<'a>(
    rt: &'a HostRuntime,
    start: StartTime,
    words: &[Text],
) -> Option<Progress<&'a HostRuntime, Stderr>> {
    let command = Command::named(words.first()?.as_str())?;
    Some(Progress::new(rt, start, command, screen(rt)?))
}

// The same terminal, if the output goes to a terminal, too.
fn output_screen(rt: &HostRuntime) -> Option<Stderr> {
    if rt.stdout().is_terminal() {
        screen(rt)
    } else {
        None
    }
}

// The terminal that shows the traffic on the links of a server.
fn link_screen(rt: &HostRuntime, start: StartTime) -> Option<LinkScreen<&HostRuntime, Stderr>> {
    if rt.stderr().is_terminal() {
        Some(LinkScreen::new(rt.alloc(), rt, start, rt.stderr()))
    } else {
        None
    }
}

// Counts the objects in a hub by their kinds.
fn held_in(hub: &Hub) -> HeldObjects {
    let mut held = HeldObjects::NONE;
    for kind in [
        Kind::Pod,
        Kind::Service,
        Kind::EndpointSlice,
        Kind::ServiceProfile,
        Kind::Server,
        Kind::ServerAuthorization,
        Kind::AuthorizationPolicy,
        Kind::MeshTLSAuthentication,
        Kind::NetworkAuthentication,
        Kind::LinkerdRoute,
        Kind::GatewayRoute,
    ] {
        add_kind(&mut held, hub, kind);
    }
    held
}

// Counts the objects of a kind in a hub.
fn add_kind(held: &mut HeldObjects, hub: &Hub, kind: Kind) {
    for _ in 0..hub.store().of_kind(kind).len() {
        held.add(kind);
    }
}

// Writes to standard error how the program ended.
fn tell(
    rt: &HostRuntime,
    status: Status,
    error: Option<io::Error>,
    run: Option<Run<'_>>,
) -> Status {
    let report = Report {
        status,
        error,
        run,
        is_terminal: rt.stderr().is_terminal(),
    };
    let _ = eprint!(rt; "{report}");
    status
}

fn tell_usage(rt: &HostRuntime, words: WrongWords<'_>) -> Status {
    let _ = eprint!(rt; "{words}");
    Status::Usage
}

// Writes to standard error what is wrong with words that are no command.
fn tell_wrong(rt: &HostRuntime, words: &[Text]) -> Status {
    let reader = Reader { alloc: rt.alloc() };
    tell_usage(rt, WrongWords::of(rt.alloc(), words, &reader))
}

// Runs the command of the words, except for `serve`, and reports to standard error.
fn run<'a>(rt: &'a HostRuntime, start: StartTime, words: &'a [Text], last: &'a LastError) -> Outcome
    ensures { ServesBy result (λ server. 1 ≤ server.limits.frame_addrs) }
{
    let Ok(mut hub) = new_hub(rt.alloc()) else {
        return Outcome::Ended(tell(rt, Status::Memory, None, None));
    };
    let stdin = ReadSource::new(ErrorKeeper::new(rt.stdin(), last));
    let stdout = WriteSink::new(ErrorKeeper::new(rt.stdout(), last));
    let mut input = InputTally::new(rt.alloc(), stdin, progress(rt, start, words));
    let mut out = OutputTally::new(rt.alloc(), stdout, output_screen(rt));
    let outcome = top(
        rt.alloc(),
        words,
        &Limits::usual(),
        &mut hub,
        &mut input,
        &mut out,
        &mut RegexPatterns::new(rt.alloc()),
    );
    let status = match outcome {
        Outcome::Ended(Status::Usage) => return Outcome::Ended(tell_wrong(rt, words)),
        Outcome::Ended(status) => status,
        Outcome::Serve(server) => return Outcome::Serve(server),
    };
    let read = input.end();
    let run = CommandLine::of(words).map(|command_line| Run {
        command_line,
        read,
        feed: &input.feed,
        written: out.counts,
        output: &out.notes,
        held: held_in(&hub),
        elapsed: start.elapsed(rt),
    });
    let status = tell(rt, status, last.get(), run);
    // The exit of the process frees the memory of the hub at once. To free its parts one by one
    // took a fifth of the time of a run over 20,000 objects.
    mem::forget(hub);
    Outcome::Ended(status)
}

fn main(rt: HostRuntime) -> ExitCode {
    let start = StartTime::now(&rt);
    let last = LastError::new(None);
    let outcome = match words_of(&rt) {
        Ok(words) => run(&rt, start, &words, &last),
        Err(Status::Usage) => Outcome::Ended(tell_usage(&rt, WrongWords::not_utf8())),
        Err(status) => Outcome::Ended(tell(&rt, status, None, None)),
    };
    match outcome {
        Outcome::Ended(status) => exit_code(status),
        Outcome::Serve(server) => serve(&rt, &server, link_screen(&rt, start)),
    }
}
