// A server from its first turn to its last.
ghost use Rattle.std.specs.Prelude.{◌≡◌, ◌≤◌, [], Some};
ghost use Rattle.mesh_outside.specs.Causes.{Rose};
ghost use Rattle.feed_history.specs.KnownPatterns.{GoOver, known_over};
ghost use Rattle.serve_core.specs.Ends.{Ends};
ghost use Rattle.serve_core.specs.TurnCalls.{Calls, RunShape};

use crate::server::{ServeFault, Server, Turn};
use mesh_base::copied::Copied;
use mesh_links::links::Links;
use mesh_outside::Patterns;
use serve_config::ServeConfig;
use std::alloc::Global;
use std::sync::Wait;

/// How a server ended.
#[derive(Clone, Copy, Debug, PartialEq, Eq)]
pub enum ServeStatus {
    /// A `stop` line was accepted.
    Stopped,
    /// Memory ran out.
    Memory,
    /// A poll failed.
    LinksFault,
}

/// Serves links until a `stop` line is accepted, memory runs out or a poll fails.
#[tactic(auto, using(feed_history::specs::KnownPatterns::goes_on_here, feed_history::specs::KnownPatterns::goes_on_further))]
pub fn serve_top<R: Wait, N: Links, P: Patterns>(
    rt: &R,
    alloc: Global,
    config: &ServeConfig,
    links: &mut N,
    patterns: &mut P,
) -> ServeStatus
    requires { 1 ≤ config.now.limits.frame_addrs }
    ensures calls { Calls N.Links (RunShape result) links.old links.new }
    ensures serves { N.trace links.old ≡ Some [] → Ends config.now
        (known_over P.Patterns patterns.old patterns.new) result (N.trace links.new) }
    ensures cause { result ≡ ServeStatus.LinksFault
        → Rose (N.counts links.old).polls (N.counts links.new).polls }
    ensures goes_on { GoOver P.Patterns patterns.old patterns.new }
{
    let Ok(copy) = config.config.copy(alloc) else {
        return ServeStatus::Memory;
    };
    let Ok(mut server) = Server::new(alloc, copy, config.limits) else {
        return ServeStatus::Memory;
    };
    for _ in rt.forever() {
        match server.turn(links, patterns) {
            Ok(Turn::Going) => {}
            Ok(Turn::Stopped) => return ServeStatus::Stopped,
            Err(ServeFault::Memory) => return ServeStatus::Memory,
            Err(ServeFault::Links) => return ServeStatus::LinksFault,
        }
    }
    unreachable!()
}
