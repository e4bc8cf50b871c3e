// Serves links over sockets.
ghost use Rattle.std.specs.Prelude.{◌≤◌};

use crate::exit::server_code;
use link_report::{CountedLinks, LinkScreen};
use mio_edge::mio_links::{ListenFault, MioLinks};
use regex_patterns::RegexPatterns;
use run_report::ServerNote;
use serve_config::ServeConfig;
use serve_core::serve::{ServeStatus, serve_top};
use std::io::{Eprint, Write};
use std::net::Net;
use std::process::ExitCode;
use std::sync::Wait;
use std::time::Clock;

fn tell<R: Eprint>(rt: &R, note: ServerNote<'_>) {
    let _ = eprint!(rt; "{note}");
}

// Writes to standard error how the server ended, and returns the exit status.
fn ended<R: Eprint>(rt: &R, status: ServeStatus) -> ExitCode {
    tell(
        rt,
        match status {
            ServeStatus::Stopped => ServerNote::Stopped,
            ServeStatus::Memory => ServerNote::OutOfMemory,
            ServeStatus::LinksFault => ServerNote::PollFailed,
        },
    );
    server_code(status)
}

/// Listens on the configured address, and serves links until a feed stops the server or it fails.
/// Writes to standard error where it listens and how it ended, and shows the traffic on the screen,
/// if there is one.
pub(crate) fn serve<R: Net + Wait + Eprint + AllocGlobal, C: Clock + Drop, W: Write + Drop>(
    rt: &R,
    server: &ServeConfig,
    screen: Option<LinkScreen<C, W>>,
) -> ExitCode
    requires { 1 ≤ server.now.limits.frame_addrs }
{
    let address = server.address.as_str();
    match MioLinks::listen(rt, rt.alloc(), address) {
        Ok(links) => {
            tell(rt, ServerNote::Listening { address });
            let mut links = CountedLinks::new(links, screen);
            let mut patterns = RegexPatterns::new(rt.alloc());
            let status = serve_top(rt, rt.alloc(), server, &mut links, &mut patterns);
            links.clear();
            ended(rt, status)
        }
        Err(ListenFault::Memory) => ended(rt, ServeStatus::Memory),
        Err(ListenFault::Failed(error)) => {
            tell(rt, ServerNote::CannotListen { address, error });
            server_code(ServeStatus::LinksFault)
        }
    }
}
