// The messages of a server on standard error.
use std::fmt::{Display, Formatter};
use std::{fmt, io};

/// A message of a server on standard error: where it listens, or how it ended.
#[derive(Clone, Copy, Drop)]
pub enum ServerNote<'a> {
    Listening {
        address: &'a str,
    },
    CannotListen {
        address: &'a str,
        /// The error of the system, if there is one.
        error: Option<io::Error>,
    },
    /// A feed sent a `stop` line.
    Stopped,
    OutOfMemory,
    /// The system failed to report which links are ready.
    PollFailed,
}

impl Display for ServerNote<'_> {
    fn fmt<W: fmt::Write>(&self, f: &mut Formatter<W>) -> fmt::Result {
        f.write_str("linkerd_cli: ")?;
        match self {
            ServerNote::Listening { address } => write!(f, "listening on {address}\n"),
            ServerNote::CannotListen {
                address,
                error: Some(error),
            } => write!(f, "cannot listen on {address}: {error}\n"),
            ServerNote::CannotListen {
                address,
                error: None,
            } => write!(f, "cannot listen on {address}\n"),
            ServerNote::Stopped => f.write_str("stopped by a feed\n"),
            ServerNote::OutOfMemory => f.write_str("out of memory\n"),
            ServerNote::PollFailed => f.write_str("waiting for links failed\n"),
        }
    }
}
