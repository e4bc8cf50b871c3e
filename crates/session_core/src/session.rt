// The requests in a link's bytes, and their faults.
use bytes::Bytes;
use proxy_proto::fault::ProtoFault;
use view_types::query::{Method, Query};

/// What the first line of a link names.
#[derive(Clone, Copy, PartialEq, Eq)]
pub enum Path {
    /// Lines follow.
    Feed,
    /// A request frame of the method follows.
    Asks(Method),
}

/// A request to the server in the bytes of a link.
#[derive(Drop)]
pub enum Ask {
    /// The link subscribes to the query.
    Subscribe(Query),
    /// The link becomes a feed.
    FeedBegins,
    /// A line, numbered from 1 after the path line.
    Line { number: u64, text: Bytes },
    /// A line that is longer than the limit.
    LongLine { number: u64 },
    /// The peer sends nothing more.
    Ended,
}

/// Why the bytes of a link are refused.
#[derive(Clone, Copy, Debug, PartialEq, Eq)]
pub enum SessionFault {
    /// Out of memory.
    Memory,
    /// The first line is none of the paths.
    BadPath,
    /// The request frame cannot be read.
    Proto(ProtoFault),
    /// Bytes follow a valid request.
    Extra,
}
