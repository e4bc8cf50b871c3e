// The calls on links, as a trace records them.
use mesh_base::list::List;

/// An event that a poll returns.
#[derive(Clone, Copy, Debug, PartialEq, Eq)]
pub enum LinkEvent {
    /// A peer has opened the link.
    New(u32),
    /// A read of the link may return something other than `Pending`.
    Readable(u32),
    /// A write on the link may return something other than `Pending`.
    Writable(u32),
}

/// The result of a read, other than `Memory`.
#[derive(Debug, Drop)]
pub enum ReadGot {
    /// The bytes that were read. No bytes mean the end of the peer's input.
    Bytes(List<u8>),
    Pending,
    Failed,
}

/// The result of a write, other than `Memory`.
#[derive(Debug, Drop)]
pub enum WriteGot {
    /// The number of bytes accepted from the front of the piece.
    Took(u64),
    Pending,
    Failed,
}

/// A call on links and its result. A call that returns `Memory` isn't recorded.
#[derive(Debug, Drop)]
pub enum LinkCall {
    /// A poll and the events that it returned, or None if it failed.
    Poll {
        wait: bool,
        got: Option<List<LinkEvent>>,
    },
    /// A read into a buffer of `room` bytes.
    Read {
        link: u32,
        room: u64,
        got: ReadGot,
    },
    Write {
        link: u32,
        piece: List<u8>,
        got: WriteGot,
    },
    Close {
        link: u32,
    },
}
