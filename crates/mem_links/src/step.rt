// The steps of a script.
use mesh_base::list::List;

/// An action of a peer, or the end of a poll. Except for `Arrive`, only open links are affected.
#[derive(Debug, Drop)]
pub enum MemStep {
    /// Opens a link and shows it as new, if the number is above those of all earlier links.
    Arrive(u32),
    /// The peer sends these bytes. The link is shown as readable.
    Bytes(u32, List<u8>),
    /// The peer sends no more bytes. The link is shown as readable; at the end a read returns 0.
    End(u32),
    /// The limit of each write in bytes: 0 means Pending. Above 0 the link is shown as writable.
    Room(u32, u64),
    /// The next read fails. The link is shown as readable.
    FailRead(u32),
    /// The next write fails. The link is shown as writable.
    FailWrite(u32),
    /// A poll that begins here fails; any other ends before it.
    FailPoll,
    /// A poll ends here.
    Tick,
}

impl MemStep {
    /// Whether the step makes a call fail.
    pub fn fails(&self) -> bool {
        match self {
            MemStep::FailRead(_) | MemStep::FailWrite(_) | MemStep::FailPoll => true,
            MemStep::Arrive(_)
            | MemStep::Bytes(_, _)
            | MemStep::End(_)
            | MemStep::Room(_, _)
            | MemStep::Tick => false,
        }
    }
}
