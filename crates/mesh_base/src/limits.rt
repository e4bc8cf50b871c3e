ghost use Rattle.std.specs.Prelude.{◌≡◌};
ghost use Rattle.mesh_base.specs.Limits.{usual_limits};

/// The limits of a run. Each limit is at least 1.
#[derive(Clone, Copy, Debug, PartialEq, Eq)]
pub struct Limits {
    /// Bytes of a line, without its line feed; at most 4,294,967,295.
    pub line: u64,
    /// Objects held.
    pub objects: u32,
    /// Live subscriptions.
    pub subs: u32,
    /// Open links.
    pub links: u32,
    /// Open links that are feeds of events.
    pub feeds: u32,
    /// Addresses of one message.
    pub frame_addrs: u32,
    /// Bytes of one message.
    pub message: u32,
    /// Bytes read from an input.
    pub input: u64,
    /// Bytes of a request frame on a link.
    pub request: u32,
}

impl Limits {
    /// The limits that the programs use.
    pub const USUAL: Limits = Limits {
        line: 67_108_864,
        objects: 100_000,
        subs: 10_000,
        links: 1_024,
        feeds: 8,
        frame_addrs: 1_000,
        message: 4_194_304,
        input: 4_294_967_296,
        request: 65_536,
    };

    /// The limits that the programs use, by the table in `specs/Limits`.
    pub fn usual() -> Limits
        ensures { result ≡ usual_limits }
    {
        Limits::USUAL
    }
}
