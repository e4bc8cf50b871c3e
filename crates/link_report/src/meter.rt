// The traffic of one link.

// The first line of a feed.
const FEED: &[u8] = b"/feed";

const LINE_FEED: u8 = b'\n';

// The bytes of a frame before its message: a flag, and the length in four bytes.
const HEAD: u8 = 5;

// The purpose of a link, from its first line.
#[derive(Clone, Copy, PartialEq, Eq)]
enum Purpose {
    // The first line has not ended. Some: the number of its bytes, if all match the path of feeds.
    Unknown(Option<usize>),
    Feed,
    Method,
}

fn matched(seen: Option<usize>, part: &[u8]) -> Option<usize> {
    let at = seen?;
    if FEED.get(at..)?.starts_with(part) {
        Some(at.saturating_add(part.len()))
    } else {
        None
    }
}

fn lines_in(piece: &[u8]) -> u64 {
    piece.iter().filter(|byte| **byte == LINE_FEED).count() as u64
}

// The position in a stream of frames.
#[derive(Clone, Copy)]
struct FrameEnd {
    // The bytes of the head of a frame that has begun.
    head: u8,
    // The length in them.
    length: u32,
    // The bytes of its message that are still to come.
    left: u32,
}

impl FrameEnd {
    const NONE: FrameEnd = FrameEnd {
        head: 0,
        length: 0,
        left: 0,
    };

    // Whether the byte ends a frame.
    fn take(&mut self, byte: u8) -> bool {
        if self.left > 0 {
            self.left -= 1;
            return self.left == 0;
        }
        self.length = (self.length << 8) | (byte as u32);
        self.head = self.head.saturating_add(1);
        if self.head < HEAD {
            return false;
        }
        self.left = self.length;
        self.head = 0;
        self.length = 0;
        self.left == 0
    }
}

// The state of an open link.
#[derive(Clone, Copy)]
pub(crate) struct LinkMeter {
    purpose: Purpose,
    frames: FrameEnd,
    was_written: bool,
}

impl LinkMeter {
    // Nothing was read or written.
    pub(crate) const NEW: LinkMeter = LinkMeter {
        purpose: Purpose::Unknown(Some(0)),
        frames: FrameEnd::NONE,
        was_written: false,
    };

    pub(crate) fn is_feed(&self) -> bool {
        self.purpose == Purpose::Feed
    }

    pub(crate) fn is_subscription(&self) -> bool {
        self.purpose == Purpose::Method && self.was_written
    }

    // Records bytes that were read. Returns how many lines of a feed end in them.
    pub(crate) fn read(&mut self, piece: &[u8]) -> u64 {
        match self.purpose {
            Purpose::Feed => lines_in(piece),
            Purpose::Method => 0,
            Purpose::Unknown(seen) => self.read_first(seen, piece),
        }
    }

    fn read_first(&mut self, seen: Option<usize>, piece: &[u8]) -> u64 {
        let Some(at) = piece.iter().position(|byte| *byte == LINE_FEED) else {
            self.purpose = Purpose::Unknown(matched(seen, piece));
            return 0;
        };
        let (line, rest) = piece.split_at(at);
        if matched(seen, line) == Some(FEED.len()) {
            self.purpose = Purpose::Feed;
            return lines_in(rest).saturating_sub(1);
        }
        self.purpose = Purpose::Method;
        0
    }

    // Records bytes that were written. Returns how many frames end in them, which is 0 for a feed.
    pub(crate) fn write(&mut self, piece: &[u8]) -> u64 {
        self.was_written = true;
        if self.is_feed() {
            return 0;
        }
        let mut frames = 0;
        for byte in piece {
            if self.frames.take(*byte) {
                frames = u64::saturating_add(frames, 1);
            }
        }
        frames
    }
}
