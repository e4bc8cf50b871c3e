// Reads the first members of a line of a feed. A `kind` after `items` is read from the last bytes.
use crate::json::{after_empty_list, after_scalar, eat, key, next_member, string};
use memchr::{memchr, memmem};

// The greatest number of members to read. API servers and jq write the short members first.
const MAX_MEMBERS: usize = 12;

/// The members of a line, as far as its first and last bytes show them.
#[derive(Clone, Copy)]
pub(crate) struct Front<'a> {
    /// The value of `control`.
    pub(crate) control: Option<&'a [u8]>,
    /// The kind of the object of a watch event, or of the line itself.
    pub(crate) kind: Option<&'a [u8]>,
    /// The API group of the last `apiVersion`, which is empty for `v1`.
    pub(crate) group: &'a [u8],
    /// Whether the line has the member `object`, as watch events do.
    pub(crate) is_event: bool,
    /// Whether the line is one page of a list: `metadata.continue` is not empty.
    pub(crate) is_page: bool,
    // Whether the line has `items`. The members after them were not read.
    has_items: bool,
}

fn group_of<'a>(version: &'a [u8]) -> &'a [u8] {
    match memchr(b'/', version) {
        Some(at) => version.get(..at).unwrap_or(b""),
        None => b"",
    }
}

impl<'a> Front<'a> {
    fn none() -> Front<'a> {
        Front {
            control: None,
            kind: None,
            group: b"",
            is_event: false,
            is_page: false,
            has_items: false,
        }
    }

    /// Reads a line from its first and its last bytes.
    pub(crate) fn read(first: &'a [u8], last: &'a [u8]) -> Front<'a> {
        let Some(members) = eat(first, b'{') else {
            return Front::none();
        };
        let front = Front::none().with_members(members);
        if !front.has_items || front.kind.is_some() {
            return front;
        }
        match memmem::rfind(last, b"\"kind\"") {
            Some(at) => front.with_members(last.get(at..).unwrap_or(b"")),
            None => front,
        }
    }

    // Whether the other members of the line do not matter.
    fn is_whole(&self) -> bool {
        self.control.is_some() || self.is_event && self.kind.is_some()
    }

    fn with_members(self, members: &'a [u8]) -> Front<'a> {
        let mut front = self;
        let mut rest = members;
        for _ in 0..MAX_MEMBERS {
            let Some(after) = front.take_member(rest) else {
                return front;
            };
            if front.is_whole() {
                return front;
            }
            rest = after;
        }
        front
    }

    // Reads one member. Returns the bytes of the next one. The members of `object` and of the
    // `metadata` of a list are read like members of the line.
    fn take_member(&mut self, bytes: &'a [u8]) -> Option<&'a [u8]> {
        let (name, value) = key(bytes)?;
        if let Some(inside) = eat(value, b'{') {
            return self.go_into(name, inside);
        }
        if let Some(after) = after_empty_list(value) {
            return next_member(after);
        }
        if let Some((text, after)) = string(value) {
            self.note(name, text);
            return next_member(after);
        }
        if eat(value, b'[').is_some() {
            self.has_items = name == b"items".as_slice();
            return None;
        }
        next_member(after_scalar(value)?)
    }

    fn go_into(&mut self, name: &[u8], inside: &'a [u8]) -> Option<&'a [u8]> {
        if name == b"object".as_slice() {
            self.is_event = true;
            self.kind = None;
        } else if name != b"metadata".as_slice() || self.is_event {
            return None;
        }
        match eat(inside, b'}') {
            Some(after) => next_member(after),
            None => Some(inside),
        }
    }

    fn note(&mut self, name: &[u8], text: &'a [u8]) {
        match name {
            b"control" => self.control = Some(text),
            b"kind" => self.kind = Some(text),
            b"apiVersion" => self.group = group_of(text),
            b"continue" => self.is_page = !text.is_empty(),
            _ => {}
        }
    }
}
