// Finds out why a line is not part of a feed, and how to convert it to a feed.
use crate::front::Front;
use crate::json::{after_space, eat, string};
use crate::printable::JsonString;
use memchr::memmem;
use std::fmt;
use std::fmt::{Display, Formatter};

/// The kind of data that was recorded instead of a line of a feed.
#[derive(Clone, Copy, PartialEq, Eq)]
pub(crate) enum Cause {
    Gzip,
    ByteOrderMark,
    Utf16,
    Yaml,
    /// A JSON value that spans several lines.
    Indented,
    /// Several JSON values on one line.
    Joined,
    /// A `List` of mixed kinds, as kubectl prints it.
    MixedList,
    /// An object that is not in a watch event.
    Bare,
    /// A Status, which an API server returns for a failed request.
    Answer,
}

const YAML_FRONTS: [&str; 5] = ["apiVersion:", "items:", "kind:", "- apiVersion:", "---"];

fn is_yaml(text: &[u8]) -> bool {
    YAML_FRONTS
        .iter()
        .any(|front| text.starts_with(front.as_bytes()))
}

// Whether the line is only an opening brace or bracket.
fn opens_alone(text: &[u8]) -> bool {
    match text {
        [b'{' | b'[', after @ ..] => after_space(after).is_empty(),
        _ => false,
    }
}

impl Cause {
    /// Returns the cause, if the first bytes of a line show it.
    pub(crate) fn of_bytes(first: &[u8]) -> Option<Cause> {
        match first {
            [0x1f, 0x8b, ..] => return Some(Cause::Gzip),
            [0xef, 0xbb, 0xbf, ..] => return Some(Cause::ByteOrderMark),
            [0xff, 0xfe, ..] | [0xfe, 0xff, ..] => return Some(Cause::Utf16),
            _ => {}
        }
        let text = after_space(first);
        if opens_alone(text) {
            Some(Cause::Indented)
        } else if is_yaml(text) {
            Some(Cause::Yaml)
        } else {
            None
        }
    }

    /// Returns the cause, if the members of a line show it.
    pub(crate) fn of_front(front: &Front<'_>) -> Option<Cause> {
        let kind = front.kind?;
        if kind == b"Status".as_slice() {
            Some(Cause::Answer)
        } else if kind == b"List".as_slice() {
            Some(Cause::MixedList)
        } else if front.control.is_some() || front.is_event || kind.ends_with(b"List") {
            None
        } else {
            Some(Cause::Bare)
        }
    }

    fn advice(self) -> &'static str {
        match self {
            Cause::Gzip => "is gzip data: unpack it first, as by gunzip -c",
            Cause::ByteOrderMark => "begins with a byte order mark: remove it, as by tail -c +4",
            Cause::Utf16 => "is UTF-16: convert it first, as by iconv -f UTF-16 -t UTF-8",
            Cause::Yaml => "is YAML: record JSON, as by kubectl get --raw",
            Cause::Indented => {
                "begins JSON over several lines: put each value on one line, as by jq -c . and, of kubectl get -o json, by jq -c '.items[]|{type:\"ADDED\",object:.}'"
            }
            Cause::Joined =>
                "has several JSON values: put each on a line of its own, as by jq -c .",
            Cause::MixedList => {
                "is a List of mixed kinds: make events of its items, as by jq -c '.items[]|{type:\"ADDED\",object:.}'"
            }
            Cause::Bare => {
                "is an object by itself: make an event of it, as by jq -c '{type:\"ADDED\",object:.}'"
            }
            Cause::Answer => "is a Status, with which an API server answers a request that failed",
        }
    }
}

// Returns the message of a Status, if it is complete in the first bytes.
fn message_of<'a>(first: &'a [u8]) -> Option<&'a [u8]> {
    let at = memmem::find(first, b"\"message\"")?;
    let (_, after) = string(first.get(at..)?)?;
    let (message, _) = string(eat(after, b':')?)?;
    Some(message)
}

/// A hint on a refused line: its cause, and a command that converts it to a feed.
#[derive(Clone, Copy, Drop)]
pub(crate) struct Hint<'a> {
    pub(crate) number: u64,
    pub(crate) cause: Cause,
    /// The first bytes of the line.
    pub(crate) first: &'a [u8],
}

impl Display for Hint<'_> {
    fn fmt<W: fmt::Write>(&self, f: &mut Formatter<W>) -> fmt::Result {
        write!(
            f,
            "linkerd_cli: line {} {}",
            self.number,
            self.cause.advice()
        )?;
        if self.cause == Cause::Answer {
            if let Some(message) = message_of(self.first) {
                write!(f, ": {}", JsonString(message))?;
            }
        }
        f.write_str("\n")
    }
}
