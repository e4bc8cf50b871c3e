// The kinds of objects that the view of a query depends on.
use crate::command::CommandLine;
use crate::kinds::KindTable;
use std::fmt;
use std::fmt::{Display, Formatter};

static GET_KINDS: [&str; 3] = ["Service", "EndpointSlice", "Pod"];

static PROFILE_KINDS: [&str; 3] = ["Service", "Pod", "ServiceProfile"];

static PORT_KINDS: [&str; 5] = [
    "Pod",
    "Server",
    "ServerAuthorization",
    "AuthorizationPolicy",
    "HTTPRoute",
];

static TRAFFIC_KINDS: [&str; 3] = ["Service", "Pod", "HTTPRoute"];

fn kinds_of(method: &str) -> &'static [&'static str] {
    match method {
        "Get" => &GET_KINDS,
        "GetProfile" => &PROFILE_KINDS,
        "WatchPort" | "WatchPort2" => &PORT_KINDS,
        _ => &TRAFFIC_KINDS,
    }
}

// Returns how many of the kinds, from the first, a query needs. A cluster may lack the others.
fn needed_of(line: &CommandLine<'_>) -> usize {
    if line.method == "Get" { 2 } else { 1 }
}

fn is_address(path: &str) -> bool {
    match path.as_bytes() {
        [b'0'..=b'9' | b'[', ..] => true,
        _ => false,
    }
}

/// The kinds that a query depends on and a feed lacks.
#[derive(Clone, Copy, Drop)]
pub(crate) struct MissingKinds<'a> {
    line: CommandLine<'a>,
    kinds: &'a KindTable,
}

impl<'a> MissingKinds<'a> {
    pub(crate) fn of(line: CommandLine<'a>, kinds: &'a KindTable) -> MissingKinds<'a> {
        MissingKinds { line, kinds }
    }

    /// Whether the feed lacks a kind that the query needs. A Pod alone is enough for an address.
    pub(crate) fn is_some(&self) -> bool {
        if is_address(self.line.path) && self.kinds.has(b"Pod") {
            return false;
        }
        let needed = needed_of(&self.line);
        kinds_of(self.line.method)
            .iter()
            .take(needed)
            .any(|kind| !self.kinds.has(kind.as_bytes()))
    }
}

impl Display for MissingKinds<'_> {
    fn fmt<W: fmt::Write>(&self, f: &mut Formatter<W>) -> fmt::Result {
        let mut is_first = true;
        for kind in kinds_of(self.line.method) {
            if self.kinds.has(kind.as_bytes()) {
                continue;
            }
            if is_first {
                write!(
                    f,
                    "linkerd_cli: warning: nothing of kind {kind} was in the feed"
                )?;
            } else {
                write!(f, ", nor of kind {kind}")?;
            }
            is_first = false;
        }
        f.write_str("\n")
    }
}
