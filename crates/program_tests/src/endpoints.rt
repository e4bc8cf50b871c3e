// Slices of many endpoints, and the frames that carry them.
use row_file::TrialFault;

/// Appends the line of a slice: `NET COUNT` is the number of endpoints, the first of which is
/// 10.NET.0.0. 250 of them have the same third number.
pub fn push_slice(text: &mut String, range: &str) -> Result<(), TrialFault> {
    let Some((net, count)) = range.split_once(' ') else {
        return Err(TrialFault::new("a slice has no number of endpoints"));
    };
    let count = count.parse::<u32>()?;
    text.push_str(
        r#"{"type":"ADDED","object":{"apiVersion":"discovery.k8s.io/v1","kind":"EndpointSlice","metadata":{"name":"web-a","namespace":"app","labels":{"kubernetes.io/service-name":"web"}},"addressType":"IPv4","endpoints":["#,
    )?;
    for i in 0..count {
        if i > 0 {
            text.push_str(",")?;
        }
        let high = i / 250;
        let low = i % 250;
        write!(text, "{{\"addresses\":[\"10.{net}.{high}.{low}\"]}}")?;
    }
    text.push_str("],\"ports\":[{\"name\":\"http\",\"port\":8080}]}}\n")?;
    Ok(())
}

// The number of an endpoint: 250 have the same third number.
#[derive(Clone, Copy, Debug, PartialEq, Eq)]
struct Endpoint {
    net: u8,
    high: u8,
    low: u8,
}

impl Endpoint {
    // Returns the endpoint of 6 digits of hexadecimal, the last number first.
    fn of(digits: &str) -> Option<Endpoint> {
        Some(Endpoint {
            low: byte_of(digits.get(0..2)?)?,
            high: byte_of(digits.get(2..4)?)?,
            net: byte_of(digits.get(4..6)?)?,
        })
    }

    fn next(self) -> Endpoint {
        if self.low == 249 {
            return Endpoint {
                low: 0,
                high: self.high.saturating_add(1),
                net: self.net,
            };
        }
        Endpoint {
            low: self.low.saturating_add(1),
            high: self.high,
            net: self.net,
        }
    }
}

fn byte_of(digits: &str) -> Option<u8> {
    u8::from_str_radix(digits, 16).ok()
}

// Appends a range of endpoints in hexadecimal, which is cut at the front of each: the first and the
// last. Each has to be the one after the one before it.
fn push_range(out: &mut String, hex: &str, front: &str, end: &str) -> Result<(), TrialFault> {
    let mut range: Option<(Endpoint, Endpoint)> = None;
    for piece in hex.split(front) {
        let Some(endpoint) = piece.strip_suffix(end).and_then(Endpoint::of) else {
            return Err(TrialFault::new("an endpoint of a frame does not read"));
        };
        range = match range {
            None => Some((endpoint, endpoint)),
            Some((first, last)) if last.next() == endpoint => Some((first, endpoint)),
            Some(_) => return Err(TrialFault::new("an endpoint of a frame is out of order")),
        };
    }
    if let Some((first, last)) = range {
        let Endpoint { net, high, low } = first;
        write!(out, "10.{net}.{high}.{low}")?;
        let Endpoint { net, high, low } = last;
        write!(out, " to 10.{net}.{high}.{low}\n")?;
    }
    Ok(())
}

// What stands before and after the address of an endpoint that a message adds, and of one that it
// removes. The port is 8080, and the weight 10,000.
const ADDED: &str = "0a0f0a0a0a050d";

const REMOVED: &str = "0a0a0a050d";

/// Appends a frame, and its endpoints as a range.
pub fn push_frame(out: &mut String, line: &str) -> Result<(), TrialFault> {
    if let Some((head, hex)) = line.split_once(ADDED) {
        write!(out, "{head} added ")?;
        return push_range(out, hex, ADDED, "0a10903f18904e");
    }
    if let Some((head, hex)) = line.split_once(REMOVED) {
        write!(out, "{head} removed ")?;
        return push_range(out, hex, REMOVED, "0a10903f");
    }
    write!(out, "{line}\n")?;
    Ok(())
}
