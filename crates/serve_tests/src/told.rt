// The contents of a trace, as words.
use mesh_links::call::{LinkCall, ReadGot, WriteGot};
use row_file::TrialFault;
use std::alloc::Global;

fn push_lines(text: &mut String, shown: &str) -> Result<(), TrialFault> {
    for (place, line) in shown.lines().enumerate() {
        if place > 0 {
            text.push_str(",")?;
        }
        text.push_str(line)?;
    }
    Ok(())
}

// Appends bytes as text with a `,` between its lines, or as hex if one is no character of a line.
fn push_bytes(alloc: Global, text: &mut String, bytes: &[u8]) -> Result<(), TrialFault> {
    if bytes.iter().any(|byte| *byte < 32 && *byte != b'\n') {
        let hex = hex::encode(alloc, bytes)?;
        return Ok(text.push_str(hex.as_str())?);
    }
    let Ok(shown) = str::from_utf8(bytes) else {
        return Err(TrialFault::new("what was written is neither text nor frames"));
    };
    push_lines(text, shown)
}

/// Returns the bytes that were written on a link.
pub fn written(alloc: Global, trace: &[LinkCall], number: u32) -> Result<Vec<u8>, TrialFault> {
    let mut bytes = Vec::new(alloc);
    for call in trace {
        if let LinkCall::Write { link, piece, got } = call {
            if let WriteGot::Took(n) = got {
                if *link == number {
                    let n = (*n as usize).min(piece.len());
                    bytes.extend_from_slice(&piece.as_slice()[..n])?;
                }
            }
        }
    }
    Ok(bytes)
}

/// Whether a link was closed.
pub fn is_closed(trace: &[LinkCall], number: u32) -> bool {
    for call in trace {
        if let LinkCall::Close { link } = call {
            if *link == number {
                return true;
            }
        }
    }
    false
}

/// Writes what was written on each of the links 1 to 4, and which links were closed.
pub fn push_outcome(alloc: Global, trace: &[LinkCall], out: &mut String) -> Result<(), TrialFault> {
    for link in 1..5 {
        let bytes = written(alloc, trace, link)?;
        if !bytes.is_empty() {
            write!(out, "{link} ")?;
            push_bytes(alloc, out, bytes.as_slice())?;
            out.push_str("\n")?;
        }
    }
    for call in trace {
        if let LinkCall::Close { link } = call {
            writeln!(out, "closed {link}")?;
        }
    }
    Ok(())
}

fn push_call(text: &mut String, call: &LinkCall) -> Result<(), TrialFault> {
    match call {
        LinkCall::Poll { wait, got } => {
            let word = if *wait { "wait" } else { "poll" };
            match got {
                Some(events) => Ok(write!(text, "{word}:{}", events.len())?),
                None => Ok(write!(text, "{word}!")?),
            }
        }
        LinkCall::Read { link, got, .. } => match got {
            ReadGot::Bytes(bytes) => {
                let n = bytes.len();
                Ok(write!(text, "r{link}:{n}")?)
            }
            ReadGot::Pending => Ok(write!(text, "r{link}?")?),
            ReadGot::Failed => Ok(write!(text, "r{link}!")?),
        },
        LinkCall::Write { link, got, .. } => match got {
            WriteGot::Took(n) => Ok(write!(text, "w{link}:{n}")?),
            WriteGot::Pending => Ok(write!(text, "w{link}?")?),
            WriteGot::Failed => Ok(write!(text, "w{link}!")?),
        },
        LinkCall::Close { link } => Ok(write!(text, "c{link}")?),
    }
}

/// Writes the calls in their order, with a line for each turn: `wait` and `poll` with the number of
/// events, `r` and `w` with the link and the number of bytes, `?` for Pending and `!` for a
/// failure, `c` for a close.
pub fn push_calls(trace: &[LinkCall], out: &mut String) -> Result<(), TrialFault> {
    for (place, call) in trace.iter().enumerate() {
        let between = match call {
            LinkCall::Poll { .. } => "\n",
            _ => " ",
        };
        if place > 0 {
            out.push_str(between)?;
        }
        push_call(out, call)?;
    }
    Ok(out.push_str("\n")?)
}
