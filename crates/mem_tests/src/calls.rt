// Calls in words, and what they return.
use crate::scripts::{link_and_rest, number};
use mesh_links::call::{LinkCall, LinkEvent, ReadGot, WriteGot};
use mesh_links::links::{LinkFault, Links, PollFault};
use row_file::TrialFault;
use std::alloc::Global;

// The bytes of a buffer, if a row does not say how many.
const ROOM: usize = 16;

fn push_events(text: &mut String, events: &[LinkEvent]) -> Result<(), TrialFault> {
    if events.is_empty() {
        text.push_str("none")?;
    }
    let mut before = "";
    for event in events {
        match event {
            LinkEvent::New(link) => write!(text, "{before}new:{link}")?,
            LinkEvent::Readable(link) => write!(text, "{before}readable:{link}")?,
            LinkEvent::Writable(link) => write!(text, "{before}writable:{link}")?,
        }
        before = ",";
    }
    Ok(())
}

fn push_bytes(text: &mut String, bytes: &[u8]) -> Result<(), TrialFault> {
    match str::from_utf8(bytes) {
        Ok("") => text.push_str("0")?,
        Ok(bytes) => text.push_str(bytes)?,
        Err(_) => text.push_str("bytes")?,
    }
    Ok(())
}

fn push_fault(text: &mut String, fault: LinkFault) -> Result<(), TrialFault> {
    match fault {
        LinkFault::Failed => text.push_str("failed")?,
        LinkFault::Pending => text.push_str("pending")?,
        LinkFault::Memory => text.push_str("memory")?,
    }
    Ok(())
}

fn push_poll<N: Links>(text: &mut String, links: &mut N) -> Result<(), TrialFault> {
    match links.poll(false) {
        Ok(events) => push_events(text, events.as_slice()),
        Err(PollFault::Failed) => Ok(text.push_str("failed")?),
        Err(PollFault::Memory) => Ok(text.push_str("memory")?),
    }
}

fn push_read<N: Links>(text: &mut String, links: &mut N, of: &str) -> Result<(), TrialFault> {
    let (link, room) = link_and_rest(of)?;
    let room = if room.is_empty() {
        ROOM
    } else {
        number(room)? as usize
    };
    let mut buf = [0; ROOM];
    let room = room.min(ROOM);
    match links.read(link, &mut buf[..room]) {
        Ok(n) => push_bytes(text, &buf[..n.min(ROOM)]),
        Err(fault) => push_fault(text, fault),
    }
}

fn push_write<N: Links>(text: &mut String, links: &mut N, of: &str) -> Result<(), TrialFault> {
    let (link, piece) = link_and_rest(of)?;
    match links.write(link, piece.as_bytes()) {
        Ok(n) => Ok(write!(text, "{n}")?),
        Err(fault) => push_fault(text, fault),
    }
}

// Makes the call of a word, and writes what it returns. A close writes nothing.
fn push_call<N: Links>(text: &mut String, links: &mut N, word: &str) -> Result<(), TrialFault> {
    match word.split_once(':') {
        None => push_poll(text, links),
        Some(("read", of)) => push_read(text, links, of),
        Some(("write", of)) => push_write(text, links, of),
        Some((_, of)) => {
            links.close(number(of)?);
            Ok(())
        }
    }
}

/// Makes calls, and returns what they answer with spaces between.
pub fn answers<N: Links>(alloc: Global, links: &mut N, calls: &str) -> Result<String, TrialFault> {
    let mut all = String::new(alloc);
    for word in calls.split(' ') {
        let mut answer = String::new(alloc);
        push_call(&mut answer, links, word)?;
        if !all.is_empty() && !answer.is_empty() {
            all.push_str(" ")?;
        }
        all.push_str(answer.as_str())?;
    }
    Ok(all)
}

fn push_told(text: &mut String, call: &LinkCall) -> Result<(), TrialFault> {
    match call {
        LinkCall::Poll { got, .. } => match got {
            Some(events) => push_events(text, events.as_slice()),
            None => Ok(text.push_str("failed")?),
        },
        LinkCall::Read { got, .. } => match got {
            ReadGot::Bytes(bytes) => push_bytes(text, bytes.as_slice()),
            ReadGot::Pending => push_fault(text, LinkFault::Pending),
            ReadGot::Failed => push_fault(text, LinkFault::Failed),
        },
        LinkCall::Write { got, .. } => match got {
            WriteGot::Took(n) => Ok(write!(text, "{n}")?),
            WriteGot::Pending => push_fault(text, LinkFault::Pending),
            WriteGot::Failed => push_fault(text, LinkFault::Failed),
        },
        LinkCall::Close { .. } => Ok(text.push_str("closed")?),
    }
}

/// What a trace tells of its calls, with spaces between them.
pub fn told(alloc: Global, trace: &[LinkCall]) -> Result<String, TrialFault> {
    let mut text = String::new(alloc);
    for call in trace {
        if !text.is_empty() {
            text.push_str(" ")?;
        }
        push_told(&mut text, call)?;
    }
    Ok(text)
}
