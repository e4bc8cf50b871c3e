// The words of steps and of messages.
use net_cidr::ip::Ip;
use row_file::TrialFault;
use std::alloc::{AllocError, Global};
use view_types::endpoint::EndpointRow;
use view_types::message::Message;

pub fn number(word: &str) -> Result<u32, TrialFault> {
    Ok(word.parse::<u32>()?)
}

/// Reads an address and the weight of the row that stood there, as `1 was 10` or `1 was none`.
pub fn stood_of(words: &str) -> Result<(u32, Option<u32>), TrialFault> {
    let Some((address, weight)) = words.split_once(" was ") else {
        return Err(TrialFault::new("no step is written so"));
    };
    if weight == "none" {
        return Ok((number(address)?, None));
    }
    Ok((number(address)?, Some(number(weight)?)))
}

/// Reads addresses with their weights, as `1:10 2:20`.
pub fn rows_of(alloc: Global, words: &str) -> Result<Vec<(u32, u32)>, TrialFault> {
    let mut rows = Vec::new(alloc);
    for word in words.split(' ') {
        if let Some((address, weight)) = word.split_once(':') {
            rows.push((number(address)?, number(weight)?))?;
        }
    }
    Ok(rows)
}

/// Writes what messages say: the rows that a message adds, each by the number of its address and
/// its weight; the addresses that it removes; or that there are no endpoints.
pub fn push_messages(messages: &[Message], out: &mut String) -> Result<(), TrialFault> {
    if messages.is_empty() {
        out.push_str("nothing")?;
    }
    let mut is_first = true;
    for message in messages {
        if !is_first {
            out.push_str("; ")?;
        }
        push_message(message, out)?;
        is_first = false;
    }
    out.push_str("\n")?;
    Ok(())
}

fn push_message(message: &Message, out: &mut String) -> Result<(), TrialFault> {
    match message {
        Message::Add(rows) => push_rows(rows.as_slice(), out)?,
        Message::Remove(pairs) => push_gone(pairs.as_slice(), out)?,
        Message::NoEndpoints(true) => out.push_str("no_endpoints exists")?,
        Message::NoEndpoints(false) => out.push_str("no_endpoints absent")?,
        _ => return Err(TrialFault::new("a message is not of endpoints")),
    }
    Ok(())
}

fn push_rows(rows: &[EndpointRow], out: &mut String) -> Result<(), AllocError> {
    out.push_str("add")?;
    for row in rows {
        write!(out, " {}:{}", number_of(row.ip), row.weight)?;
    }
    Ok(())
}

fn push_gone(pairs: &[(Ip, u16)], out: &mut String) -> Result<(), AllocError> {
    out.push_str("remove")?;
    for pair in pairs {
        write!(out, " {}", number_of(pair.0))?;
    }
    Ok(())
}

fn number_of(ip: Ip) -> u32 {
    match ip {
        Ip::V4(number) => number,
        Ip::V6(_) => 0,
    }
}
