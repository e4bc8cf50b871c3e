use bytes::Bytes;
use proto_wire::unframer::Unframer;
use row_file::TrialFault;
use std::alloc::{AllocError, Global};

fn shown(alloc: Global, messages: &[Bytes]) -> Result<String, AllocError> {
    let mut all = String::new(alloc);
    for message in messages {
        let hex = hex::encode(alloc, message.as_slice())?;
        all.push_str(format!(in alloc; "[{hex}]")?.as_str())?;
    }
    Ok(all)
}

/// The answers to the pieces of a stream, joined as the pieces are.
pub fn stream(alloc: Global, pieces: &str) -> Result<String, TrialFault> {
    let mut unframer = Unframer::new(alloc, 4);
    let mut all = String::new(alloc);
    for (i, piece) in pieces.split(',').enumerate() {
        if i > 0 {
            all.push_str(",")?;
        }
        let answer = match unframer.feed(&hex::decode(alloc, piece)?) {
            Ok(messages) => shown(alloc, messages.as_slice())?,
            Err(fault) => format!(in alloc; "{fault:?}")?,
        };
        all.push_str(answer.as_str())?;
    }
    Ok(all)
}

/// Takes one message at a time out of the bytes, and writes how many bytes are left.
pub fn take(alloc: Global, input: &str, out: &mut String) -> Result<(), TrialFault> {
    let mut unframer = Unframer::new(alloc, u32::MAX);
    let bytes = hex::decode(alloc, input.trim())?;
    let mut rest = bytes.as_slice();
    for _ in 0..bytes.len() {
        let Some((message, after)) = unframer.take(rest)? else {
            break;
        };
        let hex = hex::encode(alloc, message.as_slice())?;
        write!(out, "{hex}\n")?;
        rest = after;
    }
    let count = rest.len();
    write!(out, "{count} bytes left\n")?;
    Ok(())
}
