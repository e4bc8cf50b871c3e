// What is told of a server.
use crate::texts::number_of;
use row_file::TrialFault;
use run_report::ServerNote;
use std::io;

fn push_note(out: &mut String, note: ServerNote<'_>) -> Result<(), TrialFault> {
    write!(out, "{note}")?;
    Ok(())
}

/// Appends a note of a server: its name, and the address and the code of an error if it has them.
pub fn push_server(words: &str, out: &mut String) -> Result<(), TrialFault> {
    let (name, rest) = words.split_once(' ').unwrap_or((words, ""));
    let (address, code) = rest.split_once(' ').unwrap_or((rest, ""));
    match name {
        "listening" => push_note(out, ServerNote::Listening { address }),
        "cannot-listen" => {
            let error = number_of(code)?.map(io::Error::from_raw_os_error);
            push_note(out, ServerNote::CannotListen { address, error })
        }
        "stopped" => push_note(out, ServerNote::Stopped),
        "out-of-memory" => push_note(out, ServerNote::OutOfMemory),
        "poll-failed" => push_note(out, ServerNote::PollFailed),
        _ => Err(TrialFault::new("no note has this name")),
    }
}
