// Rows that one subscriber was not shown yet.
use crate::views::{stood, view};
use crate::words::{push_messages, rows_of, stood_of};
use mesh_base::limits::Limits;
use pending_rows::rows::PendingRows;
use row_file::TrialFault;
use std::alloc::Global;

/// Two addresses a message.
pub(crate) const SMALL: Limits = Limits {
    line: 67_108_864,
    objects: 100,
    subs: 10,
    links: 10,
    feeds: 8,
    frame_addrs: 2,
    message: 4_194_304,
    input: 4_294_967_296,
    request: 65_536,
};

/// Makes the steps of a row, and writes what each drain says.
pub(crate) fn push_rows(
    alloc: Global,
    exists: bool,
    steps: &str,
    out: &mut String,
) -> Result<(), TrialFault> {
    let mut pending = PendingRows::new(alloc, exists);
    for step in steps.lines() {
        if let Some(words) = step.strip_prefix("drain ") {
            push_drain(alloc, &mut pending, words, out)?;
        } else {
            note(alloc, &mut pending, step)?;
        }
    }
    Ok(())
}

// Notes that a row of the weight stood at the address, or none.
fn note(alloc: Global, pending: &mut PendingRows, words: &str) -> Result<(), TrialFault> {
    let (address, weight) = stood_of(words)?;
    let before = stood(alloc, address, weight)?;
    Ok(pending.note(alloc, before.as_slice())?)
}

// Writes what is said after a drain to these rows.
fn push_drain(
    alloc: Global,
    pending: &mut PendingRows,
    words: &str,
    out: &mut String,
) -> Result<(), TrialFault> {
    let rows = rows_of(alloc, words)?;
    let now = view(alloc, rows.as_slice(), words.starts_with("exists"))?;
    let messages = pending.drain(alloc, &now, &SMALL)?;
    push_messages(messages.as_slice(), out)
}
