// A call that fails, at each place of a script, and its effect on the other link.
use crate::parts::Parts;
use crate::scripts::{Played, number, play};
use crate::told::{is_closed, written};
use mesh_base::limits::Limits;
use row_file::{Row, TrialFault};
use serve_core::server::{ServeFault, Turn};

/// Plays the script of a row with a step inserted at each place, and writes at how many places the
/// step has the effect that is wanted.
pub fn push_each(
    parts: &Parts,
    row: &Row,
    options: &str,
    out: &mut String,
) -> Result<(), TrialFault> {
    let script = row.input.as_str().trim_end();
    let (step, _) = options.split_once(' ').unwrap_or((options, ""));
    let mut holds = 0u64;
    let mut places = 0u64;
    for (place, _) in script.split(' ').enumerate() {
        let is_held = match row.option("spares") {
            Some(link) => spares(parts, script, place, step, number(link)?)?,
            None => ends(parts, script, place, step)?,
        };
        if is_held {
            holds = holds.saturating_add(1);
        }
        places = places.saturating_add(1);
    }
    match row.option("spares") {
        Some(link) => write!(out, "link {link} is spared")?,
        None => write!(out, "the turn ends with its fault")?,
    }
    Ok(writeln!(out, " at {holds} of {places} places")?)
}

// Returns the polls of a script that end before an index.
fn polls_before(parts: &Parts, script: &str, place: usize) -> Result<String, TrialFault> {
    let mut text = String::new(parts.alloc);
    let mut poll = String::new(parts.alloc);
    for (at, word) in script.split(' ').enumerate() {
        if at == place {
            break;
        }
        write!(poll, "{word} ")?;
        if word == "tick" {
            text.push_str(poll.as_str())?;
            poll = String::new(parts.alloc);
        }
    }
    text.push_str("tick")?;
    Ok(text)
}

// Returns a script with a step inserted at an index.
fn with_step(parts: &Parts, script: &str, place: usize, step: &str) -> Result<String, TrialFault> {
    let mut text = String::new(parts.alloc);
    for (at, word) in script.split(' ').enumerate() {
        if at == place {
            write!(text, "{step} ")?;
        }
        write!(text, "{word} ")?;
    }
    text.push_str("tick")?;
    Ok(text)
}

fn played(parts: &Parts, script: &str) -> Result<Played, TrialFault> {
    play(parts, &Limits::USUAL, script, 100)
}

// Returns all that is written on a link in a script.
fn due(parts: &Parts, script: &str, link: u32) -> Result<Vec<u8>, TrialFault> {
    let played = played(parts, script)?;
    written(parts.alloc, played.links.trace(), link)
}

// Whether a link other than that of the step stays open, is written what it is due before the poll
// at this index, and in all a prefix of what it is due without the step. The answers to a feed, on
// the link 1, do not depend on which links subscribe.
fn spares(
    parts: &Parts,
    script: &str,
    place: usize,
    step: &str,
    link: u32,
) -> Result<bool, TrialFault> {
    let before = due(parts, polls_before(parts, script, place)?.as_str(), link)?;
    let all = due(parts, script, link)?;
    let played = played(parts, with_step(parts, script, place, step)?.as_str())?;
    let bytes = written(parts.alloc, played.links.trace(), link)?;
    Ok(
        played.last == Ok(Turn::Going)
            && !is_closed(played.links.trace(), link)
            && bytes.starts_with(before.as_slice())
            && all.starts_with(bytes.as_slice())
            && (link != 1 || bytes.as_slice() == all.as_slice()),
    )
}

// Whether a poll that fails ends the turn with its fault, and both links were written prefixes of
// what they are due.
fn ends(parts: &Parts, script: &str, place: usize, step: &str) -> Result<bool, TrialFault> {
    let played = played(parts, with_step(parts, script, place, step)?.as_str())?;
    let trace = played.links.trace();
    let first = written(parts.alloc, trace, 1)?;
    let second = written(parts.alloc, trace, 2)?;
    Ok(
        played.last == Err(ServeFault::Links)
            && due(parts, script, 1)?.starts_with(first.as_slice())
            && due(parts, script, 2)?.starts_with(second.as_slice()),
    )
}
