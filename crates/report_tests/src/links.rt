// What is counted of links, and shown on a terminal.
use crate::tally::Ticks;
use crate::texts::{bytes_of, push_shown};
use link_report::{CountedLinks, LinkScreen};
use mem_links::step::MemStep;
use mem_links::sure::SureLinks;
use mesh_base::list::List;
use mesh_links::links::Links;
use row_file::TrialFault;
use run_report::StartTime;
use std::alloc::Global;

type Counted<'a> = CountedLinks<SureLinks, &'a Ticks, Vec<u8>>;

// Returns what happens on links: `arrive LINK`, `bytes LINK TEXT`, `room LINK BYTES` or `tick`.
fn step_of(alloc: Global, line: &str) -> Result<MemStep, TrialFault> {
    let (name, rest) = line.split_once(' ').unwrap_or((line, ""));
    if name == "tick" {
        return Ok(MemStep::Tick);
    }
    let (link, rest) = rest.split_once(' ').unwrap_or((rest, ""));
    let link = link.parse::<u32>()?;
    match name {
        "arrive" => Ok(MemStep::Arrive(link)),
        "bytes" => Ok(MemStep::Bytes(link, List::from_vec(bytes_of(alloc, rest)?))),
        "room" => Ok(MemStep::Room(link, rest.parse::<u64>()?)),
        _ => Err(TrialFault::new("no step of a link has this name")),
    }
}

fn counted<'a>(alloc: Global, ticks: &'a Ticks, steps: &str) -> Result<Counted<'a>, TrialFault> {
    let mut script = List::new(alloc);
    for line in steps.split_terminator('\n') {
        script.add(step_of(alloc, line)?)?;
    }
    let screen = LinkScreen::new(alloc, ticks, StartTime::now(ticks), Vec::new(alloc));
    Ok(CountedLinks::new(SureLinks::new(alloc, script), Some(screen)))
}

// Makes a call: `read LINK`, `write LINK TEXT`, `close LINK` or `poll`.
fn make(alloc: Global, links: &mut Counted<'_>, name: &str, rest: &str) -> Result<(), TrialFault> {
    if name == "poll" {
        let _ = links.poll(false);
        return Ok(());
    }
    let (link, text) = rest.split_once(' ').unwrap_or((rest, ""));
    let link = link.parse::<u32>()?;
    match name {
        "read" => {
            let mut buf = [0; 64];
            let _ = links.read(link, buf.as_mut_slice());
        }
        "write" => {
            let piece = bytes_of(alloc, text)?;
            let _ = links.write(link, piece.as_slice());
        }
        "close" => links.close(link),
        _ => return Err(TrialFault::new("no call has this name")),
    }
    Ok(())
}

/// Appends each call of the table, and what is counted after it.
pub fn push_link_counts(
    alloc: Global,
    steps: &str,
    table: &str,
    out: &mut String,
) -> Result<(), TrialFault> {
    let ticks = Ticks::new();
    let mut links = counted(alloc, &ticks, steps)?;
    for row in table.split_terminator('\n') {
        let (call, _) = row.split_once(" => ").unwrap_or((row, ""));
        let (name, rest) = call.split_once(' ').unwrap_or((call, ""));
        make(alloc, &mut links, name, rest)?;
        let Some(screen) = &links.screen else {
            return Err(TrialFault::new("there is no screen"));
        };
        let counts = screen.counts();
        let open = counts.links;
        let feeds = counts.feeds;
        let subscriptions = counts.subscriptions;
        let lines = counts.lines;
        let frames = counts.frames;
        write!(out, "{call} => links {open}, feeds {feeds}, ")?;
        write!(
            out,
            "subscriptions {subscriptions}, lines {lines}, frames {frames}\n"
        )?;
    }
    Ok(())
}

/// Appends what a terminal shows after these calls, which are words as `poll` or `read-1`.
pub fn push_link_screen(
    alloc: Global,
    steps: &str,
    calls: &str,
    out: &mut String,
) -> Result<(), TrialFault> {
    let ticks = Ticks::new();
    let mut links = counted(alloc, &ticks, steps)?;
    for call in calls.split(' ') {
        let (name, rest) = call.split_once('-').unwrap_or((call, ""));
        make(alloc, &mut links, name, rest)?;
    }
    links.clear();
    match &links.screen {
        Some(screen) => push_shown(out, screen.screen.as_slice()),
        None => Err(TrialFault::new("there is no screen")),
    }
}
