// Scripts written as words, and servers that play them.
ghost use Rattle.std.specs.Prelude.{◌≤◌, IfOk};

use crate::parts::Parts;
use mem_links::mem::MemLinks;
use mem_links::step::MemStep;
use mesh_base::limits::Limits;
use mesh_base::list::List;
use mesh_outside::SurePatterns;
use row_file::{Row, TrialFault};
use serve_core::server::{ServeFault, Server, Turn};
use view_types::config::Config;

/// Reads a number from a word.
pub fn number(word: &str) -> Result<u32, TrialFault> {
    match word.parse() {
        Ok(number) => Ok(number),
        Err(_) => Err(TrialFault::new("a word has no number")),
    }
}

// The step of a word, as `bytes:1:/feed+#0a`.
fn step(parts: &Parts, word: &str) -> Result<MemStep, TrialFault> {
    let Some((kind, of)) = word.split_once(':') else {
        return match word {
            "failpoll" => Ok(MemStep::FailPoll),
            "tick" => Ok(MemStep::Tick),
            _ => Err(TrialFault::new("no step has this word")),
        };
    };
    let (link, rest) = of.split_once(':').unwrap_or((of, ""));
    let link = number(link)?;
    match kind {
        "arrive" => Ok(MemStep::Arrive(link)),
        "bytes" => Ok(MemStep::Bytes(link, parts.bytes(rest)?)),
        "end" => Ok(MemStep::End(link)),
        "room" => Ok(MemStep::Room(link, u64::from(number(rest)?))),
        "failread" => Ok(MemStep::FailRead(link)),
        "failwrite" => Ok(MemStep::FailWrite(link)),
        _ => Err(TrialFault::new("no step has this word")),
    }
}

// Appends the steps of a word. The steps of `each:1:` are the bytes after it one by one, with a
// tick after each.
fn add_steps(parts: &Parts, word: &str, steps: &mut List<MemStep>) -> Result<(), TrialFault> {
    let Some(of) = word.strip_prefix("each:") else {
        return Ok(steps.add(step(parts, word)?)?);
    };
    let (link, bytes) = of.split_once(':').unwrap_or((of, ""));
    let link = number(link)?;
    for byte in parts.bytes(bytes)?.as_slice() {
        let mut one = List::new(parts.alloc);
        one.add(*byte)?;
        steps.add(MemStep::Bytes(link, one))?;
        steps.add(MemStep::Tick)?;
    }
    Ok(())
}

fn script(parts: &Parts, words: &str) -> Result<List<MemStep>, TrialFault> {
    let mut steps = List::new(parts.alloc);
    for line in words.lines() {
        for word in line.split(' ') {
            add_steps(parts, word, &mut steps)?;
        }
    }
    Ok(steps)
}

// The limit that a row gives, or else the usual one.
fn limit(row: &Row, name: &str, usual: u32) -> Result<u32, TrialFault> {
    match row.option(name) {
        Some(value) => number(value),
        None => Ok(usual),
    }
}

/// Reads limits from the words of a row, as `links=1 feeds=1`.
pub fn limits(row: &Row) -> Result<Limits, TrialFault>
    ensures { IfOk result (λ limits. 1 ≤ limits.frame_addrs) }
{
    let usual = Limits::USUAL;
    let line = match row.option("line") {
        Some(value) => u64::from(number(value)?),
        None => usual.line,
    };
    Ok(Limits {
        line,
        objects: limit(row, "objects", usual.objects)?,
        subs: limit(row, "subs", usual.subs)?,
        links: limit(row, "links", usual.links)?,
        feeds: limit(row, "feeds", usual.feeds)?,
        frame_addrs: limit(row, "addrs", usual.frame_addrs)?.max(1),
        message: limit(row, "message", usual.message)?,
        input: usual.input,
        request: limit(row, "request", usual.request)?,
    })
}

/// The links after a script, and how the last turn ended.
#[derive(Drop)]
pub struct Played {
    pub links: MemLinks,
    pub last: Result<Turn, ServeFault>,
}

/// Plays a script for this number of turns, or until the server ends.
pub fn play(parts: &Parts, limits: &Limits, words: &str, turns: u32) -> Result<Played, TrialFault>
    requires { 1 ≤ limits.now.frame_addrs }
{
    let mut links = MemLinks::new(parts.alloc, script(parts, words)?);
    let mut server = Server::new(parts.alloc, Config::usual(parts.alloc)?, *limits)?;
    let mut last = Ok(Turn::Going);
    for _ in 0..turns {
        last = server.turn(&mut links, &mut SurePatterns);
        if last != Ok(Turn::Going) {
            break;
        }
    }
    Ok(Played { links, last })
}
