// What scripts show, and what calls return.
use crate::calls::{answers, told};
use crate::scripts::{number, script};
use mem_links::mem::MemLinks;
use mem_links::sure::SureLinks;
use mesh_links::call::LinkCall;
use mesh_links::links::Links;
use row_file::{Row, Trial, TrialFault};
use std::alloc::Global;

/// The rows of scripts.
#[derive(Drop)]
pub struct Scripts;

impl Trial for Scripts {
    fn run(&mut self, alloc: Global, row: &Row, out: &mut String) -> Result<(), TrialFault> {
        match row.call() {
            ("play", _) => play(alloc, row, out),
            ("sure", _) => play_sure(alloc, row, out),
            ("polls", count) => push_polls(alloc, row, count, out),
            _ => Err(TrialFault::new("no call has this word")),
        }
    }
}

// The script and the calls of a row.
fn parts(row: &Row) -> Result<(&str, &str), TrialFault> {
    match row.input.as_str().split_once('\n') {
        Some((script, calls)) => Ok((script, calls.trim_end())),
        None => Err(TrialFault::new("a row has no script")),
    }
}

fn play(alloc: Global, row: &Row, out: &mut String) -> Result<(), TrialFault> {
    let (words, calls) = parts(row)?;
    let mut links = MemLinks::new(alloc, script(alloc, words)?);
    let answers = answers(alloc, &mut links, calls)?;
    push_told(alloc, links.trace(), answers.as_str(), out)
}

fn play_sure(alloc: Global, row: &Row, out: &mut String) -> Result<(), TrialFault> {
    let (words, calls) = parts(row)?;
    let mut links = SureLinks::new(alloc, script(alloc, words)?);
    let answers = answers(alloc, &mut links, calls)?;
    push_told(alloc, links.trace(), answers.as_str(), out)
}

fn push_told(
    alloc: Global,
    trace: &[LinkCall],
    answers: &str,
    out: &mut String,
) -> Result<(), TrialFault> {
    let told = told(alloc, trace)?;
    writeln!(out, "{told}")?;
    let returned = without_closes(alloc, told.as_str())?;
    if answers != returned.as_str() {
        writeln!(out, "returned: {answers}")?;
    }
    Ok(())
}

// The words of a trace without those of closes.
fn without_closes(alloc: Global, words: &str) -> Result<String, TrialFault> {
    let mut all = String::new(alloc);
    for word in words.split(' ') {
        if word != "closed" {
            let before = if all.is_empty() { "" } else { " " };
            write!(all, "{before}{word}")?;
        }
    }
    Ok(all)
}

fn push_polls(alloc: Global, row: &Row, count: &str, out: &mut String) -> Result<(), TrialFault> {
    let mut links = MemLinks::new(alloc, script(alloc, row.input.as_str().trim_end())?);
    let (count, wait) = match count.split_once(' ') {
        Some((count, word)) => (number(count)?, word == "wait"),
        None => (number(count)?, false),
    };
    writeln!(out, "faults {}", links.faults)?;
    for _ in 0..count {
        push_poll(&mut links, wait, out)?;
    }
    writeln!(out, "steps {}", links.script.len())?;
    Ok(())
}

fn push_poll(links: &mut MemLinks, wait: bool, out: &mut String) -> Result<(), TrialFault> {
    match links.poll(wait) {
        Ok(events) => write!(out, "events {}, ", events.len())?,
        Err(_) => write!(out, "failed, ")?,
    }
    writeln!(out, "faults {}", links.faults)?;
    Ok(())
}
