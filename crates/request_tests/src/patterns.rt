use mesh_outside::{PatternFault, Patterns};
use regex_patterns::RegexPatterns;
use row_file::{Row, TrialFault};
use std::alloc::Global;

/// Whether the pattern of a line matches its text, asked so many times.
fn ask(
    alloc: Global,
    patterns: &mut RegexPatterns,
    line: &str,
    times: u32,
) -> Result<&'static str, TrialFault> {
    let line = line.replace(alloc, '¶', "\n")?;
    let (pattern, text) = line.split_once(" / ").unwrap_or((line.as_str(), ""));
    let mut all = None;
    for _ in 0..times {
        let answer = match patterns.whole(alloc, pattern, text) {
            Ok(true) => "yes",
            Ok(false) => "no",
            Err(PatternFault::Refused) => "refused",
            Err(PatternFault::Memory) => "no memory",
        };
        match all {
            Some(other) if other != answer => return Ok("another answer"),
            _ => all = Some(answer),
        }
    }
    Ok(all.unwrap_or("not asked"))
}

/// The answers to all lines.
fn round(
    alloc: Global,
    patterns: &mut RegexPatterns,
    lines: &str,
    times: u32,
) -> Result<String, TrialFault> {
    let mut answers = String::new(alloc);
    for line in lines.lines() {
        let answer = ask(alloc, patterns, line, times)?;
        write!(answers, "{answer}\n")?;
    }
    Ok(answers)
}

fn number_of(row: &Row, option: &str) -> Result<u32, TrialFault> {
    Ok(row.option(option).unwrap_or("1").parse::<u32>()?)
}

/// Writes the answers of the first round, and those of each other round where they differ.
pub fn patterns(alloc: Global, row: &Row, out: &mut String) -> Result<(), TrialFault> {
    let mut patterns = RegexPatterns::new(alloc);
    let times = number_of(row, "times")?;
    let first = round(alloc, &mut patterns, row.input.as_str(), times)?;
    out.push_str(first.as_str())?;
    for _ in 1..number_of(row, "rounds")? {
        let next = round(alloc, &mut patterns, row.input.as_str(), times)?;
        if next.as_str() != first.as_str() {
            out.push_str(next.as_str())?;
        }
    }
    let count = patterns.count;
    write!(out, "{count} refused\n")?;
    Ok(())
}
