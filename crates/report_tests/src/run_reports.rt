// Reports of runs.
use crate::tally::{read_in_pieces, write_in_parts, write_in_pieces};
use crate::texts::{number_of, push_bytes, words_of};
use line_run::Status;
use mesh_base::key::Kind;
use row_file::TrialFault;
use run_report::{CommandLine, HeldObjects, InputCounts, Report, Run};
use std::alloc::Global;
use std::io;
use std::time::Duration;

// A run of a command, with what it read and wrote.
#[derive(Drop)]
struct Case<'a> {
    words: &'a str,
    status: Status,
    input: Vec<u8>,
    output: Vec<u8>,
    held: HeldObjects,
    is_terminal: bool,
}

fn status_of(name: &str) -> Result<Status, TrialFault> {
    Ok(match name {
        "Done" => Status::Done,
        "SomeRefused" => Status::SomeRefused,
        "Usage" => Status::Usage,
        "Memory" => Status::Memory,
        "ReadFault" => Status::ReadFault,
        "WriteFault" => Status::WriteFault,
        "InputTooLong" => Status::InputTooLong,
        _ => return Err(TrialFault::new("no status has this name")),
    })
}

fn kind_of(name: &str) -> Result<Kind, TrialFault> {
    Ok(match name {
        "Pod" => Kind::Pod,
        "Service" => Kind::Service,
        "GatewayRoute" => Kind::GatewayRoute,
        _ => return Err(TrialFault::new("no kind has this name")),
    })
}

// Reads a setting of a case.
fn set(case: &mut Case<'_>, setting: &str) -> Result<(), TrialFault> {
    match setting.split_once('=') {
        Some(("status", name)) => case.status = status_of(name)?,
        Some(("held", kinds)) => {
            for kind in kinds.split(',') {
                case.held.add(kind_of(kind)?);
            }
        }
        None if setting == "terminal" => case.is_terminal = true,
        None if setting.is_empty() => {}
        _ => return Err(TrialFault::new("no setting has this name")),
    }
    Ok(())
}

// Reads a line of the input of a row.
fn add(alloc: Global, case: &mut Case<'_>, line: &str) -> Result<(), TrialFault> {
    match line.split_once(' ') {
        Some(("input", text)) => push_bytes(alloc, &mut case.input, text),
        Some(("output", text)) => push_bytes(alloc, &mut case.output, text),
        Some(("times", rest)) => {
            let (count, text) = rest.split_once(' ').unwrap_or((rest, ""));
            for _ in 0..count.parse::<u32>()? {
                push_bytes(alloc, &mut case.input, text)?;
            }
            Ok(())
        }
        _ => Err(TrialFault::new("a line is no input and no output")),
    }
}

// Returns the case of the words and the input of a row.
fn case_of<'a>(alloc: Global, words: &'a str, input: &str) -> Result<Case<'a>, TrialFault> {
    let (settings, words) = match words.strip_prefix("| ") {
        Some(words) => ("", words),
        None => words.split_once(" | ").unwrap_or(("", words)),
    };
    let mut case = Case {
        words,
        status: Status::Done,
        input: Vec::new(alloc),
        output: Vec::new(alloc),
        held: HeldObjects::NONE,
        is_terminal: false,
    };
    for setting in settings.split(' ') {
        set(&mut case, setting)?;
    }
    for line in input.split_terminator('\n') {
        add(alloc, &mut case, line)?;
    }
    Ok(case)
}

// Appends what standard error is told of a run that was read and written in pieces of this size.
fn report_text(
    alloc: Global,
    case: &Case<'_>,
    size: usize,
    is_terminal: bool,
) -> Result<String, TrialFault> {
    let mut input = read_in_pieces(alloc, case.input.as_slice(), size)?;
    let output = write_in_pieces(alloc, str::from_utf8(case.output.as_slice())?, size);
    let words = words_of(alloc, case.words)?;
    let Some(command_line) = CommandLine::of(&words) else {
        return Err(TrialFault::new("the words are no command"));
    };
    let read = input.end();
    let report = Report {
        status: case.status,
        error: None,
        run: Some(Run {
            command_line,
            read,
            feed: &input.feed,
            written: output.counts,
            output: &output.notes,
            held: case.held,
            elapsed: Some(Duration::from_millis(61_079)),
        }),
        is_terminal,
    };
    Ok(format!(in alloc; "{report}")?)
}

// Appends a text, and behind a heading what another text that begins with it has besides.
fn push_both(out: &mut String, text: &str, heading: &str, more: &str) -> Result<(), TrialFault> {
    match more.strip_prefix(text) {
        Some(rest) => write!(out, "{text}{heading} also:\n{rest}")?,
        None => write!(out, "{text}{heading} instead:\n{more}")?,
    }
    Ok(())
}

// Appends the report of a run in pieces of this size.
fn push_sized(
    alloc: Global,
    case: &Case<'_>,
    size: usize,
    out: &mut String,
) -> Result<(), TrialFault> {
    let text = report_text(alloc, case, size, false)?;
    if case.is_terminal {
        let full = report_text(alloc, case, size, true)?;
        push_both(out, text.as_str(), "on a terminal", full.as_str())?;
    } else {
        out.push_str(text.as_str())?;
    }
    let output = str::from_utf8(case.output.as_slice())?;
    let parts = write_in_parts(alloc, output, size);
    let whole = write_in_pieces(alloc, output, 9);
    if parts.counts.refused() != whole.counts.refused()
        || parts.counts.frames() != whole.counts.frames()
        || parts.notes.verdicts != whole.notes.verdicts
    {
        out.push_str("other counts if a sink accepts a part at a time\n")?;
    }
    Ok(())
}

/// Appends the report of a run, once if it is the same in pieces of each size.
pub fn push_report(
    alloc: Global,
    words: &str,
    input: &str,
    out: &mut String,
) -> Result<(), TrialFault> {
    let case = case_of(alloc, words, input)?;
    let mut first = String::new(alloc);
    push_sized(alloc, &case, 1, &mut first)?;
    out.push_str(first.as_str())?;
    for size in 2..10 {
        let mut text = String::new(alloc);
        push_sized(alloc, &case, size, &mut text)?;
        if text.as_str() != first.as_str() {
            write!(out, "in pieces of {size}:\n{text}")?;
        }
    }
    Ok(())
}

/// Appends the report of a failure before a run, and what it says besides after a run.
pub fn push_cause(alloc: Global, words: &str, out: &mut String) -> Result<(), TrialFault> {
    let (name, code) = words.split_once(' ').unwrap_or((words, ""));
    let status = status_of(name)?;
    let error = number_of(code)?.map(io::Error::from_raw_os_error);
    let early = Report {
        status,
        error,
        run: None,
        is_terminal: true,
    };
    let text = format!(in alloc; "{early}")?;
    let words = words_of(alloc, "sample 5")?;
    let Some(command_line) = CommandLine::of(&words) else {
        return Err(TrialFault::new("the words are no command"));
    };
    let input = read_in_pieces(alloc, b"", 1)?;
    let output = write_in_pieces(
        alloc,
        "sample 5 lines 38 refused 0 frames 11 bytes 600 verdicts 2\n",
        9,
    );
    let late = Report {
        status,
        error,
        run: Some(Run {
            command_line,
            read: InputCounts::NONE,
            feed: &input.feed,
            written: output.counts,
            output: &output.notes,
            held: HeldObjects::NONE,
            elapsed: Some(Duration::from_millis(840)),
        }),
        is_terminal: true,
    };
    let full = format!(in alloc; "{late}")?;
    push_both(out, text.as_str(), "after a run", full.as_str())
}

/// Appends the counts of objects of these kinds.
pub fn push_held(alloc: Global, kinds: &str, out: &mut String) -> Result<(), TrialFault> {
    let mut held = HeldObjects::NONE;
    for kind in kinds.split_terminator('\n') {
        held.add(kind_of(kind)?);
    }
    let text = format!(in alloc; "{held}")?;
    let total = held.total();
    write!(out, "{text}\n{total} in all\n")?;
    Ok(())
}
