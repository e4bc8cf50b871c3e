use crate::names::slice;
use endpoint_rows::rows::EndpointRows;
use mesh_base::labels::Labels;
use mesh_base::list::List;
use mesh_base::memory::Memory;
use mesh_base::text::Text;
use net_cidr::ip::Ip;
use row_file::TrialFault;
use std::alloc::Global;
use view_types::endpoint::EndpointRow;

fn labels(alloc: Global, label: &str) -> Result<Labels, Memory> {
    let mut labels = Labels::new(alloc);
    if !label.is_empty() {
        labels.put(Text::from_str(alloc, "app")?, Text::from_str(alloc, label)?)?;
    }
    Ok(labels)
}

fn digit(word: &str, at: usize) -> Result<u32, TrialFault> {
    match word.as_bytes().get(at) {
        Some(byte) if byte.is_ascii_digit() => Ok(u32::from(*byte - b'0')),
        _ => Err(TrialFault::new("a row lacks a digit")),
    }
}

fn label_of(word: &str) -> &str {
    match word.get(2..) {
        Some(label) => label,
        None => "",
    }
}

fn row(alloc: Global, word: &str) -> Result<EndpointRow, TrialFault> {
    Ok(EndpointRow {
        ip: Ip::V4(digit(word, 0)?),
        port: 80,
        weight: digit(word, 1)?,
        labels: labels(alloc, label_of(word))?,
        identity: None,
        tunnel: None,
        h2: false,
    })
}

fn rows(alloc: Global, words: &str) -> Result<List<EndpointRow>, TrialFault> {
    let mut all = List::new(alloc);
    for word in words.split(' ') {
        all.add(row(alloc, word)?)?;
    }
    Ok(all)
}

fn step(alloc: Global, kept: &mut EndpointRows, step: &str) -> Result<(), TrialFault> {
    if step == "restart" {
        kept.restart(true)?;
    } else if let Some(name) = step.strip_prefix("take ") {
        kept.take_slice(&slice(alloc, name)?)?;
    } else if let Some((name, words)) = put_of(step) {
        kept.put_slice(slice(alloc, name)?, rows(alloc, words)?)?;
    } else {
        return Err(TrialFault::new("no step is written so"));
    }
    Ok(())
}

fn put_of(step: &str) -> Option<(&str, &str)> {
    step.strip_prefix("put ")?.split_once(' ')
}

fn push_row(all: &mut String, row: &EndpointRow) -> Result<(), TrialFault> {
    let label = match row.labels.get(b"app") {
        Some(value) => value.as_str(),
        None => "",
    };
    if let Ip::V4(ip) = row.ip {
        let weight = row.weight;
        write!(all, "{ip}{weight}{label}")?;
    }
    Ok(())
}

fn push_note(all: &mut String, note: &(Ip, u16, Option<EndpointRow>)) -> Result<(), TrialFault> {
    if let Ip::V4(ip) = note.0 {
        write!(all, " {ip} was ")?;
    }
    match &note.2 {
        Some(row) => push_row(all, row),
        None => Ok(all.push_str("none")?),
    }
}

/// Makes steps, as `take a; put b 19`, and writes the rows that are shown, with what stood where
/// they differ from those shown before. A row is its address, its weight, and its label if it has
/// one, each a single character.
pub(crate) fn push_slices(
    alloc: Global,
    kept: &mut EndpointRows,
    steps: &str,
    out: &mut String,
) -> Result<(), TrialFault> {
    for words in steps.split("; ") {
        step(alloc, kept, words)?;
    }
    kept.settle()?;
    let mut before = "";
    for row in kept.view().rows.as_slice() {
        out.push_str(before)?;
        push_row(out, row)?;
        before = " ";
    }
    out.push_str(",")?;
    for note in kept.before() {
        push_note(out, note)?;
    }
    Ok(out.push_str("\n")?)
}
