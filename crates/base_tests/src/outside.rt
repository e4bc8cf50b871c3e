use line_run::Cutter;
use mesh_outside::{
    MemPatterns, MemSink, Patterns, ReadSource, Sink, Source, SurePatterns, SureSink, SureSource,
    WriteSink,
};
use row_file::TrialFault;
use std::alloc::Global;

/// Writes the input to a sink, and the result and what the sink holds.
pub fn sink(alloc: Global, kind: &str, input: &str, out: &mut String) -> Result<(), TrialFault> {
    let piece = input.trim().as_bytes();
    let (result, held) = match kind {
        "mem" => {
            let mut sink = MemSink::new(alloc);
            let result = sink.write(piece);
            (result, sink.bytes)
        }
        "writer" => {
            let mut held = Vec::new(alloc);
            let result = WriteSink::new(&mut held).write(piece);
            (result, held)
        }
        _ => {
            let mut sink = SureSink {
                bytes: Vec::new(alloc),
            };
            let result = sink.write(piece);
            (result, sink.bytes)
        }
    };
    let held = str::from_utf8(&held)?;
    write!(out, "{result:?} {held}\n")?;
    Ok(())
}

/// Reads three times, and writes the results and the bytes of each.
fn read<S: Source>(source: &mut S, out: &mut String) -> Result<(), TrialFault> {
    for _ in 0..3 {
        let mut buffer = [0; 3];
        let result = source.read(&mut buffer);
        let count = match &result {
            Ok(count) => *count,
            Err(_) => 0,
        };
        let text = str::from_utf8(buffer.get(..count).unwrap_or(b""))?;
        write!(out, "{result:?} {text}\n")?;
    }
    Ok(())
}

/// Reads the input from a source, in pieces of at most three bytes.
pub fn source(kind: &str, input: &str, out: &mut String) -> Result<(), TrialFault> {
    let bytes = input.trim().as_bytes();
    if kind == "reader" {
        return read(&mut ReadSource::new(bytes), out);
    }
    read(&mut SureSource { bytes }, out)
}

/// Asks for each line whether its first word as a pattern matches its second.
fn ask<P: Patterns>(
    alloc: Global,
    patterns: &mut P,
    input: &str,
    out: &mut String,
) -> Result<(), TrialFault> {
    for line in input.lines() {
        let (pattern, text) = line.split_once(' ').unwrap_or((line, ""));
        let result = patterns.whole(alloc, pattern, text);
        write!(out, "{result:?}\n")?;
    }
    Ok(())
}

pub fn patterns(
    alloc: Global,
    kind: &str,
    input: &str,
    out: &mut String,
) -> Result<(), TrialFault> {
    if kind == "mem" {
        return ask(alloc, &mut MemPatterns::new(alloc), input, out);
    }
    ask(alloc, &mut SurePatterns, input, out)
}

// A cutter alone, as a session uses it. The first line comes in two pieces, and the second is
// longer than the limit.
pub fn cutter(alloc: Global, out: &mut String) -> Result<(), TrialFault> {
    let mut cutter = Cutter::new(alloc);
    let rest = cutter.take(4, b"ab")?;
    let has_last = cutter.has_last();
    write!(out, "ab: rest {rest:?}, has a last line: {has_last}\n")?;
    let rest = cutter.take(4, b"cd\ne")?;
    let row = cutter.row(4) == Some(b"abcd".as_slice());
    write!(out, "cd, line feed, e: rest {rest:?}, line abcd: {row}\n")?;
    cutter.clear();
    let rest = cutter.take(4, b"12345\n")?;
    let row = cutter.row(4).is_some();
    write!(out, "12345, line feed: rest {rest:?}, line: {row}\n")?;
    cutter.clear();
    let has_last = cutter.has_last();
    write!(out, "nothing: has a last line: {has_last}\n")?;
    Ok(())
}
