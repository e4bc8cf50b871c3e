// What a terminal shows while a command reads and writes.
use crate::tally::Ticks;
use crate::texts::{bytes_of, push_shown};
use mesh_outside::{MemSource, Sink, Source, SureSink};
use row_file::TrialFault;
use run_report::{Command, ErrorKeeper, InputTally, LastError, OutputTally, Progress, StartTime};
use std::alloc::Global;
use std::io;
use std::io::{Read, Write};

/// Appends what is shown while so many parts of 4,149,999 bytes are read.
pub fn push_progress(alloc: Global, words: &str, out: &mut String) -> Result<(), TrialFault> {
    let ticks = Ticks::new();
    let start = StartTime::now(&ticks);
    let mut progress = Progress::new(&ticks, start, Command::Replay, Vec::new(alloc));
    for read in 0..words.parse::<u16>()? {
        progress.show((u64::from(read) + 1) * 4_149_999);
    }
    progress.clear();
    push_shown(out, progress.screen.as_slice())
}

/// Appends what is shown while so many bytes of a source are read one by one.
pub fn push_source_progress(
    alloc: Global,
    words: &str,
    out: &mut String,
) -> Result<(), TrialFault> {
    let ticks = Ticks::new();
    let start = StartTime::now(&ticks);
    let progress = Progress::new(&ticks, start, Command::Fold, Vec::new(alloc));
    let count = words.parse::<u16>()?;
    let source = MemSource::of(alloc, vec![in alloc; b'x'; usize::from(count)]?);
    let mut tally = InputTally::new(alloc, source, Some(progress));
    let mut buf = [0];
    for _ in 0..count {
        if tally.read(&mut buf) != Ok(1) {
            out.push_str("no byte is read\n")?;
        }
    }
    let read = tally.end().bytes;
    write!(out, "{read} bytes\n")?;
    match &tally.progress {
        Some(progress) => push_shown(out, progress.screen.as_slice()),
        None => Ok(()),
    }
}

/// Appends what is shown on the screen that the pieces are written to.
pub fn push_screen(alloc: Global, pieces: &str, out: &mut String) -> Result<(), TrialFault> {
    let sink = SureSink {
        bytes: Vec::new(alloc),
    };
    let mut tally = OutputTally::new(alloc, sink, Some(Vec::new(alloc)));
    for piece in pieces.split_terminator('\n') {
        let bytes = bytes_of(alloc, piece)?;
        let _ = tally.write(bytes.as_slice());
    }
    match &tally.screen {
        Some(screen) => push_shown(out, screen.as_slice()),
        None => Ok(()),
    }
}

// A reader that is a directory, and a writer on a full disk.
#[derive(Drop)]
struct Broken;

impl Read for Broken {
    fn read(&mut self, _buf: &mut [u8]) -> io::Result<usize> {
        Err(io::Error::from_raw_os_error(21))
    }
}

impl Write for Broken {
    fn write(&mut self, _buf: &[u8]) -> io::Result<usize> {
        Err(io::Error::from_raw_os_error(28))
    }

    fn flush(&mut self) -> io::Result<()> {
        Ok(())
    }
}

fn push_last(out: &mut String, last: &LastError) -> Result<(), TrialFault> {
    match last.get().and_then(|error| error.raw_os_error()) {
        Some(code) => write!(out, "error {code}\n")?,
        None => out.push_str("none\n")?,
    }
    Ok(())
}

/// Appends the last error at first, after a read and after a write, which fail.
pub fn push_last_errors(out: &mut String) -> Result<(), TrialFault> {
    let last = LastError::new(None);
    let mut keeper = ErrorKeeper::new(Broken, &last);
    push_last(out, &last)?;
    let mut buf = [0];
    if keeper.read(&mut buf).is_err() {
        push_last(out, &last)?;
    }
    if keeper.write(b"frame 1 00\n").is_err() {
        push_last(out, &last)?;
    }
    Ok(())
}
