// Scripts in words.
use mem_links::step::MemStep;
use mesh_base::list::List;
use row_file::TrialFault;
use std::alloc::Global;

/// A number in a word.
pub fn number(word: &str) -> Result<u32, TrialFault> {
    match word.parse() {
        Ok(number) => Ok(number),
        Err(_) => Err(TrialFault::new("a word has no number")),
    }
}

/// The link of a word, and what stands behind it.
pub fn link_and_rest(word: &str) -> Result<(u32, &str), TrialFault> {
    match word.split_once(':') {
        Some((link, rest)) => Ok((number(link)?, rest)),
        None => Ok((number(word)?, "")),
    }
}

fn bytes(alloc: Global, text: &str) -> Result<List<u8>, TrialFault> {
    let mut bytes = List::new(alloc);
    bytes.extend_from_slice(text.as_bytes())?;
    Ok(bytes)
}

// The step of a word, as `bytes:1:ab`.
fn step(alloc: Global, word: &str) -> Result<MemStep, TrialFault> {
    let Some((kind, of)) = word.split_once(':') else {
        return match word {
            "failpoll" => Ok(MemStep::FailPoll),
            "tick" => Ok(MemStep::Tick),
            _ => Err(TrialFault::new("no step has this word")),
        };
    };
    let (link, rest) = link_and_rest(of)?;
    match kind {
        "arrive" => Ok(MemStep::Arrive(link)),
        "bytes" => Ok(MemStep::Bytes(link, bytes(alloc, rest)?)),
        "end" => Ok(MemStep::End(link)),
        "room" => Ok(MemStep::Room(link, u64::from(number(rest)?))),
        "failread" => Ok(MemStep::FailRead(link)),
        "failwrite" => Ok(MemStep::FailWrite(link)),
        _ => Err(TrialFault::new("no step has this word")),
    }
}

// Appends the steps of a word. Those of `arrive:1-1024` are the arrivals of these links.
fn add_steps(alloc: Global, steps: &mut List<MemStep>, word: &str) -> Result<(), TrialFault> {
    if let Some((first, last)) = word.split_once('-') {
        let first = number(first.strip_prefix("arrive:").unwrap_or(""))?;
        for link in first..=number(last)? {
            steps.add(MemStep::Arrive(link))?;
        }
        return Ok(());
    }
    steps.add(step(alloc, word)?)?;
    Ok(())
}

/// The script of words with spaces between them.
pub fn script(alloc: Global, words: &str) -> Result<List<MemStep>, TrialFault> {
    let mut steps = List::new(alloc);
    for word in words.split(' ') {
        add_steps(alloc, &mut steps, word)?;
    }
    Ok(steps)
}
