use chunked_map::map::ChunkedMap;
use row_file::TrialFault;
use std::alloc::Global;

// More than two full chunks. Keys below it come in an order of their own, by steps of 7.
const COUNT: u64 = 1_500;

/// Inserts a value for each key below COUNT, and returns how many keys had none.
fn fill(map: &mut ChunkedMap<u64, u64>) -> Result<usize, TrialFault> {
    let mut count = 0usize;
    for step in 0..COUNT {
        let key = step * 7 % COUNT;
        if map.insert(key, step)?.is_none() {
            count = count.saturating_add(1);
        }
    }
    Ok(count)
}

/// Removes each key below COUNT, and returns how many were there before and not after.
fn remove_all(map: &mut ChunkedMap<u64, u64>) -> usize {
    let mut count = 0usize;
    for key in 0..COUNT {
        let was = map.contains_key(&key);
        if was && map.remove(&key).is_some() && !map.contains_key(&key) {
            count = count.saturating_add(1);
        }
    }
    count
}

/// Makes the call of a line, which is a word and up to two numbers.
fn step(map: &mut ChunkedMap<u64, u64>, line: &str, out: &mut String) -> Result<(), TrialFault> {
    let mut words = line.split(' ');
    let call = words.next().unwrap_or("");
    let key = words.next().unwrap_or("0").parse::<u64>()?;
    let value = words.next().unwrap_or("0").parse::<u64>()?;
    match call {
        "fill" => write!(out, "{} inserted\n", fill(map)?)?,
        "remove_all" => write!(out, "{} removed\n", remove_all(map))?,
        "first" => write!(out, "{:?}\n", map.first_key_value())?,
        "insert" => write!(out, "{:?}\n", map.insert(key, value)?)?,
        "get" => write!(out, "{:?}\n", map.get(&key).copied())?,
        "set" => {
            if let Some(held) = map.get_mut(&key) {
                *held = value;
            }
        }
        "remove" => write!(out, "{:?}\n", map.remove(&key))?,
        "len" => write!(out, "{}\n", map.len())?,
        "is_empty" => write!(out, "{}\n", map.is_empty())?,
        _ => return Err(TrialFault::new("no call has this name")),
    }
    Ok(())
}

/// Makes the call of each line on a map.
pub fn map(alloc: Global, input: &str, out: &mut String) -> Result<(), TrialFault> {
    let mut map = ChunkedMap::new(alloc);
    for line in input.lines() {
        step(&mut map, line, out)?;
    }
    Ok(())
}
