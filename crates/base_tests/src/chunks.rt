use chunked_list::list::ChunkedList;
use row_file::TrialFault;
use std::alloc::Global;
use std::mem;

// More than two full chunks. Numbers below it come in an order of their own, by steps of 7.
const COUNT: usize = 1_500;

fn find(list: &ChunkedList<usize>, number: usize) -> Result<usize, usize> {
    list.binary_search_by(|item: &usize| item.cmp(&number))
}

/// Inserts 0 to COUNT, each at the place that a search finds, and returns how many it inserted.
fn fill(alloc: Global, list: &mut ChunkedList<usize>) -> Result<usize, TrialFault> {
    let mut count = 0usize;
    for step in 0..COUNT {
        let number = step * 7 % COUNT;
        match find(list, number) {
            Err(at) if at <= list.len() => list.insert(alloc, at, number)?,
            _ => return Err(TrialFault::new("a number is there already")),
        }
        count = count.saturating_add(1);
    }
    Ok(count)
}

/// How many items are what they are to be, and are found where they are.
fn right_items(list: &ChunkedList<usize>, first: usize, step: usize) -> usize {
    let mut count = 0usize;
    for at in 0..list.len() {
        let number = first.saturating_add(step.saturating_mul(at));
        if list.get(at).copied() == Some(number) && find(list, number) == Ok(at) {
            count = count.saturating_add(1);
        }
    }
    count
}

/// Removes every second item, and returns how many were those that they are to be.
fn remove_every_second(list: &mut ChunkedList<usize>) -> usize {
    let mut count = 0usize;
    for at in 0..COUNT / 2 {
        if list.remove(at) == Some(2 * at) {
            count = count.saturating_add(1);
        }
    }
    count
}

/// Makes a list of the vector of 0 to a number.
fn from_vec(alloc: Global, length: usize) -> Result<ChunkedList<usize>, TrialFault> {
    let mut items = Vec::new(alloc);
    for number in 0..length {
        items.push(number)?;
    }
    Ok(ChunkedList::from_vec(alloc, items)?)
}

/// Makes a vector of the list, and writes how many items are their own places.
fn into_vec(alloc: Global, list: ChunkedList<usize>, out: &mut String) -> Result<(), TrialFault> {
    let items = list.into_vec(alloc)?;
    let length = items.len();
    let mut right = 0usize;
    for (at, item) in items.iter().enumerate() {
        if at == *item {
            right = right.saturating_add(1);
        }
    }
    write!(out, "{right} of {length} as given\n")?;
    Ok(())
}

/// Makes the call of a line, which is a word and up to two numbers.
fn step(
    alloc: Global,
    list: &mut ChunkedList<usize>,
    line: &str,
    out: &mut String,
) -> Result<(), TrialFault> {
    let mut words = line.split(' ');
    let call = words.next().unwrap_or("");
    let at = words.next().unwrap_or("0").parse::<usize>()?;
    let item = words.next().unwrap_or("0").parse::<usize>()?;
    match call {
        "fill" => write!(out, "{} inserted\n", fill(alloc, list)?)?,
        "items" => write!(out, "{} as said\n", right_items(list, at, item))?,
        "remove_every_second" => write!(out, "{} removed\n", remove_every_second(list))?,
        "from_vec" => *list = from_vec(alloc, at)?,
        "into_vec" => into_vec(alloc, mem::replace(list, ChunkedList::new(alloc)), out)?,
        "insert" if at <= list.len() => list.insert(alloc, at, item)?,
        "remove_first" => {
            for _ in 0..at {
                list.remove(0);
            }
        }
        "len" => write!(out, "{}\n", list.len())?,
        "get" => write!(out, "{:?}\n", list.get(at).copied())?,
        "find" => write!(out, "{:?}\n", find(list, at))?,
        "remove" => write!(out, "{:?}\n", list.remove(at))?,
        "replace" => write!(out, "{:?}\n", list.replace(at, item))?,
        _ => return Err(TrialFault::new("no call has this name")),
    }
    Ok(())
}

/// Makes the call of each line on a list.
pub fn list(alloc: Global, input: &str, out: &mut String) -> Result<(), TrialFault> {
    let mut list = ChunkedList::new(alloc);
    for line in input.lines() {
        step(alloc, &mut list, line, out)?;
    }
    Ok(())
}
