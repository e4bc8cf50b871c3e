use mesh_base::copied::Copied;
use mesh_base::memory::Memory;
use mesh_base::text::{OwnedText, Text};
use row_file::TrialFault;
use std::alloc::Global;

// As what has texts in it copies them.
fn copied<T: Copied>(alloc: Global, value: &T) -> Result<T, Memory> {
    value.copy(alloc)
}

/// The copies of a text, where the source is gone.
pub fn copies(alloc: Global, text: &str) -> Result<String, TrialFault> {
    let text = Text::from_str(alloc, text)?;
    let first = text.copy()?;
    let second = copied(alloc, &text)?;
    if first != text || second != text {
        return Err(TrialFault::new("a copy is another"));
    }
    drop(text);
    let (first, second) = (first.as_str(), second.as_str());
    Ok(format!(in alloc; "{first} {second}")?)
}

/// Makes so many copies of a text of a mebibyte. No clause says that they share its bytes.
pub fn many_copies(alloc: Global, count: &str) -> Result<String, TrialFault> {
    let text = Text::from_string("x".repeat(alloc, 1 << 20)?)?;
    let mut copies = Vec::new(alloc);
    for _ in 0..count.parse::<u32>()? {
        copies.push(text.copy()?)?;
    }
    let (count, length) = (copies.len(), text.as_str().len());
    Ok(format!(in alloc; "{count} copies of {length} bytes")?)
}

/// The texts that are made of a string.
pub fn strings(alloc: Global, text: &str) -> Result<String, TrialFault> {
    let shared = Text::from_string(String::from_str(alloc, text)?)?;
    let owned = OwnedText::from_string(String::from_str(alloc, text)?);
    let (shared, owned) = (shared.as_str(), owned.as_str());
    Ok(format!(in alloc; "{shared} {owned}")?)
}
