// Texts of rows.
use mesh_base::text::Text;
use row_file::TrialFault;
use std::alloc::Global;

// Appends a byte and what follows it.
fn push_with(bytes: &mut Vec<u8>, byte: u8, rest: &[u8]) -> Result<(), TrialFault> {
    bytes.push(byte)?;
    bytes.extend_from_slice(rest)?;
    Ok(())
}

// Returns the byte of two digits.
fn byte_of(alloc: Global, digits: [u8; 2]) -> Result<u8, TrialFault> {
    let bytes = hex::decode(alloc, &digits)?;
    Ok(bytes.first().copied().unwrap_or(b'?'))
}

// Appends the byte of an escape, and the text after it.
fn push_escape(alloc: Global, bytes: &mut Vec<u8>, piece: &[u8]) -> Result<(), TrialFault> {
    match piece {
        [b'n', rest @ ..] => push_with(bytes, b'\n', rest),
        [b'r', rest @ ..] => push_with(bytes, b'\r', rest),
        [b't', rest @ ..] => push_with(bytes, b'\t', rest),
        [b'x', high, low, rest @ ..] => push_with(bytes, byte_of(alloc, [*high, *low])?, rest),
        _ => Err(TrialFault::new("no escape is so")),
    }
}

/// Appends the bytes of a text with escapes.
pub fn push_bytes(alloc: Global, bytes: &mut Vec<u8>, text: &str) -> Result<(), TrialFault> {
    let mut is_plain = true;
    for piece in text.split('\\') {
        if is_plain {
            bytes.extend_from_slice(piece.as_bytes())?;
            is_plain = false;
        } else if piece.is_empty() {
            bytes.push(b'\\')?;
            is_plain = true;
        } else {
            push_escape(alloc, bytes, piece.as_bytes())?;
        }
    }
    Ok(())
}

/// Returns the bytes of a text with escapes.
pub fn bytes_of(alloc: Global, text: &str) -> Result<Vec<u8>, TrialFault> {
    let mut bytes = Vec::new(alloc);
    push_bytes(alloc, &mut bytes, text)?;
    Ok(bytes)
}

/// Splits words at spaces.
pub fn words_of(alloc: Global, words: &str) -> Result<Vec<Text>, TrialFault> {
    let mut texts = Vec::new(alloc);
    if words.is_empty() {
        return Ok(texts);
    }
    for word in words.split(' ') {
        texts.push(Text::from_str(alloc, word)?)?;
    }
    Ok(texts)
}

/// Appends what is on a screen: the text between two carriage returns in brackets.
pub fn push_shown(out: &mut String, screen: &[u8]) -> Result<(), TrialFault> {
    let shown = str::from_utf8(screen)?;
    if shown.is_empty() {
        return Ok(());
    }
    for piece in shown.strip_prefix('\r').unwrap_or(shown).split('\r') {
        write!(out, "[{piece}]\n")?;
    }
    Ok(())
}

/// Returns the number of a word, or none for an empty word.
pub fn number_of(word: &str) -> Result<Option<i32>, TrialFault> {
    if word.is_empty() {
        return Ok(None);
    }
    Ok(Some(word.parse::<i32>()?))
}
