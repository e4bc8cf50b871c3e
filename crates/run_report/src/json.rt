// Reads tokens from the start of JSON that may be incomplete. An incomplete token is not read.
ghost use Rattle.std.specs.Prelude.{◌<◌, length, IfSome};

fn is_space(byte: u8) -> bool {
    byte == b' ' || byte == b'\t' || byte == b'\r'
}

// Returns the bytes after white space.
pub(crate) fn after_space<'a>(bytes: &'a [u8]) -> &'a [u8] {
    for at in 0..bytes.len() {
        if !is_space(bytes[at]) {
            return &bytes[at..];
        }
    }
    b""
}

// Returns the bytes after this byte, if it is the next one after white space.
pub(crate) fn eat<'a>(bytes: &'a [u8], byte: u8) -> Option<&'a [u8]> {
    let (first, after) = after_space(bytes).split_first()?;
    if *first == byte { Some(after) } else { None }
}

// Returns the length of a string up to its closing quote. An escaped quote does not close it.
fn string_len(bytes: &[u8]) -> Option<usize>
    ensures { IfSome result (λ n. n < length bytes.now) }
{
    let mut is_escaped = false;
    for at in 0..bytes.len() {
        let byte = bytes[at];
        if byte == b'"' && !is_escaped {
            return Some(at);
        }
        is_escaped = byte == b'\\' && !is_escaped;
    }
    None
}

// Returns a string as it is between its quotes, and the bytes after it.
pub(crate) fn string<'a>(bytes: &'a [u8]) -> Option<(&'a [u8], &'a [u8])> {
    let inside = eat(bytes, b'"')?;
    let len = string_len(inside)?;
    Some((&inside[..len], &inside[len + 1..]))
}

// Returns the name of a member, and the bytes after its colon.
pub(crate) fn key<'a>(bytes: &'a [u8]) -> Option<(&'a [u8], &'a [u8])> {
    let (name, after) = string(bytes)?;
    Some((name, eat(after, b':')?))
}

// Returns the bytes after a number, `true`, `false` or `null`, from the comma or the brace on.
pub(crate) fn after_scalar<'a>(bytes: &'a [u8]) -> Option<&'a [u8]> {
    for at in 0..bytes.len() {
        if bytes[at] == b',' || bytes[at] == b'}' {
            return Some(&bytes[at..]);
        }
    }
    None
}

// Returns the bytes after an empty array, if one is next.
pub(crate) fn after_empty_list<'a>(bytes: &'a [u8]) -> Option<&'a [u8]> {
    eat(eat(bytes, b'[')?, b']')
}

// Returns the bytes after a comma, which may follow up to two closing braces.
pub(crate) fn next_member<'a>(bytes: &'a [u8]) -> Option<&'a [u8]> {
    let once = eat(bytes, b'}').unwrap_or(bytes);
    let twice = eat(once, b'}').unwrap_or(once);
    eat(twice, b',')
}
