ghost use Rattle.std.specs.Prelude.{◌≡◌, not};
ghost use Rattle.std.specs.List.{list_any};
ghost use Rattle.k8s_meta.specs.Scalars.{is_label_byte, is_made_of, is_name, is_name_byte};

#[tactic(auto, unfolding(crate::specs::Scalars::is_label_byte))]
fn is_label_byte(byte: u8) -> bool
    ensures { result ≡ is_label_byte byte }
{
    matches!(byte, b'a'..=b'z' | b'0'..=b'9' | b'-')
}

#[tactic(auto, unfolding(crate::specs::Scalars::is_name_byte))]
fn is_name_byte(byte: u8) -> bool
    ensures { result ≡ is_name_byte byte }
{
    is_label_byte(byte) || byte == b'.'
}

fn has_other_byte(text: &[u8]) -> bool
    ensures { result ≡ list_any (λ b. not (is_name_byte b)) text.now }
{
    text.iter().any(|b| !is_name_byte(*b))
}

fn has_byte_of_no_label(text: &[u8]) -> bool
    ensures { result ≡ list_any (λ b. not (is_label_byte b)) text.now }
{
    text.iter().any(|b| !is_label_byte(*b))
}

/// Whether a string has 1 to `most` bytes, each of `a-z`, `0-9`, `-` and `.`.
pub fn is_name_within(text: &[u8], most: usize) -> bool
    ensures { result ≡ is_made_of is_name_byte most text.now }
{
    if text.is_empty() {
        return false;
    }
    if text.len() > most {
        return false;
    }
    !has_other_byte(text)
}

/// Whether a string has 1 to `most` bytes, each of `a-z`, `0-9` and `-`.
pub fn is_label_within(text: &[u8], most: usize) -> bool
    ensures { result ≡ is_made_of is_label_byte most text.now }
{
    if text.is_empty() {
        return false;
    }
    if text.len() > most {
        return false;
    }
    !has_byte_of_no_label(text)
}

/// Whether a string is the name of an object: 1 to 253 bytes of `a-z`, `0-9`, `-` and `.`.
#[tactic(auto, unfolding(crate::specs::Scalars::is_name))]
pub fn is_name(text: &[u8]) -> bool
    ensures { result ≡ is_name text.now }
{
    is_name_within(text, 253)
}
