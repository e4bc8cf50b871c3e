use crate::show::{Page, Show};
use mesh_base::copied::Copied;
use row_file::TrialFault;
use std::alloc::Global;

/// The text of a value.
pub fn text_of<T: Show>(alloc: Global, value: &T) -> Result<String, TrialFault> {
    let mut page = Page::new(alloc);
    value.show(&mut page);
    Ok(page.into_text()?)
}

/// The text of a value, and that of its copy if it is another.
pub fn told<T: Copied + Show>(alloc: Global, value: &T) -> Result<String, TrialFault> {
    let mut text = text_of(alloc, value)?;
    let copied = text_of(alloc, &value.copy(alloc)?)?;
    if copied.as_str() != text.as_str() {
        text.push_str(" copied: ")?;
        text.push_str(copied.as_str())?;
    }
    Ok(text)
}

pub fn put_line(out: &mut String, text: &str) -> Result<(), TrialFault> {
    out.push_str(text)?;
    out.push('\n')?;
    Ok(())
}

/// Puts the text of a struct, with a line for each field and for each item of a list in it.
pub fn put_lines(out: &mut String, text: &str) -> Result<(), TrialFault> {
    let mut open = 0u32;
    let mut is_list = false;
    let mut is_quoted = false;
    for c in text.chars() {
        out.push(c)?;
        match c {
            '"' => is_quoted = !is_quoted,
            _ if is_quoted => {}
            '{' | '[' | '(' => {
                open = open.saturating_add(1);
                if open == 2 {
                    is_list = c == '[';
                }
            }
            '}' | ']' | ')' => open = open.saturating_sub(1),
            ',' if open == 1 => out.push_str("\n ")?,
            ',' if open == 2 && is_list => out.push_str("\n  ")?,
            _ => {}
        }
    }
    out.push('\n')?;
    Ok(())
}
