use crate::show::Show;
use crate::told::{put_line, put_lines, told};
use mesh_base::copied::Copied;
use mesh_text::json::read_json;
use mesh_text::target_text::{TargetFault, read_target};
use mesh_text::token::read_context;
use mesh_text::workload_text::read_workload;
use row_file::TrialFault;
use std::alloc::Global;
use view_types::config::Config;

/// What was read, or the fault.
fn told_read<T: Copied + Show>(
    alloc: Global,
    read: Result<T, TargetFault>,
) -> Result<String, TrialFault> {
    match read {
        Ok(value) => told(alloc, &value),
        Err(fault) => Ok(format!(in alloc; "{fault:?}")?),
    }
}

/// The number at /a/0.
fn told_json(alloc: Global, text: &[u8]) -> Result<String, TrialFault> {
    let Some(value) = read_json(alloc, text)? else {
        return Ok(String::from_str(alloc, "no JSON")?);
    };
    let Some(number) = value.pointer("/a/0") else {
        return Ok(String::from_str(alloc, "no member")?);
    };
    let number = number.as_u64();
    Ok(format!(in alloc; "{number:?}")?)
}

/// Reads each line of the input as a text of a form.
pub fn texts(alloc: Global, form: &str, input: &str, out: &mut String) -> Result<(), TrialFault> {
    let config = Config::usual(alloc)?;
    for line in input.lines() {
        let text = line.as_bytes();
        let told = match form {
            "target" => told_read(alloc, read_target(alloc, text, &config))?,
            "workload" => told_read(alloc, read_workload(alloc, text))?,
            "context" => told(alloc, &read_context(alloc, text)?)?,
            "json" => told_json(alloc, text)?,
            _ => return Err(TrialFault::new("no call has this name")),
        };
        put_line(out, told.as_str())?;
    }
    Ok(())
}

/// Writes the usual configuration.
pub fn config(alloc: Global, out: &mut String) -> Result<(), TrialFault> {
    put_lines(out, told(alloc, &Config::usual(alloc)?)?.as_str())
}
