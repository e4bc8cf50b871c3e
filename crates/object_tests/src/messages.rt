use crate::told::{put_line, told};
use mesh_base::copied::Copied;
use mesh_base::same::Same;
use proxy_proto::reading::read_message;
use proxy_proto::request::read_request;
use proxy_proto::writing::{frame_message, write_message};
use row_file::TrialFault;
use std::alloc::Global;
use view_fold::folding::Fold;
use view_types::config::Config;
use view_types::message::Message;
use view_types::query::Method;

fn method_of(word: &str) -> Result<Method, TrialFault> {
    match word {
        "Get" => Ok(Method::Get),
        "GetProfile" => Ok(Method::GetProfile),
        "WatchPort" => Ok(Method::WatchPort),
        "Watch" => Ok(Method::Watch),
        "WatchPort2" => Ok(Method::WatchPort2),
        _ => Err(TrialFault::new("no method has this name")),
    }
}

/// The bytes as which a message is written.
fn written(alloc: Global, message: &Message) -> Result<String, TrialFault> {
    let bytes = write_message(alloc, message)?;
    if bytes.is_empty() {
        return Ok(String::from_str(alloc, "empty")?);
    }
    Ok(hex::encode(alloc, bytes.as_slice())?)
}

/// Whether the view after a message is the same as its copy.
fn copies_view(alloc: Global, message: Message) -> Result<bool, TrialFault> {
    let mut fold = Fold::new();
    fold.take(alloc, message)?;
    match fold.view() {
        Some(view) => Ok(view.copy(alloc)?.is_same(view)),
        None => Ok(false),
    }
}

/// Reads a message, and writes it and its copy.
pub fn message(
    alloc: Global,
    method: &str,
    input: &str,
    out: &mut String,
) -> Result<(), TrialFault> {
    let bytes = hex::decode(alloc, input.trim())?;
    let message = match read_message(alloc, method_of(method)?, &bytes) {
        Ok(message) => message,
        Err(fault) => return put_line(out, format!(in alloc; "{fault:?}")?.as_str()),
    };
    let text = written(alloc, &message)?;
    put_line(out, text.as_str())?;
    let copied = written(alloc, &message.copy(alloc)?)?;
    if copied.as_str() != text.as_str() {
        put_line(out, copied.as_str())?;
    }
    if !copies_view(alloc, message)? {
        put_line(out, "the copy of the view is another")?;
    }
    Ok(())
}

/// Reads a message, and writes its frame.
pub fn frame(alloc: Global, method: &str, input: &str, out: &mut String) -> Result<(), TrialFault> {
    let bytes = hex::decode(alloc, input.trim())?;
    let message = read_message(alloc, method_of(method)?, &bytes)?;
    let framed = frame_message(alloc, &message)?;
    put_line(out, hex::encode(alloc, framed.as_slice())?.as_str())
}

/// Reads a request.
pub fn request(
    alloc: Global,
    method: &str,
    input: &str,
    out: &mut String,
) -> Result<(), TrialFault> {
    let bytes = hex::decode(alloc, input.trim())?;
    let config = Config::usual(alloc)?;
    match read_request(alloc, method_of(method)?, &bytes, &config) {
        Ok(query) => put_line(out, told(alloc, &query)?.as_str()),
        Err(fault) => put_line(out, format!(in alloc; "{fault:?}")?.as_str()),
    }
}
