ghost use Rattle.std.specs.Prelude.{◌≡◌, ◌≢◌, IfErr};
ghost use Rattle.command_run.specs.Outcome.{IsUnread};

use line_run::Status;
use mesh_base::text::Text;
use std::env;
use std::env::Env;
use std::io::ErrorKind;

/// Returns the status for arguments that cannot be read: they need more memory than there is, or
/// one is not UTF-8.
pub fn status_without_words(kind: ErrorKind) -> Status
    ensures memory { kind ≡ ErrorKind.OutOfMemory → result ≡ Status.Memory }
    ensures usage { kind ≢ ErrorKind.OutOfMemory → result ≡ Status.Usage }
    ensures unread { IsUnread result }
{
    if kind == ErrorKind::OutOfMemory {
        Status::Memory
    } else {
        Status::Usage
    }
}

/// Returns the words of the command line, without the program's name. Returns `Memory` if there is
/// no memory for them, and `Usage` if one is not UTF-8.
pub fn words_of<R: Env + AllocGlobal>(rt: &R) -> Result<Vec<Text>, Status>
    ensures { IfErr result IsUnread }
{
    let args = match env::args(rt) {
        Ok(args) => args,
        Err(error) => return Err(status_without_words(error.kind())),
    };
    let mut words = Vec::new(rt.alloc());
    for word in args.skip(1) {
        let Ok(word) = Text::from_string(word) else {
            return Err(Status::Memory);
        };
        let Ok(()) = words.push(word) else {
            return Err(Status::Memory);
        };
    }
    Ok(words)
}
