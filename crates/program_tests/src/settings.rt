// The settings of a run.
ghost use Rattle.std.specs.Prelude.{◌≤◌, IfOk};

use mesh_base::limits::Limits;
use row_file::TrialFault;

/// A machine for a run: a hub, or a list of replies.
#[derive(Clone, Copy, Debug, PartialEq, Eq)]
pub enum Machines {
    Hub,
    Verdict,
    Frames,
}

/// The settings of a run. A number that is 0 is not set.
#[derive(Clone, Copy, Debug)]
pub struct Settings {
    pub limits: Limits,
    pub fail_read: u64,
    pub fail_write: u64,
    pub fail_each: u64,
    pub pad: u64,
    pub machine: Machines,
    pub reads: bool,
    pub writes: bool,
    pub each: bool,
    pub crlf: bool,
    pub no_end: bool,
    pub escapes: bool,
    pub endpoints: bool,
}

const USUAL: Settings = Settings {
    limits: Limits::USUAL,
    fail_read: 0,
    fail_write: 0,
    fail_each: 0,
    pad: 0,
    machine: Machines::Hub,
    reads: false,
    writes: false,
    each: false,
    crlf: false,
    no_end: false,
    escapes: false,
    endpoints: false,
};

fn set_flag(settings: &mut Settings, name: &str) -> Result<(), TrialFault> {
    match name {
        "reads" => settings.reads = true,
        "writes" => settings.writes = true,
        "each" => settings.each = true,
        "crlf" => settings.crlf = true,
        "no-end" => settings.no_end = true,
        "escapes" => settings.escapes = true,
        "endpoints" => settings.endpoints = true,
        "machine=verdict" => settings.machine = Machines::Verdict,
        "machine=frames" => settings.machine = Machines::Frames,
        _ => return Err(TrialFault::new("no setting has this name")),
    }
    Ok(())
}

fn set_limit(limits: &mut Limits, name: &str, number: u32) -> Result<(), TrialFault> {
    match name {
        "line" => limits.line = u64::from(number),
        "input" => limits.input = u64::from(number),
        "objects" => limits.objects = number,
        "subs" => limits.subs = number,
        "links" => limits.links = number,
        "addrs" => limits.frame_addrs = number,
        "message" => limits.message = number,
        _ => return Err(TrialFault::new("no limit has this name")),
    }
    Ok(())
}

fn set_number(settings: &mut Settings, name: &str, number: u32) -> Result<(), TrialFault> {
    match name {
        "fail-read" => settings.fail_read = u64::from(number),
        "fail-write" => settings.fail_write = u64::from(number),
        "fail-each" => settings.fail_each = u64::from(number),
        "pad" => settings.pad = u64::from(number),
        _ => return set_limit(&mut settings.limits, name, number),
    }
    Ok(())
}

/// Returns the settings that the words name.
pub fn settings_of(words: &str) -> Result<Settings, TrialFault>
    ensures { IfOk result (λ settings. 1 ≤ settings.limits.frame_addrs) }
{
    let mut settings = USUAL;
    if !words.is_empty() {
        for word in words.split(' ') {
            match word.split_once('=') {
                Some(("machine", _)) | None => set_flag(&mut settings, word)?,
                Some((name, digits)) => set_number(&mut settings, name, digits.parse::<u32>()?)?,
            }
        }
    }
    if settings.limits.frame_addrs < 1 {
        return Err(TrialFault::new("a message has no address"));
    }
    Ok(settings)
}
