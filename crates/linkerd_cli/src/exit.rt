ghost use Rattle.std.specs.Prelude.{◌≡◌};
ghost use Rattle.std.specs.Process.{exit_status};
ghost use Rattle.line_run.specs.Status.{code_of};

use line_run::Status;
use serve_core::serve::ServeStatus;
use std::process::ExitCode;

/// Returns the exit status of the process.
pub(crate) fn exit_code(status: Status) -> ExitCode
    ensures { exit_status result ≡ code_of status }
{
    ExitCode::from(status.code())
}

/// Returns the exit status of the process for a server that has ended.
pub(crate) fn server_code(status: ServeStatus) -> ExitCode
    ensures stopped { status ≡ ServeStatus.Stopped → exit_status result ≡ 0 }
    ensures memory { status ≡ ServeStatus.Memory → exit_status result ≡ 3 }
    ensures links { status ≡ ServeStatus.LinksFault → exit_status result ≡ 4 }
{
    ExitCode::from(match status {
        ServeStatus::Stopped => 0,
        ServeStatus::Memory => 3,
        ServeStatus::LinksFault => 4,
    })
}
