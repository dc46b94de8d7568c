//! The exit status of a program whose work has failed.
ghost use Rattle.std.specs.Prelude.{◌≡◌};
ghost use Rattle.std.specs.Process.{exit_status};

use command_log::LogFault;
use site_start::StartFault;
use std::fmt::Display;
use std::process::ExitCode;

/// Says on standard error why nothing more is done.
pub fn failed(rt: &HostRuntime, fault: impl Display + Drop) -> ExitCode
    ensures { exit_status result ≡ 1 }
{
    let _ = eprintln!(rt; "site: {fault}");
    ExitCode::from(1)
}

/// Says on standard error what failed, and why.
pub fn failed_at(rt: &HostRuntime, what: &str, fault: impl Display + Drop) -> ExitCode
    ensures { exit_status result ≡ 1 }
{
    let _ = eprintln!(rt; "site: {what}: {fault}");
    ExitCode::from(1)
}

/// Says on standard error why a site was not started from a file. A log beside the file that is
/// damaged or does not belong to it is named: it is that file which has to be kept as it is.
pub fn not_started(rt: &HostRuntime, path: &str, fault: StartFault) -> ExitCode
    ensures { exit_status result ≡ 1 }
{
    match fault {
        StartFault::Log(LogFault::DamagedTail { commits, following }) => {
            let _ = eprintln!(rt;
                "site: {path}-wal is damaged after commit {commits}; {following} bytes follow"
            );
            ExitCode::from(1)
        }
        StartFault::Log(LogFault::OlderLog) => {
            let _ = eprintln!(rt; "site: {path}-wal is older than {path}, or another file's");
            ExitCode::from(1)
        }
        fault => failed_at(rt, path, fault),
    }
}
