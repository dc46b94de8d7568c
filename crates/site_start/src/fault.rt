//! Why a site cannot be started from its log.
use command_log::LogFault;
use site_replies::Refusal;
use std::alloc::AllocError;
use thiserror::Error;

/// Why a site was not started from its log, or its log not made shorter. No line of the log has
/// changed.
#[derive(Clone, Copy, Debug, Drop, Error)]
pub enum StartFault {
    /// The log cannot be opened or read, or its first line could not be appended.
    #[error("{0}")]
    Log(LogFault),
    /// The first line is not the identity of this program: its plugins or their callbacks are other
    /// ones, or what lines mean was changed.
    #[error("the file was written by a program with other plugins or of another version; \
         let that one print the site with --export, and serve what it prints")]
    OtherProgram,
    /// A line is refused, which was not refused when it was appended. It is counted from 1.
    #[error("line {line} of the history is refused: {number} {name}")]
    Refused {
        line: u64,
        number: u8,
        name: &'static str,
    },
    /// A line is no edit: a site that serves has put none such there. It is counted from 1.
    #[error("line {line} of the history is not an edit")]
    NotAnEdit {
        line: u64,
    },
    /// The short lines made a site with other short lines.
    #[error("the short history makes another site, so the long one is kept")]
    NotRebuilt,
}

impl StartFault {
    ghost use Rattle.std.specs.Prelude.{◌≢◌, ℕ};
    ghost use Rattle.site_replies.specs.Reply as reply;
    ghost use Rattle.site_start.specs.Started.{IsNumber, Tells};
    ghost use Rattle.site_start.specs.declared.fault.StartFault.TheVariants.{OtherProgram};

    /// Makes the fault of a line that is refused.
    pub(crate) fn refused(line: u64, refusal: Refusal) -> Self
        ensures other { result ≢ OtherProgram }
        ensures told { (n : ℕ) → IsNumber n line → Tells n (reply.refused refusal) result }
    {
        StartFault::Refused {
            line,
            number: refusal.number(),
            name: refusal.name(),
        }
    }
}

impl From<LogFault> for StartFault {
    ghost use Rattle.std.specs.Prelude.{◌≡◌};
    ghost use Rattle.site_start.specs.declared.fault.StartFault.TheVariants.{Log};

    ghost from_gives = { λ fault start. start ≡ Log fault };

    fn from(fault: LogFault) -> StartFault {
        StartFault::Log(fault)
    }
}

impl From<AllocError> for StartFault {
    ghost use Rattle.std.specs.Prelude.{◌≡◌};
    ghost use Rattle.site_start.specs.declared.fault.StartFault.TheVariants.{Log};
    ghost use Rattle.command_log.specs.declared.fault.LogFault.{LogFault};

    ghost from_gives = { λ _ start. start ≡ Log LogFault.OutOfMemory };

    fn from(_error: AllocError) -> StartFault {
        StartFault::Log(LogFault::OutOfMemory)
    }
}
