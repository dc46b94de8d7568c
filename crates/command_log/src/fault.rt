//! What can go wrong in a call of the log.
ghost use Rattle.std.specs.Prelude.{◌≡◌};
ghost use Rattle.command_log.specs.Faults.{fault_of, fault_of_store};

use sqlite::{Error, ErrorCode};
use sqlite_std_file::OpenError;
use sqlite_trees::error::StoreError;
use sqlite_wal::Error as WalError;
use std::alloc::AllocError;
use std::io::ErrorKind;
use thiserror::Error as DeriveError;

/// Why a call was refused.
#[derive(Clone, Copy, Debug, Drop, DeriveError)]
pub enum LogFault {
    /// The database holds something else than a log.
    #[error("the database is not a log of commands")]
    NotALog,
    /// Memory ran out.
    #[error("out of memory")]
    OutOfMemory,
    /// Another program has the file.
    #[error("the file is in use: end the program that has it, or edit the site through that one")]
    Busy,
    /// The path cannot be opened as a file.
    #[error("the file cannot be opened")]
    CannotOpen,
    /// The file is no database, or a damaged one.
    #[error("the file is no sound database")]
    Damaged,
    /// The disk has no room.
    #[error("the disk is full")]
    DiskFull,
    /// A read or a write of the disk failed.
    #[error("the disk failed")]
    Disk,
    /// A line is too long to be stored.
    #[error("a line is too long")]
    TooBig,
    /// The largest number is taken, so no line can be appended.
    #[error("the numbers of the lines are used up")]
    NumbersUsedUp,
    /// The disk failed before, so the log has to be opened again.
    #[error("the log is shut")]
    Shut,
    /// A line, which another program must have written, is not UTF-8.
    #[error("a line of the log is not UTF-8")]
    NotText,
    /// A line doesn't have the digest of the lines up to it, so it or one before it has changed.
    /// Lines are counted from 1. Those before it have theirs.
    #[error("line {0} of the log has changed since it was written")]
    Altered(u64),
    /// SQLite's log beside the file ends otherwise than a crash leaves it: an open would take these
    /// commits for all there is, and the next one would be written over the bytes that follow.
    #[error("its log is damaged after commit {commits}; {following} bytes follow")]
    DamagedTail { commits: usize, following: usize },
    /// The database file is longer than the last commit in SQLite's log beside it leaves it, and a
    /// file is never made shorter; or it has a line with a larger number than the log's last one, and
    /// numbers only grow. An open would show the file as it was at that commit, and copy that over
    /// what has come since.
    #[error("its log is older than the file, or another file's")]
    OlderLog,
    /// The limit on the steps of a statement was met. Only a caller of
    /// [`over`](crate::CommandLog::over) can have set one.
    #[error("interrupted")]
    Interrupted,
    /// The database refused for a reason of its own. The clauses `cause` rule that out for an open
    /// log.
    #[error("the database refused")]
    Store,
}

impl From<Error> for LogFault {
    ghost from_gives = { λ error fault. fault ≡ fault_of error };

    fn from(error: Error) -> LogFault {
        match error {
            Error::SqliteFailure(ErrorCode::OutOfMemory) => LogFault::OutOfMemory,
            Error::SqliteFailure(ErrorCode::DatabaseBusy) => LogFault::Busy,
            Error::SqliteFailure(ErrorCode::CannotOpen) => LogFault::CannotOpen,
            Error::SqliteFailure(ErrorCode::NotADatabase | ErrorCode::DatabaseCorrupt) =>
                LogFault::Damaged,
            Error::SqliteFailure(ErrorCode::DiskFull) => LogFault::DiskFull,
            Error::SqliteFailure(ErrorCode::SystemIoFailure) => LogFault::Disk,
            Error::SqliteFailure(ErrorCode::TooBig) => LogFault::TooBig,
            Error::SqliteFailure(ErrorCode::NoRowid) => LogFault::NumbersUsedUp,
            Error::SqliteFailure(ErrorCode::Closed) => LogFault::Shut,
            Error::SqliteFailure(ErrorCode::OperationInterrupted) => LogFault::Interrupted,
            Error::Utf8Error(_) => LogFault::NotText,
            _ => LogFault::Store,
        }
    }
}

impl From<AllocError> for LogFault {
    ghost use Rattle.command_log.specs.declared.fault.LogFault.TheVariants.{OutOfMemory};

    ghost from_gives = { λ _ fault. fault ≡ OutOfMemory };

    fn from(_error: AllocError) -> LogFault {
        LogFault::OutOfMemory
    }
}

impl From<OpenError> for LogFault {
    ghost use Rattle.command_log.specs.Faults.{IsPlain};

    ghost from_gives = { λ _ fault. IsPlain fault };

    fn from(error: OpenError) -> LogFault {
        match error {
            OpenError::OutOfMemory => LogFault::OutOfMemory,
            OpenError::Busy => LogFault::Busy,
            OpenError::Io(cause) if cause.kind() == ErrorKind::OutOfMemory => LogFault::OutOfMemory,
            _ => LogFault::CannotOpen,
        }
    }
}

impl From<StoreError> for LogFault {
    ghost from_gives = { λ error fault. fault ≡ fault_of_store error };

    fn from(error: StoreError) -> LogFault {
        match error {
            StoreError::OutOfMemory => LogFault::OutOfMemory,
            StoreError::Io => LogFault::Disk,
            StoreError::Corrupt => LogFault::Damaged,
            StoreError::Full => LogFault::DiskFull,
            StoreError::Broken => LogFault::Shut,
            StoreError::Unstorable => LogFault::TooBig,
        }
    }
}

impl From<WalError> for LogFault {
    ghost use Rattle.command_log.specs.Faults.{IsPlain};

    ghost from_gives = { λ _ fault. IsPlain fault };

    fn from(error: WalError) -> LogFault {
        match error {
            WalError::OutOfMemory => LogFault::OutOfMemory,
            WalError::Io(_) => LogFault::Disk,
            WalError::Full => LogFault::DiskFull,
            WalError::Corrupt => LogFault::Damaged,
            _ => LogFault::Store,
        }
    }
}
