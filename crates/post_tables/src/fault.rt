//! What can go wrong in a call of the tables, and what stops a caller's work over them.
ghost use Rattle.std.specs.Prelude.{◌≡◌};
ghost use Rattle.post_tables.specs.Rows.{fault_of};

use sqlite::{Error, ErrorCode};
use std::alloc::AllocError;
use thiserror::Error as DeriveError;

/// Why a call was refused. A refused call leaves every row as it was.
#[derive(Clone, Copy, Debug, PartialEq, Eq, Drop, DeriveError)]
pub enum TablesFault {
    /// No post has the ID.
    #[error("no such post")]
    NoSuchPost,
    /// Two posts to be imported have the same ID, or a stored post has it already.
    #[error("two posts have one ID")]
    DuplicateId,
    /// The largest ID was given: [`MAX_ID`](site_records::MAX_ID).
    #[error("the IDs are used up")]
    IdsUsedUp,
    /// Memory ran out.
    #[error("out of memory")]
    OutOfMemory,
    /// The database refused for a reason of its own.
    #[error("the database refused")]
    Store,
}

impl From<Error> for TablesFault {
    ghost from_gives = { λ error fault. fault ≡ fault_of error };

    fn from(error: Error) -> TablesFault {
        match error {
            Error::SqliteFailure(ErrorCode::OutOfMemory) => TablesFault::OutOfMemory,
            _ => TablesFault::Store,
        }
    }
}

impl From<AllocError> for TablesFault {
    ghost use Rattle.post_tables.specs.declared.fault.TablesFault.TheVariants.{OutOfMemory};

    ghost from_gives = { λ _ fault. fault ≡ OutOfMemory };

    fn from(_error: AllocError) -> TablesFault {
        TablesFault::OutOfMemory
    }
}

/// Why a site's tables can't be used. No row has changed. It is what is left for a caller that
/// replies to every other refusal itself.
#[derive(Clone, Copy, Debug, PartialEq, Eq, Drop, DeriveError)]
pub enum StoreFault {
    /// Memory ran out.
    #[error("out of memory")]
    OutOfMemory,
    /// The database refused for another reason.
    #[error("store failed")]
    Store,
}

impl From<AllocError> for StoreFault {
    ghost use Rattle.post_tables.specs.declared.fault.StoreFault.TheVariants.{OutOfMemory};

    ghost from_gives = { λ _ fault. fault ≡ OutOfMemory };

    fn from(_error: AllocError) -> StoreFault {
        StoreFault::OutOfMemory
    }
}

impl From<TablesFault> for StoreFault {
    ghost use Rattle.post_tables.specs.Faults.{fault_by};

    ghost from_gives = { λ of_tables fault. fault ≡ fault_by of_tables };

    fn from(fault: TablesFault) -> StoreFault {
        match fault {
            TablesFault::OutOfMemory => StoreFault::OutOfMemory,
            _ => StoreFault::Store,
        }
    }
}
