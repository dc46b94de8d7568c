//! Why a site file is refused, and where.
ghost use Rattle.std.specs.Prelude.{◌≡◌};
ghost use Rattle.site_import.specs.Walks.{whole, entry_of};

use std::alloc::{AllocError, AllocFailed};
use std::fmt;
use thiserror::Error;

/// A part of a site file.
#[derive(Clone, Copy, Debug, PartialEq, Eq)]
pub enum Section {
    /// The bytes, which are not a JSON text.
    Text,
    /// The whole value, which is not an object.
    Root,
    Version,
    Posts,
    Options,
    /// What the front shows, which version 1 doesn't have.
    Front,
    Templates,
    Active,
}

/// Where the first fault is.
#[derive(Clone, Copy, Debug, PartialEq, Eq)]
pub struct Place {
    pub section: Section,
    /// Counted from 0 in the order in which the section's entries are read; `None` if the section
    /// itself is at fault.
    pub entry: Option<usize>,
}

impl Place {
    /// Makes the place of a section itself.
    pub(crate) fn whole(section: Section) -> Self
        ensures { result ≡ whole section }
    {
        Place {
            section,
            entry: None,
        }
    }

    /// Makes the place of an entry of a section.
    pub(crate) fn entry_of(section: Section, entry: usize) -> Self
        ensures { result ≡ entry_of section entry }
    {
        Place {
            section,
            entry: Some(entry),
        }
    }
}

/// Shows the section, and the entry if there is one, as `Posts 3`.
impl fmt::Display for Place {
    fn fmt<W: fmt::Write>(&self, f: &mut fmt::Formatter<W>) -> fmt::Result {
        match self.entry {
            Some(entry) => write!(f, "{:?} {}", self.section, entry),
            None => write!(f, "{:?}", self.section),
        }
    }
}

/// Why a site file is refused: its first fault, or an allocation failure.
#[derive(Clone, Copy, Debug, PartialEq, Eq, Drop, Error)]
pub enum ImportFault {
    /// Something is missing, of the wrong kind, or out of its range.
    #[error("no site file: {0}")]
    BadImport(Place),
    /// A text isn't the date of a post.
    #[error("no date: {0}")]
    BadDate(Place),
    /// A name or a tree isn't that of a template.
    #[error("no template: {0}")]
    BadTemplate(Place),
    /// There are more than 10,000 posts, or a title, content, value or template is too large.
    #[error("too large: {0}")]
    TooLarge(Place),
    /// Memory ran out.
    #[error("out of memory")]
    OutOfMemory,
}

impl From<AllocError> for ImportFault {
    ghost use Rattle.site_import.specs.declared.fault.ImportFault.TheVariants.{OutOfMemory};

    ghost from_gives = { λ _ fault. fault ≡ OutOfMemory };

    fn from(_error: AllocError) -> ImportFault {
        ImportFault::OutOfMemory
    }
}

impl<T: Drop> From<AllocFailed<T>> for ImportFault {
    ghost use Rattle.site_import.specs.declared.fault.ImportFault.TheVariants.{OutOfMemory};

    ghost from_gives = { λ _ fault. fault ≡ OutOfMemory };

    fn from(_error: AllocFailed<T>) -> ImportFault {
        ImportFault::OutOfMemory
    }
}
