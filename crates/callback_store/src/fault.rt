//! Why plugins are refused.
use thiserror::Error;

/// Why a list of plugins is refused. If several hold, the first of this list is named.
#[derive(Clone, Copy, Debug, PartialEq, Eq, Error)]
pub enum PluginFault {
    /// More than 64 plugins, or one with more than 256 callbacks or 256 changes in its load list.
    #[error("too many plugins, callbacks or changes")]
    TooMany,
    /// A name that isn't 1 to 64 ASCII letters, digits, `_` and `-`.
    #[error("a plugin's name is no name")]
    BadName,
    /// A name that two plugins have.
    #[error("two plugins have one name")]
    SameName,
    /// A number that two callbacks have, or 0, which is core's.
    #[error("two callbacks have one number")]
    SameCallback,
    /// Memory ran out while the callbacks were compared.
    #[error("out of memory")]
    OutOfMemory,
}
