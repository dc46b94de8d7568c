//! How long the texts of a site may be, in bytes.

/// The maximum length of a title.
pub const MAX_TITLE: usize = 65_536;

/// The maximum length of a content.
pub const MAX_CONTENT: usize = 524_288;

/// The maximum length of an option's value.
pub const MAX_VALUE: usize = 65_536;
