//! The callbacks of a hook at one priority.
ghost use Rattle.std.specs.Prelude.{◌≡◌, int_lt};
ghost use Rattle.std.specs.Ordering.{int_eq};

use crate::entries::GroupEntries;
use crate::registration::Priority;

/// The callbacks of a hook at one priority, in the order of adding.
#[derive(Drop)]
pub struct Group {
    pub priority: Priority,
    pub entries: GroupEntries,
}

impl Group {
    /// Returns whether its priority is smaller than another.
    pub fn is_below(&self, priority: Priority) -> bool
        ensures { result ≡ int_lt self.now.priority priority }
    {
        self.priority.number() < priority.number()
    }

    /// Returns whether it has this priority.
    pub fn is_at(&self, priority: Priority) -> bool
        ensures { result ≡ int_eq self.now.priority priority }
    {
        self.priority.number() == priority.number()
    }

    /// Returns whether its priority is larger than another.
    pub fn is_above(&self, priority: Priority) -> bool
        ensures { result ≡ int_lt priority self.now.priority }
    {
        priority.number() < self.priority.number()
    }
}
