//! Where a pass is in its hook.
ghost use Rattle.std.specs.Prelude.{◌≡◌, [], None};

use crate::entries::EntriesLeft;
use hook_changes::HookName;
use hook_registry::Priority;

/// Where a pass is in its hook: the priority that it reached, if any, and the entries left of that
/// priority's group as it was when the pass reached it.
#[derive(Drop)]
pub struct Position {
    pub hook: HookName,
    pub reached: Option<Priority>,
    pub entries: EntriesLeft,
}

impl Position {
    /// Starts before the first priority of a hook. Does not allocate.
    pub fn start(hook: HookName) -> Self
        ensures { result ≡ record { hook = hook; reached = None; entries = [] } }
    {
        Position {
            hook,
            reached: None,
            entries: EntriesLeft::none(),
        }
    }
}
