//! Passes that change nothing but the number of calls left. They need not be made.
ghost use Rattle.std.specs.Prelude.{◌≡◌, ◌<◌, List, IsTrue};
ghost use Rattle.plain_data.specs.Texts.{Text};
ghost use Rattle.hook_changes.specs.declared.reply.Call.{Call};
ghost use Rattle.hook_meaning.specs.Meaning.{Engine, filter_pass, invoke};
ghost use Rattle.hook_machine.specs.PassedOver.{IsCoreAlone, left_by_core};

use crate::state::{DEEPEST, State};
use hook_changes::is_hook_name;
use shortcode_scan::is_plain;

impl State {
    /// Returns whether a callback may be invoked, and ask for something.
    fn has_room(&self) -> bool
        ensures { IsTrue result → (0 < self.now.calls) × (self.now.depth < 32) }
    {
        self.calls > 0 && self.depth < DEEPEST
    }

    /// Returns whether core's own callback is all that is registered on a hook, and takes the
    /// value.
    fn has_core_alone(&self, hook: &str) -> bool
        ensures { IsTrue result → IsCoreAlone self.now.table hook.now }
    {
        match self.tables.registry().only(hook) {
            Some(only) => only.callback.number() == 0 && only.accepted > 0,
            None => false,
        }
    }

    /// Returns whether a filter pass leaves the value as it is, since core's own callback is alone
    /// on the hook and the value is a text without shortcodes. That takes one call.
    pub fn leaves(&self, hook: &str, value: &str) -> bool
        ensures { IsTrue result → (engine : Engine) (args : List Text)
            → (call : Call) × (filter_pass (invoke engine) self.now hook.now value.now args
            ≡ left_by_core self.now hook.now call value.now) }
    {
        if !self.has_room() || !is_hook_name(hook) {
            return false;
        }
        self.has_core_alone(hook) && is_plain(value)
    }
}
