//! What hooks mean: the world of a request, what passes, invocations, asks and shortcodes make of it,
//! and the laws of that meaning.
#![tactic(auto)]

mod fault;
mod laws;
mod pass_kind;
mod worked;

pub use fault::RunFault;
pub use laws::{
    actions_give_nothing, bounds_change_nothing, inactive_callbacks_stay_out,
    inactive_plugins_have_no_say_in_passes, passes_keep_to_their_calls, passes_keep_to_their_depth,
    plain_callbacks_fold, tables_are_built,
};
pub use pass_kind::PassKind;
pub use worked::{worked_isolation, worked_passes};
