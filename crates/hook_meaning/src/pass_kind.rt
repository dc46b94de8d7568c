//! The two kinds of passes over a hook.

/// What kind of pass it is.
#[derive(Clone, Copy)]
pub enum PassKind {
    /// Each callback is given the value first, and its answer is the next value.
    Filter,
    /// Each callback is given the arguments alone, and its answer is dropped.
    Action,
}
